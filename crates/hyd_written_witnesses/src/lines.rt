//! The line that says how a search for a witness ended.

ghost use Rattle.std.specs.Prelude.{◌++◌, codes, decimal, IsTrue};
ghost use Rattle.hyd_io.specs.Output.{OnCert};
ghost use Rattle.hyd_io.specs.TextPutIn.{Puts};
ghost use Rattle.hyd_net.specs.Sound.{IsSound};
ghost use Rattle.hyd_spec_witness_answers.specs.PromisesOfWitnesses.{witness_line, no_witness_line};
ghost use Rattle.hyd_spec_check_ends.specs.LinesOfRefusals.{refused_grammar_line, refused_counts_line};
ghost use Rattle.hyd_witness_stream.specs.SearchEnds.{halt_line};

use hyd_io::{Desk, OutFault, Pen, put_number};
use hyd_net::Project;
use hyd_report::{put_refused, put_refused_end, put_refused_flow};
use hyd_witness_stream::{Halt, SearchEnd};

// Puts a number between two texts.
fn put_numbered<D: Desk>(
    front: &[u8],
    number: u64,
    back: &[u8],
    pen: &mut Pen,
    desk: &mut D,
) -> Result<(), OutFault>
    requires { OnCert pen.old.to (IsTrue (D.ready desk.old)) }
    ensures { Puts D.files D.rest D.written D.printed D.target D.ready D.counts D.openings
        (front.now ++ (decimal number ++ back.now)) result pen.old pen.new desk.old desk.new }
{
    pen.put(desk, front)?;
    put_number(u128::from(number), pen, desk)?;
    pen.put(desk, back)
}

// Puts the line that there is a witness of so many periods.
fn put_found<D: Desk>(periods: u32, pen: &mut Pen, desk: &mut D) -> Result<(), OutFault>
    requires { OnCert pen.old.to (IsTrue (D.ready desk.old)) }
    ensures { Puts D.files D.rest D.written D.printed D.target D.ready D.counts D.openings
        (witness_line periods) result pen.old pen.new desk.old desk.new }
{
    put_numbered(b"WITNESS ", u64::from(periods), b"\n", pen, desk)
}

// Puts the line that none was found for a period.
fn put_none<D: Desk>(period: u32, pen: &mut Pen, desk: &mut D) -> Result<(), OutFault>
    requires { OnCert pen.old.to (IsTrue (D.ready desk.old)) }
    ensures { Puts D.files D.rest D.written D.printed D.target D.ready D.counts D.openings
        (no_witness_line period) result pen.old pen.new desk.old desk.new }
{
    put_numbered(b"NOWITNESS period ", u64::from(period), b"\n", pen, desk)
}

// Puts the line that the text is no certificate from the line of this number on.
fn put_grammar<D: Desk>(number: u64, pen: &mut Pen, desk: &mut D) -> Result<(), OutFault>
    requires { OnCert pen.old.to (IsTrue (D.ready desk.old)) }
    ensures { Puts D.files D.rest D.written D.printed D.target D.ready D.counts D.openings
        (refused_grammar_line number) result pen.old pen.new desk.old desk.new }
{
    put_numbered(b"BADCERT line ", number, b" GRAMMAR\n", pen, desk)
}

// Puts the line that the header line, the line of this number, has another version or other counts.
fn put_counts<D: Desk>(number: u64, pen: &mut Pen, desk: &mut D) -> Result<(), OutFault>
    requires { OnCert pen.old.to (IsTrue (D.ready desk.old)) }
    ensures { Puts D.files D.rest D.written D.printed D.target D.ready D.counts D.openings
        (refused_counts_line number) result pen.old pen.new desk.old desk.new }
{
    put_numbered(b"BADCERT line ", number, b" COUNT\n", pen, desk)
}

/// Puts the line that says how a search ended. Its faults and its needs are those of `Pen::put`.
pub(crate) fn put_halt<D: Desk>(
    project: &Project,
    end: SearchEnd,
    pen: &mut Pen,
    desk: &mut D,
) -> Result<(), OutFault>
    requires sound { IsSound project.now }
    requires ready { OnCert pen.old.to (IsTrue (D.ready desk.old)) }
    ensures { Puts D.files D.rest D.written D.printed D.target D.ready D.counts D.openings
        (halt_line project.now end.periods end.halt) result pen.old pen.new desk.old desk.new }
{
    match end.halt {
        Halt::Accepted => put_found(end.periods, pen, desk),
        Halt::NoMoment => put_none(end.periods, pen, desk),
        Halt::Refused(cause) => put_refused(project, &cause, pen, desk),
        Halt::RefusedPart(period, cause) => put_refused_flow(project, period, &cause, pen, desk),
        Halt::OtherEnd(line) => put_refused_end(line, pen, desk),
        Halt::Grammar(line) => put_grammar(line, pen, desk),
        Halt::Counts(line) => put_counts(line, pen, desk),
    }
}
