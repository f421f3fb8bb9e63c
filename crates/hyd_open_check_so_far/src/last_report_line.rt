//! The first and the last line of a check's report, and the emptying of its pen.
#![tactic(auto)]

ghost use Rattle.std.specs.Prelude.{◌≡◌, ◌++◌, codes, decimal, IsTrue, OnOk};
ghost use Rattle.hyd_io.specs.Output.{OnCert};
ghost use Rattle.hyd_io.specs.TextPutIn.{Puts};
ghost use Rattle.hyd_net.specs.Sound.{IsSound};
ghost use Rattle.hyd_spec.specs.ProgramTypes.{Project};
ghost use Rattle.hyd_spec_reports.specs.PromisesOfRunsAndChecks.{accepted_line};
ghost use Rattle.hyd_spec_open_ends.specs.OpenStandings.{OpenStanding, initial_open_standing};
ghost use Rattle.hyd_cert.specs.ReaderView.{ReaderView};
ghost use Rattle.hyd_cert.specs.declared.answers_of_reader.Stand.TheVariants as stand;
ghost use Rattle.hyd_cert_check.specs.PassedOn.{told};
ghost use Rattle.hyd_spec_check_ends.specs.LinesOfRefusals.{refused_grammar_line, refused_counts_line};
ghost use Rattle.hyd_cert_check.specs.ReaderAndPen.{CheckMoment, moment, new_pen, IsOpen};
ghost use Rattle.hyd_open_check_so_far.specs.OpenCheckSoFar.{conclusion_line, end_of, IsSoFar, IsWhole, AllRead};
ghost use Rattle.hyd_open_check_so_far.specs.OpenCheckSoFar.{CheckBegins, CheckPuts};

use crate::conclusion::OpenConclusion;
use hyd_cert_check::{CheckEnd, CheckFault, empty, put_first};
use hyd_io::{Desk, OutFault, Pen, put_number};
use hyd_net::Project;
use hyd_report::{put_done, put_partial, put_refused, put_refused_end};
use hyd_sentences::{LineFault, RefusedLine, RefusedRecord};

// ---- the last line

// Puts the line that a certificate is bad in the line of this number, and the word behind it.
fn put_bad_line<D: Desk>(
    number: u64,
    word: &[u8],
    pen: &mut Pen,
    desk: &mut D,
) -> Result<(), OutFault>
    requires { OnCert pen.old.to (IsTrue (D.ready desk.old)) }
    ensures { Puts D.files D.rest D.written D.printed D.target D.ready D.counts D.openings
        (codes "BADCERT line " ++ (decimal number ++ word.now)) result pen.old pen.new desk.old desk.new }
{
    pen.put(desk, b"BADCERT line ")?;
    put_number(u128::from(number), pen, desk)?;
    pen.put(desk, word)
}

// Puts the last line where the certificate is none from the line of this number on.
fn put_grammar<D: Desk>(number: u64, pen: &mut Pen, desk: &mut D) -> Result<(), OutFault>
    requires { OnCert pen.old.to (IsTrue (D.ready desk.old)) }
    ensures { Puts D.files D.rest D.written D.printed D.target D.ready D.counts D.openings
        (refused_grammar_line number) result pen.old pen.new desk.old desk.new }
{
    put_bad_line(number, b" GRAMMAR\n", pen, desk)
}

// Puts the last line where the header line, the line of this number, has other counts.
fn put_counts<D: Desk>(number: u64, pen: &mut Pen, desk: &mut D) -> Result<(), OutFault>
    requires { OnCert pen.old.to (IsTrue (D.ready desk.old)) }
    ensures { Puts D.files D.rest D.written D.printed D.target D.ready D.counts D.openings
        (refused_counts_line number) result pen.old pen.new desk.old desk.new }
{
    put_bad_line(number, b" COUNT\n", pen, desk)
}

// Puts the last line on a certificate of so many records that is accepted.
fn put_accepted<D: Desk>(
    records: u32,
    finished: bool,
    pen: &mut Pen,
    desk: &mut D,
) -> Result<(), OutFault>
    requires { OnCert pen.old.to (IsTrue (D.ready desk.old)) }
    ensures { Puts D.files D.rest D.written D.printed D.target D.ready D.counts D.openings
        (accepted_line records finished) result pen.old pen.new desk.old desk.new }
{
    if finished {
        return put_done(records, pen, desk);
    }
    put_partial(records, pen, desk)
}

// Says of a line what isn't so.
fn say_line<D: Desk>(line: u64, fault: LineFault, desk: &D) {
    desk.say(&RefusedLine { line, fault });
}

// Says to a person what isn't so of a certificate that is refused.
fn say_refusal<D: Desk>(project: &Project, conclusion: &OpenConclusion, desk: &D)
    requires { IsSound project.now }
{
    match *conclusion {
        OpenConclusion::Accepted(_) => {}
        OpenConclusion::Refused(cause) => desk.say(&RefusedRecord { project, cause }),
        OpenConclusion::OtherEnd(line) => say_line(line, LineFault::End, desk),
        OpenConclusion::Grammar(line) => say_line(line, LineFault::Grammar, desk),
        OpenConclusion::Counts(line) => say_line(line, LineFault::Counts, desk),
    }
}

// Puts the last line of a report on so many records, and says to a person what of a certificate that is refused isn't
// so.
fn put_conclusion<D: Desk>(
    project: &Project,
    records: u32,
    conclusion: &OpenConclusion,
    pen: &mut Pen,
    desk: &mut D,
) -> Result<(), OutFault>
    requires sound { IsSound project.now }
    requires ready { OnCert pen.old.to (IsTrue (D.ready desk.old)) }
    ensures { Puts D.files D.rest D.written D.printed D.target D.ready D.counts D.openings
        (conclusion_line project.now records conclusion.now) result pen.old pen.new desk.old desk.new }
{
    say_refusal(project, conclusion, desk);
    match conclusion {
        OpenConclusion::Accepted(finished) => put_accepted(records, *finished, pen, desk),
        OpenConclusion::Refused(cause) => put_refused(project, cause, pen, desk),
        OpenConclusion::OtherEnd(line) => put_refused_end(*line, pen, desk),
        OpenConclusion::Grammar(line) => put_grammar(*line, pen, desk),
        OpenConclusion::Counts(line) => put_counts(*line, pen, desk),
    }
}

// How a check ends with what is found.
fn end_of(conclusion: OpenConclusion) -> CheckEnd
    ensures { result ≡ end_of conclusion }
{
    match conclusion {
        OpenConclusion::Accepted(_) => CheckEnd::Accepted,
        _ => CheckEnd::Refused,
    }
}

// ---- a check

/// Puts the first line of the report of a check of the network that has read nothing.
pub fn begin_check<D: Desk>(
    project: &Project,
    pen: &mut Pen,
    desk: &mut D,
) -> Result<(), CheckFault>
    requires sound { IsSound project.now }
    requires unbroken { IsOpen pen.old }
    ensures begins { (reader : ReaderView) → reader.stand ≡ stand.First → reader.line ≡ 0
        → CheckBegins result project.now
        (moment reader pen.old
        (told D.files D.rest D.written D.printed D.target D.ready D.counts D.openings desk.old))
        (moment reader pen.new
        (told D.files D.rest D.written D.printed D.target D.ready D.counts D.openings desk.new)) }
    ensures unbroken { OnOk result (IsOpen pen.new) }
{
    match put_first(pen, desk) {
        Ok(()) => Ok(()),
        Err(fault) => Err(CheckFault::Output(fault)),
    }
}

/// Puts the last line of the report of a check whose records end after so many that were accepted, and says to a person
/// why a certificate is refused.
pub fn end_check<D: Desk>(
    project: &Project,
    records: u32,
    conclusion: OpenConclusion,
    pen: &mut Pen,
    desk: &mut D,
) -> Result<CheckEnd, CheckFault>
    requires sound { IsSound project.now }
    requires unbroken { IsOpen pen.old }
    ensures { (left : OpenStanding) (start : CheckMoment) (reader : ReaderView) → left.known.number ≡ records
        → AllRead conclusion project.now left start (moment reader pen.old
        (told D.files D.rest D.written D.printed D.target D.ready D.counts D.openings desk.old))
        → CheckPuts result project.now start (moment reader pen.new
        (told D.files D.rest D.written D.printed D.target D.ready D.counts D.openings desk.new)) }
{
    match put_conclusion(project, records, &conclusion, pen, desk) {
        Ok(()) => Ok(end_of(conclusion)),
        Err(fault) => Err(CheckFault::Output(fault)),
    }
}

/// Empties the pen behind a report that was put in whole.
pub fn finish_check<D: Desk>(
    end: CheckEnd,
    pen: &mut Pen,
    desk: &mut D,
) -> Result<CheckEnd, CheckFault>
    requires { IsOpen pen.old }
    ensures puts { (project : Project) (start : CheckMoment) (reader : ReaderView)
        → IsWhole project end start (moment reader pen.old
        (told D.files D.rest D.written D.printed D.target D.ready D.counts D.openings desk.old))
        → CheckPuts result project start (moment reader pen.new
        (told D.files D.rest D.written D.printed D.target D.ready D.counts D.openings desk.new)) }
    ensures report { OnOk result (pen.new ≡ new_pen) }
{
    match empty(pen, desk) {
        Ok(()) => Ok(end),
        Err(fault) => Err(CheckFault::Output(fault)),
    }
}
