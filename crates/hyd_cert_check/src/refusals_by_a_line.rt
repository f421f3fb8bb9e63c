//! The last line of a report where a certificate is refused in a line.
#![tactic(auto)]

ghost use Rattle.std.specs.Prelude.{◌++◌, codes, decimal, IsTrue};
ghost use Rattle.hyd_io.specs.Output.{OnCert};
ghost use Rattle.hyd_io.specs.TextPutIn.{Puts};
ghost use Rattle.hyd_spec_check_ends.specs.LinesOfRefusals.{refused_grammar_line, refused_counts_line};

use hyd_io::{Desk, OutFault, Pen, put_number};

// Puts the line that a certificate is bad in the line of this number, and the word behind it.
fn put_bad_line<D: Desk>(
    number: u64,
    word: &[u8],
    pen: &mut Pen,
    desk: &mut D,
) -> Result<(), OutFault>
    requires { OnCert pen.old.to (IsTrue (D.ready desk.old)) }
    ensures { Puts D.files D.rest D.written D.printed D.target D.ready D.counts D.openings
        (codes "BADCERT line " ++ (decimal number ++ word.now)) result pen.old pen.new desk.old desk.new }
{
    pen.put(desk, b"BADCERT line ")?;
    put_number(u128::from(number), pen, desk)?;
    pen.put(desk, word)
}

/// Puts the last line where the certificate is no certificate from the line of this number on.
pub(crate) fn put_grammar<D: Desk>(number: u64, pen: &mut Pen, desk: &mut D) -> Result<(), OutFault>
    requires { OnCert pen.old.to (IsTrue (D.ready desk.old)) }
    ensures { Puts D.files D.rest D.written D.printed D.target D.ready D.counts D.openings
        (refused_grammar_line number) result pen.old pen.new desk.old desk.new }
{
    put_bad_line(number, b" GRAMMAR\n", pen, desk)
}

/// Puts the last line where the header line, the line of this number, has another version or other counts.
pub(crate) fn put_counts<D: Desk>(number: u64, pen: &mut Pen, desk: &mut D) -> Result<(), OutFault>
    requires { OnCert pen.old.to (IsTrue (D.ready desk.old)) }
    ensures { Puts D.files D.rest D.written D.printed D.target D.ready D.counts D.openings
        (refused_counts_line number) result pen.old pen.new desk.old desk.new }
{
    put_bad_line(number, b" COUNT\n", pen, desk)
}
