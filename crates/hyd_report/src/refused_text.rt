//! The one line where an input file, or the text of a spread, is refused.

ghost use Rattle.std.specs.Prelude.{◌≡◌, ◌++◌, decimal, IsTrue};
ghost use Rattle.hyd_io.specs.Output.{OnCert};
ghost use Rattle.hyd_io.specs.TextPutIn.{Puts};
ghost use Rattle.hyd_spec_certificates.specs.CertificateText.{line as line_of};
ghost use Rattle.hyd_report.specs.RefusedText.{cause_number, detail_of, fault_words, refused_text_line};
ghost use Rattle.hyd_report.specs.RefusedText.{refused_spread_line};

use crate::line_pieces::put_pieces;
use crate::numbers_times_and_settings::number;
use crate::short_text::Text;
use hyd_io::{Desk, OutFault, Pen};
use hyd_net::Cause;

/// The number of a cause.
fn cause_number(cause: Cause) -> u8
    ensures { result ≡ cause_number cause }
{
    match cause {
        Cause::Syntax => 1,
        Cause::Number => 2,
        Cause::Range => 3,
        Cause::DuplicateId => 4,
        Cause::UnknownName => 5,
        Cause::Unsupported(_) => 6,
        Cause::Limit(_) => 7,
        Cause::Missing => 8,
    }
}

/// The number of the part or of the limit that a cause names, else 0.
fn detail_of(cause: Cause) -> u8
    ensures { result ≡ detail_of cause }
{
    match cause {
        Cause::Unsupported(part) => part,
        Cause::Limit(limit) => limit,
        _ => 0,
    }
}

/// A small number.
fn small_number(value: u8) -> Text
    ensures text { result ≡ decimal value }
{
    number(u64::from(value))
}

// Puts words, and behind them the line of a fault and its cause.
fn put_fault<D: Desk>(
    words: &[u8],
    line: u32,
    cause: Cause,
    pen: &mut Pen,
    desk: &mut D,
) -> Result<(), OutFault>
    requires { OnCert pen.old.to (IsTrue (D.ready desk.old)) }
    ensures { Puts D.files D.rest D.written D.printed D.target D.ready D.counts D.openings
        (words.now ++ line_of (fault_words line cause)) result pen.old pen.new desk.old desk.new }
{
    let line = number(u64::from(line));
    let kind = small_number(cause_number(cause));
    let detail = small_number(detail_of(cause));
    put_pieces(
        &[
            words,
            line.bytes(),
            b" cause ",
            kind.bytes(),
            b" detail ",
            detail.bytes(),
            b"\n",
        ],
        pen,
        desk,
    )
}

/// Puts the line of an input file that is refused: the line of the fault, counted from 1, or 0 where the file as a
/// whole is meant, and its cause. Its faults and its needs are those of `Pen::put`.
pub fn put_refused_text<D: Desk>(
    line: u32,
    cause: Cause,
    pen: &mut Pen,
    desk: &mut D,
) -> Result<(), OutFault>
    requires { OnCert pen.old.to (IsTrue (D.ready desk.old)) }
    ensures { Puts D.files D.rest D.written D.printed D.target D.ready D.counts D.openings
        (refused_text_line line cause) result pen.old pen.new desk.old desk.new }
{
    put_fault(b"REFUSED line ", line, cause, pen, desk)
}

/// The same of the text of a spread that is refused.
pub fn put_refused_spread<D: Desk>(
    line: u32,
    cause: Cause,
    pen: &mut Pen,
    desk: &mut D,
) -> Result<(), OutFault>
    requires { OnCert pen.old.to (IsTrue (D.ready desk.old)) }
    ensures { Puts D.files D.rest D.written D.printed D.target D.ready D.counts D.openings
        (refused_spread_line line cause) result pen.old pen.new desk.old desk.new }
{
    put_fault(b"REFUSED SPREAD line ", line, cause, pen, desk)
}
