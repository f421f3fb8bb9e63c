//! The last line of a report: of a run, and of a check that accepts or refuses.

ghost use Rattle.std.specs.Prelude.{IsTrue};
ghost use Rattle.hyd_io.specs.Output.{OnCert};
ghost use Rattle.hyd_spec_reports.specs.ReportLine.{done_line, partial_line, refused_end_line};
ghost use Rattle.hyd_io.specs.TextPutIn.{Puts};

use crate::line_pieces::put_pieces;
use crate::numbers_times_and_settings::number;
use hyd_io::{Desk, OutFault, Pen};

/// Puts the last line of a finished run, with the number of its records. Its faults and its needs are those of
/// `Pen::put`.
pub fn put_done<D: Desk>(records: u32, pen: &mut Pen, desk: &mut D) -> Result<(), OutFault>
    requires { OnCert pen.old.to (IsTrue (D.ready desk.old)) }
    ensures { Puts D.files D.rest D.written D.printed D.target D.ready D.counts D.openings
        (done_line records) result pen.old pen.new desk.old desk.new }
{
    let records = number(u64::from(records));
    put_pieces(&[b"DONE ".as_slice(), records.bytes(), b"\n"], pen, desk)
}

/// Puts the last line after the certificate of a stopped run was accepted, with the number of its records. Its faults
/// and its needs are those of `Pen::put`.
pub fn put_partial<D: Desk>(records: u32, pen: &mut Pen, desk: &mut D) -> Result<(), OutFault>
    requires { OnCert pen.old.to (IsTrue (D.ready desk.old)) }
    ensures { Puts D.files D.rest D.written D.printed D.target D.ready D.counts D.openings
        (partial_line records) result pen.old pen.new desk.old desk.new }
{
    let records = number(u64::from(records));
    put_pieces(&[b"PARTIAL ".as_slice(), records.bytes(), b"\n"], pen, desk)
}

/// Puts the last line where the END line of a certificate says what isn't so, with that line's number, counted from
/// 1. Its faults and its needs are those of `Pen::put`.
pub fn put_refused_end<D: Desk>(line: u64, pen: &mut Pen, desk: &mut D) -> Result<(), OutFault>
    requires { OnCert pen.old.to (IsTrue (D.ready desk.old)) }
    ensures { Puts D.files D.rest D.written D.printed D.target D.ready D.counts D.openings
        (refused_end_line line) result pen.old pen.new desk.old desk.new }
{
    let line = number(line);
    put_pieces(
        &[b"BADCERT line ".as_slice(), line.bytes(), b" END", b"\n"],
        pen,
        desk,
    )
}
