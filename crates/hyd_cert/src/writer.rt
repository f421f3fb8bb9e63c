//! Putting out a certificate text.

ghost use Rattle.std.specs.Prelude.{◌≡◌, ◌≢◌, ◌+◌, ◌<◌, ◌≤◌, ◌^◌, false, [], ◌∷◌, ◌++◌, length, take};
ghost use Rattle.std.specs.Prelude.{decimal, None, IsTrue};
ghost use Rattle.std.specs.Fmt.{signed_decimal};
ghost use Rattle.hyd_spec_certificates.specs.CertificateText.{period_line, record_text, end_line};
ghost use Rattle.hyd_cert.specs.Lines.{header_words, header_text, end_word};
ghost use Rattle.hyd_cert.specs.PlacesOfLines.{front_of, head_text};
ghost use Rattle.hyd_cert.specs.RecordView.{header_of, row_of};
ghost use Rattle.hyd_io.specs.Output.{OnCert};
ghost use Rattle.hyd_io.specs.TextPutIn.{Puts};

use crate::record::Record;
use hyd_io::{Desk, OutFault, Pen};
use hyd_line_reader::{LINE, append, append_number};
use itoa::Buffer;

// ---- lines

/// Makes the header line of the record's text, without its line feed, and returns its length.
fn make_header(buffer: &mut [u8; LINE], row: &Record) -> usize
    ensures within { result ≤ 42 }
    ensures fits { (row.now.junctions < 2 ^ 32) × (row.now.tanks < 2 ^ 32) }
    ensures text { take result buffer.new ≡ header_words (header_of row.now) }
{
    make_header_of(buffer, row.version, row)
}

/// Makes the header line of a version and the record's counts, without its line feed, and returns its length.
pub(crate) fn make_header_of(buffer: &mut [u8; LINE], version: u32, row: &Record) -> usize
    ensures within { result ≤ 42 }
    ensures fits { (row.now.junctions < 2 ^ 32) × (row.now.tanks < 2 ^ 32) }
    ensures text { take result buffer.new ≡ header_words (record (header_of row.now) { version = version }) }
{
    let used = append(buffer, 0, b"HYDCERT ");
    let used = append_number(buffer, used, version);
    let used = append(buffer, used, b" ");
    let used = append_number(buffer, used, row.junctions);
    let used = append(buffer, used, b" ");
    append_number(buffer, used, row.tanks)
}

/// Makes the header line of the record's text, and returns its length.
fn make_header_line(buffer: &mut [u8; LINE], row: &Record) -> usize
    ensures within { result ≤ 64 }
    ensures text { take result buffer.new ≡ header_text (header_of row.now) }
{
    let used = make_header(buffer, row);
    append(buffer, used, b"\n")
}

/// Whether the line, without its line feed, is the header line of the record's text.
pub(crate) fn is_header_of(line: &[u8], row: &Record) -> bool
    ensures yes { IsTrue result → line.now ++ (10 ∷ []) ≡ header_text (header_of row.now) }
    ensures fits { (row.now.junctions < 2 ^ 32) × (row.now.tanks < 2 ^ 32) }
    ensures no { result ≡ false → line.now ≢ header_words (header_of row.now) }
{
    let mut buffer = [0; LINE];
    let used = make_header(&mut buffer, row);
    line == &buffer[..used]
}

/// Makes the PERIOD line of the record, and returns its length.
fn make_period_line(buffer: &mut [u8; LINE], row: &Record) -> usize
    ensures within { result ≤ 64 }
    ensures text { take result buffer.new ≡ period_line (row_of row.now) }
{
    let used = append(buffer, 0, b"PERIOD ");
    let used = append_number(buffer, used, row.number);
    let used = append(buffer, used, b" ");
    let used = append_number(buffer, used, row.time);
    let used = append(buffer, used, b" ");
    let used = append_number(buffer, used, row.length);
    append(buffer, used, b"\n")
}

/// The key of a vector and a space. The vectors of a record are numbered from 0.
pub(crate) fn front_of(vector: usize) -> &'static [u8]
    ensures { result.now ≡ front_of vector }
{
    if vector == 0 {
        return b"MU ";
    }
    if vector == 1 {
        return b"ML ";
    }
    if vector % 2 == 0 {
        return b"PU ";
    }
    b"PL "
}

/// Makes the line of a head, and returns its length.
fn make_head_line(buffer: &mut [u8; LINE], front: &[u8], head: i64) -> usize
    requires { length front.now ≤ 4 }
    ensures within { result ≤ 64 }
    ensures text { take result buffer.new ≡ front.now ++ (signed_decimal head ++ (10 ∷ [])) }
{
    let mut digits = Buffer::new();
    let used = append(buffer, 0, front);
    let used = append(buffer, used, digits.format(head).as_bytes());
    append(buffer, used, b"\n")
}

/// Makes the END line, and returns its length.
fn make_end_line(buffer: &mut [u8; LINE], periods: u32, finished: bool) -> usize
    ensures within { result ≤ 64 }
    ensures text { take result buffer.new ≡ end_line periods finished }
{
    let used = append(buffer, 0, b"END ");
    let used = append_number(buffer, used, periods);
    append(buffer, used, last_words(finished))
}

/// What an END line ends with.
fn last_words(finished: bool) -> &'static [u8]
    ensures text { result.now ≡ 32 ∷ (end_word finished ++ (10 ∷ [])) }
    ensures short { length result.now ≤ 10 }
{
    if finished {
        return b" FINISHED\n";
    }
    b" STOPPED\n"
}

// ---- the text

/// Puts the header line, with the record's version and counts. Its faults and its needs are those of `Pen::put`.
pub fn put_header<D: Desk>(row: &Record, pen: &mut Pen, desk: &mut D) -> Result<(), OutFault>
    requires { OnCert pen.old.to (IsTrue (D.ready desk.old)) }
    ensures { Puts D.files D.rest D.written D.printed D.target D.ready D.counts D.openings
        (header_text (header_of row.now)) result pen.old pen.new desk.old desk.new }
{
    let mut buffer = [0; LINE];
    let used = make_header_line(&mut buffer, row);
    pen.put(desk, &buffer[..used])
}

/// Puts the record: its PERIOD line, and then a line for each head. Its faults and its needs are those of `Pen::put`:
/// after a fault, what went out is a front of what was put in before and of the record's lines.
pub fn put_record<D: Desk>(row: &Record, pen: &mut Pen, desk: &mut D) -> Result<(), OutFault>
    requires { OnCert pen.old.to (IsTrue (D.ready desk.old)) }
    ensures { Puts D.files D.rest D.written D.printed D.target D.ready D.counts D.openings
        (record_text (row_of row.now)) result pen.old pen.new desk.old desk.new }
{
    match put_period(row, pen, desk) {
        Ok(()) => put_heads(row.junctions as usize, row.vectors.as_slice(), pen, desk),
        Err(fault) => Err(fault),
    }
}

/// Puts the PERIOD line of the record.
fn put_period<D: Desk>(row: &Record, pen: &mut Pen, desk: &mut D) -> Result<(), OutFault>
    requires { OnCert pen.old.to (IsTrue (D.ready desk.old)) }
    ensures { Puts D.files D.rest D.written D.printed D.target D.ready D.counts D.openings
        (period_line (row_of row.now)) result pen.old pen.new desk.old desk.new }
{
    let mut buffer = [0; LINE];
    let used = make_period_line(&mut buffer, row);
    pen.put(desk, &buffer[..used])
}

/// Puts the lines of the heads, the vectors one after another, each of so many junctions.
fn put_heads<D: Desk>(
    junctions: usize,
    heads: &[i64],
    pen: &mut Pen,
    desk: &mut D,
) -> Result<(), OutFault>
    requires some { 0 < length heads.now → 0 < junctions }
    requires ready { OnCert pen.old.to (IsTrue (D.ready desk.old)) }
    requires unbroken { pen.old.fault ≡ None }
    ensures { Puts D.files D.rest D.written D.printed D.target D.ready D.counts D.openings
        (head_text junctions 0 heads.now) result pen.old pen.new desk.old desk.new }
{
    for i in 0..heads.len() {
        put_head_line(front_of(i / junctions), &heads[i], pen, desk)?;
    }
    Ok(())
}

/// Puts the line of a head.
pub(crate) fn put_head_line<D: Desk>(
    front: &[u8],
    head: &i64,
    pen: &mut Pen,
    desk: &mut D,
) -> Result<(), OutFault>
    requires short { length front.now ≤ 4 }
    requires ready { OnCert pen.old.to (IsTrue (D.ready desk.old)) }
    ensures { Puts D.files D.rest D.written D.printed D.target D.ready D.counts D.openings
        (front.now ++ (signed_decimal head.now ++ (10 ∷ []))) result pen.old pen.new desk.old desk.new }
{
    let mut buffer = [0; LINE];
    let used = make_head_line(&mut buffer, front, *head);
    pen.put(desk, &buffer[..used])
}

/// Puts the END line. Its faults and its needs are those of `Pen::put`.
pub fn put_end<D: Desk>(
    periods: u32,
    finished: bool,
    pen: &mut Pen,
    desk: &mut D,
) -> Result<(), OutFault>
    requires { OnCert pen.old.to (IsTrue (D.ready desk.old)) }
    ensures { Puts D.files D.rest D.written D.printed D.target D.ready D.counts D.openings
        (end_line periods finished) result pen.old pen.new desk.old desk.new }
{
    let mut buffer = [0; LINE];
    let used = make_end_line(&mut buffer, periods, finished);
    pen.put(desk, &buffer[..used])
}
