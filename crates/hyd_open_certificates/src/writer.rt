//! Putting out a certificate text of version 4. Its END line is that of other certificates.

ghost use Rattle.std.specs.Prelude.{◌≡◌, ◌≢◌, ◌<◌, ◌≤◌, ◌^◌, false, [], ◌∷◌, ◌++◌, length, take, None, IsTrue};
ghost use Rattle.std.specs.Prelude.{decimal, codes};
ghost use Rattle.std.specs.Fmt.{signed_decimal};
ghost use Rattle.hyd_io.specs.Output.{OnCert};
ghost use Rattle.hyd_io.specs.TextPutIn.{Puts};
ghost use Rattle.hyd_spec_open_ends.specs.OpenCertificateText.{open_period_line, open_record_text};
ghost use Rattle.hyd_cert.specs.Lines.{header_words, header_text};
ghost use Rattle.hyd_cert.specs.PlacesOfLines.{front_of, head_text};
ghost use Rattle.hyd_open_certificates.specs.OpenRowView.{open_header_of, open_record_of};

use crate::open_row::OpenRow;
use hyd_io::{Desk, OutFault, Pen};
use hyd_line_reader::{LINE, append, append_number};
use itoa::Buffer;

// ---- lines

/// Makes the header line of the record's text, without its line feed, and returns its length.
fn make_header(buffer: &mut [u8; LINE], found: &OpenRow) -> usize
    ensures within { result ≤ 42 }
    ensures fits { (found.now.row.junctions < 2 ^ 32) × (found.now.row.tanks < 2 ^ 32) }
    ensures text { take result buffer.new ≡ header_words (open_header_of found.now) }
{
    let used = append(buffer, 0, b"HYDCERT ");
    let used = append_number(buffer, used, 4);
    let used = append(buffer, used, b" ");
    let used = append_number(buffer, used, found.row.junctions);
    let used = append(buffer, used, b" ");
    append_number(buffer, used, found.row.tanks)
}

/// Makes the header line of the record's text, and returns its length.
fn make_header_line(buffer: &mut [u8; LINE], found: &OpenRow) -> usize
    ensures within { result ≤ 64 }
    ensures text { take result buffer.new ≡ header_text (open_header_of found.now) }
{
    let used = make_header(buffer, found);
    append(buffer, used, b"\n")
}

/// Whether the line, without its line feed, is the header line of the record's text.
pub(crate) fn is_header_of(line: &[u8], found: &OpenRow) -> bool
    ensures yes { IsTrue result → line.now ++ (10 ∷ []) ≡ header_text (open_header_of found.now) }
    ensures no { result ≡ false → line.now ≢ header_words (open_header_of found.now) }
{
    let mut buffer = [0; LINE];
    let used = make_header(&mut buffer, found);
    line == &buffer[..used]
}

/// Makes the PERIOD line of the record up to its start, and returns the length.
fn make_period_start(buffer: &mut [u8; LINE], found: &OpenRow) -> usize
    ensures within { result ≤ 29 }
    ensures text { take result buffer.new ≡ codes "PERIOD" ++ (32 ∷ (decimal found.now.row.number
        ++ (32 ∷ (decimal found.now.row.time ++ (32 ∷ []))))) }
{
    let used = append(buffer, 0, b"PERIOD ");
    let used = append_number(buffer, used, found.row.number);
    let used = append(buffer, used, b" ");
    let used = append_number(buffer, used, found.row.time);
    append(buffer, used, b" ")
}

/// Makes the PERIOD line of the record, and returns its length.
fn make_period_line(buffer: &mut [u8; LINE], found: &OpenRow) -> usize
    ensures within { result ≤ 64 }
    ensures text { take result buffer.new ≡ open_period_line (open_record_of found.now) }
{
    let used = make_period_start(buffer, found);
    let used = append_number(buffer, used, found.late);
    let used = append(buffer, used, b" ");
    let used = append_number(buffer, used, found.shortest);
    let used = append(buffer, used, b" ");
    let used = append_number(buffer, used, found.row.length);
    append(buffer, used, b"\n")
}

/// The key of a vector and a space. The vectors of a record are numbered from 0.
pub(crate) fn front_of(vector: usize) -> &'static [u8]
    ensures { result.now ≡ front_of vector }
{
    if vector == 0 {
        return b"MU ";
    }
    if vector == 1 {
        return b"ML ";
    }
    if vector % 2 == 0 {
        return b"PU ";
    }
    b"PL "
}

/// Makes the line of a head, and returns its length.
fn make_head_line(buffer: &mut [u8; LINE], front: &[u8], head: i64) -> usize
    requires { length front.now ≤ 4 }
    ensures within { result ≤ 64 }
    ensures text { take result buffer.new ≡ front.now ++ (signed_decimal head ++ (10 ∷ [])) }
{
    let mut digits = Buffer::new();
    let used = append(buffer, 0, front);
    let used = append(buffer, used, digits.format(head).as_bytes());
    append(buffer, used, b"\n")
}

// ---- the text

/// Puts the header line, with the record's counts. Its faults and its needs are those of `Pen::put`.
pub fn put_open_header<D: Desk>(
    found: &OpenRow,
    pen: &mut Pen,
    desk: &mut D,
) -> Result<(), OutFault>
    requires { OnCert pen.old.to (IsTrue (D.ready desk.old)) }
    ensures { Puts D.files D.rest D.written D.printed D.target D.ready D.counts D.openings
        (header_text (open_header_of found.now)) result pen.old pen.new desk.old desk.new }
{
    let mut buffer = [0; LINE];
    let used = make_header_line(&mut buffer, found);
    pen.put(desk, &buffer[..used])
}

/// Puts the record: its PERIOD line, and then a line for each head. Its faults and its needs are those of `Pen::put`:
/// after a fault, what went out is a front of what was put in before and of the record's lines.
pub fn put_open_record<D: Desk>(
    found: &OpenRow,
    pen: &mut Pen,
    desk: &mut D,
) -> Result<(), OutFault>
    requires { OnCert pen.old.to (IsTrue (D.ready desk.old)) }
    ensures { Puts D.files D.rest D.written D.printed D.target D.ready D.counts D.openings
        (open_record_text (open_record_of found.now)) result pen.old pen.new desk.old desk.new }
{
    match put_period(found, pen, desk) {
        Ok(()) => put_heads(
            found.row.junctions as usize,
            found.row.vectors.as_slice(),
            pen,
            desk,
        ),
        Err(fault) => Err(fault),
    }
}

/// Puts the PERIOD line of the record.
fn put_period<D: Desk>(found: &OpenRow, pen: &mut Pen, desk: &mut D) -> Result<(), OutFault>
    requires { OnCert pen.old.to (IsTrue (D.ready desk.old)) }
    ensures { Puts D.files D.rest D.written D.printed D.target D.ready D.counts D.openings
        (open_period_line (open_record_of found.now)) result pen.old pen.new desk.old desk.new }
{
    let mut buffer = [0; LINE];
    let used = make_period_line(&mut buffer, found);
    pen.put(desk, &buffer[..used])
}

/// Puts the lines of the heads, the vectors one after another, each of so many junctions.
fn put_heads<D: Desk>(
    junctions: usize,
    heads: &[i64],
    pen: &mut Pen,
    desk: &mut D,
) -> Result<(), OutFault>
    requires some { 0 < length heads.now → 0 < junctions }
    requires ready { OnCert pen.old.to (IsTrue (D.ready desk.old)) }
    requires unbroken { pen.old.fault ≡ None }
    ensures { Puts D.files D.rest D.written D.printed D.target D.ready D.counts D.openings
        (head_text junctions 0 heads.now) result pen.old pen.new desk.old desk.new }
{
    for i in 0..heads.len() {
        put_head_line(front_of(i / junctions), &heads[i], pen, desk)?;
    }
    Ok(())
}

/// Puts the line of a head.
fn put_head_line<D: Desk>(
    front: &[u8],
    head: &i64,
    pen: &mut Pen,
    desk: &mut D,
) -> Result<(), OutFault>
    requires short { length front.now ≤ 4 }
    requires ready { OnCert pen.old.to (IsTrue (D.ready desk.old)) }
    ensures { Puts D.files D.rest D.written D.printed D.target D.ready D.counts D.openings
        (front.now ++ (signed_decimal head.now ++ (10 ∷ []))) result pen.old pen.new desk.old desk.new }
{
    let mut buffer = [0; LINE];
    let used = make_head_line(&mut buffer, front, *head);
    pen.put(desk, &buffer[..used])
}
