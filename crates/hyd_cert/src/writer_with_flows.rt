//! Putting out a certificate text with flows.

ghost use Rattle.std.specs.Prelude.{◌≡◌, ◌≢◌, ◌+◌, ◌<◌, ◌≤◌, ◌^◌, false, [], ◌∷◌, ◌++◌, length, map, take, None};
ghost use Rattle.std.specs.Prelude.{IsTrue};
ghost use Rattle.hyd_spec.specs.Lists.{joined};
ghost use Rattle.hyd_spec_flows.specs.FlowTexts.{flows_line, name_line, named_text, part_text};
ghost use Rattle.hyd_cert.specs.Lines.{header_words, header_text};
ghost use Rattle.hyd_cert.specs.PlacesWithFlows.{with_flows, held_lines};
ghost use Rattle.hyd_cert.specs.RecordView.{header_of};
ghost use Rattle.hyd_cert.specs.FlowPartView.{named_of, links_in, part_of};
ghost use Rattle.hyd_io.specs.Output.{OnCert};
ghost use Rattle.hyd_io.specs.TextPutIn.{Puts};

use crate::flow_part::FlowPart;
use crate::named_vectors::NamedVectors;
use crate::record::Record;
use crate::writer::{make_header_of, put_head_line};
use hyd_io::{Desk, OutFault, Pen};
use hyd_line_reader::{LINE, append, append_number};
use hyd_spec_certificates::Side;

/// The version of certificate texts with flows.
const FLOWS_VERSION: u32 = 3;

// ---- lines

/// Makes the header line of a text with flows and the record's counts, and returns its length.
fn make_flows_header_line(buffer: &mut [u8; LINE], row: &Record) -> usize
    ensures within { result ≤ 64 }
    ensures text { take result buffer.new ≡ header_text (with_flows (header_of row.now)) }
{
    let used = make_header_of(buffer, FLOWS_VERSION, row);
    append(buffer, used, b"\n")
}

/// Whether the line, without its line feed, is the header line of a text with flows and the record's counts.
pub(crate) fn is_flows_header_of(line: &[u8], row: &Record) -> bool
    ensures yes { IsTrue result → line.now ++ (10 ∷ []) ≡ header_text (with_flows (header_of row.now)) }
    ensures fits { (row.now.junctions < 2 ^ 32) × (row.now.tanks < 2 ^ 32) }
    ensures no { result ≡ false → line.now ≢ header_words (with_flows (header_of row.now)) }
{
    let mut buffer = [0; LINE];
    let used = make_header_of(&mut buffer, FLOWS_VERSION, row);
    line == &buffer[..used]
}

/// Makes the FLOWS line of so many links, and returns its length.
fn make_flows_line(buffer: &mut [u8; LINE], count: u32) -> usize
    ensures within { result ≤ 64 }
    ensures text { take result buffer.new ≡ flows_line count }
{
    let used = append(buffer, 0, b"FLOWS ");
    let used = append_number(buffer, used, count);
    append(buffer, used, b"\n")
}

/// Makes the LINK line of a link's number, and returns its length.
fn make_name_line(buffer: &mut [u8; LINE], number: u32) -> usize
    ensures within { result ≤ 64 }
    ensures text { take result buffer.new ≡ name_line number }
{
    let used = append(buffer, 0, b"LINK ");
    let used = append_number(buffer, used, number);
    append(buffer, used, b"\n")
}

// ---- the text

/// Puts the header line of a text with flows, with the record's counts. Its faults and its needs are those of
/// `Pen::put`.
pub fn put_flows_header<D: Desk>(row: &Record, pen: &mut Pen, desk: &mut D) -> Result<(), OutFault>
    requires { OnCert pen.old.to (IsTrue (D.ready desk.old)) }
    ensures { Puts D.files D.rest D.written D.printed D.target D.ready D.counts D.openings
        (header_text (with_flows (header_of row.now))) result pen.old pen.new desk.old desk.new }
{
    let mut buffer = [0; LINE];
    let used = make_flows_header_line(&mut buffer, row);
    pen.put(desk, &buffer[..used])
}

/// Puts the part behind a record: its FLOWS line, and then each link that it names, with its vectors. Its faults and
/// its needs are those of `Pen::put`.
pub fn put_flows<D: Desk>(part: &FlowPart, pen: &mut Pen, desk: &mut D) -> Result<(), OutFault>
    requires { OnCert pen.old.to (IsTrue (D.ready desk.old)) }
    ensures { Puts D.files D.rest D.written D.printed D.target D.ready D.counts D.openings
        (part_text (part_of part.now)) result pen.old pen.new desk.old desk.new }
{
    match put_flows_line(part, pen, desk) {
        Ok(()) => put_links(part.as_slice(), pen, desk),
        Err(fault) => Err(fault),
    }
}

/// Puts the FLOWS line of the part.
fn put_flows_line<D: Desk>(part: &FlowPart, pen: &mut Pen, desk: &mut D) -> Result<(), OutFault>
    requires { OnCert pen.old.to (IsTrue (D.ready desk.old)) }
    ensures { Puts D.files D.rest D.written D.printed D.target D.ready D.counts D.openings
        (flows_line part.now.count) result pen.old pen.new desk.old desk.new }
{
    let mut buffer = [0; LINE];
    let used = make_flows_line(&mut buffer, part.count as u32);
    pen.put(desk, &buffer[..used])
}

/// Puts these links, each with its vectors.
fn put_links<D: Desk>(links: &[NamedVectors], pen: &mut Pen, desk: &mut D) -> Result<(), OutFault>
    requires ready { OnCert pen.old.to (IsTrue (D.ready desk.old)) }
    requires unbroken { pen.old.fault ≡ None }
    ensures { Puts D.files D.rest D.written D.printed D.target D.ready D.counts D.openings
        (joined (map named_text (links_in links.now))) result pen.old pen.new desk.old desk.new }
{
    for i in 0..links.len() {
        put_link(&links[i], pen, desk)?;
    }
    Ok(())
}

/// Puts a link: its LINK line, and then a line for each head of its vectors.
fn put_link<D: Desk>(named: &NamedVectors, pen: &mut Pen, desk: &mut D) -> Result<(), OutFault>
    requires { OnCert pen.old.to (IsTrue (D.ready desk.old)) }
    ensures { Puts D.files D.rest D.written D.printed D.target D.ready D.counts D.openings
        (named_text (named_of named.now)) result pen.old pen.new desk.old desk.new }
{
    if let Err(fault) = put_name(named.link, pen, desk) {
        return Err(fault);
    }
    match put_vector(b"FU ", named.vector(Side::Upper), pen, desk) {
        Ok(()) => put_vector(b"FL ", named.vector(Side::Lower), pen, desk),
        Err(fault) => Err(fault),
    }
}

/// Puts the LINK line of a link's number.
fn put_name<D: Desk>(number: u32, pen: &mut Pen, desk: &mut D) -> Result<(), OutFault>
    requires { OnCert pen.old.to (IsTrue (D.ready desk.old)) }
    ensures { Puts D.files D.rest D.written D.printed D.target D.ready D.counts D.openings
        (name_line number) result pen.old pen.new desk.old desk.new }
{
    let mut buffer = [0; LINE];
    let used = make_name_line(&mut buffer, number);
    pen.put(desk, &buffer[..used])
}

/// Puts the lines of a vector's heads, each behind `front`.
fn put_vector<D: Desk>(
    front: &[u8],
    heads: &[i64],
    pen: &mut Pen,
    desk: &mut D,
) -> Result<(), OutFault>
    requires short { length front.now ≤ 4 }
    requires ready { OnCert pen.old.to (IsTrue (D.ready desk.old)) }
    requires unbroken { pen.old.fault ≡ None }
    ensures { Puts D.files D.rest D.written D.printed D.target D.ready D.counts D.openings
        (held_lines front.now heads.now) result pen.old pen.new desk.old desk.new }
{
    for i in 0..heads.len() {
        put_head_line(front, &heads[i], pen, desk)?;
    }
    Ok(())
}
