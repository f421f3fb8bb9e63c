//! Putting out the text of a witness.

ghost use Rattle.std.specs.Prelude.{◌≡◌, ◌+◌, ◌≤◌, [], ◌∷◌, ◌++◌, length, take, decimal, codes, None, IsTrue};
ghost use Rattle.std.specs.Fmt.{signed_decimal};
ghost use Rattle.hyd_io.specs.Output.{OnCert};
ghost use Rattle.hyd_io.specs.TextPutIn.{Puts};
ghost use Rattle.hyd_spec_certificates.specs.CertificateText.{words, line};
ghost use Rattle.hyd_spec_witnesses.specs.WitnessText.{witness_header, moment_line, value_lines, stock_line};
ghost use Rattle.hyd_spec_witnesses.specs.WitnessText.{stock_lines, moment_text, witness_end};
ghost use Rattle.hyd_witness_texts.specs.MomentView.{counts_in, moment_of};

use crate::counts::NetworkCounts;
use crate::moment::Moment;
use hyd_io::{Desk, OutFault, Pen};
use itoa::Buffer;

/// Room for the longest line: two numbers of 40 characters behind a key.
pub(crate) const ROOM: usize = 96;

// ---- lines

/// Appends the word to the bytes of the buffer that are used, and returns how many are then.
pub(crate) fn append(buffer: &mut [u8; ROOM], used: usize, word: &[u8]) -> usize
    requires { used + length word.now ≤ 96 }
    ensures used { result ≡ used + length word.now }
    ensures text { take result buffer.new ≡ take used buffer.old ++ word.now }
{
    let end = used + word.len();
    buffer[used..end].copy_from_slice(word);
    end
}

/// Appends a number below 2^32.
pub(crate) fn append_number(buffer: &mut [u8; ROOM], used: usize, number: u32) -> usize
    requires { used ≤ 86 }
    ensures used { result ≤ used + 10 }
    ensures text { take result buffer.new ≡ take used buffer.old ++ decimal number }
{
    let mut digits = Buffer::new();
    append(buffer, used, digits.format(number).as_bytes())
}

/// Appends a value.
fn append_value(buffer: &mut [u8; ROOM], used: usize, value: i128) -> usize
    requires { used ≤ 56 }
    ensures used { result ≤ used + 40 }
    ensures text { take result buffer.new ≡ take used buffer.old ++ signed_decimal value }
{
    let mut digits = Buffer::new();
    append(buffer, used, digits.format(value).as_bytes())
}

/// Appends the three counts, parted by spaces.
pub(crate) fn append_counts(buffer: &mut [u8; ROOM], used: usize, counts: &NetworkCounts) -> usize
    requires { used ≤ 63 }
    ensures used { result ≤ used + 32 }
    ensures text { take result buffer.new ≡ take used buffer.old ++ words (decimal counts.now.junctions
        ∷ (decimal counts.now.links ∷ (decimal counts.now.tanks ∷ []))) }
{
    let used = append_number(buffer, used, counts.junctions);
    let used = append(buffer, used, b" ");
    let used = append_number(buffer, used, counts.links);
    let used = append(buffer, used, b" ");
    append_number(buffer, used, counts.tanks)
}

/// Makes the header line, and returns its length.
fn make_header(buffer: &mut [u8; ROOM], scale: u32, counts: &NetworkCounts) -> usize
    ensures within { result ≤ 96 }
    ensures text { take result buffer.new ≡ witness_header scale (counts_in counts.now) }
{
    let used = append(buffer, 0, b"HYDWIT ");
    let used = append_number(buffer, used, 1);
    let used = append(buffer, used, b" ");
    let used = append_number(buffer, used, scale);
    let used = append(buffer, used, b" ");
    let used = append_counts(buffer, used, counts);
    append(buffer, used, b"\n")
}

/// Makes the PERIOD line of the moment, and returns its length.
fn make_moment_line(buffer: &mut [u8; ROOM], moment: &Moment) -> usize
    ensures within { result ≤ 96 }
    ensures text { take result buffer.new ≡ moment_line (moment_of moment.now) }
{
    let used = append(buffer, 0, b"PERIOD ");
    let used = append_number(buffer, used, moment.number);
    let used = append(buffer, used, b" ");
    let used = append_number(buffer, used, moment.time);
    let used = append(buffer, used, b" ");
    let used = append_number(buffer, used, moment.length);
    append(buffer, used, b"\n")
}

/// Makes the line of a value behind its key, and returns its length.
fn make_value_line(buffer: &mut [u8; ROOM], key: u8, value: i128) -> usize
    ensures within { result ≤ 96 }
    ensures text { take result buffer.new ≡ line ((key ∷ []) ∷ (signed_decimal value ∷ [])) }
{
    let used = append(buffer, 0, &[key, b' ']);
    let used = append_value(buffer, used, value);
    append(buffer, used, b"\n")
}

/// Makes the line of a level and its volume, and returns its length.
fn make_stock_line(buffer: &mut [u8; ROOM], level: i128, volume: i128) -> usize
    ensures within { result ≤ 96 }
    ensures text { take result buffer.new ≡ stock_line level volume }
{
    let used = append(buffer, 0, b"L ");
    let used = append_value(buffer, used, level);
    let used = append(buffer, used, b" ");
    let used = append_value(buffer, used, volume);
    append(buffer, used, b"\n")
}

/// Makes the END line, and returns its length.
fn make_end_line(buffer: &mut [u8; ROOM], periods: u32) -> usize
    ensures within { result ≤ 96 }
    ensures text { take result buffer.new ≡ witness_end periods }
{
    let used = append(buffer, 0, b"END ");
    let used = append_number(buffer, used, periods);
    append(buffer, used, b"\n")
}

// ---- the text

/// Puts the header line for a scale and for a network with so many of each. Its faults and its needs are those of
/// `Pen::put`.
pub fn put_witness_header<D: Desk>(
    scale: u32,
    counts: &NetworkCounts,
    pen: &mut Pen,
    desk: &mut D,
) -> Result<(), OutFault>
    requires { OnCert pen.old.to (IsTrue (D.ready desk.old)) }
    ensures { Puts D.files D.rest D.written D.printed D.target D.ready D.counts D.openings
        (witness_header scale (counts_in counts.now)) result pen.old pen.new desk.old desk.new }
{
    let mut buffer = [0; ROOM];
    let used = make_header(&mut buffer, scale, counts);
    pen.put(desk, &buffer[..used])
}

/// Puts the moment, which has as many levels as volumes: its PERIOD line, and then a line for each of its values. Its
/// faults and its needs are those of `Pen::put`: after a fault, what went out is a front of what was put in before and
/// of the moment's lines.
pub fn put_moment<D: Desk>(moment: &Moment, pen: &mut Pen, desk: &mut D) -> Result<(), OutFault>
    requires stocks { length moment.now.levels.list ≡ length moment.now.volumes.list }
    requires ready { OnCert pen.old.to (IsTrue (D.ready desk.old)) }
    ensures { Puts D.files D.rest D.written D.printed D.target D.ready D.counts D.openings
        (moment_text (moment_of moment.now)) result pen.old pen.new desk.old desk.new }
{
    match put_moment_line(moment, pen, desk) {
        Ok(()) => put_lists(moment, pen, desk),
        Err(fault) => Err(fault),
    }
}

/// Puts the PERIOD line of the moment.
fn put_moment_line<D: Desk>(moment: &Moment, pen: &mut Pen, desk: &mut D) -> Result<(), OutFault>
    requires { OnCert pen.old.to (IsTrue (D.ready desk.old)) }
    ensures { Puts D.files D.rest D.written D.printed D.target D.ready D.counts D.openings
        (moment_line (moment_of moment.now)) result pen.old pen.new desk.old desk.new }
{
    let mut buffer = [0; ROOM];
    let used = make_moment_line(&mut buffer, moment);
    pen.put(desk, &buffer[..used])
}

/// Puts the lines of heads and of flows, and those behind them.
fn put_lists<D: Desk>(moment: &Moment, pen: &mut Pen, desk: &mut D) -> Result<(), OutFault>
    requires stocks { length moment.now.levels.list ≡ length moment.now.volumes.list }
    requires ready { OnCert pen.old.to (IsTrue (D.ready desk.old)) }
    requires unbroken { pen.old.fault ≡ None }
    ensures { Puts D.files D.rest D.written D.printed D.target D.ready D.counts D.openings
        (value_lines (codes "H") moment.now.heads.list ++ (value_lines (codes "Q") moment.now.flows.list
        ++ (value_lines (codes "D") moment.now.demands.list ++ (value_lines (codes "E") moment.now.emitters.list
        ++ stock_lines moment.now.levels.list moment.now.volumes.list)))) result pen.old pen.new desk.old desk.new }
{
    put_values(b'H', moment.heads.as_slice(), pen, desk)?;
    put_values(b'Q', moment.flows.as_slice(), pen, desk)?;
    put_outflows_and_stocks(moment, pen, desk)
}

/// Puts the lines of demand flows, of emitter flows, and of levels and volumes.
fn put_outflows_and_stocks<D: Desk>(
    moment: &Moment,
    pen: &mut Pen,
    desk: &mut D,
) -> Result<(), OutFault>
    requires stocks { length moment.now.levels.list ≡ length moment.now.volumes.list }
    requires ready { OnCert pen.old.to (IsTrue (D.ready desk.old)) }
    requires unbroken { pen.old.fault ≡ None }
    ensures { Puts D.files D.rest D.written D.printed D.target D.ready D.counts D.openings
        (value_lines (codes "D") moment.now.demands.list ++ (value_lines (codes "E") moment.now.emitters.list
        ++ stock_lines moment.now.levels.list moment.now.volumes.list)) result pen.old pen.new desk.old desk.new }
{
    put_values(b'D', moment.demands.as_slice(), pen, desk)?;
    put_values(b'E', moment.emitters.as_slice(), pen, desk)?;
    put_stocks(
        moment.levels.as_slice(),
        moment.volumes.as_slice(),
        pen,
        desk,
    )
}

/// Puts the lines of values, each behind the key.
fn put_values<D: Desk>(
    key: u8,
    values: &[i128],
    pen: &mut Pen,
    desk: &mut D,
) -> Result<(), OutFault>
    requires ready { OnCert pen.old.to (IsTrue (D.ready desk.old)) }
    requires unbroken { pen.old.fault ≡ None }
    ensures { Puts D.files D.rest D.written D.printed D.target D.ready D.counts D.openings
        (value_lines (key ∷ []) values.now) result pen.old pen.new desk.old desk.new }
{
    for i in 0..values.len() {
        put_value_line(key, &values[i], pen, desk)?;
    }
    Ok(())
}

/// Puts the line of a value.
fn put_value_line<D: Desk>(
    key: u8,
    value: &i128,
    pen: &mut Pen,
    desk: &mut D,
) -> Result<(), OutFault>
    requires { OnCert pen.old.to (IsTrue (D.ready desk.old)) }
    ensures { Puts D.files D.rest D.written D.printed D.target D.ready D.counts D.openings
        (line ((key ∷ []) ∷ (signed_decimal value.now ∷ []))) result pen.old pen.new desk.old desk.new }
{
    let mut buffer = [0; ROOM];
    let used = make_value_line(&mut buffer, key, *value);
    pen.put(desk, &buffer[..used])
}

/// Puts the lines of levels and their volumes.
fn put_stocks<D: Desk>(
    levels: &[i128],
    volumes: &[i128],
    pen: &mut Pen,
    desk: &mut D,
) -> Result<(), OutFault>
    requires stocks { length levels.now ≡ length volumes.now }
    requires ready { OnCert pen.old.to (IsTrue (D.ready desk.old)) }
    requires unbroken { pen.old.fault ≡ None }
    ensures { Puts D.files D.rest D.written D.printed D.target D.ready D.counts D.openings
        (stock_lines levels.now volumes.now) result pen.old pen.new desk.old desk.new }
{
    for i in 0..levels.len() {
        put_stock_line(&levels[i], &volumes[i], pen, desk)?;
    }
    Ok(())
}

/// Puts the line of a level and its volume.
fn put_stock_line<D: Desk>(
    level: &i128,
    volume: &i128,
    pen: &mut Pen,
    desk: &mut D,
) -> Result<(), OutFault>
    requires { OnCert pen.old.to (IsTrue (D.ready desk.old)) }
    ensures { Puts D.files D.rest D.written D.printed D.target D.ready D.counts D.openings
        (stock_line level.now volume.now) result pen.old pen.new desk.old desk.new }
{
    let mut buffer = [0; ROOM];
    let used = make_stock_line(&mut buffer, *level, *volume);
    pen.put(desk, &buffer[..used])
}

/// Puts the END line. Its faults and its needs are those of `Pen::put`.
pub fn put_witness_end<D: Desk>(periods: u32, pen: &mut Pen, desk: &mut D) -> Result<(), OutFault>
    requires { OnCert pen.old.to (IsTrue (D.ready desk.old)) }
    ensures { Puts D.files D.rest D.written D.printed D.target D.ready D.counts D.openings
        (witness_end periods) result pen.old pen.new desk.old desk.new }
{
    let mut buffer = [0; ROOM];
    let used = make_end_line(&mut buffer, periods);
    pen.put(desk, &buffer[..used])
}
