//! Why the text of a spread is refused, in words.

use hyd_io::Desk;
use hyd_net::Cause;
use hyd_spread_rows::SpreadFault;
use std::fmt::{self, Display, Formatter};

// The most bytes of a row that are shown.
const LONGEST_ROW: usize = 120;

// The file of a spread, its text, and the fault for which it is refused.
#[derive(Clone, Copy)]
struct RefusedSpread<'a> {
    file: &'a str,
    text: &'a [u8],
    fault: SpreadFault,
}

// Bytes of a file: those that aren't printing ASCII are shown as `?`.
#[derive(Clone, Copy)]
struct Shown<'a>(&'a [u8]);

// What is no row of a spread, and what is.
const NO_ROW: &str =
    "this is no row of a spread: DEMAND or EMITTER, an ID or *, and two factors or one percentage \
(DEMAND J7 0.8 1.3, DEMAND * 10%); HEAD, a reservoir or *, and how far below and above (HEAD Lake -0.5 0.5); LEVEL, a \
tank or *, and the lowest and the highest (LEVEL Hill 1.5 4.5)";

// What is out of range, by what a row is about.
const DEMAND_RANGE: &str =
    "out of range: the factors of a demand have 1 between them and go from 0 to 1000000, a \
percentage goes from 0 to 100";

const EMITTER_RANGE: &str =
    "out of range: the factors of an emitter have 1 between them and go from above 0 to 1000000, \
a percentage from 0 to below 100, and no coefficient may leave its range";

const HEAD_RANGE: &str =
    "out of range: how far a head may lie below and above has 0 between, at most 10000 each way, and \
no head may leave its range";

const LEVEL_RANGE: &str =
    "out of range: levels lie within the bounds of the tank with its initial level between them; an \
end at the minimum, at the maximum or at a control's level leaves it open whether the tank is empty or full, or the \
control acts: keep strictly between";

// No such node.
const NO_NODE: &str =
    "NET has no such node for this row: DEMAND wants a junction, EMITTER a junction with an emitter, \
HEAD a reservoir, LEVEL a tank, or * for all";

// No number.
const NO_NUMBER: &str =
    "a word isn't a number where one is asked for; percentages (10%, without a space) go with DEMAND \
and EMITTER alone";

// The first byte of a row that isn't blank.
fn first_byte(row: &[u8]) -> Option<u8> {
    row.iter()
        .position(|byte| !(*byte == b' ' || *byte == b'\t'))
        .map(|place| row[place])
}

// What is out of range in a row, by the letter with which it begins.
fn range_of(row: &[u8]) -> &'static str {
    match first_byte(row) {
        Some(b'E' | b'e') => EMITTER_RANGE,
        Some(b'H' | b'h') => HEAD_RANGE,
        Some(b'L' | b'l') => LEVEL_RANGE,
        _ => DEMAND_RANGE,
    }
}

// What a cause says of a row, and what it may be instead.
fn meaning_of(cause: Cause, row: &[u8]) -> &'static str {
    match cause {
        Cause::Syntax => NO_ROW,
        Cause::Number => NO_NUMBER,
        Cause::Range => range_of(row),
        Cause::UnknownName => NO_NODE,
        Cause::Limit(1) => "the text has more than 64 MiB",
        Cause::Limit(_) => "the line has more than 1024 bytes",
        Cause::DuplicateId | Cause::Unsupported(_) | Cause::Missing => "the row can't be so",
    }
}

// A byte as it is shown.
fn shown_byte(byte: u8) -> char {
    if byte == b'\t' || (b' ' <= byte && byte <= b'~') {
        return char::from(byte);
    }
    '?'
}

impl Display for Shown<'_> {
    fn fmt<W: fmt::Write>(&self, f: &mut Formatter<W>) -> fmt::Result {
        for byte in self.0 {
            f.write_char(shown_byte(*byte))?;
        }
        Ok(())
    }
}

// The line of this number, counted from 1, cut where it is very long.
fn row_at(text: &[u8], line: u32) -> &[u8] {
    let Some(place) = line.checked_sub(1) else {
        return b"";
    };
    let row = text
        .split(|byte| *byte == b'\n')
        .nth(place as usize)
        .unwrap_or(b"");
    row.get(..LONGEST_ROW).unwrap_or(row)
}

impl Display for RefusedSpread<'_> {
    fn fmt<W: fmt::Write>(&self, f: &mut Formatter<W>) -> fmt::Result {
        let RefusedSpread { file, text, fault } = *self;
        let row = row_at(text, fault.line);
        let meaning = meaning_of(fault.cause, row);
        if fault.line == 0 {
            return write!(f, "{file}: {meaning}");
        }
        write!(f, "{file}:{}: {meaning}\n  {}", fault.line, Shown(row))
    }
}

/// Says to a person why the text of a file is refused.
pub(crate) fn say_fault<D: Desk>(file: &str, text: &[u8], fault: SpreadFault, desk: &D) {
    desk.say(&RefusedSpread { file, text, fault });
}
