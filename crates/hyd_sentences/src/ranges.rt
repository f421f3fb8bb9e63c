//! Values out of their ranges.

use crate::filled_slots::{Filled, filled_slots};
use crate::forms::{Bound, Slot};
use crate::forms_of_rows::form_of;
use crate::formulas::{Formula, formula_of};
use crate::pump_pairs::value_of;
use crate::rows::{Row, body_of};
use crate::sentences as say;
use crate::sentences::WrongRange;
use hyd_num::{before, read_decimal};
use hyd_spec_lines::Section;

// A number of a file in billionths.
const BILLION: i128 = 1_000_000_000;

// The least diameter of a tank without a volume curve, in billionths.
const LEAST_DIAMETER: i128 = BILLION / 10;

// Whether a number of billionths lies in a range.
fn holds(bound: Bound, nano: i128) -> bool {
    match bound {
        Bound::Free => true,
        Bound::NotNegative => 0 <= nano,
        Bound::UpTo(most) => 0 <= nano && nano <= i128::from(most) * BILLION,
        Bound::Above0To(most) => 0 < nano && nano <= i128::from(most) * BILLION,
        Bound::Within(most) => {
            -(i128::from(most) * BILLION) <= nano && nano <= i128::from(most) * BILLION
        }
    }
}

// A number out of its range.
fn number_fault<'a>(what: &'static str, word: &'a [u8], bound: Bound) -> Option<WrongRange<'a>> {
    match read_decimal(word) {
        Ok(number) if !holds(bound, number.nano) => Some(WrongRange::Number(what, word, bound)),
        _ => None,
    }
}

// The number that a word writes.
fn nano_of(word: &[u8]) -> Option<i128> {
    match read_decimal(word) {
        Ok(number) => Some(number.nano),
        Err(_) => None,
    }
}

// The range of a roughness by the formula of the file.
fn roughness_bound(formula: Formula) -> Bound {
    match formula {
        Formula::HazenWilliams => Bound::Above0To(10_000),
        _ => Bound::Above0To(10),
    }
}

// A roughness out of its range, with the formula of the file, whose number it may be.
fn roughness_fault<'a>(text: &[u8], word: &'a [u8]) -> Option<WrongRange<'a>> {
    let formula = formula_of(text);
    let bound = roughness_bound(formula);
    if holds(bound, nano_of(word)?) {
        return None;
    }
    Some(WrongRange::Roughness(word, bound, formula))
}

// A time of day in hour 0 or behind hour 12, which has no AM or PM.
fn hour_fault<'a>(moment: &'a [u8], half: &'a [u8]) -> Option<WrongRange<'a>> {
    let hours = nano_of(before(moment, moment.iter().position(|byte| *byte == b':')))?;
    if hours < BILLION {
        return Some(WrongRange::HourZero(moment, half));
    }
    if 13 * BILLION <= hours {
        return Some(WrongRange::LateHour(moment, half));
    }
    None
}

// A word out of its range.
fn slot_fault<'a>(text: &[u8], filled: &Filled<'a>) -> Option<WrongRange<'a>> {
    match filled.slot {
        Slot::Number(what, bound) => number_fault(what, filled.word, bound),
        Slot::Roughness => roughness_fault(text, filled.word),
        Slot::MinorOrStatus => number_fault(say::MINOR_LOSS, filled.word, Bound::UpTo(1_000_000)),
        Slot::HalfDay => hour_fault(filled.before, filled.word),
        _ => None,
    }
}

// Levels of a tank out of order.
fn level_fault<'a>(row: &Row<'a>) -> Option<WrongRange<'a>> {
    let initial = row.word(2);
    let minimum = row.word(3);
    let maximum = row.word(4);
    if nano_of(minimum)? > nano_of(initial)? {
        return Some(WrongRange::Levels(say::MINIMUM_LEVEL, minimum, say::INITIAL_LEVEL, initial));
    }
    if nano_of(initial)? > nano_of(maximum)? {
        return Some(WrongRange::Levels(say::INITIAL_LEVEL, initial, say::MAXIMUM_LEVEL, maximum));
    }
    None
}

// A diameter of a tank that is too small.
fn diameter_fault<'a>(row: &Row<'a>) -> Option<WrongRange<'a>> {
    let curve = row.word(7);
    let diameter = row.word(5);
    if (curve.is_empty() || curve == b"*".as_slice()) && nano_of(diameter)? < LEAST_DIAMETER {
        return Some(WrongRange::TankDiameter(diameter));
    }
    None
}

// What is out of range in the row of a tank, beside single numbers.
fn tank_fault<'a>(row: &Row<'a>) -> Option<WrongRange<'a>> {
    match level_fault(row) {
        Some(fault) => Some(fault),
        None => diameter_fault(row),
    }
}

// Both ends of a link are one node.
fn end_fault<'a>(row: &Row<'a>) -> Option<WrongRange<'a>> {
    let first = row.word(1);
    if !first.is_empty() && first == row.word(2) {
        return Some(WrongRange::OneNode(first));
    }
    None
}

// What comes before the numbers of a row, or besides them.
fn early_fault<'a>(row: &Row<'a>, section: Section) -> Option<WrongRange<'a>> {
    match section {
        Section::Pipes | Section::Valves => end_fault(row),
        Section::Pumps => match end_fault(row) {
            Some(fault) => Some(fault),
            None => number_fault(say::SPEED, value_of(row, "SPEED"), Bound::UpTo(10)),
        },
        _ => None,
    }
}

// The first number of a row that is out of its range.
fn form_fault<'a>(text: &[u8], row: &Row<'a>, section: Section) -> Option<WrongRange<'a>> {
    let form = form_of(text, row, section);
    filled_slots(body_of(row.line), &form).find_map(|filled| slot_fault(text, &filled))
}

/// What is out of range in a row.
pub(crate) fn wrong_range<'a>(text: &[u8], row: &Row<'a>) -> Option<WrongRange<'a>> {
    let section = row.section()?;
    if let Some(fault) = early_fault(row, section) {
        return Some(fault);
    }
    if let Some(fault) = form_fault(text, row, section) {
        return Some(fault);
    }
    match section {
        Section::Tanks => match tank_fault(row) {
            Some(fault) => Some(fault),
            None => Some(WrongRange::Section(section)),
        },
        _ => Some(WrongRange::Section(section)),
    }
}
