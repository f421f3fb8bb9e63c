//! Words that should be numbers and aren't.

use crate::filled_slots::{Filled, filled_slots};
use crate::forms::Slot;
use crate::forms_of_rows::form_of;
use crate::pump_pairs::value_of;
use crate::rows::{Row, body_of, is_one_of};
use crate::sentences::WrongNumber;
use hyd_num::{NumFault, all_digits, before, read_decimal};
use hyd_spec_lines::Section;

// A word that is a number but for a comma in place of its point; before three digits it may part thousands.
fn comma_fault<'a>(word: &'a [u8]) -> Option<WrongNumber<'a>> {
    let place = word.iter().position(|byte| *byte == b',')?;
    let decimals = word.get(place.saturating_add(1)..)?;
    let whole = before(word, Some(place));
    if whole.is_empty() || decimals.is_empty() || decimals.len() == 3 || whole.contains(&b'.') {
        return None;
    }
    if read_decimal(whole).is_ok() && all_digits(decimals) {
        return Some(WrongNumber::Comma(word, whole, decimals));
    }
    None
}

// What is wrong with a word that should be a number; another word for where it is none may be given.
fn number_fault<'a>(word: &'a [u8], other: WrongNumber<'a>) -> Option<WrongNumber<'a>> {
    match read_decimal(word) {
        Ok(_) => None,
        Err(NumFault::TooLarge) => Some(WrongNumber::TooLarge(word)),
        Err(NumFault::NotANumber) => match comma_fault(word) {
            Some(fault) => Some(fault),
            None => Some(other),
        },
    }
}

// What is wrong with a word, where it should be a number.
fn slot_fault<'a>(filled: &Filled<'a>) -> Option<WrongNumber<'a>> {
    let word = filled.word;
    match filled.slot {
        Slot::Number(..) | Slot::Roughness => number_fault(word, WrongNumber::NoNumber(word)),
        Slot::State if !is_one_of(word, "OPEN CLOSED") => number_fault(
            word,
            WrongNumber::State(word),
        ),
        Slot::MinorOrStatus if !is_one_of(word, "OPEN CLOSED CV") => {
            number_fault(word, WrongNumber::NoNumber(word))
        }
        Slot::Moment if !word.contains(&b':') => number_fault(word, WrongNumber::Time(word)),
        _ => None,
    }
}

/// The first word of a row that should be a number and isn't, or is too large.
pub(crate) fn wrong_number<'a>(text: &[u8], row: &Row<'a>) -> Option<WrongNumber<'a>> {
    let section = row.section()?;
    if let Section::Pumps = section {
        let speed = value_of(row, "SPEED");
        if speed.is_empty() {
            return None;
        }
        return number_fault(speed, WrongNumber::NoNumber(speed));
    }
    let form = form_of(text, row, section);
    filled_slots(body_of(row.line), &form).find_map(|filled| slot_fault(&filled))
}
