//! Words of hours, minutes and seconds.
#![tactic(auto)]

ghost use Rattle.std.specs.Prelude.{◌≡◌, ◌∷◌, ◌<◌, ◌*◌, ◌+◌, [], false, true, min, IfSome, IfNone, position};
ghost use Rattle.std.specs.List.{slice_split};
ghost use Rattle.hyd_num.specs.Numeral as numeral;
ghost use Rattle.hyd_spec_input.specs.TimesAndClockTimes as moments;
ghost use Rattle.hyd_spec_input.specs.TimesAndClockTimes.{is_colon};
ghost use Rattle.hyd_option_and_rule_lines.specs.HoursMinutesSeconds as parts_form;

use hyd_num::all_digits;

/// A word between its colons.
#[derive(Clone, Copy, Drop)]
pub(crate) struct Parts<'a> {
    hours: &'a [u8],
    minutes: &'a [u8],
    seconds: Option<&'a [u8]>,
}

fn colon(word: &[u8]) -> Option<usize>
    ensures { result ≡ position is_colon word.now }
{
    word.iter().position(|byte| *byte == b':')
}

/// Whether a word has a colon.
pub(crate) fn has_colon(word: &[u8]) -> bool
    ensures { result ≡ moments.has_colon word.now }
{
    word.iter().any(|byte| *byte == b':')
}

// What stands before and behind the first colon.
fn split_colon(word: &[u8]) -> Option<(&[u8], &[u8])>
    ensures some { IfSome result (λ p. slice_split is_colon word.now ≡ p.0.now ∷ slice_split is_colon p.1.now) }
    ensures none { IfNone result (slice_split is_colon word.now ≡ word.now ∷ []) }
{
    let place = colon(word)?;
    if place < word.len() {
        return Some((&word[..place], &word[place + 1..]));
    }
    None
}

fn are_digits(part: &[u8], most: usize) -> bool
    ensures { result ≡ moments.are_digits most part.now }
{
    all_digits(part) && part.len() >= 1 && part.len() <= most
}

// Hours, minutes and seconds between colons.
fn time_parts<'a>(word: &'a [u8]) -> Option<Parts<'a>>
    ensures some { IfSome result (λ p. slice_split is_colon word.now ≡ parts_form.pieces p) }
    ensures none { IfNone result (moments.are_parts (slice_split is_colon word.now) ≡ false) }
{
    let (hours, rest) = split_colon(word)?;
    let Some((minutes, rest)) = split_colon(rest) else {
        return Some(Parts {
            hours,
            minutes: rest,
            seconds: None,
        });
    };
    if has_colon(rest) {
        return None;
    }
    Some(Parts {
        hours,
        minutes,
        seconds: Some(rest),
    })
}

// The number that digits write, and no more than a million.
fn number(digits: &[u8]) -> u32
    ensures { result ≡ min (numeral.number digits.now) 1000000 }
{
    let mut number = 0u32;
    for digit in digits {
        number = (10 * number + u32::from(digit.saturating_sub(b'0'))).min(1_000_000);
    }
    number
}

// Minutes or seconds: one or two digits, below 60.
fn sixtieth(part: &[u8]) -> Option<u32>
    ensures some { IfSome result (λ n. (moments.is_sixtieth part.now ≡ true) × (n ≡ numeral.number part.now)
        × (n < 60)) }
    ensures none { IfNone result (moments.is_sixtieth part.now ≡ false) }
{
    if !are_digits(part, 2) {
        return None;
    }
    let number = number(part);
    if number >= 60 {
        return None;
    }
    Some(number)
}

// Hours: one to six digits.
fn hours(part: &[u8]) -> Option<u32>
    ensures some { IfSome result (λ n. (moments.are_digits 6 part.now ≡ true) × (n ≡ numeral.number part.now)
        × (n < 1000000)) }
    ensures none { IfNone result (moments.are_digits 6 part.now ≡ false) }
{
    if !are_digits(part, 6) {
        return None;
    }
    Some(number(part))
}

// The seconds that may be missing, 0 where they are.
fn last_sixtieth(part: Option<&[u8]>) -> Option<u32>
    ensures some { IfSome result (λ n. parts_form.IsLast part.entry n) }
    ensures none { IfNone result (parts_form.last_is_wrong part.entry) }
{
    match part {
        Some(part) => sixtieth(part),
        None => Some(0),
    }
}

/// The seconds of a word of hours, minutes and maybe seconds between colons. `None` comes exactly where a word has
/// another form.
pub(crate) fn clock_seconds(word: &[u8]) -> Option<u32>
    ensures some { IfSome result (λ n. (moments.are_parts (slice_split is_colon word.now) ≡ true)
        × (n ≡ moments.seconds_of_parts (slice_split is_colon word.now))) }
    ensures none { IfNone result (moments.are_parts (slice_split is_colon word.now) ≡ false) }
{
    let parts = time_parts(word)?;
    let hours = hours(parts.hours)?;
    let minutes = sixtieth(parts.minutes)?;
    let seconds = last_sixtieth(parts.seconds)?;
    Some(3_600 * hours + 60 * minutes + seconds)
}
