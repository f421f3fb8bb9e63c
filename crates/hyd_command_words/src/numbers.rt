//! The numbers among the words.

ghost use Rattle.std.specs.Prelude.{◌≡◌, ◌<◌, ◌≤◌, ◌^◌, ◌*◌, ◌+◌, ◌-◌, min, fold, option_map, unsigned_abs, IfSome};
ghost use Rattle.hyd_num.specs.Numeral.{number};
ghost use Rattle.hyd_command_words.specs.CommandGrammar as orders;
ghost use Rattle.hyd_command_words.specs.CommandView.{texts_seen};

use hyd_num::{Decimal, HEAD_TICKS_IN_BILLIONTH_OF_METRE, NumFault, all_digits, read_decimal};

// More than ten digits write.
const BEYOND: u64 = 10_000_000_000;

// 1,000 m in billionths.
const GREATEST_WIDTH: i128 = 1_000_000_000_000;

// 10^4 of the file's pressure unit in billionths.
const GREATEST_PRESSURE: u128 = 10_000_000_000_000;

// Head ticks in a billionth of a metre.
const TICKS: i128 = HEAD_TICKS_IN_BILLIONTH_OF_METRE as i128;

/// The greatest number of rounds of a vector where a command gives none.
pub const DEFAULT_ROUNDS: u32 = 200;

/// By how many seconds an end of a period may be open where a command doesn't say: by none.
pub const DEFAULT_SLACK: u32 = 0;

/// The width in head ticks of 10^-13 m where a command gives none: 0.01 m.
pub const DEFAULT_WIDTH: i64 = 100_000_000_000;

/// N, the greatest number of rounds, by the values that are given for it.
pub(crate) fn rounds_of(values: &[&str]) -> Option<u32>
    ensures { result ≡ orders.rounds_of (texts_seen values.now) }
{
    match values {
        [] => Some(DEFAULT_ROUNDS),
        [value] => number_within(value.as_bytes(), 6, 0, 100_000),
        _ => None,
    }
}

/// W in head ticks, by the values that are given for it.
pub(crate) fn width_of(values: &[&str]) -> Option<i64>
    ensures { result ≡ orders.width_of (texts_seen values.now) }
{
    match values {
        [] => Some(DEFAULT_WIDTH),
        [value] => width_in_ticks(value.as_bytes()),
        _ => None,
    }
}

// A number of metres above 0 and at most 1,000, in head ticks.
fn width_in_ticks(text: &[u8]) -> Option<i64>
    ensures { result ≡ orders.width_in_ticks text.now }
{
    let metres = match read_decimal(text) {
        Ok(metres) => metres,
        Err(NumFault::NotANumber) => return None,
        Err(NumFault::TooLarge) => return None,
    };
    if metres.nano <= 0 || metres.nano > GREATEST_WIDTH {
        return None;
    }
    Some((metres.nano * TICKS) as i64)
}

/// N of `--slack`, seconds, by the values that are given for it.
pub(crate) fn slack_of(values: &[&str]) -> Option<u32>
    ensures { result ≡ orders.slack_of (texts_seen values.now) }
{
    match values {
        [] => Some(DEFAULT_SLACK),
        [value] => number_within(value.as_bytes(), 5, 0, 86_400),
        _ => None,
    }
}

/// P, a number of at most 10^4 in magnitude.
pub(crate) fn pressure_of(text: &[u8]) -> Option<Decimal>
    ensures pressure { option_map (λ pressure. pressure.nano) result ≡ orders.pressure_of text.now }
    ensures small { IfSome result (λ pressure. unsigned_abs pressure.nano ≤ 10 ^ 13) }
{
    let pressure = match read_decimal(text) {
        Ok(pressure) => pressure,
        Err(NumFault::NotANumber) => return None,
        Err(NumFault::TooLarge) => return None,
    };
    if pressure.nano.unsigned_abs() > GREATEST_PRESSURE {
        return None;
    }
    Some(pressure)
}

/// A number of at most this many digits, from the least to the greatest.
pub(crate) fn number_within(text: &[u8], most: usize, least: u32, greatest: u32) -> Option<u32>
    ensures { result ≡ orders.number_within most least greatest text.now }
{
    if !is_short_number(text, most) {
        return None;
    }
    let number = number(text);
    if number < u64::from(least) || number > u64::from(greatest) {
        return None;
    }
    Some(number as u32)
}

// One digit at least, at most this many, and nothing else.
fn is_short_number(text: &[u8], most: usize) -> bool
    ensures { result ≡ orders.is_short_number most text.now }
{
    all_digits(text) && text.len() >= 1 && text.len() <= most
}

// The number that digits write, and no more than `BEYOND`.
fn number(digits: &[u8]) -> u64
    ensures { result ≡ min (fold (λ n c. 10 * n + (c - 48)) 0 digits.now) BEYOND }
{
    let mut number = 0;
    for c in digits {
        number = (10 * number + u64::from(c.saturating_sub(b'0'))).min(BEYOND);
    }
    number
}
