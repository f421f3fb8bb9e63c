//! Words of times and of times of day (EPANET 2.2 User Manual, [TIMES]).
#![tactic(auto)]

ghost use Rattle.std.specs.Prelude.{◌≡◌, ◌≤◌, ◌<◌, ◌≤ℤ◌, ◌*◌, ◌^◌, ◌&&◌, pos, slice_get, IfOk};
ghost use Rattle.hyd_spec_lines.specs.Lines.{LiesIn};
ghost use lib.Signed.{le_z, lt_z};
ghost use Rattle.hyd_spec_input.specs.Columns as column;
ghost use Rattle.hyd_spec_input.specs.Columns.{unless};
ghost use Rattle.hyd_net.specs.declared.refusal_cause.Cause.TheVariants.{Range};
ghost use Rattle.hyd_spec_input.specs.TimesAndClockTimes as form;
ghost use Rattle.hyd_option_and_rule_lines.specs.FaultOrValue.{Judged, words_at};
ghost use Rattle.hyd_option_and_rule_lines.specs.ClockTimeOrNumber.{SaysClockTimeOrNumber};

use crate::hours_minutes_seconds::{clock_seconds, has_colon};
use crate::keywords::unit_seconds;
use crate::word_values::{ends, needed, number_of};
use hyd_lex::{Line, Lines, is_keyword};
use hyd_net::Cause;
use hyd_num::Decimal;

const BILLION: i128 = 1_000_000_000;

const HOUR: i128 = 3_600 * BILLION;

const DAY: i128 = 86_400 * BILLION;

/// The first word of a time.
#[derive(Clone, Copy, Drop)]
pub(crate) enum ClockTimeOrNumber {
    /// Hours, minutes and maybe seconds, in seconds.
    Clock(u32),
    /// A number of units.
    Number(Decimal),
}

// The first word of a time: Syntax for a word with a colon that isn't hours, minutes and seconds, Number for another
// word that is no number.
fn first_word(word: &[u8]) -> Result<ClockTimeOrNumber, Cause>
    ensures { Judged (form.moment_word word.now) result (SaysClockTimeOrNumber word.now) }
{
    if !has_colon(word) {
        let number = number_of(word)?;
        return Ok(ClockTimeOrNumber::Number(number));
    }
    match clock_seconds(word) {
        Some(seconds) => Ok(ClockTimeOrNumber::Clock(seconds)),
        None => Err(Cause::Syntax),
    }
}

// Billionths of a second, where one of the number is so many seconds.
fn nano(word: &[u8], moment: ClockTimeOrNumber, per: u32) -> i128
    requires is_moment { SaysClockTimeOrNumber word.now moment }
    requires short { per ≤ 86400 }
    ensures { result ≡ form.moment_nano per word.now }
{
    match moment {
        ClockTimeOrNumber::Clock(seconds) => i128::from(seconds) * BILLION,
        ClockTimeOrNumber::Number(number) => number.nano * i128::from(per),
    }
}

// The seconds of a time's unit, of an hour where none is given: Syntax for another word, and for a unit behind a word
// with a colon.
fn unit(text: &Lines<'_>, line: &Line, k: u32, moment: &[u8]) -> Result<u32, Cause>
    requires { LiesIn text.now.text line.now }
    ensures unit { Judged (column.optional (form.unit_word moment.now) k (words_at text.now line.now)) result
        (λ per. per ≡ form.seconds_per (slice_get (words_at text.now line.now) k)) }
    ensures short { IfOk result (λ per. per ≤ 86400) }
{
    let Some(word) = text.word(line, k) else {
        return Ok(3_600);
    };
    let Some(per) = unit_seconds(word) else {
        return Err(Cause::Syntax);
    };
    if has_colon(moment) {
        return Err(Cause::Syntax);
    }
    Ok(per)
}

// The whole seconds of a time of at least so many, cut: Range where it's negative, shorter, or above 10^8 seconds.
fn within_times(nano: i128, least: u32) -> Result<u32, Cause>
    ensures { Judged (form.time_range least nano) result (λ seconds. seconds ≡ form.whole_seconds nano) }
{
    if nano < 0 {
        return Err(Cause::Range);
    }
    let seconds = nano.unsigned_abs() / 1_000_000_000;
    if seconds < u128::from(least) || seconds > 100_000_000 {
        return Err(Cause::Range);
    }
    Ok(seconds as u32)
}

/// Reads the words from number `from` to the line's end as a time of at least so many seconds.
pub(crate) fn read_time_from(
    text: &Lines<'_>,
    line: &Line,
    from: u32,
    least: u32,
) -> Result<u32, Cause>
    requires { LiesIn text.now.text line.now }
    ensures { Judged (form.time least from (words_at text.now line.now)) result
        (λ seconds. seconds ≡ form.time_seconds from (words_at text.now line.now)) }
{
    let word = needed(text, line, from)?;
    let moment = first_word(word)?;
    let per = unit(text, line, from + 1, word)?;
    let seconds = within_times(nano(word, moment, per), least)?;
    ends(text, line, from + 2)?;
    Ok(seconds)
}

/// Reads the words from number `from` to the line's end as a time in whole seconds: a number of hours, a number and a
/// unit, or `h:mm` or `h:mm:ss`. Refused are, in this order: a missing word or a wrong form (Syntax) or number
/// (Number), a second word that this time can't have (Syntax), a time that is negative or above 10^8 seconds (Range),
/// and a further word (Syntax).
pub fn read_time(text: &Lines<'_>, line: &Line, from: u32) -> Result<u32, Cause>
    requires { LiesIn text.now.text line.now }
    ensures { Judged (form.time 0 from (words_at text.now line.now)) result
        (λ seconds. seconds ≡ form.time_seconds from (words_at text.now line.now)) }
{
    read_time_from(text, line, from, 0)
}

// AM or PM, where it is there: Syntax for another word.
fn half_day(text: &Lines<'_>, line: &Line, k: u32) -> Result<(), Cause>
    requires { LiesIn text.now.text line.now }
    ensures { Judged (column.optional form.half_day k (words_at text.now line.now)) result (λ _. Unit {0}) }
{
    let Some(word) = text.word(line, k) else {
        return Ok(());
    };
    if is_keyword(word, b"AM") {
        return Ok(());
    }
    if is_keyword(word, b"PM") {
        return Ok(());
    }
    Err(Cause::Syntax)
}

// Whole seconds from one bound in billionths to below another: Range outside.
fn between(nano: i128, low: i128, high: i128) -> Result<u32, Cause>
    requires low { pos 0 ≤ℤ low }
    requires high { high ≤ℤ pos (86400 * 10 ^ 9) }
    ensures seconds { Judged (unless (le_z low nano && lt_z nano high) Range) result
        (λ seconds. seconds ≡ form.whole_seconds nano) }
    ensures short { IfOk result (λ seconds. seconds < 86400) }
{
    if nano < low || nano >= high {
        return Err(Cause::Range);
    }
    Ok((nano.unsigned_abs() / 1_000_000_000) as u32)
}

// The second of the day, by AM or PM where it is there: Range outside its hours.
fn second_of_day(text: &Lines<'_>, line: &Line, k: u32, nano: i128) -> Result<u32, Cause>
    requires { LiesIn text.now.text line.now }
    ensures { Judged (form.clock_range (slice_get (words_at text.now line.now) k) nano) result
        (λ seconds. seconds ≡ form.of_half (slice_get (words_at text.now line.now) k) (form.whole_seconds nano)) }
{
    let Some(half) = text.word(line, k) else {
        return between(nano, 0, DAY);
    };
    let seconds = between(nano, HOUR, 13 * HOUR)?;
    if is_keyword(half, b"PM") {
        return Ok(seconds % 43_200 + 43_200);
    }
    Ok(seconds % 43_200)
}

/// Reads the words from number `from` to the line's end as a time of day in whole seconds: a time without a unit
/// below 24 hours, or such a time from 1 to below 13 hours and AM or PM, where 12 counts as 0 and PM adds 12 hours.
/// Refused are, in this order: a missing word or a wrong form (Syntax) or number (Number), a second word that isn't
/// AM or PM (Syntax), a time outside its hours (Range), and a further word (Syntax).
pub fn read_clock(text: &Lines<'_>, line: &Line, from: u32) -> Result<u32, Cause>
    requires { LiesIn text.now.text line.now }
    ensures { Judged (form.clock from (words_at text.now line.now)) result
        (λ seconds. seconds ≡ form.clock_seconds from (words_at text.now line.now)) }
{
    let word = needed(text, line, from)?;
    let moment = first_word(word)?;
    half_day(text, line, from + 1)?;
    let seconds = second_of_day(text, line, from + 1, nano(word, moment, 3_600))?;
    ends(text, line, from + 2)?;
    Ok(seconds)
}
