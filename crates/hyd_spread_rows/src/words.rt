//! Words of a line against what is asked of them. Words are counted from 0.
#![tactic(auto)]

ghost use Rattle.std.specs.Prelude.{◌≡◌, ◌^◌, ◌≤◌, ◌≤ℤ◌, pos, unsigned_abs, Some, IfOk, slice_get};
ghost use Rattle.hyd_num.specs.Numeral.{nano_of};
ghost use Rattle.hyd_spec_lines.specs.WordsOfLines.{words_in};
ghost use Rattle.hyd_option_and_rule_lines.specs.FaultOrValue.{Judged};
ghost use Rattle.hyd_spec_input.specs.Columns as column;
ghost use Rattle.hyd_spec_input.specs.Columns.{any, amount};
ghost use Rattle.hyd_spec_spread_rows.specs.RowsOfSpreads as row;

use crate::lines::word_at;
use hyd_net::Cause;
use hyd_num::Decimal;
use hyd_option_and_rule_lines::{check_id, number_of};

/// A word, empty where it isn't there.
pub(crate) fn or_empty(body: &[u8], k: u32) -> &[u8]
    ensures { result.now ≡ column.word k (words_in body.now) }
{
    match word_at(body, k) {
        Some(word) => word,
        None => b"",
    }
}

/// A word that is needed: Syntax exactly where the line has no such word.
pub(crate) fn needed(body: &[u8], k: u32) -> Result<&[u8], Cause>
    ensures { Judged (column.needed any k (words_in body.now)) result
        (λ word. slice_get (words_in body.now) k ≡ Some word.now) }
{
    match word_at(body, k) {
        Some(word) => Ok(word),
        None => Err(Cause::Syntax),
    }
}

/// An ID that is needed: Syntax where the word is missing, Limit 3 where it is longer than 31 bytes.
pub(crate) fn id(body: &[u8], k: u32) -> Result<&[u8], Cause>
    ensures { Judged (column.needed column.id k (words_in body.now)) result
        (λ word. word.now ≡ column.word k (words_in body.now)) }
{
    let word = needed(body, k)?;
    check_id(word)?;
    Ok(word)
}

/// A number that is needed, from one bound to another in billionths, both included: Syntax where the word is missing,
/// Number where it is no number or one above 10^12 up or down, Range outside the bounds.
pub(crate) fn number_within(body: &[u8], k: u32, low: i128, high: i128) -> Result<Decimal, Cause>
    ensures { Judged (column.needed (column.number_within low high) k (words_in body.now)) result
        (λ number. number.nano ≡ amount k (words_in body.now)) }
{
    let word = needed(body, k)?;
    let number = number_of(word)?;
    if number.nano < low || number.nano > high {
        return Err(Cause::Range);
    }
    Ok(number)
}

/// Whether a line has no word of this number: Syntax where it has.
pub(crate) fn ends(body: &[u8], k: u32) -> Result<(), Cause>
    ensures { Judged (column.ends k (words_in body.now)) result (λ _. Unit {0}) }
{
    if word_at(body, k).is_some() {
        return Err(Cause::Syntax);
    }
    Ok(())
}

/// Whether a word ends by `%`.
pub(crate) fn ends_by_percent(word: &[u8]) -> bool
    ensures { result ≡ row.ends_by_percent word.now }
{
    match word {
        [.., b'%'] => true,
        _ => false,
    }
}

// What stands before the last byte of a word.
fn before_percent(word: &[u8]) -> &[u8]
    ensures { result.now ≡ row.before_percent word.now }
{
    match word {
        [front @ .., _] => front,
        [] => word,
    }
}

/// A percentage from 0 to a greatest one in billionths, in the third word: Syntax where that is missing, Number where
/// what stands before its last byte is no number, Range where it lies outside.
pub(crate) fn percentage(body: &[u8], most: i128) -> Result<u64, Cause>
    requires { most ≤ℤ pos (10 ^ 11) }
    ensures value { Judged (column.needed (row.percent most) 2 (words_in body.now)) result
        (λ number. number ≡ unsigned_abs (nano_of (row.before_percent (column.word 2 (words_in body.now))))) }
    ensures few { IfOk result (λ number. number ≤ 10 ^ 11) }
{
    let word = needed(body, 2)?;
    let number = number_of(before_percent(word))?;
    if number.nano < 0 || number.nano > most {
        return Err(Cause::Range);
    }
    Ok(number.nano as u64)
}
