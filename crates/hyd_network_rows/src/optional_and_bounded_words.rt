//! Words that may be missing, and words with bounds. Words are counted from 0. Each call takes a line that lies in the
//! text.
#![tactic(auto)]

ghost use Rattle.std.specs.Prelude.{◌≡◌, ℕ, List, drop, slice_get, pos};
ghost use lib.Signed.{le_z};
ghost use Rattle.hyd_num.specs.Numeral.{nano_of};
ghost use Rattle.hyd_spec_lines.specs.WordsOfLines.{text_of, words_in};
ghost use Rattle.hyd_spec_lines.specs.Lines.{LiesIn};
ghost use Rattle.hyd_option_and_rule_lines.specs.FaultOrValue.{Judged, words_at};
ghost use Rattle.hyd_spec_input.specs.Columns as column;
ghost use Rattle.hyd_spec_input.specs.Columns.{amount, amount_or};
ghost use Rattle.hyd_spec_input.specs.NodeAndLinkRows as row;

use hyd_lex::{Line, Lines, split_word};
use hyd_net::Cause;
use hyd_num::Decimal;
use hyd_option_and_rule_lines::{check_id, needed, number_of};

/// An ID that may be missing: Limit 3 where it is longer than 31 bytes.
pub(crate) fn given_id(word: Option<&[u8]>) -> Result<Option<&[u8]>, Cause>
    ensures { (words : List (List ℕ)) (k : ℕ) → text_of word.entry ≡ slice_get words k
        → Judged (column.optional column.id k words) result (λ word. text_of word ≡ slice_get words k) }
{
    if let Some(word) = word {
        check_id(word)?;
    }
    Ok(word)
}

/// The ID at a place of a line that may be missing, as `given_id`.
pub(crate) fn optional_id<'a>(
    text: &Lines<'a>,
    line: &Line,
    k: u32,
) -> Result<Option<&'a [u8]>, Cause>
    requires { LiesIn text.now.text line.now }
    ensures { Judged (column.optional column.id k (words_at text.now line.now)) result
        (λ word. text_of word ≡ slice_get (words_at text.now line.now) k) }
{
    given_id(text.word(line, k))
}

/// A number, 0 where it is missing.
pub(crate) fn given_or_0(word: Option<&[u8]>) -> Result<Decimal, Cause>
    ensures { (words : List (List ℕ)) (k : ℕ) → text_of word.entry ≡ slice_get words k
        → Judged (column.optional column.number k words) result (λ number. number.nano ≡ amount_or (pos 0) k words) }
{
    match word {
        Some(word) => number_of(word),
        None => Ok(Decimal { nano: 0 }),
    }
}

/// The number at a place of a line, 0 where it is missing.
pub(crate) fn number_or_0(text: &Lines<'_>, line: &Line, k: u32) -> Result<Decimal, Cause>
    requires { LiesIn text.now.text line.now }
    ensures { Judged (column.optional column.number k (words_at text.now line.now)) result
        (λ number. number.nano ≡ amount_or (pos 0) k (words_at text.now line.now)) }
{
    given_or_0(text.word(line, k))
}

/// A word that is a number from one bound to another in billionths, both included: Number where it is no number or
/// one above 10^12 up or down, Range outside the bounds.
pub(crate) fn within(word: &[u8], low: i128, high: i128) -> Result<Decimal, Cause>
    ensures { Judged (column.number_within low high word.now) result (λ number. number.nano ≡ nano_of word.now) }
{
    let number = number_of(word)?;
    if number.nano < low || number.nano > high {
        return Err(Cause::Range);
    }
    Ok(number)
}

/// A number from one bound to another in billionths, both included, 0 where it is missing.
pub(crate) fn within_or_0(
    text: &Lines<'_>,
    line: &Line,
    k: u32,
    low: i128,
    high: i128,
) -> Result<Decimal, Cause>
    requires { LiesIn text.now.text line.now }
    ensures { Judged (column.optional (column.number_within low high) k (words_at text.now line.now)) result
        (λ number. number.nano ≡ amount_or (pos 0) k (words_at text.now line.now)) }
{
    match text.word(line, k) {
        Some(word) => within(word, low, high),
        None => Ok(Decimal { nano: 0 }),
    }
}

/// A number of at least 0, 0 where it is missing.
pub(crate) fn not_negative_or_0(text: &Lines<'_>, line: &Line, k: u32) -> Result<Decimal, Cause>
    requires { LiesIn text.now.text line.now }
    ensures { Judged (column.optional column.not_negative k (words_at text.now line.now)) result
        (λ number. number.nano ≡ amount_or (pos 0) k (words_at text.now line.now)) }
{
    let number = number_or_0(text, line, k)?;
    if number.nano < 0 {
        return Err(Cause::Range);
    }
    Ok(number)
}

/// A level that is needed: at least 0 and at least another.
pub(crate) fn level_from(
    text: &Lines<'_>,
    line: &Line,
    k: u32,
    least: i128,
) -> Result<Decimal, Cause>
    requires { LiesIn text.now.text line.now }
    ensures { Judged (column.needed (row.level (λ nano. le_z least nano)) k (words_at text.now line.now)) result
        (λ number. number.nano ≡ amount k (words_at text.now line.now)) }
{
    let word = needed(text, line, k)?;
    let number = number_of(word)?;
    if number.nano < 0 || number.nano < least {
        return Err(Cause::Range);
    }
    Ok(number)
}

/// The words behind the first.
pub(crate) fn behind_first(body: &[u8]) -> &[u8]
    ensures { words_in result.now ≡ drop 1 (words_in body.now) }
{
    match split_word(body) {
        Some((_, rest)) => rest,
        None => body,
    }
}
