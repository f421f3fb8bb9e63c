//! Words of a line against what is asked of them. Words are counted from 0. A call takes a line that lies in the text, or
//! a word that was found in some words.
#![tactic(auto)]

ghost use Rattle.std.specs.Prelude.{◌≡◌, ◌<◌, ◌^◌, ℕ, List, [], ◌∷◌, Some, IfOk, slice_get};
ghost use Rattle.hyd_num.specs.Numeral.{nano_of};
ghost use Rattle.hyd_spec_lines.specs.Lines.{LiesIn};
ghost use Rattle.hyd_spec_lines.specs.WordsOfLines.{text_of};
ghost use Rattle.hyd_spec_input.specs.Columns as column;
ghost use Rattle.hyd_spec_input.specs.Columns.{any, amount};
ghost use Rattle.hyd_option_and_rule_lines.specs.FaultOrValue.{Judged, words_at};

use hyd_lex::{Line, Lines, is_keyword};
use hyd_net::Cause;
use hyd_num::{Decimal, read_decimal};

// The most bytes of an ID.
const LONGEST_ID: usize = 31;

/// A word that is needed: Syntax exactly where it isn't there.
pub fn needed_word<'a>(word: Option<&'a [u8]>) -> Result<&'a [u8], Cause>
    ensures { (words : List (List ℕ)) (k : ℕ) → text_of word.entry ≡ slice_get words k
        → Judged (column.needed any k words) result (λ word. slice_get words k ≡ Some word.now) }
{
    match word {
        Some(word) => Ok(word),
        None => Err(Cause::Syntax),
    }
}

/// A word that is needed: Syntax exactly where the line has no such word.
pub fn needed<'a>(text: &Lines<'a>, line: &Line, k: u32) -> Result<&'a [u8], Cause>
    requires { LiesIn text.now.text line.now }
    ensures word { Judged (column.needed any k (words_at text.now line.now)) result
        (λ word. slice_get (words_at text.now line.now) k ≡ Some word.now) }
    ensures few { IfOk result (λ word. k < 2 ^ 26) }
{
    match text.word(line, k) {
        Some(word) => Ok(word),
        None => Err(Cause::Syntax),
    }
}

/// Whether a word may be an ID: it has at most 31 bytes, else Limit 3.
pub fn check_id(word: &[u8]) -> Result<(), Cause>
    ensures { Judged (column.id word.now) result (λ _. Unit {0}) }
{
    if word.len() > LONGEST_ID {
        return Err(Cause::Limit(3));
    }
    Ok(())
}

/// An ID that is needed: Syntax where the word is missing, Limit 3 where it is longer than 31 bytes.
pub fn needed_id<'a>(word: Option<&'a [u8]>) -> Result<&'a [u8], Cause>
    ensures { (words : List (List ℕ)) (k : ℕ) → text_of word.entry ≡ slice_get words k
        → Judged (column.needed column.id k words) result (λ word. slice_get words k ≡ Some word.now) }
{
    let word = needed_word(word)?;
    check_id(word)?;
    Ok(word)
}

/// The ID at a place of a line that is needed, as `needed_id`.
pub fn id<'a>(text: &Lines<'a>, line: &Line, k: u32) -> Result<&'a [u8], Cause>
    requires { LiesIn text.now.text line.now }
    ensures { Judged (column.needed column.id k (words_at text.now line.now)) result
        (λ word. slice_get (words_at text.now line.now) k ≡ Some word.now) }
{
    needed_id(text.word(line, k))
}

/// The number that a word writes: Number exactly where the word is no number or one above 10^12 up or down.
pub fn number_of(word: &[u8]) -> Result<Decimal, Cause>
    ensures { Judged (column.number word.now) result (λ number. number.nano ≡ nano_of word.now) }
{
    match read_decimal(word) {
        Ok(number) => Ok(number),
        Err(_) => Err(Cause::Number),
    }
}

/// A number that is needed: Syntax where the word is missing, Number where it is no number or one above 10^12 up or
/// down.
pub fn needed_number(word: Option<&[u8]>) -> Result<Decimal, Cause>
    ensures { (words : List (List ℕ)) (k : ℕ) → text_of word.entry ≡ slice_get words k
        → Judged (column.needed column.number k words) result (λ number. number.nano ≡ amount k words) }
{
    number_of(needed_word(word)?)
}

/// A number that is needed, from one bound to another in billionths, both included: Syntax and Number as for
/// `needed_number`, Range outside the bounds.
pub fn needed_within(word: Option<&[u8]>, low: i128, high: i128) -> Result<Decimal, Cause>
    ensures { (words : List (List ℕ)) (k : ℕ) → text_of word.entry ≡ slice_get words k
        → Judged (column.needed (column.number_within low high) k words) result
        (λ number. number.nano ≡ amount k words) }
{
    let number = needed_number(word)?;
    if number.nano < low || number.nano > high {
        return Err(Cause::Range);
    }
    Ok(number)
}

/// The number at a place of a line that is needed, as `needed_number`.
pub fn number(text: &Lines<'_>, line: &Line, k: u32) -> Result<Decimal, Cause>
    requires { LiesIn text.now.text line.now }
    ensures { Judged (column.needed column.number k (words_at text.now line.now)) result
        (λ number. number.nano ≡ amount k (words_at text.now line.now)) }
{
    needed_number(text.word(line, k))
}

/// The number at a place of a line that is needed, between bounds, as `needed_within`.
pub fn number_within(
    text: &Lines<'_>,
    line: &Line,
    k: u32,
    low: i128,
    high: i128,
) -> Result<Decimal, Cause>
    requires { LiesIn text.now.text line.now }
    ensures { Judged (column.needed (column.number_within low high) k (words_at text.now line.now)) result
        (λ number. number.nano ≡ amount k (words_at text.now line.now)) }
{
    needed_within(text.word(line, k), low, high)
}

/// A number of at least 0 that is needed: Syntax and Number as for `number`, Range below 0.
pub fn not_negative(text: &Lines<'_>, line: &Line, k: u32) -> Result<Decimal, Cause>
    requires { LiesIn text.now.text line.now }
    ensures { Judged (column.needed column.not_negative k (words_at text.now line.now)) result
        (λ number. number.nano ≡ amount k (words_at text.now line.now)) }
{
    let word = needed(text, line, k)?;
    let number = number_of(word)?;
    if number.nano < 0 {
        return Err(Cause::Range);
    }
    Ok(number)
}

/// Whether there is no word: Syntax where there is one.
pub fn no_word(word: Option<&[u8]>) -> Result<(), Cause>
    ensures { (words : List (List ℕ)) (k : ℕ) → text_of word.entry ≡ slice_get words k
        → Judged (column.ends k words) result (λ _. Unit {0}) }
{
    match word {
        Some(_) => Err(Cause::Syntax),
        None => Ok(()),
    }
}

/// Whether a line has no word of this number: Syntax where it has.
pub fn ends(text: &Lines<'_>, line: &Line, k: u32) -> Result<(), Cause>
    requires { LiesIn text.now.text line.now }
    ensures { Judged (column.ends k (words_at text.now line.now)) result (λ _. Unit {0}) }
{
    no_word(text.word(line, k))
}

/// Whether a word is there and is this keyword.
pub fn word_is(text: &Lines<'_>, line: &Line, k: u32, keyword: &[u8]) -> bool
    requires { LiesIn text.now.text line.now }
    ensures { result ≡ column.word_is k keyword.now (words_at text.now line.now) }
{
    match text.word(line, k) {
        Some(word) => is_keyword(word, keyword),
        None => false,
    }
}

/// A keyword that is needed: Syntax where the word is missing or another.
pub fn keyword(text: &Lines<'_>, line: &Line, k: u32, keyword: &[u8]) -> Result<(), Cause>
    requires { LiesIn text.now.text line.now }
    ensures { Judged (column.needed (column.one_of (keyword.now ∷ [])) k (words_at text.now line.now)) result
        (λ _. Unit {0}) }
{
    if word_is(text, line, k, keyword) {
        return Ok(());
    }
    Err(Cause::Syntax)
}

/// One of two keywords that is needed, and whether it is the first of them: Syntax where the word is missing or
/// another.
pub fn either_keyword(
    text: &Lines<'_>,
    line: &Line,
    k: u32,
    first: &[u8],
    second: &[u8],
) -> Result<bool, Cause>
    requires { LiesIn text.now.text line.now }
    ensures { Judged (column.needed (column.one_of (first.now ∷ second.now ∷ [])) k (words_at text.now line.now)) result
        (λ is_first. is_first ≡ column.word_is k first.now (words_at text.now line.now)) }
{
    let word = needed(text, line, k)?;
    if is_keyword(word, first) {
        return Ok(true);
    }
    if is_keyword(word, second) {
        return Ok(false);
    }
    Err(Cause::Syntax)
}

/// A word, empty where it isn't there.
pub fn or_empty<'a>(text: &Lines<'a>, line: &Line, k: u32) -> &'a [u8]
    requires { LiesIn text.now.text line.now }
    ensures { result.now ≡ column.word k (words_at text.now line.now) }
{
    match text.word(line, k) {
        Some(word) => word,
        None => b"",
    }
}
