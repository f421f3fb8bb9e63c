//! Rows of pumps (EPANET 2.2 User Manual, [PUMPS]).
#![tactic(auto)]

ghost use Rattle.std.specs.Prelude.{◌≡◌, None, codes, drop};
ghost use Rattle.hyd_spec_lines.specs.WordsOfLines.{text_of, words_in};
ghost use Rattle.hyd_spec_lines.specs.Headings.{is_one_of};
ghost use Rattle.hyd_spec_lines.specs.Lines.{LiesIn};
ghost use Rattle.hyd_option_and_rule_lines.specs.FaultOrValue.{Judged, words_at};
ghost use Rattle.hyd_spec_input.specs.NodeAndLinkRows as row;
ghost use Rattle.hyd_network_rows.specs.Rows.{IsPumpRow};

use crate::end_nodes::{LinkEnds, read_ends};
use crate::optional_and_bounded_words::{behind_first, within};
use hyd_lex::{Line, Lines, is_keyword, split_word};
use hyd_net::Cause;
use hyd_net::ranges::GREATEST_SPEED;
use hyd_num::Decimal;
use hyd_option_and_rule_lines::{check_id, number_of};
use hyd_spec_input::EarlierKeys;

const ONE: i128 = 1_000_000_000;

/// A row of [PUMPS].
#[derive(Clone, Copy, Drop)]
pub struct PumpRow<'a> {
    pub ends: LinkEnds<'a>,
    /// The curve of its heads.
    pub curve: &'a [u8],
    /// Its speed, 1 where none is given.
    pub speed: Decimal,
    /// The pattern of its speeds.
    pub pattern: Option<&'a [u8]>,
}

fn is_pump_keyword(word: &[u8]) -> bool
    ensures { result ≡ is_one_of row.pump_keywords word.now }
{
    if is_keyword(word, b"HEAD") {
        return true;
    }
    if is_keyword(word, b"SPEED") {
        return true;
    }
    if is_keyword(word, b"PATTERN") {
        return true;
    }
    is_keyword(word, b"POWER")
}

fn is_repeated(earlier: EarlierKeys, word: &[u8]) -> bool
    ensures { result ≡ row.is_repeated earlier word.now }
{
    if is_keyword(word, b"HEAD") {
        return earlier.head;
    }
    if is_keyword(word, b"SPEED") {
        return earlier.speed;
    }
    if is_keyword(word, b"PATTERN") {
        return earlier.pattern;
    }
    false
}

fn and_key(earlier: EarlierKeys, word: &[u8]) -> EarlierKeys
    ensures { result ≡ row.and_key earlier word.now }
{
    EarlierKeys {
        head: earlier.head || is_keyword(word, b"HEAD"),
        speed: earlier.speed || is_keyword(word, b"SPEED"),
        pattern: earlier.pattern || is_keyword(word, b"PATTERN"),
    }
}

// A keyword that no earlier pair has: Unsupported 3 for POWER.
fn check_key(earlier: EarlierKeys, word: &[u8]) -> Result<(), Cause>
    ensures { Judged (row.pump_key earlier word.now) result (λ _. Unit {0}) }
{
    if !is_pump_keyword(word) {
        return Err(Cause::Syntax);
    }
    if is_repeated(earlier, word) {
        return Err(Cause::Syntax);
    }
    if is_keyword(word, b"POWER") {
        return Err(Cause::Unsupported(3));
    }
    Ok(())
}

// A speed, or the ID of a curve or pattern.
fn check_value(key: &[u8], word: &[u8]) -> Result<(), Cause>
    ensures { Judged (row.pump_value key.now word.now) result (λ _. Unit {0}) }
{
    if is_keyword(key, b"SPEED") {
        within(word, 0, GREATEST_SPEED)?;
        return Ok(());
    }
    check_id(word)
}

// Pairs of a keyword and a value.
fn check_pairs(pairs: &[u8]) -> Result<(), Cause>
    ensures { Judged (row.pump_pairs row.none_earlier (words_in pairs.now)) result (λ _. Unit {0}) }
{
    let mut rest = pairs;
    let mut earlier = EarlierKeys {
        head: false,
        speed: false,
        pattern: false,
    };
    while let Some((key, behind)) = split_word(rest) {
        check_key(earlier, key)?;
        let Some((value, next)) = split_word(behind) else {
            return Err(Cause::Syntax);
        };
        check_value(key, value)?;
        earlier = and_key(earlier, key);
        rest = next;
    }
    Ok(())
}

// The value of a keyword among pairs.
fn pair_value<'a>(pairs: &'a [u8], keyword: &[u8]) -> Option<&'a [u8]>
    ensures { text_of result ≡ row.pair_value keyword.now (words_in pairs.now) }
{
    let mut rest = pairs;
    while let Some((key, behind)) = split_word(rest) {
        let (value, next) = split_word(behind)?;
        if is_keyword(key, keyword) {
            return Some(value);
        }
        rest = next;
    }
    None
}

// The speed among pairs that are right, 1 where it isn't there.
fn speed(pairs: &[u8]) -> Result<Decimal, Cause>
    requires { row.pump_pairs row.none_earlier (words_in pairs.now) ≡ None }
    ensures { Judged None result
        (λ speed. speed.nano ≡ row.speed_of (row.pair_value (codes "SPEED") (words_in pairs.now))) }
{
    match pair_value(pairs, b"SPEED") {
        Some(word) => number_of(word),
        None => Ok(Decimal { nano: ONE }),
    }
}

// The words behind the third.
fn pairs<'a>(text: &Lines<'a>, line: &Line) -> &'a [u8]
    requires { LiesIn text.now.text line.now }
    ensures { words_in result.now ≡ drop 3 (words_at text.now line.now) }
{
    behind_first(behind_first(behind_first(text.body(line))))
}

/// Reads a row of [PUMPS]: ID, two nodes, and pairs of a keyword and a value: HEAD and a curve, which is needed, SPEED
/// and a number, PATTERN and an ID, each at most once, in any order. Refused are, at the first word that is wrong: a
/// missing word, another keyword and one that stands twice (Syntax), an ID longer than 31 bytes (Limit 3), a word that
/// is no number or one above 10^12 up or down (Number), a second node that is the first and a speed outside 0 to 10
/// (Range), and POWER (Unsupported 3).
pub fn read_pump<'a>(text: &Lines<'a>, line: &Line) -> Result<PumpRow<'a>, Cause>
    requires { LiesIn text.now.text line.now }
    ensures { Judged (row.pump (words_at text.now line.now)) result (IsPumpRow (words_at text.now line.now)) }
{
    let link = read_ends(&text.first_words(line))?;
    let pairs = pairs(text, line);
    check_pairs(pairs)?;
    let Some(curve) = pair_value(pairs, b"HEAD") else {
        return Err(Cause::Syntax);
    };
    let speed = speed(pairs)?;
    Ok(PumpRow {
        ends: link,
        curve,
        speed,
        pattern: pair_value(pairs, b"PATTERN"),
    })
}
