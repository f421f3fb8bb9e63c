//! Rows of tanks (EPANET 2.2 User Manual, [TANKS]).
#![tactic(auto)]

ghost use Rattle.std.specs.Prelude.{◌≡◌, [], ◌∷◌, codes};
ghost use Rattle.hyd_spec_lines.specs.WordsOfLines.{text_of};
ghost use Rattle.hyd_spec_lines.specs.Lines.{LiesIn};
ghost use Rattle.hyd_option_and_rule_lines.specs.FaultOrValue.{Judged, words_at};
ghost use Rattle.hyd_spec_input.specs.Columns as column;
ghost use Rattle.hyd_spec_input.specs.Columns.{amount};
ghost use Rattle.hyd_spec_input.specs.NodeAndLinkRows as row;
ghost use Rattle.hyd_network_rows.specs.Rows.{IsTankRow};

use crate::optional_and_bounded_words::{level_from, not_negative_or_0};
use hyd_lex::{Line, Lines, is_keyword};
use hyd_net::Cause;
use hyd_num::Decimal;
use hyd_option_and_rule_lines::{check_id, ends, id, not_negative, number, number_within};

/// The least diameter of a tank without a volume curve, in billionths of a foot or a metre.
const LEAST_TANK_DIAMETER: i128 = 100_000_000;

/// The greatest diameter of a tank, in billionths of a foot or a metre.
const GREATEST_TANK_DIAMETER: i128 = 1_000 * 1_000_000_000;

/// A row of [TANKS], in the file's units. Levels stand above the bottom.
#[derive(Clone, Copy, Drop)]
pub struct TankRow<'a> {
    pub id: &'a [u8],
    /// The elevation of its bottom.
    pub bottom: Decimal,
    pub initial: Decimal,
    pub minimum: Decimal,
    pub maximum: Decimal,
    /// Not used where there is a volume curve.
    pub diameter: Decimal,
    /// Its volume curve.
    pub curve: Option<&'a [u8]>,
    /// Whether it takes in water when it is full, which is spilled.
    pub overflows: bool,
}

// The volume curve that a row names, where its word is there and isn't `*`.
fn named_curve<'a>(text: &Lines<'a>, line: &Line) -> Option<&'a [u8]>
    requires { LiesIn text.now.text line.now }
    ensures { text_of result ≡ row.tank_curve (words_at text.now line.now) }
{
    let word = text.word(line, 7)?;
    if word == b"*".as_slice() {
        return None;
    }
    Some(word)
}

// `*` or an ID, where the word is there.
fn curve<'a>(text: &Lines<'a>, line: &Line) -> Result<Option<&'a [u8]>, Cause>
    requires { LiesIn text.now.text line.now }
    ensures { Judged (column.optional row.curve_or_none 7 (words_at text.now line.now)) result
        (λ curve. text_of curve ≡ row.tank_curve (words_at text.now line.now)) }
{
    let Some(name) = named_curve(text, line) else {
        return Ok(None);
    };
    check_id(name)?;
    Ok(Some(name))
}

// A diameter: a tenth of a unit at least, or 0 where there is a volume curve, and 1,000 at most.
fn diameter(text: &Lines<'_>, line: &Line) -> Result<Decimal, Cause>
    requires { LiesIn text.now.text line.now }
    ensures { Judged (column.needed (row.diameter (words_at text.now line.now)) 5 (words_at text.now line.now)) result
        (λ number. number.nano ≡ amount 5 (words_at text.now line.now)) }
{
    match named_curve(text, line) {
        Some(_) => number_within(text, line, 5, 0, GREATEST_TANK_DIAMETER),
        None => number_within(text, line, 5, LEAST_TANK_DIAMETER, GREATEST_TANK_DIAMETER),
    }
}

// NO or YES, where the word is there, and whether it is YES.
fn overflows(text: &Lines<'_>, line: &Line) -> Result<bool, Cause>
    requires { LiesIn text.now.text line.now }
    ensures { Judged (column.optional (column.one_of (codes "NO" ∷ codes "YES" ∷ [])) 8 (words_at text.now line.now))
        result (λ overflows. overflows ≡ row.tank_overflows (words_at text.now line.now)) }
{
    let Some(word) = text.word(line, 8) else {
        return Ok(false);
    };
    if is_keyword(word, b"YES") {
        return Ok(true);
    }
    if is_keyword(word, b"NO") {
        return Ok(false);
    }
    Err(Cause::Syntax)
}

/// Reads a row of [TANKS]: ID, elevation of the bottom, initial, minimum and maximum level, diameter, minimum volume,
/// volume curve or `*`, NO or YES for overflow; the last three may be missing, and the minimum volume isn't used.
/// Refused are, at the first word that is wrong: a missing or further word and another overflow word (Syntax), an ID
/// longer than 31 bytes (Limit 3), a word that is no number or one above 10^12 up or down (Number), levels below 0, a
/// minimum above the initial level, a maximum below it, a diameter outside 0.1 to 1,000 (from 0 with a volume curve),
/// and a minimum volume below 0 (Range).
pub fn read_tank<'a>(text: &Lines<'a>, line: &Line) -> Result<TankRow<'a>, Cause>
    requires { LiesIn text.now.text line.now }
    ensures { Judged (row.tank (words_at text.now line.now)) result (IsTankRow (words_at text.now line.now)) }
{
    let id = id(text, line, 0)?;
    let bottom = number(text, line, 1)?;
    let initial = not_negative(text, line, 2)?;
    let minimum = number_within(text, line, 3, 0, initial.nano)?;
    let maximum = level_from(text, line, 4, initial.nano)?;
    let diameter = diameter(text, line)?;
    not_negative_or_0(text, line, 6)?;
    let curve = curve(text, line)?;
    let overflows = overflows(text, line)?;
    ends(text, line, 9)?;
    Ok(TankRow {
        id,
        bottom,
        initial,
        minimum,
        maximum,
        diameter,
        curve,
        overflows,
    })
}
