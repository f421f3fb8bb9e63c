//! Rows of valves (EPANET 2.2 User Manual, [VALVES]).
#![tactic(auto)]

ghost use Rattle.std.specs.Prelude.{◌≡◌, [], ◌∷◌, codes};
ghost use Rattle.hyd_spec_lines.specs.Headings.{is_one_of};
ghost use Rattle.hyd_spec_lines.specs.Lines.{LiesIn};
ghost use Rattle.hyd_option_and_rule_lines.specs.FaultOrValue.{Judged, words_at};
ghost use Rattle.hyd_spec_input.specs.Columns as column;
ghost use Rattle.hyd_spec_input.specs.NodeAndLinkRows as row;
ghost use Rattle.hyd_network_rows.specs.Rows.{IsValveRow, IsValveSetting};

use crate::end_nodes::{LinkEnds, read_ends};
use crate::optional_and_bounded_words::within_or_0;
use hyd_lex::{Line, Lines, is_keyword};
use hyd_net::Cause;
use hyd_net::ranges::{GREATEST_COEFFICIENT, GREATEST_DIAMETER};
use hyd_num::Decimal;
use hyd_option_and_rule_lines::{ends, id, needed, not_negative, number_within, word_is};

/// The setting of a valve, by its type.
#[derive(Clone, Copy, Drop)]
pub enum ValveSetting<'a> {
    /// The loss coefficient of a throttle control valve.
    Throttle(Decimal),
    /// The curve of a general purpose valve.
    Curve(&'a [u8]),
    /// The greatest flow of a flow control valve.
    Flow(Decimal),
}

/// A row of [VALVES], in the file's units.
#[derive(Clone, Copy, Drop)]
pub struct ValveRow<'a> {
    pub ends: LinkEnds<'a>,
    pub diameter: Decimal,
    pub setting: ValveSetting<'a>,
    /// The minor loss coefficient, 0 where none is given.
    pub minor: Decimal,
}

// A type that isn't supported: pressure reducing, pressure sustaining, pressure breaker.
fn is_unsupported(word: &[u8]) -> bool
    ensures { result ≡ is_one_of row.unsupported_types word.now }
{
    if is_keyword(word, b"PRV") {
        return true;
    }
    if is_keyword(word, b"PSV") {
        return true;
    }
    is_keyword(word, b"PBV")
}

fn is_supported(word: &[u8]) -> bool
    ensures { result ≡ is_one_of (codes "TCV" ∷ codes "FCV" ∷ codes "GPV" ∷ []) word.now }
{
    if is_keyword(word, b"TCV") {
        return true;
    }
    if is_keyword(word, b"FCV") {
        return true;
    }
    is_keyword(word, b"GPV")
}

// A type: Unsupported 2 for the three that aren't supported.
fn check_type(text: &Lines<'_>, line: &Line) -> Result<(), Cause>
    requires { LiesIn text.now.text line.now }
    ensures { Judged (column.needed (column.supported row.valve_types row.unsupported_types 2) 4
        (words_at text.now line.now)) result (λ _. Unit {0}) }
{
    let word = needed(text, line, 4)?;
    if is_unsupported(word) {
        return Err(Cause::Unsupported(2));
    }
    if is_supported(word) {
        return Ok(());
    }
    Err(Cause::Syntax)
}

// A loss coefficient, a curve's ID, or a flow.
fn setting<'a>(text: &Lines<'a>, line: &Line) -> Result<ValveSetting<'a>, Cause>
    requires { LiesIn text.now.text line.now }
    ensures { Judged (column.needed (row.valve_setting (words_at text.now line.now)) 5 (words_at text.now line.now))
        result (IsValveSetting (words_at text.now line.now)) }
{
    if word_is(text, line, 4, b"TCV") {
        let coefficient = number_within(text, line, 5, 0, GREATEST_COEFFICIENT)?;
        return Ok(ValveSetting::Throttle(coefficient));
    }
    if word_is(text, line, 4, b"GPV") {
        let curve = id(text, line, 5)?;
        return Ok(ValveSetting::Curve(curve));
    }
    let flow = not_negative(text, line, 5)?;
    Ok(ValveSetting::Flow(flow))
}

/// Reads a row of [VALVES]: ID, two nodes, diameter, type, setting, minor loss coefficient, which may be missing.
/// Refused are, at the first word that is wrong: a missing or further word and an unknown type (Syntax), an ID longer
/// than 31 bytes (Limit 3), a word that is no number or one above 10^12 up or down (Number), a second node that is the
/// first, a diameter of 0 or outside 0 to 10^4, a coefficient outside 0 to 10^6, a flow below 0 (Range), and the types
/// PRV, PSV and PBV (Unsupported 2).
pub fn read_valve<'a>(text: &Lines<'a>, line: &Line) -> Result<ValveRow<'a>, Cause>
    requires { LiesIn text.now.text line.now }
    ensures { Judged (row.valve (words_at text.now line.now)) result (IsValveRow (words_at text.now line.now)) }
{
    let link = read_ends(&text.first_words(line))?;
    let diameter = number_within(text, line, 3, 1, GREATEST_DIAMETER)?;
    check_type(text, line)?;
    let setting = setting(text, line)?;
    let minor = within_or_0(text, line, 6, 0, GREATEST_COEFFICIENT)?;
    ends(text, line, 7)?;
    Ok(ValveRow {
        ends: link,
        diameter,
        setting,
        minor,
    })
}
