//! Options among all rows: the pressures between which demands depend on pressure.
#![tactic(auto)]

ghost use Rattle.std.specs.Prelude.{◌≡◌, ◌<◌, ◌+◌, ◌*◌, ◌^◌, [], ◌∷◌, None, length, max, codes, IfSome};
ghost use Rattle.std.specs.List.{All};
ghost use Rattle.hyd_spec_lines.specs.Lines.{LiesIn, row_of};
ghost use Rattle.hyd_spec_lines.specs.declared.section.Section.TheVariants.{Options as InOptions};
ghost use Rattle.hyd_option_and_rule_lines.specs.FaultOrValue.{words_at};
ghost use Rattle.hyd_spec_input.specs.SingleRows.{IsWrongByItself};
ghost use Rattle.hyd_spec_input.specs.Columns as column;
ghost use Rattle.hyd_spec_input.specs.Faults.{NoneIs};
ghost use Rattle.hyd_spec_input.specs.OptionsAndTimesInForce as force;
ghost use Rattle.hyd_spec_input.specs.OptionAndTimeRows as row;
ghost use Rattle.hyd_spec_input.specs.FaultsWithOtherRows as others;
ghost use Rattle.hyd_rows_and_tables.specs.FirstWrongRow.{HasFound};
ghost use Rattle.hyd_rows_and_tables.specs.RowsOfLines.{rows_at, row_in};
ghost use Rattle.hyd_rows_and_tables.specs.WrongInSection.{IsWrongIn};
ghost use Rattle.hyd_judge_nodes_curves_and_options.specs.Options as option;
ghost use Rattle.hyd_judge_nodes_curves_and_options.specs.Options.{ArePressures, HasAmount, IsBound};

use hyd_lex::{Line, Lines};
use hyd_net::Cause;
use hyd_net::ranges::{GREATEST_HEAD, TENTH};
use hyd_network_rows::{is_options, last_option};
use hyd_num::{
    Decimal, FlowUnit, HEAD_TICKS_IN_BILLIONTH_OF_METRE, NUMERATOR_OF_BILLIONTH_OF_POUND,
    TEN_THOUSANDTHS_OF_POUND_IN_FOOT,
};
use hyd_option_and_rule_lines::{number, word_is};
use hyd_rows_and_tables::{Found, kept};

/// The pressures between which demands depend on pressure, in force; and whether they do.
#[derive(Clone, Copy, Drop)]
pub struct Pressures {
    pub depends: bool,
    pub minimum: Decimal,
    pub required: Decimal,
    /// The greater line of the two, 0 where neither is given.
    pub line: u32,
}

fn begins_with_both(text: &Lines<'_>, line: &Line, key: &[u8], second: &[u8]) -> bool
    requires { LiesIn text.now.text line.now }
    ensures { result ≡ force.begins_both key.now second.now (row_of text.now.text line.now) }
{
    if word_is(text, line, 0, key) {
        return word_is(text, line, 1, second);
    }
    false
}

/// The line of the last row of [OPTIONS] that begins with two words, which is the one in force.
pub fn last_option_of(text: &Lines<'_>, lines: &[Line], key: &[u8], second: &[u8]) -> Option<Line>
    requires { All (LiesIn text.now.text) lines.now }
    ensures last { row_in text.now.text result
        ≡ force.option_row_of key.now second.now (rows_at text.now.text lines.now) }
    ensures lies { IfSome result (LiesIn text.now.text) }
{
    let mut last = None;
    for place in 0..lines.len() {
        let line = &lines[place];
        if !is_options(line.section) {
            continue;
        }
        if !begins_with_both(text, line, key, second) {
            continue;
        }
        last = Some(*line);
    }
    last
}

// Whether demands depend on pressure.
fn depends_on_pressure(text: &Lines<'_>, lines: &[Line]) -> bool
    requires { All (LiesIn text.now.text) lines.now }
    ensures { result ≡ force.depends_on_pressure (rows_at text.now.text lines.now) }
{
    match last_option_of(text, lines, b"DEMAND", b"MODEL") {
        Some(line) => word_is(text, &line, 2, b"PDA"),
        None => false,
    }
}

// The number of a line's third word, or of so many billionths where there is no line.
fn amount_or(text: &Lines<'_>, line: Option<Line>, default: Decimal) -> Decimal
    requires lies { IfSome line (LiesIn text.now.text) }
    requires right { HasAmount text.now line }
    ensures { result.nano ≡ force.say default.nano (option.amount_2) (row_in text.now.text line) }
{
    let Some(line) = line else {
        return default;
    };
    let Ok(number) = number(text, &line, 2) else {
        return default;
    };
    number
}

// The number of a line, 0 where there is none.
fn number_or_0(text: &Lines<'_>, line: Option<Line>) -> u32
    ensures { result ≡ force.say 0 option.line_number (row_in text.now.text line) }
{
    match line {
        Some(line) => line.number,
        None => 0,
    }
}

fn greater(a: u32, b: u32) -> u32
    ensures { result ≡ max a b }
{
    if a < b {
        return b;
    }
    a
}

/// The pressures that a file whose rows are right by themselves has in force.
pub fn pressures_in_force(text: &Lines<'_>, lines: &[Line]) -> Pressures
    requires lie { All (LiesIn text.now.text) lines.now }
    requires right { NoneIs (IsWrongByItself (rows_at text.now.text lines.now)) }
    ensures { ArePressures (rows_at text.now.text lines.now) result }
{
    let minimum = last_option(text, lines, b"MINIMUM");
    let required = last_option(text, lines, b"REQUIRED");
    Pressures {
        depends: depends_on_pressure(text, lines),
        minimum: amount_or(text, minimum, Decimal { nano: 0 }),
        required: amount_or(text, required, Decimal { nano: TENTH }),
        line: greater(number_or_0(text, minimum), number_or_0(text, required)),
    }
}

// Range where a pressure is above 10^17 head ticks.
fn pressure_fault(pressure: Decimal, unit: FlowUnit) -> Option<Cause>
    ensures { result ≡ option.pressure_fault unit pressure.nano }
{
    if unit.is_us() {
        let numerator = pressure.nano * NUMERATOR_OF_BILLIONTH_OF_POUND as i128;
        if numerator > GREATEST_HEAD * TEN_THOUSANDTHS_OF_POUND_IN_FOOT as i128 {
            return Some(Cause::Range);
        }
        return None;
    }
    if pressure.nano * HEAD_TICKS_IN_BILLIONTH_OF_METRE as i128 > GREATEST_HEAD {
        return Some(Cause::Range);
    }
    None
}

// Range at the later of the two lines where demands depend on pressure and the required one isn't a tenth of a unit
// above the minimum at least.
fn apart_fault(pressures: &Pressures, line: u32) -> Option<Cause>
    ensures { result ≡ option.apart_fault pressures.now line }
{
    if !pressures.depends {
        return None;
    }
    if line != pressures.line {
        return None;
    }
    if pressures.minimum.nano + TENTH > pressures.required.nano {
        return Some(Cause::Range);
    }
    None
}

// Whether a line gives one of the two pressures.
fn is_bound(text: &Lines<'_>, line: &Line) -> bool
    requires { LiesIn text.now.text line.now }
    ensures { result ≡ column.word_is_of 0 (codes "MINIMUM" ∷ codes "REQUIRED" ∷ []) (words_at text.now line.now) }
{
    if word_is(text, line, 0, b"MINIMUM") {
        return true;
    }
    word_is(text, line, 0, b"REQUIRED")
}

// What is wrong with a row.
fn option_fault(
    text: &Lines<'_>,
    line: &Line,
    pressures: &Pressures,
    unit: FlowUnit,
) -> Option<Cause>
    requires lies { LiesIn text.now.text line.now }
    requires right { IsBound (words_at text.now line.now) }
    ensures { result ≡ option.option_fault unit pressures.now line.now.number (words_at text.now line.now) }
{
    if !is_bound(text, line) {
        return None;
    }
    let Ok(pressure) = number(text, line, 2) else {
        return None;
    };
    if let Some(cause) = pressure_fault(pressure, unit) {
        return Some(cause);
    }
    apart_fault(pressures, line.number)
}

// The first wrong row, one row further.
fn further(
    found: Option<Found>,
    text: &Lines<'_>,
    lines: &[Line],
    place: usize,
    pressures: &Pressures,
    unit: FlowUnit,
) -> Option<Found>
    requires within { place < length lines.now }
    requires lie { All (LiesIn text.now.text) lines.now }
    requires right { NoneIs (IsWrongByItself (rows_at text.now.text lines.now)) }
    requires pressures { ArePressures (rows_at text.now.text lines.now) pressures.now }
    requires unit { unit ≡ force.unit (rows_at text.now.text lines.now) }
    requires found { HasFound (rows_at text.now.text lines.now)
        (IsWrongIn InOptions (rows_at text.now.text lines.now)) place found }
    ensures { HasFound (rows_at text.now.text lines.now) (IsWrongIn InOptions (rows_at text.now.text lines.now))
        (place + 1) result }
{
    let line = &lines[place];
    if !is_options(line.section) {
        return found;
    }
    let cause = option_fault(text, line, pressures, unit);
    kept(found, place, line.number, cause)
}

/// Of a file whose rows are right by themselves, its first row of [OPTIONS] that is wrong with the others (Range): a
/// minimum or required pressure above 10^17 head ticks or, where demands depend on pressure, the later of the two lines
/// in force where the required pressure isn't a tenth of a unit above the minimum at least.
pub fn judge_options(text: &Lines<'_>, lines: &[Line], unit: FlowUnit) -> Option<Found>
    requires lie { All (LiesIn text.now.text) lines.now }
    requires right { NoneIs (IsWrongByItself (rows_at text.now.text lines.now)) }
    requires unit { unit ≡ force.unit (rows_at text.now.text lines.now) }
    ensures { HasFound (rows_at text.now.text lines.now) (IsWrongIn InOptions (rows_at text.now.text lines.now))
        (length lines.now) result }
{
    let pressures = pressures_in_force(text, lines);
    let mut found = None;
    for place in 0..lines.len() {
        found = further(found, text, lines, place, &pressures, unit);
    }
    found
}
