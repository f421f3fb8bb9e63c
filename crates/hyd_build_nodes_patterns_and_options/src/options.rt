//! The options that a file has in force.
#![tactic(auto)]

ghost use Rattle.std.specs.Prelude.{◌≡◌, None, IfSome};
ghost use Rattle.std.specs.List.{All};
ghost use Rattle.hyd_spec_lines.specs.Lines.{LiesIn};
ghost use Rattle.hyd_option_and_rule_lines.specs.FaultOrValue.{words_at};
ghost use Rattle.hyd_spec_input.specs.SingleRows.{IsWrongByItself};
ghost use Rattle.hyd_spec_input.specs.Faults.{NoneIs, IsWrongWithOthers};
ghost use Rattle.hyd_spec_input.specs.Columns as column;
ghost use Rattle.hyd_spec_input.specs.OptionsAndTimesInForce as force;
ghost use Rattle.hyd_spec_input.specs.MeaningsAcrossRows as across;
ghost use Rattle.hyd_spec_input.specs.Project.{IsOptions};
ghost use Rattle.hyd_rows_and_tables.specs.RowsOfLines.{rows_at, row_in};

use crate::last_lines::last_line;
use hyd_lex::{Line, Lines, Section};
use hyd_net::Options;
use hyd_net::ranges::TENTH;
use hyd_num::{Decimal, FlowUnit};
use hyd_option_and_rule_lines::{number, or_empty, word_is};
use hyd_rows_and_tables::NumberedIds;

const ZERO: i128 = 0;

const ONE: i128 = 1_000_000_000;

// The third word of a line as a number, or a default where there is no line.
fn number_or(text: &Lines<'_>, line: Option<Line>, default: Decimal) -> Decimal
    requires lies { IfSome line (LiesIn text.now.text) }
    requires right { IfSome line (λ line. column.needed column.number 2 (words_at text.now line) ≡ None) }
    ensures { result.nano ≡ force.say default.nano (λ row. column.amount 2 row.words) (row_in text.now.text line) }
{
    let Some(line) = line else {
        return default;
    };
    match number(text, &line, 2) {
        Ok(number) => number,
        Err(_) => default,
    }
}

// Whether demands depend on pressure.
fn depends_on_pressure(text: &Lines<'_>, lines: &[Line]) -> bool
    requires { All (LiesIn text.now.text) lines.now }
    ensures { result ≡ force.depends_on_pressure (rows_at text.now.text lines.now) }
{
    match last_line(text, lines, Section::Options, b"DEMAND", Some(b"MODEL")) {
        Some(line) => word_is(text, &line, 2, b"PDA"),
        None => false,
    }
}

// The factor of all demands, 1 where none is given.
fn demand_multiplier(text: &Lines<'_>, lines: &[Line]) -> Decimal
    requires lie { All (LiesIn text.now.text) lines.now }
    requires by_itself { NoneIs (IsWrongByItself (rows_at text.now.text lines.now)) }
    requires with_others { NoneIs (IsWrongWithOthers (rows_at text.now.text lines.now)) }
    ensures { result.nano ≡ force.demand_multiplier (rows_at text.now.text lines.now) }
{
    let line = last_line(
        text,
        lines,
        Section::Options,
        b"DEMAND",
        Some(b"MULTIPLIER"),
    );
    number_or(text, line, Decimal { nano: ONE })
}

// The pressure up to which a demand gets nothing, 0 where none is given.
fn minimum_pressure(text: &Lines<'_>, lines: &[Line]) -> Decimal
    requires lie { All (LiesIn text.now.text) lines.now }
    requires by_itself { NoneIs (IsWrongByItself (rows_at text.now.text lines.now)) }
    requires with_others { NoneIs (IsWrongWithOthers (rows_at text.now.text lines.now)) }
    ensures { result.nano ≡ force.minimum_pressure (rows_at text.now.text lines.now) }
{
    let line = last_line(text, lines, Section::Options, b"MINIMUM", None);
    number_or(text, line, Decimal { nano: ZERO })
}

// The pressure from which on a demand is met, a tenth where none is given.
fn required_pressure(text: &Lines<'_>, lines: &[Line]) -> Decimal
    requires lie { All (LiesIn text.now.text) lines.now }
    requires by_itself { NoneIs (IsWrongByItself (rows_at text.now.text lines.now)) }
    requires with_others { NoneIs (IsWrongWithOthers (rows_at text.now.text lines.now)) }
    ensures { result.nano ≡ force.required_pressure (rows_at text.now.text lines.now) }
{
    let line = last_line(text, lines, Section::Options, b"REQUIRED", None);
    number_or(text, line, Decimal { nano: TENTH })
}

// The name of the pattern of demands that name none, 1 where none is given.
fn default_pattern<'a>(text: &Lines<'a>, lines: &[Line]) -> &'a [u8]
    requires { All (LiesIn text.now.text) lines.now }
    ensures { result.now ≡ force.default_pattern (rows_at text.now.text lines.now) }
{
    match last_line(text, lines, Section::Options, b"PATTERN", None) {
        Some(line) => or_empty(text, &line, 1),
        None => b"1",
    }
}

/// The options in force of a file without a fault, by its unit of flows and the numbers of its patterns.
pub fn options_in_force(
    text: &Lines<'_>,
    lines: &[Line],
    unit: FlowUnit,
    patterns: &NumberedIds,
) -> Options
    requires lie { All (LiesIn text.now.text) lines.now }
    requires by_itself { NoneIs (IsWrongByItself (rows_at text.now.text lines.now)) }
    requires with_others { NoneIs (IsWrongWithOthers (rows_at text.now.text lines.now)) }
    requires unit { unit ≡ force.unit (rows_at text.now.text lines.now) }
    requires patterns { patterns.now ≡ across.pattern_ids (rows_at text.now.text lines.now) }
    ensures { IsOptions (rows_at text.now.text lines.now) result }
{
    Options {
        unit,
        pda: depends_on_pressure(text, lines),
        p0: minimum_pressure(text, lines),
        pf: required_pressure(text, lines),
        multiplier: demand_multiplier(text, lines),
        default_pattern: patterns.number(default_pattern(text, lines)),
    }
}
