//! Reservoirs among all rows.
#![tactic(auto)]

ghost use Rattle.std.specs.Prelude.{◌≡◌, ℕ, List, None};
ghost use Rattle.hyd_spec_lines.specs.WordsOfLines.{text_of};
ghost use Rattle.hyd_spec_lines.specs.Lines.{LiesIn, Row};
ghost use Rattle.hyd_option_and_rule_lines.specs.FaultOrValue.{words_at};
ghost use Rattle.hyd_spec_input.specs.NodeAndLinkRows as row;
ghost use Rattle.hyd_rows_and_tables.specs.QuantityRanges as range;
ghost use Rattle.hyd_rows_and_tables.specs.IdTables.{IsEven};
ghost use Rattle.hyd_judge_nodes_curves_and_options.specs.Extremes.{bounds};
ghost use Rattle.hyd_judge_nodes_curves_and_options.specs.NodeFaults as node;
ghost use Rattle.hyd_judge_nodes_curves_and_options.specs.Patterns.{ArePatterns};

use crate::pattern_extremes::Extremes;
use crate::patterns::Patterns;
use hyd_lex::{Line, Lines};
use hyd_net::Cause;
use hyd_network_rows::{ReservoirRow, read_reservoir};
use hyd_num::{Decimal, FlowUnit};
use hyd_rows_and_tables::{head_fault, limit, unknown_pattern};
use hyd_units::head_ticks;

const MOST_RESERVOIRS: usize = 1_000;

const GREATEST_TIMES: i128 = 100_000_000_000_000_000_000_000_000;

// Whether a head in ticks times a multiplier is in range.
fn is_head_times(ticks: i128, multiplier: Decimal) -> bool
    requires { node.is_head_ticks ticks }
    ensures { result ≡ node.is_ticks_times ticks multiplier.nano }
{
    let product = ticks * multiplier.nano;
    if product < -GREATEST_TIMES {
        return false;
    }
    product <= GREATEST_TIMES
}

// Range where a head in range times the least or the greatest multiplier isn't.
fn times_fault(head: Decimal, extremes: Option<Extremes>, unit: FlowUnit) -> Option<Cause>
    requires { range.head_fault unit head.nano ≡ None }
    ensures { result ≡ node.times_fault unit head.nano (bounds extremes) }
{
    let Some(extremes) = extremes else {
        return None;
    };
    let ticks = head_ticks(head, unit.is_us());
    if !is_head_times(ticks, extremes.least) {
        return Some(Cause::Range);
    }
    if !is_head_times(ticks, extremes.greatest) {
        return Some(Cause::Range);
    }
    None
}

// What is wrong with the head of a reservoir, also times its pattern's multipliers.
fn heads_fault(row: &ReservoirRow<'_>, patterns: &Patterns, unit: FlowUnit) -> Option<Cause>
    ensures { (text : List ℕ) (rows : List Row) → ArePatterns text rows patterns.now
        → result ≡ node.heads_fault rows unit row.now.head.nano (text_of row.now.pattern) }
{
    if let Some(cause) = head_fault(row.head, unit) {
        return Some(cause);
    }
    times_fault(row.head, patterns.extremes(row.pattern), unit)
}

/// What is wrong with a reservoir, where it is the first row with its ID or not: Limit 5 above 1,000 of them,
/// DuplicateId, UnknownName of its pattern, Range of its head and of its head times a multiplier.
pub(crate) fn reservoir_fault(
    text: &Lines<'_>,
    line: &Line,
    count: usize,
    new: bool,
    patterns: &Patterns,
    unit: FlowUnit,
) -> Option<Cause>
    requires lies { LiesIn text.now.text line.now }
    requires even { IsEven patterns.now.table }
    requires right { row.reservoir (words_at text.now line.now) ≡ None }
    ensures { (rows : List Row) → ArePatterns text.now.text rows patterns.now
        → result ≡ node.reservoir_fault rows unit count new (words_at text.now line.now) }
{
    let Ok(row) = read_reservoir(text, line) else {
        return None;
    };
    if let Some(cause) = limit(MOST_RESERVOIRS, 5, count) {
        return Some(cause);
    }
    if !new {
        return Some(Cause::DuplicateId);
    }
    if let Some(cause) = unknown_pattern(text, &patterns.table, row.pattern) {
        return Some(cause);
    }
    heads_fault(&row, patterns, unit)
}
