//! Junctions among all rows.
#![tactic(auto)]

ghost use Rattle.std.specs.Prelude.{◌≡◌, List, None};
ghost use Rattle.hyd_spec_lines.specs.Lines.{LiesIn, Row};
ghost use Rattle.hyd_spec_lines.specs.declared.section.Section.TheVariants.{Patterns};
ghost use Rattle.hyd_option_and_rule_lines.specs.FaultOrValue.{words_at};
ghost use Rattle.hyd_spec_input.specs.NodeAndLinkRows as row;
ghost use Rattle.hyd_spec_input.specs.SectionsAndTables.{rows_of};
ghost use Rattle.hyd_rows_and_tables.specs.IdTables.{IsTable, IsEven};
ghost use Rattle.hyd_rows_and_tables.specs.QuantityRanges as range;
ghost use Rattle.hyd_judge_nodes_curves_and_options.specs.NodeFaults.{junction_fault as fault_of_junction};

use hyd_lex::{Line, Lines};
use hyd_net::Cause;
use hyd_network_rows::{JunctionRow, read_junction};
use hyd_num::FlowUnit;
use hyd_rows_and_tables::{Table, flow_fault, head_fault, limit, unknown_pattern};

const MOST_JUNCTIONS: usize = 10_000;

// What is wrong with the quantities of a junction.
fn range_fault(row: &JunctionRow<'_>, unit: FlowUnit) -> Option<Cause>
    ensures { result ≡ range.junction_ranges unit row.now.elevation.nano row.now.base.nano }
{
    match head_fault(row.elevation, unit) {
        Some(cause) => Some(cause),
        None => flow_fault(row.base, unit),
    }
}

/// What is wrong with a junction, where it is the first row with its ID or not: Limit 4 above 10,000 of them,
/// DuplicateId, UnknownName of its pattern, Range of its elevation and demand.
pub(crate) fn junction_fault(
    text: &Lines<'_>,
    line: &Line,
    count: usize,
    new: bool,
    patterns: &Table,
    unit: FlowUnit,
) -> Option<Cause>
    requires lies { LiesIn text.now.text line.now }
    requires even { IsEven patterns.now }
    requires right { row.junction (words_at text.now line.now) ≡ None }
    ensures { (rows : List Row) → IsTable text.now.text (rows_of Patterns rows) patterns.now
        → result ≡ fault_of_junction rows unit count new (words_at text.now line.now) }
{
    let Ok(row) = read_junction(text, line) else {
        return None;
    };
    if let Some(cause) = limit(MOST_JUNCTIONS, 4, count) {
        return Some(cause);
    }
    if !new {
        return Some(Cause::DuplicateId);
    }
    if let Some(cause) = unknown_pattern(text, patterns, row.pattern) {
        return Some(cause);
    }
    range_fault(&row, unit)
}
