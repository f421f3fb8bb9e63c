//! Demands among all rows.
#![tactic(auto)]

ghost use Rattle.std.specs.Prelude.{◌≡◌, ◌<◌, ◌+◌, ◌^◌, List, None, length};
ghost use Rattle.std.specs.List.{All};
ghost use Rattle.hyd_spec_lines.specs.Lines.{LiesIn, Row};
ghost use Rattle.hyd_spec_lines.specs.declared.section.Section.TheVariants.{Demands as InDemands, Patterns};
ghost use Rattle.hyd_option_and_rule_lines.specs.FaultOrValue.{words_at};
ghost use Rattle.hyd_spec_input.specs.SingleRows.{IsWrongByItself};
ghost use Rattle.hyd_spec_input.specs.DemandEmitterCurvePatternAndStatusRows as row;
ghost use Rattle.hyd_spec_input.specs.Faults.{NoneIs};
ghost use Rattle.hyd_spec_input.specs.OptionsAndTimesInForce as force;
ghost use Rattle.hyd_spec_input.specs.SectionsAndTables.{rows_of, node_rows};
ghost use Rattle.hyd_rows_and_tables.specs.FirstWrongRow.{HasFound};
ghost use Rattle.hyd_rows_and_tables.specs.RowsOfLines.{rows_at};
ghost use Rattle.hyd_rows_and_tables.specs.IdTables.{IsTable, IsEven};
ghost use Rattle.hyd_judge_nodes_curves_and_options.specs.Demands.{AreDemands, demand_fault as fault_of_demand};
ghost use Rattle.hyd_rows_and_tables.specs.WrongInSection.{IsWrongIn};

use hyd_lex::{Line, Lines};
use hyd_net::Cause;
use hyd_network_rows::read_demand;
use hyd_num::FlowUnit;
use hyd_rows_and_tables::{
    Found, Table, flow_fault, is_demands, kept, limit, unknown_junction, unknown_pattern,
};

const MOST_DEMANDS: usize = 100_000;

/// The first row of [DEMANDS] that is wrong with the others.
#[derive(Clone, Copy, Drop)]
pub struct Demands {
    // How many rows there are.
    count: usize,
    pub found: Option<Found>,
}

// What is wrong with a row.
fn demand_fault(
    text: &Lines<'_>,
    line: &Line,
    count: usize,
    nodes: &Table,
    patterns: &Table,
    unit: FlowUnit,
) -> Option<Cause>
    requires lies { LiesIn text.now.text line.now }
    requires even_nodes { IsEven nodes.now }
    requires even_patterns { IsEven patterns.now }
    requires right { row.demand (words_at text.now line.now) ≡ None }
    ensures { (rows : List Row) → IsTable text.now.text (node_rows rows) nodes.now
        → IsTable text.now.text (rows_of Patterns rows) patterns.now
        → result ≡ fault_of_demand rows unit count (words_at text.now line.now) }
{
    let Ok(row) = read_demand(text, line) else {
        return None;
    };
    if let Some(cause) = limit(MOST_DEMANDS, 10, count) {
        return Some(cause);
    }
    if let Some(cause) = unknown_junction(text, nodes, row.junction) {
        return Some(cause);
    }
    if let Some(cause) = unknown_pattern(text, patterns, row.pattern) {
        return Some(cause);
    }
    flow_fault(row.base, unit)
}

impl Demands {
    // The next row.
    fn add(
        &mut self,
        text: &Lines<'_>,
        lines: &[Line],
        place: usize,
        nodes: &Table,
        patterns: &Table,
        unit: FlowUnit,
    )
        requires within { place < length lines.now }
        requires few { length lines.now < 2 ^ 31 }
        requires lie { All (LiesIn text.now.text) lines.now }
        requires right { NoneIs (IsWrongByItself (rows_at text.now.text lines.now)) }
        requires nodes { IsTable text.now.text (node_rows (rows_at text.now.text lines.now)) nodes.now }
        requires patterns { IsTable text.now.text (rows_of Patterns (rows_at text.now.text lines.now)) patterns.now }
        requires unit { unit ≡ force.unit (rows_at text.now.text lines.now) }
        requires judged { AreDemands (rows_at text.now.text lines.now) place self.old }
        ensures { AreDemands (rows_at text.now.text lines.now) (place + 1) self.new }
    {
        let line = &lines[place];
        if !is_demands(line.section) {
            return;
        }
        self.count += 1;
        let cause = demand_fault(text, line, self.count, nodes, patterns, unit);
        self.found = kept(self.found, place, line.number, cause);
    }
}

/// Of a file whose rows are right by themselves, its first row of [DEMANDS] that is wrong with the others: the first
/// with more than 100,000 rows up to it (Limit 10), a name that no node has, or whose first node is no junction, a
/// pattern that isn't there (UnknownName), a demand above 10^15 flow ticks either way (Range).
pub fn judge_demands(
    text: &Lines<'_>,
    lines: &[Line],
    nodes: &Table,
    patterns: &Table,
    unit: FlowUnit,
) -> Demands
    requires few { length lines.now < 2 ^ 31 }
    requires lie { All (LiesIn text.now.text) lines.now }
    requires right { NoneIs (IsWrongByItself (rows_at text.now.text lines.now)) }
    requires nodes { IsTable text.now.text (node_rows (rows_at text.now.text lines.now)) nodes.now }
    requires patterns { IsTable text.now.text (rows_of Patterns (rows_at text.now.text lines.now)) patterns.now }
    requires unit { unit ≡ force.unit (rows_at text.now.text lines.now) }
    ensures { HasFound (rows_at text.now.text lines.now) (IsWrongIn InDemands (rows_at text.now.text lines.now))
        (length lines.now) result.found }
{
    let mut demands = Demands {
        count: 0,
        found: None,
    };
    for place in 0..lines.len() {
        demands.add(text, lines, place, nodes, patterns, unit);
    }
    demands
}
