//! The demands of junctions, gathered.
#![tactic(auto)]

ghost use Rattle.std.specs.Prelude.{◌≡◌, ◌<◌, ◌≤◌, ◌+◌, ◌++◌, [], ◌∷◌, length, slice_index_or, unsigned_abs};
ghost use Rattle.std.specs.Prelude.{IfOk, OnOk};
ghost use Rattle.std.specs.List.{All};
ghost use Rattle.hyd_num.specs.FileQuantity as quantity;
ghost use Rattle.hyd_net.specs.NumberRanges.{flow_limit};
ghost use Rattle.hyd_spec_lines.specs.Lines.{LiesIn};
ghost use Rattle.hyd_spec_input.specs.SingleRows.{IsWrongByItself};
ghost use Rattle.hyd_spec_input.specs.Faults.{NoneIs, IsWrongWithOthers};
ghost use Rattle.hyd_spec_input.specs.OptionsAndTimesInForce as force;
ghost use Rattle.hyd_spec_input.specs.MeaningsAcrossRows.{pattern_ids};
ghost use Rattle.hyd_spec_input.specs.SectionsAndTables.{node_rows};
ghost use Rattle.hyd_rows_and_tables.specs.RowsOfLines.{rows_at};
ghost use Rattle.hyd_rows_and_tables.specs.IdTables.{IsTable, AreEmpty};
ghost use Rattle.hyd_build_nodes_patterns_and_options.specs.DemandsAndEmitters.{AreDemands, each, IsSetAt, demand_by as demand_as};
ghost use Rattle.hyd_spec_lines.specs.WordsOfLines.{text_of};

use crate::name_numbers_and_ticks::{flow_of, number_named};
use hyd_lex::{Line, Lines};
use hyd_net::{Demand, List, OutOfMemory};
use hyd_network_rows::read_demand;
use hyd_num::{Decimal, FlowUnit};
use hyd_rows_and_tables::{NumberedIds, Table, is_demands};
use std::alloc::Global;

// So many empty lists.
fn empty_lists(alloc: Global, count: usize) -> Result<Vec<List<Demand>>, OutOfMemory>
    ensures { IfOk result (λ lists. AreEmpty lists.items count) }
{
    let mut lists = Vec::with_capacity(alloc, count)?;
    for _ in 0..count {
        lists.push(List::new(alloc))?;
    }
    Ok(lists)
}

// Appends a demand to the list of a number.
fn push_at(lists: &mut Vec<List<Demand>>, number: usize, demand: Demand) -> Result<(), OutOfMemory>
    requires { number < length lists.old.items }
    ensures { OnOk result (IsSetAt [] (each lists.old.items) (each lists.new.items) number
        (slice_index_or (each lists.old.items) number [] ++ demand ∷ [])) }
{
    let list = &mut lists[number];
    list.push(demand)?;
    Ok(())
}

/// The demand of a base and a pattern's name.
pub(crate) fn demand_by(
    base: Decimal,
    pattern: Option<&[u8]>,
    patterns: &NumberedIds,
    unit: FlowUnit,
) -> Demand
    requires { unsigned_abs (quantity.flow_ticks unit base.nano) ≤ flow_limit }
    ensures { result ≡ demand_as unit patterns.now base.nano (text_of pattern.entry) }
{
    Demand {
        base: flow_of(base, unit),
        pattern: number_named(patterns, pattern),
    }
}

// The next row.
fn add_row(
    lists: &mut Vec<List<Demand>>,
    text: &Lines<'_>,
    lines: &[Line],
    place: usize,
    nodes: &Table,
    patterns: &NumberedIds,
    unit: FlowUnit,
) -> Result<(), OutOfMemory>
    requires within { place < length lines.now }
    requires lie { All (LiesIn text.now.text) lines.now }
    requires by_itself { NoneIs (IsWrongByItself (rows_at text.now.text lines.now)) }
    requires with_others { NoneIs (IsWrongWithOthers (rows_at text.now.text lines.now)) }
    requires nodes { IsTable text.now.text (node_rows (rows_at text.now.text lines.now)) nodes.now }
    requires patterns { patterns.now ≡ pattern_ids (rows_at text.now.text lines.now) }
    requires unit { unit ≡ force.unit (rows_at text.now.text lines.now) }
    requires gathered { AreDemands (rows_at text.now.text lines.now) place nodes.now.names (each lists.old.items) }
    ensures { OnOk result
        (AreDemands (rows_at text.now.text lines.now) (place + 1) nodes.now.names (each lists.new.items)) }
{
    let line = &lines[place];
    if !is_demands(line.section) {
        return Ok(());
    }
    let Ok(row) = read_demand(text, line) else {
        return Ok(());
    };
    let Some(number) = nodes.names.number(row.junction) else {
        return Ok(());
    };
    let demand = demand_by(row.base, row.pattern, patterns, unit);
    push_at(lists, number as usize, demand)?;
    Ok(())
}

/// The rows of [DEMANDS] of a file without a fault as demands, in lists by the number of their junction in the table of
/// nodes.
pub(crate) fn gather_demands(
    alloc: Global,
    text: &Lines<'_>,
    lines: &[Line],
    nodes: &Table,
    patterns: &NumberedIds,
    unit: FlowUnit,
) -> Result<Vec<List<Demand>>, OutOfMemory>
    requires lie { All (LiesIn text.now.text) lines.now }
    requires by_itself { NoneIs (IsWrongByItself (rows_at text.now.text lines.now)) }
    requires with_others { NoneIs (IsWrongWithOthers (rows_at text.now.text lines.now)) }
    requires nodes { IsTable text.now.text (node_rows (rows_at text.now.text lines.now)) nodes.now }
    requires patterns { patterns.now ≡ pattern_ids (rows_at text.now.text lines.now) }
    requires unit { unit ≡ force.unit (rows_at text.now.text lines.now) }
    ensures { IfOk result (λ lists.
        AreDemands (rows_at text.now.text lines.now) (length lines.now) nodes.now.names (each lists.items)) }
{
    let mut lists = empty_lists(alloc, nodes.firsts.as_slice().len())?;
    for place in 0..lines.len() {
        add_row(&mut lists, text, lines, place, nodes, patterns, unit)?;
    }
    Ok(lists)
}
