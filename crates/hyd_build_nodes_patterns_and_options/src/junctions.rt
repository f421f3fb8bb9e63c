//! Junctions, each with its demands and its emitter.
#![tactic(auto)]

ghost use Rattle.std.specs.Prelude.{◌≡◌, ◌<◌, ◌≤◌, ◌+◌, length, take, unsigned_abs, IfOk, OnOk};
ghost use Rattle.std.specs.List.{All};
ghost use Rattle.hyd_num.specs.FileQuantity as quantity;
ghost use Rattle.hyd_net.specs.NumberRanges.{flow_limit};
ghost use Rattle.hyd_spec_lines.specs.Lines.{LiesIn};
ghost use Rattle.hyd_spec_lines.specs.declared.section.Section.TheVariants.{Junctions};
ghost use Rattle.hyd_spec_input.specs.SingleRows.{IsWrongByItself};
ghost use Rattle.hyd_spec_input.specs.Faults.{NoneIs, IsWrongWithOthers};
ghost use Rattle.hyd_spec_input.specs.OptionsAndTimesInForce as force;
ghost use Rattle.hyd_spec_input.specs.MeaningsAcrossRows as across;
ghost use Rattle.hyd_spec_input.specs.MeaningsAcrossRows.{pattern_ids};
ghost use Rattle.hyd_spec_input.specs.Project.{Match, IsJunction};
ghost use Rattle.hyd_spec_input.specs.SectionsAndTables.{rows_of, node_rows};
ghost use Rattle.hyd_rows_and_tables.specs.RowsOfLines.{rows_at};
ghost use Rattle.hyd_rows_and_tables.specs.IdTables.{IsTable};
ghost use Rattle.hyd_build_nodes_patterns_and_options.specs.ReservoirsAndTanks.{IsSmall};
ghost use Rattle.hyd_build_nodes_patterns_and_options.specs.DemandsAndEmitters as gathered;
ghost use Rattle.hyd_build_nodes_patterns_and_options.specs.WholeJunctions.{AreParts, IsJunctionBy};

use crate::demands::{demand_by, gather_demands};
use crate::emitters::gather_emitters;
use crate::name_numbers_and_ticks::head_of;
use hyd_lex::{Line, Lines};
use hyd_net::{Demand, Junction, List, OutOfMemory};
use hyd_network_rows::{JunctionRow, read_junction};
use hyd_num::{Capacity, FlowUnit};
use hyd_rows_and_tables::{NumberedIds, Table, is_junctions};
use std::alloc::Global;

/// What junctions are made of besides their rows: the table of nodes and, by the numbers of their IDs, demands and
/// emitters; patterns by number, and the unit of flows in force.
#[derive(Clone, Copy, Drop)]
pub(crate) struct Parts<'a> {
    nodes: &'a Table,
    demands: &'a [List<Demand>],
    emitters: &'a [Option<Capacity>],
    patterns: &'a NumberedIds,
    unit: FlowUnit,
}

// A list of the same demands.
fn copied(alloc: Global, demands: &List<Demand>) -> Result<List<Demand>, OutOfMemory>
    ensures { IfOk result (λ list. list.list ≡ demands.now.list) }
{
    let mut list = List::new(alloc);
    list.reserve(demands.len())?;
    let items = demands.as_slice();
    for place in 0..items.len() {
        list.push(items[place])?;
    }
    Ok(list)
}

// The demands of the rows that name a junction or, where there are none, its own.
fn demands_or(
    alloc: Global,
    own: Demand,
    demands: &List<Demand>,
) -> Result<List<Demand>, OutOfMemory>
    ensures { IfOk result (λ list. list.list ≡ across.or_own own demands.now.list) }
{
    if demands.len() > 0 {
        return copied(alloc, demands);
    }
    let mut list = List::new(alloc);
    list.push(own)?;
    Ok(list)
}

// The junction of what a row says, with the demands of the rows that name it and its emitter.
fn junction_by(
    alloc: Global,
    row: &JunctionRow<'_>,
    demands: &List<Demand>,
    emitter: Option<Capacity>,
    patterns: &NumberedIds,
    unit: FlowUnit,
) -> Result<Junction, OutOfMemory>
    requires elevation { IsSmall unit row.now.elevation.nano }
    requires base { unsigned_abs (quantity.flow_ticks unit row.now.base.nano) ≤ flow_limit }
    ensures { IfOk result (IsJunctionBy unit patterns.now row.now demands.now.list emitter) }
{
    let own = demand_by(row.base, row.pattern, patterns, unit);
    let demands = demands_or(alloc, own, demands)?;
    Ok(Junction {
        elevation: head_of(row.elevation, unit),
        demands,
        emitter,
    })
}

// The next row.
fn add_row(
    alloc: Global,
    list: &mut List<Junction>,
    text: &Lines<'_>,
    lines: &[Line],
    place: usize,
    parts: &Parts<'_>,
) -> Result<(), OutOfMemory>
    requires within { place < length lines.now }
    requires lie { All (LiesIn text.now.text) lines.now }
    requires by_itself { NoneIs (IsWrongByItself (rows_at text.now.text lines.now)) }
    requires with_others { NoneIs (IsWrongWithOthers (rows_at text.now.text lines.now)) }
    requires parts { AreParts text.now.text (rows_at text.now.text lines.now) (length lines.now) parts.now }
    requires built { Match (IsJunction (rows_at text.now.text lines.now))
        (rows_of Junctions (take place (rows_at text.now.text lines.now))) list.old.list }
    ensures { OnOk result (Match (IsJunction (rows_at text.now.text lines.now))
        (rows_of Junctions (take (place + 1) (rows_at text.now.text lines.now))) list.new.list) }
{
    let line = &lines[place];
    if !is_junctions(line.section) {
        return Ok(());
    }
    let Ok(row) = read_junction(text, line) else {
        return Ok(());
    };
    let Some(number) = parts.nodes.names.number(row.id) else {
        return Ok(());
    };
    let demands = &parts.demands[number as usize];
    let emitter = parts.emitters[number as usize];
    let junction = junction_by(alloc, &row, demands, emitter, parts.patterns, parts.unit)?;
    list.push(junction)?;
    Ok(())
}

// The junctions of a file without a fault, of these parts.
fn junctions_of(
    alloc: Global,
    text: &Lines<'_>,
    lines: &[Line],
    parts: &Parts<'_>,
) -> Result<List<Junction>, OutOfMemory>
    requires lie { All (LiesIn text.now.text) lines.now }
    requires by_itself { NoneIs (IsWrongByItself (rows_at text.now.text lines.now)) }
    requires with_others { NoneIs (IsWrongWithOthers (rows_at text.now.text lines.now)) }
    requires parts { AreParts text.now.text (rows_at text.now.text lines.now) (length lines.now) parts.now }
    ensures { IfOk result (λ list. Match (IsJunction (rows_at text.now.text lines.now))
        (rows_of Junctions (rows_at text.now.text lines.now)) list.list) }
{
    let mut list = List::with_room(alloc, parts.nodes.firsts.len())?;
    for place in 0..lines.len() {
        add_row(alloc, &mut list, text, lines, place, parts)?;
    }
    Ok(list)
}

/// The junctions of a file without a fault, in the order of their rows, where `nodes` is the table of its nodes and
/// `patterns` numbers its patterns: with the demands of the rows of [DEMANDS] that name them, else their own, and the
/// emitter of the last row of [EMITTERS] that names them.
pub fn build_junctions(
    alloc: Global,
    text: &Lines<'_>,
    lines: &[Line],
    nodes: &Table,
    patterns: &NumberedIds,
    unit: FlowUnit,
) -> Result<List<Junction>, OutOfMemory>
    requires lie { All (LiesIn text.now.text) lines.now }
    requires by_itself { NoneIs (IsWrongByItself (rows_at text.now.text lines.now)) }
    requires with_others { NoneIs (IsWrongWithOthers (rows_at text.now.text lines.now)) }
    requires nodes { IsTable text.now.text (node_rows (rows_at text.now.text lines.now)) nodes.now }
    requires patterns { patterns.now ≡ pattern_ids (rows_at text.now.text lines.now) }
    requires unit { unit ≡ force.unit (rows_at text.now.text lines.now) }
    ensures { IfOk result (λ list. Match (IsJunction (rows_at text.now.text lines.now))
        (rows_of Junctions (rows_at text.now.text lines.now)) list.list) }
{
    let demands = gather_demands(alloc, text, lines, nodes, patterns, unit)?;
    let emitters = gather_emitters(alloc, text, lines, nodes, unit)?;
    let parts = Parts {
        nodes,
        demands: demands.as_slice(),
        emitters: emitters.as_slice(),
        patterns,
        unit,
    };
    junctions_of(alloc, text, lines, &parts)
}
