//! The emitters of junctions, gathered.
#![tactic(auto)]

ghost use Rattle.std.specs.Prelude.{◌≡◌, ◌<◌, ◌≤◌, ◌+◌, ◌*◌, ◌^◌, pos, ◌≤ℤ◌, length, IfOk};
ghost use Rattle.std.specs.List.{All};
ghost use Rattle.hyd_spec_lines.specs.Lines.{LiesIn};
ghost use Rattle.hyd_spec_input.specs.SingleRows.{IsWrongByItself};
ghost use Rattle.hyd_spec_input.specs.CapacitiesOutOfRange.{IsRefusedEmitter};
ghost use Rattle.hyd_spec_input.specs.Faults.{NoneIs, IsWrongWithOthers};
ghost use Rattle.hyd_spec_input.specs.OptionsAndTimesInForce as force;
ghost use Rattle.hyd_spec_input.specs.Project.{IsEmitter};
ghost use Rattle.hyd_spec_input.specs.SectionsAndTables.{node_rows};
ghost use Rattle.hyd_rows_and_tables.specs.RowsOfLines.{rows_at};
ghost use Rattle.hyd_rows_and_tables.specs.IdTables.{IsTable, AreNone};
ghost use Rattle.hyd_build_nodes_patterns_and_options.specs.DemandsAndEmitters.{AreEmitters};

use hyd_capacities::emitter_capacity;
use hyd_lex::{Line, Lines};
use hyd_net::OutOfMemory;
use hyd_network_rows::read_emitter;
use hyd_num::{Capacity, Decimal, FlowUnit};
use hyd_rows_and_tables::{Table, is_emitters};
use std::alloc::Global;

// The emitter of a coefficient, none where it is 0.
fn emitter_of(coefficient: Decimal, unit: FlowUnit) -> Option<Capacity>
    requires not_negative { pos 0 ≤ℤ coefficient.nano }
    requires at_most { coefficient.nano ≤ℤ pos (10 ^ 6 * 10 ^ 9) }
    requires accepted { ¬ IsRefusedEmitter coefficient.nano unit }
    ensures { IsEmitter unit coefficient.nano result }
{
    if coefficient.nano <= 0 {
        return None;
    }
    match emitter_capacity(coefficient, unit) {
        Ok(capacity) => Some(capacity),
        Err(_) => None,
    }
}

// So many without an emitter.
fn none_each(alloc: Global, count: usize) -> Result<Vec<Option<Capacity>>, OutOfMemory>
    ensures { IfOk result (λ emitters. AreNone emitters.items count) }
{
    let mut emitters = Vec::with_capacity(alloc, count)?;
    for _ in 0..count {
        emitters.push(None)?;
    }
    Ok(emitters)
}

// The next row.
fn add_row(
    emitters: &mut Vec<Option<Capacity>>,
    text: &Lines<'_>,
    lines: &[Line],
    place: usize,
    nodes: &Table,
    unit: FlowUnit,
)
    requires within { place < length lines.now }
    requires lie { All (LiesIn text.now.text) lines.now }
    requires by_itself { NoneIs (IsWrongByItself (rows_at text.now.text lines.now)) }
    requires with_others { NoneIs (IsWrongWithOthers (rows_at text.now.text lines.now)) }
    requires nodes { IsTable text.now.text (node_rows (rows_at text.now.text lines.now)) nodes.now }
    requires unit { unit ≡ force.unit (rows_at text.now.text lines.now) }
    requires gathered { AreEmitters (rows_at text.now.text lines.now) place nodes.now.names emitters.old.items }
    ensures { AreEmitters (rows_at text.now.text lines.now) (place + 1) nodes.now.names emitters.new.items }
{
    let line = &lines[place];
    if !is_emitters(line.section) {
        return;
    }
    let Ok(row) = read_emitter(text, line) else {
        return;
    };
    let Some(number) = nodes.names.number(row.junction) else {
        return;
    };
    emitters[number as usize] = emitter_of(row.coefficient, unit);
}

/// The emitter that the last row of [EMITTERS] that names it gives each node, by its number in the table of nodes, of a
/// file without a fault.
pub(crate) fn gather_emitters(
    alloc: Global,
    text: &Lines<'_>,
    lines: &[Line],
    nodes: &Table,
    unit: FlowUnit,
) -> Result<Vec<Option<Capacity>>, OutOfMemory>
    requires lie { All (LiesIn text.now.text) lines.now }
    requires by_itself { NoneIs (IsWrongByItself (rows_at text.now.text lines.now)) }
    requires with_others { NoneIs (IsWrongWithOthers (rows_at text.now.text lines.now)) }
    requires nodes { IsTable text.now.text (node_rows (rows_at text.now.text lines.now)) nodes.now }
    requires unit { unit ≡ force.unit (rows_at text.now.text lines.now) }
    ensures { IfOk result (λ emitters.
        AreEmitters (rows_at text.now.text lines.now) (length lines.now) nodes.now.names emitters.items) }
{
    let mut emitters = none_each(alloc, nodes.firsts.as_slice().len())?;
    for place in 0..lines.len() {
        add_row(&mut emitters, text, lines, place, nodes, unit);
    }
    Ok(emitters)
}
