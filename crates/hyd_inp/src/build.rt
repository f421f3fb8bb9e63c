//! The network of a file without a fault, part by part.
#![tactic(auto)]

ghost use Rattle.std.specs.Prelude.{◌≡◌, ◌≤◌, ◌^◌, length, IfOk};
ghost use Rattle.std.specs.List.{All};
ghost use Rattle.hyd_spec_lines.specs.Lines.{LiesIn};
ghost use Rattle.hyd_spec_input.specs.SingleRows.{IsWrongByItself};
ghost use Rattle.hyd_spec_input.specs.Faults.{NoneIs, IsWrongWithOthers};
ghost use Rattle.hyd_spec_input.specs.OptionsAndTimesInForce as force;
ghost use Rattle.hyd_spec_input.specs.Project.{IsProject};
ghost use Rattle.hyd_rows_and_tables.specs.RowsOfLines.{rows_at};
ghost use Rattle.hyd_inp.specs.IdTables.{AreTables};
ghost use Rattle.hyd_inp.specs.Parts.{AreNumbers, AreNodes, AreLinks, ArePatternsControlsAndRules, AreParts};
ghost use Rattle.hyd_inp.specs.RowsToBuildFrom.{AreRowsForNetwork, rows_from};

use crate::network_parts::{Links, Nodes, Parts, PatternsControlsAndRules, assemble};
use crate::numbered_names::{Numbers, ids_of, number_apart};
use crate::rows_to_build_from::RowsForNetwork;
use crate::tables::Tables;
use hyd_build_links_controls_and_rules::{RowsForLinks, build_controls, build_rules};
use hyd_build_nodes_patterns_and_options::{
    build_junctions, build_patterns, build_reservoirs, build_tanks, options_in_force,
    times_in_force,
};
use hyd_curves::{gather_bends, gather_shapes};
use hyd_judge_nodes_curves_and_options::unit_in_force;
use hyd_kept_capacities::KeptCapacities;
use hyd_lex::{Line, Lines};
use hyd_net::{OutOfMemory, Project};
use hyd_network_rows::has_hazen_williams;
use hyd_num::FlowUnit;
use std::alloc::Global;

// Junctions, reservoirs and tanks, and the volume curves of tanks.
fn build_nodes(
    alloc: Global,
    text: &Lines<'_>,
    given: &RowsForNetwork<'_>,
) -> Result<Nodes, OutOfMemory>
    requires { AreRowsForNetwork text.now.text given.now }
    ensures { IfOk result (AreNodes (rows_from text.now.text given.now)) }
{
    let RowsForNetwork {
        lines,
        numbers,
        nodes,
        curves,
        points,
        unit,
        ..
    } = *given;
    let shapes = gather_shapes(alloc, text, lines, curves, points, unit)?;
    let junctions = build_junctions(alloc, text, lines, nodes, numbers.patterns, unit)?;
    let reservoirs = build_reservoirs(alloc, text, lines, numbers.patterns, unit)?;
    let tanks = build_tanks(alloc, text, lines, &shapes.names, unit)?;
    Ok(Nodes {
        junctions,
        reservoirs,
        tanks,
        shapes: shapes.lists,
    })
}

// Links, and the curves by straight lines that they name.
fn build_links(
    alloc: Global,
    text: &Lines<'_>,
    given: &RowsForNetwork<'_>,
    kept: &mut KeptCapacities,
) -> Result<Links, OutOfMemory>
    requires { AreRowsForNetwork text.now.text given.now }
    ensures { IfOk result (AreLinks (rows_from text.now.text given.now)) }
{
    let bends = gather_bends(
        alloc,
        text,
        given.lines,
        given.curves,
        given.points,
        given.unit,
    )?;
    let of_links = RowsForLinks {
        lines: given.lines,
        nodes: given.numbers.nodes,
        links: given.links,
        patterns: given.numbers.patterns,
        curves: given.curves,
        points: given.points,
        bends: &bends.names,
        unit: given.unit,
        by_power: has_hazen_williams(text, given.lines),
    };
    let links = hyd_build_links_controls_and_rules::build_links(alloc, text, &of_links, kept)?;
    Ok(Links {
        links,
        bends: bends.lists,
    })
}

// Patterns, controls and rules.
fn build_patterns_controls_and_rules(
    alloc: Global,
    text: &Lines<'_>,
    given: &RowsForNetwork<'_>,
) -> Result<PatternsControlsAndRules, OutOfMemory>
    requires { AreRowsForNetwork text.now.text given.now }
    ensures { IfOk result (ArePatternsControlsAndRules (rows_from text.now.text given.now)) }
{
    let RowsForNetwork {
        lines,
        numbers,
        links,
        unit,
        ..
    } = *given;
    let patterns = build_patterns(alloc, text, lines, numbers.patterns)?;
    let controls = build_controls(
        alloc,
        text,
        lines,
        numbers.tanks,
        numbers.links,
        links,
        unit,
    )?;
    let rules = build_rules(
        alloc,
        text,
        lines,
        numbers.nodes,
        numbers.tanks,
        numbers.links,
        links,
        unit,
    )?;
    Ok(PatternsControlsAndRules {
        patterns,
        controls,
        rules,
    })
}

// All parts.
fn build_parts(
    alloc: Global,
    text: &Lines<'_>,
    lines: &[Line],
    tables: &Tables,
    numbers: Numbers<'_>,
    unit: FlowUnit,
    kept: &mut KeptCapacities,
) -> Result<Parts, OutOfMemory>
    requires few { length lines.now ≤ 2 ^ 26 }
    requires lie { All (LiesIn text.now.text) lines.now }
    requires by_itself { NoneIs (IsWrongByItself (rows_at text.now.text lines.now)) }
    requires with_others { NoneIs (IsWrongWithOthers (rows_at text.now.text lines.now)) }
    requires tables { AreTables text.now.text (rows_at text.now.text lines.now) tables.now }
    requires numbers { AreNumbers (rows_at text.now.text lines.now) numbers }
    requires unit { unit ≡ force.unit (rows_at text.now.text lines.now) }
    ensures { IfOk result (AreParts (rows_at text.now.text lines.now)) }
{
    let given = RowsForNetwork {
        lines,
        numbers,
        nodes: &tables.nodes,
        links: &tables.links,
        curves: &tables.curves,
        points: &tables.points,
        unit,
    };
    let nodes = build_nodes(alloc, text, &given)?;
    let links = build_links(alloc, text, &given, kept)?;
    let patterns_controls_and_rules = build_patterns_controls_and_rules(alloc, text, &given)?;
    Ok(Parts {
        nodes,
        links,
        patterns_controls_and_rules,
    })
}

/// Builds the network of a file without a fault, with the tables and the capacities of pipes that were kept when it was
/// judged.
pub(crate) fn build(
    alloc: Global,
    text: &Lines<'_>,
    lines: &[Line],
    tables: &Tables,
    kept: &mut KeptCapacities,
) -> Result<Project, OutOfMemory>
    requires few { length lines.now ≤ 2 ^ 26 }
    requires lie { All (LiesIn text.now.text) lines.now }
    requires by_itself { NoneIs (IsWrongByItself (rows_at text.now.text lines.now)) }
    requires with_others { NoneIs (IsWrongWithOthers (rows_at text.now.text lines.now)) }
    requires tables { AreTables text.now.text (rows_at text.now.text lines.now) tables.now }
    ensures { IfOk result (IsProject (rows_at text.now.text lines.now)) }
{
    let unit = unit_in_force(text, lines);
    let apart = number_apart(alloc, text, lines, tables)?;
    let numbers = apart.numbers(tables);
    let ids = ids_of(&numbers)?;
    let parts = build_parts(alloc, text, lines, tables, numbers, unit, kept)?;
    let options = options_in_force(text, lines, unit, numbers.patterns);
    let times = times_in_force(text, lines);
    Ok(assemble(ids, parts, options, times))
}
