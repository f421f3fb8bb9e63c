//! The first row that is wrong with the others: the first of those that the passes over the sections find. Each
//! function makes one table, hands it to what is judged against it, and answers it for what is built.
#![tactic(auto)]

ghost use Rattle.std.specs.Prelude.{◌≡◌, ◌≤◌, ◌^◌, length, IfOk};
ghost use Rattle.std.specs.List.{All};
ghost use Rattle.hyd_spec_lines.specs.Lines.{LiesIn};
ghost use Rattle.hyd_spec_input.specs.SingleRows.{IsWrongByItself};
ghost use Rattle.hyd_spec_input.specs.Faults.{NoneIs, IsWrongWithOthers};
ghost use Rattle.hyd_spec_input.specs.OptionsAndTimesInForce as force;
ghost use Rattle.hyd_spec_input.specs.SectionsAndTables.{node_rows, link_rows};
ghost use Rattle.hyd_rows_and_tables.specs.FirstWrongRow.{HasFound};
ghost use Rattle.hyd_rows_and_tables.specs.RowsOfLines.{rows_at};
ghost use Rattle.hyd_rows_and_tables.specs.IdTables.{IsTable};
ghost use Rattle.hyd_judge_nodes_curves_and_options.specs.JudgedNodes as nodes_form;
ghost use Rattle.hyd_judge_nodes_curves_and_options.specs.Patterns.{ArePatterns};
ghost use Rattle.hyd_judge_links_controls_and_rules.specs.LinkFaults as links_form;
ghost use Rattle.hyd_inp.specs.IdTables as made;
ghost use Rattle.hyd_inp.specs.SectionsInJudgingOrder as family;
ghost use Rattle.hyd_inp.specs.SectionsInJudgingOrder.{IsWrongOf};

use crate::tables::Tables;
use hyd_curves::gather_points;
use hyd_judge_links_controls_and_rules::{
    LinkTables, judge_controls, judge_links, judge_rules, judge_status,
};
use hyd_judge_nodes_curves_and_options::{
    NodeTables, Patterns, judge_curves, judge_demands, judge_emitters, judge_nodes, judge_options,
    judge_patterns, unit_in_force,
};
use hyd_kept_capacities::KeptCapacities;
use hyd_lex::{Line, Lines};
use hyd_net::OutOfMemory;
use hyd_network_rows::has_hazen_williams;
use hyd_num::FlowUnit;
use hyd_rows_and_tables::{Found, Table, least};
use std::alloc::Global;

// The links of a file, and the first wrong row of some sections.
#[derive(Drop)]
struct FoundFromLinks {
    links: Table,
    found: Option<Found>,
}

// The nodes and links of a file, and the first wrong row of some sections.
#[derive(Drop)]
struct FoundFromNodes {
    nodes: Table,
    links: Table,
    found: Option<Found>,
}

/// The tables of a file, and the first wrong row of some sections.
#[derive(Drop)]
pub(crate) struct Judged {
    pub(crate) tables: Tables,
    /// The first wrong row.
    pub(crate) found: Option<Found>,
}

// The first wrong row of states, controls and rules.
fn first_of_commands(
    alloc: Global,
    text: &Lines<'_>,
    lines: &[Line],
    nodes: &Table,
    links: &Table,
    unit: FlowUnit,
) -> Result<Option<Found>, OutOfMemory>
    requires few { length lines.now ≤ 2 ^ 26 }
    requires lie { All (LiesIn text.now.text) lines.now }
    requires right { NoneIs (IsWrongByItself (rows_at text.now.text lines.now)) }
    requires nodes { IsTable text.now.text (node_rows (rows_at text.now.text lines.now)) nodes.now }
    requires links { IsTable text.now.text (link_rows (rows_at text.now.text lines.now)) links.now }
    requires unit { unit ≡ force.unit (rows_at text.now.text lines.now) }
    ensures { IfOk result (λ found. HasFound (rows_at text.now.text lines.now)
        (IsWrongOf family.commands (rows_at text.now.text lines.now)) (length lines.now) found) }
{
    let status = judge_status(text, lines, links, unit);
    let controls = judge_controls(text, lines, nodes, links, unit);
    let rules = judge_rules(alloc, text, lines, nodes, links, unit)?;
    Ok(least(status, least(controls, rules)))
}

// The first wrong row of links and of what is judged against them.
fn first_from_links(
    alloc: Global,
    text: &Lines<'_>,
    lines: &[Line],
    tables: &LinkTables<'_>,
    kept: &mut KeptCapacities,
) -> Result<FoundFromLinks, OutOfMemory>
    requires few { length lines.now ≤ 2 ^ 26 }
    requires lie { All (LiesIn text.now.text) lines.now }
    requires right { NoneIs (IsWrongByItself (rows_at text.now.text lines.now)) }
    requires tables { links_form.AreTables text.now.text (rows_at text.now.text lines.now) tables.now }
    ensures links { IfOk result (λ judged.
        IsTable text.now.text (link_rows (rows_at text.now.text lines.now)) judged.links) }
    ensures found { IfOk result (λ judged. HasFound (rows_at text.now.text lines.now)
        (IsWrongOf family.from_links (rows_at text.now.text lines.now)) (length lines.now) judged.found) }
{
    let links = judge_links(alloc, text, lines, tables, kept)?;
    let commands = first_of_commands(alloc, text, lines, tables.nodes, &links.table, tables.unit)?;
    Ok(FoundFromLinks {
        links: links.table,
        found: least(links.found, commands),
    })
}

// The first wrong row of links and of what is judged against them, where curves are judged first.
fn first_behind_verdicts(
    alloc: Global,
    text: &Lines<'_>,
    lines: &[Line],
    tables: &NodeTables<'_>,
    nodes: &Table,
    kept: &mut KeptCapacities,
) -> Result<FoundFromLinks, OutOfMemory>
    requires few { length lines.now ≤ 2 ^ 26 }
    requires lie { All (LiesIn text.now.text) lines.now }
    requires right { NoneIs (IsWrongByItself (rows_at text.now.text lines.now)) }
    requires tables { nodes_form.AreTables text.now.text (rows_at text.now.text lines.now) tables.now }
    requires nodes { IsTable text.now.text (node_rows (rows_at text.now.text lines.now)) nodes.now }
    ensures links { IfOk result (λ judged.
        IsTable text.now.text (link_rows (rows_at text.now.text lines.now)) judged.links) }
    ensures found { IfOk result (λ judged. HasFound (rows_at text.now.text lines.now)
        (IsWrongOf family.from_links (rows_at text.now.text lines.now)) (length lines.now) judged.found) }
{
    let verdicts = hyd_curves::curve_verdicts(alloc, tables.points, tables.unit)?;
    let link_tables = LinkTables {
        nodes,
        curves: tables.curves,
        verdicts: &verdicts,
        patterns: tables.patterns,
        unit: tables.unit,
        by_power: has_hazen_williams(text, lines),
    };
    first_from_links(alloc, text, lines, &link_tables, kept)
}

// The first wrong row of what is judged against nodes.
fn first_behind_nodes(
    alloc: Global,
    text: &Lines<'_>,
    lines: &[Line],
    tables: &NodeTables<'_>,
    nodes: &Table,
    kept: &mut KeptCapacities,
) -> Result<FoundFromLinks, OutOfMemory>
    requires few { length lines.now ≤ 2 ^ 26 }
    requires lie { All (LiesIn text.now.text) lines.now }
    requires right { NoneIs (IsWrongByItself (rows_at text.now.text lines.now)) }
    requires tables { nodes_form.AreTables text.now.text (rows_at text.now.text lines.now) tables.now }
    requires nodes { IsTable text.now.text (node_rows (rows_at text.now.text lines.now)) nodes.now }
    ensures links { IfOk result (λ judged.
        IsTable text.now.text (link_rows (rows_at text.now.text lines.now)) judged.links) }
    ensures found { IfOk result (λ judged. HasFound (rows_at text.now.text lines.now)
        (IsWrongOf family.behind_nodes (rows_at text.now.text lines.now)) (length lines.now) judged.found) }
{
    let behind = first_behind_verdicts(alloc, text, lines, tables, nodes, kept)?;
    let demands = judge_demands(text, lines, nodes, &tables.patterns.table, tables.unit);
    let emitters = judge_emitters(text, lines, nodes, tables.unit);
    Ok(FoundFromLinks {
        links: behind.links,
        found: least(demands.found, least(emitters, behind.found)),
    })
}

// The first wrong row of nodes and of what is judged against them.
fn first_from_nodes(
    alloc: Global,
    text: &Lines<'_>,
    lines: &[Line],
    tables: &NodeTables<'_>,
    kept: &mut KeptCapacities,
) -> Result<FoundFromNodes, OutOfMemory>
    requires few { length lines.now ≤ 2 ^ 26 }
    requires lie { All (LiesIn text.now.text) lines.now }
    requires right { NoneIs (IsWrongByItself (rows_at text.now.text lines.now)) }
    requires tables { nodes_form.AreTables text.now.text (rows_at text.now.text lines.now) tables.now }
    ensures nodes { IfOk result (λ judged.
        IsTable text.now.text (node_rows (rows_at text.now.text lines.now)) judged.nodes) }
    ensures links { IfOk result (λ judged.
        IsTable text.now.text (link_rows (rows_at text.now.text lines.now)) judged.links) }
    ensures found { IfOk result (λ judged. HasFound (rows_at text.now.text lines.now)
        (IsWrongOf family.from_nodes (rows_at text.now.text lines.now)) (length lines.now) judged.found) }
{
    let nodes = judge_nodes(alloc, text, lines, tables)?;
    let behind = first_behind_nodes(alloc, text, lines, tables, &nodes.table, kept)?;
    Ok(FoundFromNodes {
        nodes: nodes.table,
        links: behind.links,
        found: least(nodes.found, behind.found),
    })
}

// The first wrong row of curves and of what is judged against them.
fn first_from_curves(
    alloc: Global,
    text: &Lines<'_>,
    lines: &[Line],
    patterns: &Patterns,
    unit: FlowUnit,
    kept: &mut KeptCapacities,
) -> Result<Judged, OutOfMemory>
    requires few { length lines.now ≤ 2 ^ 26 }
    requires lie { All (LiesIn text.now.text) lines.now }
    requires right { NoneIs (IsWrongByItself (rows_at text.now.text lines.now)) }
    requires patterns { ArePatterns text.now.text (rows_at text.now.text lines.now) patterns.now }
    requires unit { unit ≡ force.unit (rows_at text.now.text lines.now) }
    ensures tables { IfOk result (λ judged.
        made.AreTables text.now.text (rows_at text.now.text lines.now) judged.tables) }
    ensures found { IfOk result (λ judged. HasFound (rows_at text.now.text lines.now)
        (IsWrongOf family.from_curves (rows_at text.now.text lines.now)) (length lines.now) judged.found) }
{
    let curves = judge_curves(alloc, text, lines)?;
    let points = gather_points(alloc, text, lines, &curves.table)?;
    let tables = NodeTables {
        patterns,
        curves: &curves.table,
        points: &points,
        unit,
    };
    let behind = first_from_nodes(alloc, text, lines, &tables, kept)?;
    Ok(Judged {
        tables: Tables {
            nodes: behind.nodes,
            links: behind.links,
            curves: curves.table,
            points,
        },
        found: least(curves.found, behind.found),
    })
}

/// The first row that is wrong with the others, of a file whose rows are right by themselves, and the file's tables.
pub(crate) fn first_with_others(
    alloc: Global,
    text: &Lines<'_>,
    lines: &[Line],
    kept: &mut KeptCapacities,
) -> Result<Judged, OutOfMemory>
    requires few { length lines.now ≤ 2 ^ 26 }
    requires lie { All (LiesIn text.now.text) lines.now }
    requires right { NoneIs (IsWrongByItself (rows_at text.now.text lines.now)) }
    ensures tables { IfOk result (λ judged.
        made.AreTables text.now.text (rows_at text.now.text lines.now) judged.tables) }
    ensures found { IfOk result (λ judged. HasFound (rows_at text.now.text lines.now)
        (IsWrongWithOthers (rows_at text.now.text lines.now)) (length lines.now) judged.found) }
{
    let unit = unit_in_force(text, lines);
    let options = judge_options(text, lines, unit);
    let patterns = judge_patterns(alloc, text, lines)?;
    let behind = first_from_curves(alloc, text, lines, &patterns, unit, kept)?;
    Ok(Judged {
        tables: behind.tables,
        found: least(options, least(patterns.found, behind.found)),
    })
}
