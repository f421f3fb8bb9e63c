//! The numbers of nodes, tanks, links and patterns.
#![tactic(auto)]

ghost use Rattle.std.specs.Prelude.{◌≡◌, ◌≤◌, ◌^◌, List, length, IfOk, IfSome, IfNone};
ghost use Rattle.std.specs.List.{All};
ghost use Rattle.hyd_spec_lines.specs.Lines.{LiesIn, Row};
ghost use Rattle.hyd_spec_input.specs.MeaningsAcrossRows as across;
ghost use Rattle.hyd_spec_input.specs.SingleRows.{IsWrongByItself};
ghost use Rattle.hyd_spec_input.specs.Faults.{NoneIs, IsWrongWithOthers};
ghost use Rattle.hyd_spec_input.specs.SectionsAndTables.{node_rows, link_rows};
ghost use Rattle.hyd_rows_and_tables.specs.RowsOfLines.{rows_at};
ghost use Rattle.hyd_rows_and_tables.specs.IdTables.{IsTable};
ghost use Rattle.hyd_inp.specs.IdTables.{AreTables};
ghost use Rattle.hyd_inp.specs.Parts.{AreNumbers, AreNumberedApart, AreIds};

use crate::ids_in_order::are_in_order;
use crate::tables::Tables;
use hyd_build_nodes_patterns_and_options::{link_ids, node_ids, pattern_ids, tank_ids};
use hyd_lex::{Line, Lines, Section};
use hyd_net::{Names, OutOfMemory};
use hyd_rows_and_tables::{NumberedIds, Table};
use std::alloc::Global;

/// IDs in the order of their numbers.
#[derive(Clone, Copy, Drop)]
pub(crate) struct Numbers<'a> {
    pub(crate) nodes: &'a NumberedIds,
    /// The tanks among the nodes, numbered apart.
    pub(crate) tanks: &'a NumberedIds,
    pub(crate) links: &'a NumberedIds,
    pub(crate) patterns: &'a NumberedIds,
}

/// IDs that are numbered apart from a file's tables: of nodes and links only where their table has another order.
#[derive(Drop)]
pub(crate) struct NumberedApart {
    nodes: Option<NumberedIds>,
    tanks: NumberedIds,
    links: Option<NumberedIds>,
    patterns: NumberedIds,
}

/// The IDs that a network keeps.
#[derive(Drop)]
pub(crate) struct Ids {
    pub(crate) nodes: Names,
    pub(crate) links: Names,
}

/// The IDs of nodes and links, in the order of their numbers.
pub(crate) fn ids_of(numbers: &Numbers<'_>) -> Result<Ids, OutOfMemory>
    ensures { IfOk result (AreIds numbers.now) }
{
    let nodes = numbers.nodes.names()?;
    let links = numbers.links.names()?;
    Ok(Ids { nodes, links })
}

// The IDs of nodes, where their table has them in another order than that of their numbers.
fn nodes_apart(
    alloc: Global,
    text: &Lines<'_>,
    lines: &[Line],
    table: &Table,
) -> Result<Option<NumberedIds>, OutOfMemory>
    requires few { length lines.now ≤ 2 ^ 26 }
    requires lie { All (LiesIn text.now.text) lines.now }
    requires by_itself { NoneIs (IsWrongByItself (rows_at text.now.text lines.now)) }
    requires with_others { NoneIs (IsWrongWithOthers (rows_at text.now.text lines.now)) }
    requires table { IsTable text.now.text (node_rows (rows_at text.now.text lines.now)) table.now }
    ensures some { IfOk result (λ apart.
        IfSome apart (λ ids. ids ≡ across.node_ids (rows_at text.now.text lines.now))) }
    ensures none { IfOk result (λ apart.
        IfNone apart (table.now.names ≡ across.node_ids (rows_at text.now.text lines.now))) }
{
    if are_in_order(
        table,
        text,
        lines,
        Section::Junctions,
        Section::Reservoirs,
        Section::Tanks,
    ) {
        return Ok(None);
    }
    let ids = node_ids(alloc, text, lines)?;
    Ok(Some(ids))
}

// The IDs of links, where their table has them in another order than that of their numbers.
fn links_apart(
    alloc: Global,
    text: &Lines<'_>,
    lines: &[Line],
    table: &Table,
) -> Result<Option<NumberedIds>, OutOfMemory>
    requires few { length lines.now ≤ 2 ^ 26 }
    requires lie { All (LiesIn text.now.text) lines.now }
    requires by_itself { NoneIs (IsWrongByItself (rows_at text.now.text lines.now)) }
    requires with_others { NoneIs (IsWrongWithOthers (rows_at text.now.text lines.now)) }
    requires table { IsTable text.now.text (link_rows (rows_at text.now.text lines.now)) table.now }
    ensures some { IfOk result (λ apart.
        IfSome apart (λ ids. ids ≡ across.link_ids (rows_at text.now.text lines.now))) }
    ensures none { IfOk result (λ apart.
        IfNone apart (table.now.names ≡ across.link_ids (rows_at text.now.text lines.now))) }
{
    if are_in_order(
        table,
        text,
        lines,
        Section::Pipes,
        Section::Pumps,
        Section::Valves,
    ) {
        return Ok(None);
    }
    let ids = link_ids(alloc, text, lines)?;
    Ok(Some(ids))
}

// The IDs that are numbered apart, or those of a table.
fn or_of_table<'a>(apart: &'a Option<NumberedIds>, table: &'a Table) -> &'a NumberedIds
    ensures some { IfSome apart.now (λ ids. result.now ≡ ids) }
    ensures none { IfNone apart.now (result.now ≡ table.now.names) }
{
    match apart {
        Some(ids) => ids,
        None => &table.names,
    }
}

impl NumberedApart {
    /// The numbers of a file's names, by what is numbered apart and its tables.
    pub(crate) fn numbers<'a>(&'a self, tables: &'a Tables) -> Numbers<'a>
        ensures { (rows : List Row) → AreNumberedApart rows tables.now self.now → AreNumbers rows result }
    {
        Numbers {
            nodes: or_of_table(&self.nodes, &tables.nodes),
            tanks: &self.tanks,
            links: or_of_table(&self.links, &tables.links),
            patterns: &self.patterns,
        }
    }
}

/// Numbers the names of a file without a fault, where its tables don't.
pub(crate) fn number_apart(
    alloc: Global,
    text: &Lines<'_>,
    lines: &[Line],
    tables: &Tables,
) -> Result<NumberedApart, OutOfMemory>
    requires few { length lines.now ≤ 2 ^ 26 }
    requires lie { All (LiesIn text.now.text) lines.now }
    requires by_itself { NoneIs (IsWrongByItself (rows_at text.now.text lines.now)) }
    requires with_others { NoneIs (IsWrongWithOthers (rows_at text.now.text lines.now)) }
    requires tables { AreTables text.now.text (rows_at text.now.text lines.now) tables.now }
    ensures { IfOk result (AreNumberedApart (rows_at text.now.text lines.now) tables.now) }
{
    let nodes = nodes_apart(alloc, text, lines, &tables.nodes)?;
    let tanks = tank_ids(alloc, text, lines)?;
    let links = links_apart(alloc, text, lines, &tables.links)?;
    let patterns = pattern_ids(alloc, text, lines)?;
    Ok(NumberedApart {
        nodes,
        tanks,
        links,
        patterns,
    })
}
