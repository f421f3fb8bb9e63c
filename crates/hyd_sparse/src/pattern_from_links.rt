//! The making of a pattern from the links of a network.
ghost use Rattle.std.specs.Prelude.{◌≡◌, ◌<◌, length, IfOk, OnOk, vec_len};
ghost use Rattle.std.specs.List.{All};
ghost use Rattle.hyd_sparse.specs.Tables.{IsColumn, IsSpan, IsTerm, IsUpdate};

use crate::elimination_order::{Eliminated, eliminate_nodes, empty_lists};
use crate::pattern::Pattern;
use crate::permutation::make_swaps;
use crate::tables::{Column, Span, Term, Update};
use std::alloc::{AllocError as OutOfMemory, Global};

/// The columns' parts of a table, one after another, and the place where each part ends.
#[derive(Drop)]
struct Parts<T> {
    items: Vec<T>,
    ends: Vec<usize>,
}

/// The stretch of a column in a table with so many places.
fn span_of(ends: &[usize], column: usize, places: usize) -> Span
    ensures { IsSpan places result }
{
    let to = ends.get(column).copied().unwrap_or(places).min(places);
    let before = match column.checked_sub(1) {
        Some(before) => ends.get(before).copied().unwrap_or(places),
        None => 0,
    };
    Span {
        from: before.min(to),
        to,
    }
}

/// A number in the four bytes that tables have for it. A greater one is want of memory.
fn short(number: usize) -> Result<u32, OutOfMemory> {
    u32::try_from(number).map_err(|_| OutOfMemory)
}

/// The place of each node in the order.
fn places_of(alloc: Global, nodes: u32, order: &[Eliminated]) -> Result<Vec<u32>, OutOfMemory> {
    let mut places = vec![in alloc; 0u32; nodes as usize]?;
    for (place, eliminated) in (0..nodes).zip(order) {
        if let Some(entry) = places.get_mut(eliminated.node as usize) {
            *entry = place;
        }
    }
    Ok(places)
}

/// The places of some nodes in the order, the first one first.
fn sorted_places(alloc: Global, nodes: &[u32], places: &[u32]) -> Result<Vec<u32>, OutOfMemory> {
    let mut sorted = Vec::with_capacity(alloc, nodes.len())?;
    for node in nodes {
        if let Some(place) = places.get(*node as usize) {
            sorted.push(*place)?;
        }
    }
    sorted.sort_unstable();
    Ok(sorted)
}

fn append_rows(table: &mut Vec<u32>, rows: &[u32], columns: u32) -> Result<(), OutOfMemory>
    requires { All (λ row. row < columns) table.old.items }
    ensures { OnOk result (All (λ row. row < columns) table.new.items) }
{
    for row in rows {
        if *row < columns {
            table.push(*row)?;
        }
    }
    Ok(())
}

/// The rows of each column's entries: those of the neighbours that its node had.
fn make_rows(
    alloc: Global,
    columns: u32,
    order: &[Eliminated],
    places: &[u32],
) -> Result<Parts<u32>, OutOfMemory>
    ensures { IfOk result (λ parts. All (λ row. row < columns) parts.items.items) }
{
    let mut items = Vec::new(alloc);
    let mut ends = Vec::with_capacity(alloc, columns as usize)?;
    for eliminated in order {
        let rows = sorted_places(alloc, &eliminated.neighbours, places)?;
        append_rows(&mut items, &rows, columns)?;
        ends.push(items.len())?;
    }
    Ok(Parts { items, ends })
}

/// Notes for the row of each of a column's entries that the column changes it.
fn note_updates(
    lists: &mut [Vec<Update>],
    rows: &[u32],
    column: u32,
    entries: Span,
) -> Result<(), OutOfMemory> {
    for place in entries.from..entries.to {
        let row = rows.get(place).copied().unwrap_or(column);
        if let Some(list) = lists.get_mut(row as usize) {
            let from = short(place)?;
            list.push(Update { column, from })?;
        }
    }
    Ok(())
}

/// For each column the updates that it takes, those of the first column first.
fn list_updates(
    alloc: Global,
    columns: u32,
    rows: &Parts<u32>,
) -> Result<Vec<Vec<Update>>, OutOfMemory> {
    let mut lists = empty_lists(alloc, columns)?;
    for column in 0..columns {
        let entries = span_of(&rows.ends, column as usize, rows.items.len());
        note_updates(&mut lists, &rows.items, column, entries)?;
    }
    Ok(lists)
}

fn append_updates(
    table: &mut Vec<Update>,
    updates: &[Update],
    columns: u32,
    entries: usize,
) -> Result<(), OutOfMemory>
    requires { All (IsUpdate columns entries) table.old.items }
    ensures { OnOk result (All (IsUpdate columns entries) table.new.items) }
{
    for update in updates {
        if update.column < columns && (update.from as usize) < entries {
            table.push(*update)?;
        }
    }
    Ok(())
}

fn make_updates(
    alloc: Global,
    columns: u32,
    entries: usize,
    lists: &[Vec<Update>],
) -> Result<Parts<Update>, OutOfMemory>
    ensures { IfOk result (λ parts. All (IsUpdate columns entries) parts.items.items) }
{
    let mut items = Vec::with_capacity(alloc, entries)?;
    let mut ends = Vec::with_capacity(alloc, columns as usize)?;
    for list in lists {
        append_updates(&mut items, list, columns, entries)?;
        ends.push(items.len())?;
    }
    Ok(Parts { items, ends })
}

/// Notes a link between two nodes for the one that is eliminated first.
fn note_term(
    lists: &mut [Vec<Term>],
    places: &[u32],
    ends: (u32, u32),
    link: usize,
) -> Result<(), OutOfMemory> {
    let (one, other) = ends;
    let (Some(one), Some(other)) = (places.get(one as usize), places.get(other as usize)) else {
        return Ok(());
    };
    if one != other {
        let column = *one.min(other);
        if let Some(list) = lists.get_mut(column as usize) {
            let row = *one.max(other);
            let link = short(link)?;
            list.push(Term { row, link })?;
        }
    }
    Ok(())
}

/// For each column its terms.
fn list_terms(
    alloc: Global,
    columns: u32,
    links: &[(u32, u32)],
    places: &[u32],
) -> Result<Vec<Vec<Term>>, OutOfMemory> {
    let mut lists = empty_lists(alloc, columns)?;
    for (link, ends) in links.iter().enumerate() {
        note_term(&mut lists, places, *ends, link)?;
    }
    Ok(lists)
}

fn append_terms(
    table: &mut Vec<Term>,
    terms: &[Term],
    rows: u32,
    links: usize,
) -> Result<(), OutOfMemory>
    requires { All (IsTerm rows links) table.old.items }
    ensures { OnOk result (All (IsTerm rows links) table.new.items) }
{
    for term in terms {
        if term.row < rows && (term.link as usize) < links {
            table.push(*term)?;
        }
    }
    Ok(())
}

fn make_terms(
    alloc: Global,
    rows: u32,
    links: usize,
    lists: &[Vec<Term>],
) -> Result<Parts<Term>, OutOfMemory>
    ensures { IfOk result (λ parts. All (IsTerm rows links) parts.items.items) }
{
    let mut items = Vec::new(alloc);
    let mut ends = Vec::with_capacity(alloc, rows as usize)?;
    for list in lists {
        append_terms(&mut items, list, rows, links)?;
        ends.push(items.len())?;
    }
    Ok(Parts { items, ends })
}

fn make_columns(
    alloc: Global,
    nodes: u32,
    order: &[Eliminated],
    rows: &Parts<u32>,
    updates: &Parts<Update>,
    terms: &Parts<Term>,
) -> Result<Vec<Column>, OutOfMemory>
    ensures length { IfOk result (λ columns. vec_len columns ≡ nodes) }
    ensures inside { IfOk result (λ columns.
        All (IsColumn nodes (length rows.now.items.items) (length updates.now.items.items)
        (length terms.now.items.items)) columns.items) }
{
    let mut columns = Vec::with_capacity(alloc, nodes as usize)?;
    for place in 0..nodes {
        let at = place as usize;
        let node = order.get(at).map_or(place, |eliminated| eliminated.node);
        columns.push(Column {
            node: if node < nodes { node } else { place },
            entries: span_of(&rows.ends, at, rows.items.len()),
            updates: span_of(&updates.ends, at, updates.items.len()),
            terms: span_of(&terms.ends, at, terms.items.len()),
        })?;
    }
    Ok(columns)
}

/// The pattern for so many nodes and the links between them.
pub(crate) fn make_pattern(
    alloc: Global,
    nodes: u32,
    links: &[(u32, u32)],
) -> Result<Pattern, OutOfMemory>
    ensures nodes { IfOk result (λ pattern. length pattern.columns.items ≡ nodes) }
    ensures links { IfOk result (λ pattern. pattern.links ≡ length links.now) }
{
    let order = eliminate_nodes(alloc, nodes, links)?;
    let places = places_of(alloc, nodes, &order)?;
    let rows = make_rows(alloc, nodes, &order, &places)?;
    let lists = list_updates(alloc, nodes, &rows)?;
    let updates = make_updates(alloc, nodes, rows.items.len(), &lists)?;
    let lists = list_terms(alloc, nodes, links, &places)?;
    let terms = make_terms(alloc, nodes, links.len(), &lists)?;
    let columns = make_columns(alloc, nodes, &order, &rows, &updates, &terms)?;
    let swaps = make_swaps(alloc, nodes, &order)?;
    Ok(Pattern {
        columns,
        rows: rows.items,
        updates: updates.items,
        terms: terms.items,
        swaps,
        links: links.len(),
    })
}
