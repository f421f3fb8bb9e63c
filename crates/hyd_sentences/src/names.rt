//! What a file gives its IDs to.

use crate::rows::{Row, is_one_of, rows_of};
use hyd_lex::is_keyword;
use hyd_spec_lines::Section;

/// A table of IDs.
#[derive(Clone, Copy)]
pub(crate) enum Table {
    /// Junctions, reservoirs and tanks.
    Nodes,
    /// Pipes, pumps and valves.
    Links,
    /// Patterns.
    Patterns,
    /// Curves.
    Curves,
    /// Rules.
    Rules,
}

/// The table in which the rows of a section have an ID of their own that no other row may have.
pub(crate) fn table_of(section: Section) -> Option<Table> {
    match section {
        Section::Junctions | Section::Reservoirs | Section::Tanks => Some(Table::Nodes),
        Section::Pipes | Section::Pumps | Section::Valves => Some(Table::Links),
        Section::Rules => Some(Table::Rules),
        _ => None,
    }
}

// Whether the rows of a section give IDs of a table.
fn gives(section: Section, table: Table) -> bool {
    match table {
        Table::Nodes => matches!(
            section,
            Section::Junctions | Section::Reservoirs | Section::Tanks
        ),
        Table::Links => matches!(section, Section::Pipes | Section::Pumps | Section::Valves),
        Table::Patterns => matches!(section, Section::Patterns),
        Table::Curves => matches!(section, Section::Curves),
        Table::Rules => matches!(section, Section::Rules),
    }
}

/// The ID that a row gives: of a rule the second word of its RULE line.
pub(crate) fn own_id<'a>(row: &Row<'a>, table: Table) -> &'a [u8] {
    match table {
        Table::Rules if row.has(0, "RULE") => row.word(1),
        Table::Rules => b"",
        _ => row.word(0),
    }
}

// Whether a row gives an ID of a table.
fn is_owner(row: &Row<'_>, table: Table, name: &[u8]) -> bool {
    match row.section() {
        Some(section) => gives(section, table) && own_id(row, table) == name,
        None => false,
    }
}

/// The first row that gives an ID of a table.
pub(crate) fn owner<'a>(text: &'a [u8], table: Table, name: &[u8]) -> Option<Row<'a>> {
    if name.is_empty() {
        return None;
    }
    rows_of(text).find(|row| is_owner(row, table, name))
}

/// Whether the word before an ID allows what has it: it is the word for all, or that for its own kind.
pub(crate) fn allows(said: &[u8], section: Section) -> bool {
    is_one_of(said, "NODE LINK") || is_keyword(said, kind_word(section).as_bytes())
}

/// The word for what the rows of a section are.
pub(crate) fn kind_word(section: Section) -> &'static str {
    match section {
        Section::Junctions => "JUNCTION",
        Section::Reservoirs => "RESERVOIR",
        Section::Tanks => "TANK",
        Section::Pipes => "PIPE",
        Section::Pumps => "PUMP",
        Section::Valves => "VALVE",
        _ => "",
    }
}
