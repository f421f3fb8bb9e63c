//! Whether the names that rows give stand in their tables, and the causes where they don't.
#![tactic(auto)]

ghost use Rattle.std.specs.Prelude.{◌≡◌, List};
ghost use Rattle.hyd_spec_lines.specs.WordsOfLines.{text_of};
ghost use Rattle.hyd_spec_lines.specs.Lines.{Row};
ghost use Rattle.hyd_spec_lines.specs.declared.section.Section.TheVariants.{Curves, Patterns};
ghost use Rattle.hyd_spec_input.specs.SectionsAndTables.{has_id, rows_of, node_rows};
ghost use Rattle.hyd_spec_input.specs.FaultsWithOtherRows as others;
ghost use Rattle.hyd_rows_and_tables.specs.IdTables.{IsTable, IsEven};

use crate::id_table::Table;
use crate::sections::is_junctions;
use hyd_lex::Lines;
use hyd_net::Cause;

/// Whether a row of a table has an ID.
pub fn has(text: &Lines<'_>, table: &Table, name: &[u8]) -> bool
    requires { IsEven table.now }
    ensures { (rows : List Row) → IsTable text.now.text rows table.now → result ≡ has_id name.now rows }
{
    match table.find(text, name) {
        Some(_) => true,
        None => false,
    }
}

/// UnknownName where a pattern that is named isn't there.
pub fn unknown_pattern(text: &Lines<'_>, patterns: &Table, name: Option<&[u8]>) -> Option<Cause>
    requires { IsEven patterns.now }
    ensures { (rows : List Row) → IsTable text.now.text (rows_of Patterns rows) patterns.now
        → result ≡ others.known_pattern rows (text_of name.entry) }
{
    let Some(name) = name else {
        return None;
    };
    if has(text, patterns, name) {
        return None;
    }
    Some(Cause::UnknownName)
}

/// UnknownName where the first node with a name is no junction, or no node has it.
pub fn unknown_junction(text: &Lines<'_>, nodes: &Table, name: &[u8]) -> Option<Cause>
    requires { IsEven nodes.now }
    ensures { (rows : List Row) → IsTable text.now.text (node_rows rows) nodes.now
        → result ≡ others.known_junction rows name.now }
{
    let Some(line) = nodes.find(text, name) else {
        return Some(Cause::UnknownName);
    };
    if is_junctions(line.section) {
        return None;
    }
    Some(Cause::UnknownName)
}

/// UnknownName where no node has a name.
pub fn unknown_node(text: &Lines<'_>, nodes: &Table, name: &[u8]) -> Option<Cause>
    requires { IsEven nodes.now }
    ensures { (rows : List Row) → IsTable text.now.text (node_rows rows) nodes.now
        → result ≡ others.known_node rows name.now }
{
    match nodes.find(text, name) {
        Some(_) => None,
        None => Some(Cause::UnknownName),
    }
}

/// UnknownName where a curve that is named isn't there.
pub fn unknown_curve(text: &Lines<'_>, curves: &Table, name: Option<&[u8]>) -> Option<Cause>
    requires { IsEven curves.now }
    ensures { (rows : List Row) → IsTable text.now.text (rows_of Curves rows) curves.now
        → result ≡ others.known_curve rows (text_of name.entry) }
{
    let Some(name) = name else {
        return None;
    };
    if has(text, curves, name) {
        return None;
    }
    Some(Cause::UnknownName)
}
