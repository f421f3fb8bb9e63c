//! IDs that stand twice, and names that name nothing.

use crate::filled_slots::{Filled, filled_slots};
use crate::forms::{Named, Slot};
use crate::forms_of_rows::form_of;
use crate::names::{Table, allows, own_id, owner, table_of};
use crate::pump_pairs::value_of;
use crate::rows::{Row, body_of};
use crate::sentences::{Duplicate, WrongName};
use hyd_spec_lines::Section;

/// The earlier row that has the ID of a row.
pub(crate) fn earlier_owner<'a>(text: &'a [u8], row: &Row<'a>) -> Option<Duplicate<'a>> {
    let table = table_of(row.section()?)?;
    let id = own_id(row, table);
    let first = owner(text, table, id)?;
    if first.number >= row.number {
        return None;
    }
    Some(Duplicate {
        id,
        section: first.section()?,
        line: first.number,
    })
}

// A name without the quotes around it.
fn without_quotes(name: &[u8]) -> Option<&[u8]> {
    match name {
        [b'"', bare @ .., b'"'] => Some(bare),
        _ => None,
    }
}

// A name in quotes that names something without them.
fn quoted<'a>(text: &[u8], table: Table, name: &'a [u8]) -> Option<WrongName<'a>> {
    let bare = without_quotes(name)?;
    match owner(text, table, bare) {
        Some(_) => Some(WrongName::Quoted(name, bare)),
        None => None,
    }
}

// What is wrong with a name that nothing of a table has.
fn none_called<'a>(
    text: &[u8],
    table: Table,
    name: &'a [u8],
    wrong: WrongName<'a>,
) -> Option<WrongName<'a>> {
    match quoted(text, table, name) {
        Some(quoted) => Some(quoted),
        None => Some(wrong),
    }
}

// A name that no node has, or one of another kind than the word before it says.
fn node_fault<'a>(text: &[u8], said: &'a [u8], name: &'a [u8]) -> Option<WrongName<'a>> {
    let Some(node) = owner(text, Table::Nodes, name) else {
        return none_called(text, Table::Nodes, name, WrongName::NoNode(name));
    };
    let section = node.section()?;
    if allows(said, section) {
        return None;
    }
    Some(WrongName::OtherKind(said, name, section))
}

// The same of a link.
fn link_fault<'a>(text: &[u8], said: &'a [u8], name: &'a [u8]) -> Option<WrongName<'a>> {
    let Some(link) = owner(text, Table::Links, name) else {
        return none_called(text, Table::Links, name, WrongName::NoLink(name));
    };
    let section = link.section()?;
    if allows(said, section) {
        return None;
    }
    Some(WrongName::OtherKind(said, name, section))
}

// A name that no junction has.
fn junction_fault<'a>(text: &[u8], name: &'a [u8]) -> Option<WrongName<'a>> {
    let Some(node) = owner(text, Table::Nodes, name) else {
        return none_called(text, Table::Nodes, name, WrongName::NoNode(name));
    };
    match node.section()? {
        Section::Junctions => None,
        section => Some(WrongName::NoJunction(name, section)),
    }
}

// A name that no pattern has.
fn pattern_fault<'a>(text: &[u8], name: &'a [u8]) -> Option<WrongName<'a>> {
    match owner(text, Table::Patterns, name) {
        Some(_) => None,
        None => none_called(text, Table::Patterns, name, WrongName::NoPattern(name)),
    }
}

// A name that no curve has; `*` stands for none.
fn curve_fault<'a>(text: &[u8], name: &'a [u8]) -> Option<WrongName<'a>> {
    if name == b"*".as_slice() {
        return None;
    }
    match owner(text, Table::Curves, name) {
        Some(_) => None,
        None => none_called(text, Table::Curves, name, WrongName::NoCurve(name)),
    }
}

// What is wrong with a name.
fn name_fault<'a>(text: &[u8], filled: &Filled<'a>) -> Option<WrongName<'a>> {
    let Slot::Name(named) = filled.slot else {
        return None;
    };
    let name = filled.word;
    match named {
        Named::Node => node_fault(text, b"NODE", name),
        Named::NodeSaid => node_fault(text, filled.before, name),
        Named::Link => link_fault(text, b"LINK", name),
        Named::LinkSaid => link_fault(text, filled.before, name),
        Named::Junction => junction_fault(text, name),
        Named::Pattern => pattern_fault(text, name),
        Named::Curve => curve_fault(text, name),
    }
}

// The curve or the pattern of a pump.
fn pump_fault<'a>(text: &[u8], row: &Row<'a>) -> Option<WrongName<'a>> {
    if let Some(fault) = curve_fault(text, value_of(row, "HEAD")) {
        return Some(fault);
    }
    let pattern = value_of(row, "PATTERN");
    if pattern.is_empty() {
        return None;
    }
    pattern_fault(text, pattern)
}

// The pressure of a reservoir in a rule.
fn reservoir_fault<'a>(text: &[u8], row: &Row<'a>) -> Option<WrongName<'a>> {
    let name = row.word(2);
    let node = owner(text, Table::Nodes, name)?;
    match node.section()? {
        Section::Reservoirs if row.has(3, "PRESSURE") => Some(WrongName::ReservoirPressure(name)),
        _ => None,
    }
}

/// The first name of a row that names nothing, or nothing of the right kind.
pub(crate) fn wrong_name<'a>(text: &[u8], row: &Row<'a>) -> Option<WrongName<'a>> {
    let section = row.section()?;
    let form = form_of(text, row, section);
    let found = filled_slots(body_of(row.line), &form).find_map(|filled| name_fault(text, &filled));
    if found.is_some() {
        return found;
    }
    match section {
        Section::Pumps => pump_fault(text, row),
        Section::Rules => reservoir_fault(text, row),
        _ => None,
    }
}
