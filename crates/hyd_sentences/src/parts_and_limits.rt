//! Parts that aren't supported, and limits that are passed, with the names of the row.

use crate::filled_slots::{Filled, filled_slots};
use crate::forms::Slot;
use crate::forms_of_rows::form_of;
use crate::names::{Table, owner};
use crate::pump_pairs::value_of;
use crate::rows::{Row, body_of, is_one_of, rows_of};
use crate::sentences::{WrongPart, WrongSize, kind_of};
use hyd_num::read_decimal;
use hyd_spec_lines::Section;

// The most bytes of an ID, and of a line.
const LONGEST_ID: usize = 31;

const LONGEST_LINE: usize = 1_024;

// How many points a curve has.
fn point_count(text: &[u8], curve: &[u8]) -> usize {
    rows_of(text)
        .filter(|row| matches!(row.section(), Some(Section::Curves)) && row.word(0) == curve)
        .count()
}

/// Whether a curve's first point has the flow 0.
pub(crate) fn begins_at_flow_0(text: &[u8], curve: &[u8]) -> bool {
    let point = rows_of(text).find(|row| matches!(row.section(), Some(Section::Curves))
        && row.word(0) == curve);
    match point {
        Some(row) => matches!(read_decimal(row.word(1)), Ok(flow) if flow.nano == 0),
        None => false,
    }
}

// A curve that a pump can't have.
fn curve_part<'a>(text: &[u8], row: &Row<'a>) -> Option<WrongPart<'a>> {
    let curve = value_of(row, "HEAD");
    if curve.is_empty() {
        return None;
    }
    Some(WrongPart::Curve(row.word(0), curve, point_count(text, curve)))
}

// A control on a node that is no tank.
fn control_part<'a>(text: &[u8], row: &Row<'a>) -> Option<WrongPart<'a>> {
    let name = row.word(5);
    match owner(text, Table::Nodes, name)?.section()? {
        Section::Tanks => None,
        section => Some(WrongPart::ControlOn(name, section)),
    }
}

// What of a clause isn't supported: its attribute, or its relation.
fn clause_part<'a>(row: &Row<'a>) -> Option<WrongPart<'a>> {
    let first = if row.has(1, "SYSTEM") { 2 } else { 3 };
    let attribute = row.word(first);
    if is_one_of(attribute, "DEMAND FILLTIME DRAINTIME") {
        return Some(WrongPart::Attribute(attribute));
    }
    let relation = row.word(first + 1);
    if is_one_of(relation, "= <> IS NOT") {
        return Some(WrongPart::Relation(relation));
    }
    None
}

// The pipe that a row sets.
fn set_pipe<'a>(text: &[u8], row: &Row<'a>) -> Option<WrongPart<'a>> {
    let name = match row.section()? {
        Section::Status => row.word(0),
        Section::Controls => row.word(1),
        Section::Rules => row.word(2),
        _ => return None,
    };
    match owner(text, Table::Links, name)?.section()? {
        Section::Pipes => Some(WrongPart::CheckValve(name)),
        _ => None,
    }
}

// The head loss formula.
fn head_loss_part<'a>(row: &Row<'a>) -> Option<WrongPart<'a>> {
    if row.has(1, "D-W") {
        return Some(WrongPart::DarcyWeisbach);
    }
    None
}

/// A part that isn't supported, by its number, with the names of the row.
pub(crate) fn wrong_part<'a>(text: &[u8], row: &Row<'a>, part: u8) -> Option<WrongPart<'a>> {
    match part {
        1 => head_loss_part(row),
        2 if is_one_of(row.word(4), "PRV PSV PBV") => Some(WrongPart::Valve(
            row.word(0),
            row.word(4),
        )),
        3 => Some(WrongPart::Power(row.word(0))),
        4 => curve_part(text, row),
        5..=7 => Some(WrongPart::Only(part, row.word(2))),
        8 => control_part(text, row),
        10 => clause_part(row),
        11 => set_pipe(text, row),
        _ => None,
    }
}

// Whether a word is an ID that is too long: not a number, or what stands behind a pump's SPEED.
fn is_long_id(filled: &Filled<'_>) -> bool {
    matches!(filled.slot, Slot::Any | Slot::Name(_))
        && filled.word.len() > LONGEST_ID
        && !is_one_of(filled.before, "SPEED")
}

// The first ID of a row that is too long.
fn long_id<'a>(text: &[u8], row: &Row<'a>) -> Option<WrongSize<'a>> {
    let form = form_of(text, row, row.section()?);
    let filled = filled_slots(body_of(row.line), &form).find(|filled| is_long_id(filled))?;
    Some(WrongSize::Id(filled.word, filled.word.len()))
}

// A row whose capacity is out of range.
fn wrong_capacity<'a>(row: &Row<'a>) -> Option<WrongSize<'a>> {
    match row.section()? {
        Section::Emitters => Some(WrongSize::Capacity("the emitter of", row.word(0))),
        Section::Pipes => Some(WrongSize::Capacity("the pipe", row.word(0))),
        Section::Pumps => Some(WrongSize::Capacity("the pump", row.word(0))),
        Section::Valves => Some(WrongSize::Capacity("the valve", row.word(0))),
        _ => None,
    }
}

/// A limit that is passed, by its number, with the names of the row.
pub(crate) fn wrong_size<'a>(text: &[u8], row: &Row<'a>, limit: u8) -> Option<WrongSize<'a>> {
    match limit {
        2 if row.line.len() > LONGEST_LINE => Some(WrongSize::Line(row.line.len())),
        3 => long_id(text, row),
        13 => wrong_capacity(row),
        _ => None,
    }
}
