//! What rows of a spread are about, and what they name.
#![tactic(auto)]

ghost use Rattle.std.specs.Prelude.{◌≡◌, slice_get};
ghost use Rattle.hyd_spec_lines.specs.WordsOfLines.{words_in};
ghost use Rattle.hyd_spec_spread_rows.specs.RowsOfSpreads as row;
ghost use Rattle.hyd_spread_rows.specs.RowsRead.{node_meant};

use crate::words::or_empty;
use hyd_lex::is_keyword;
use hyd_net::{Project, Tank};
use hyd_rows_and_tables::NumberedIds;
use hyd_spec_spread_rows::Subject;

/// What a line is about, by its first word.
#[tactic(auto, unfolding(hyd_spec_spread_rows::specs::RowsOfSpreads::subject_of))]
pub(crate) fn subject(body: &[u8]) -> Option<Subject>
    ensures { result ≡ row.subject_of (words_in body.now) }
{
    let word = or_empty(body, 0);
    if is_keyword(word, b"DEMAND") {
        return Some(Subject::Demand);
    }
    if is_keyword(word, b"EMITTER") {
        return Some(Subject::Emitter);
    }
    if is_keyword(word, b"HEAD") {
        return Some(Subject::Head);
    }
    if is_keyword(word, b"LEVEL") {
        return Some(Subject::Level);
    }
    None
}

/// Whether a name stands for all.
pub(crate) fn is_all(name: &[u8]) -> bool
    ensures { result ≡ row.is_all name.now }
{
    name == b"*".as_slice()
}

// Whether a row may be about a node.
fn may_be(project: &Project, subject: Subject, node: u32) -> bool
    ensures { result ≡ row.may_be project.now subject node }
{
    let place = node as usize;
    match subject {
        Subject::Demand => place < project.junctions.len(),
        Subject::Emitter => {
            place < project.junctions.len() && project.junctions.as_slice()[place].emitter.is_some()
        }
        Subject::Head => match place.checked_sub(project.junctions.len()) {
            Some(place) => place < project.reservoirs.len(),
            None => false,
        },
        Subject::Level => match place.checked_sub(project.junctions.len()) {
            Some(place) => project.reservoirs.len() <= place,
            None => false,
        },
    }
}

/// Whether a name stands for all, or for a node that a row may be about.
pub(crate) fn is_known(project: &Project, ids: &NumberedIds, subject: Subject, name: &[u8]) -> bool
    requires { ids.now ≡ project.now.node_ids }
    ensures { result ≡ row.is_known project.now subject name.now }
{
    if is_all(name) {
        return true;
    }
    match ids.number(name) {
        Some(node) => may_be(project, subject, node),
        None => false,
    }
}

/// The node that a name means alone.
pub(crate) fn node_alone(project: &Project, ids: &NumberedIds, name: &[u8]) -> Option<u32>
    requires { ids.now ≡ project.now.node_ids }
    ensures { result ≡ node_meant project.now name.now }
{
    if is_all(name) {
        return None;
    }
    ids.number(name)
}

// The tank of a number alone, if it is there.
fn one_tank(tanks: &[Tank], number: usize) -> &[Tank]
    ensures { result.now ≡ row.some_tank (slice_get tanks.now number) }
{
    if number < tanks.len() {
        return &tanks[number..number + 1];
    }
    &[]
}

// The tank of a node alone.
fn tank_of_node<'a>(project: &'a Project, node: Option<u32>) -> &'a [Tank]
    ensures { result.now ≡ row.some_tank (row.tank_at project.now node) }
{
    let Some(node) = node else {
        return &[];
    };
    let place = (node as usize).saturating_sub(project.junctions.len());
    one_tank(
        project.tanks.as_slice(),
        place.saturating_sub(project.reservoirs.len()),
    )
}

/// The tanks that a name means.
pub(crate) fn tanks_meant<'a>(project: &'a Project, ids: &NumberedIds, name: &[u8]) -> &'a [Tank]
    requires { ids.now ≡ project.now.node_ids }
    ensures { result.now ≡ row.tanks_meant project.now name.now }
{
    if is_all(name) {
        return project.tanks.as_slice();
    }
    tank_of_node(project, ids.number(name))
}
