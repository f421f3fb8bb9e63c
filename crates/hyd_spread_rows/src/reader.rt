//! The spread of a text, or its first fault.
#![tactic(auto)]

ghost use Rattle.std.specs.Prelude.{◌≡◌, ◌∷◌, ◌++◌, [], ◌^◌, ◌≤◌, ℕ, List, length, slice_get, Some, None, IfOk, IfErr};
ghost use Rattle.std.specs.Prelude.{IfSome, IfNone};
ghost use Rattle.hyd_net.specs.Ids.{AreDistinct};
ghost use Rattle.hyd_net.specs.Sound.{IsSound};
ghost use Rattle.hyd_spec_lines.specs.WordsOfLines.{text_lines, words_in};
ghost use Rattle.hyd_spec_lines.specs.WordsOfLines as form;
ghost use Rattle.hyd_spec_spread_rows.specs.TextsOfSpreads.{line_fault, rows_of, IsLineFault};
ghost use Rattle.hyd_spec_spread_rows.specs.TextsOfSpreads.{IsFault, HasNoFault, spread_in};
ghost use Rattle.hyd_spread_rows.specs.RowsSaid.{AreSaid, HasPlaces};
ghost use Rattle.hyd_spread_rows.specs.SpreadsRead.{IfFault, spread_of, AreInRange};

use crate::fault::{SpreadFault, SpreadRefused, TEXT_TOO_LONG};
use crate::ids::{count, numbered};
use crate::lines::first_line;
use crate::resolved::{SpreadRows, resolve};
use crate::rows::read_line;
use crate::said::Tables;
use hyd_net::{Cause, Project};
use hyd_rows_and_tables::NumberedIds;
use std::alloc::Global;

// The most bytes of a text: 64 MiB.
const LONGEST_TEXT: usize = 67_108_864;

// Reads a line into the tables, and answers what is wrong with it.
fn take_in(project: &Project, ids: &NumberedIds, line: &[u8], tables: &mut Tables) -> Option<Cause>
    requires ids { ids.now ≡ project.now.node_ids }
    requires places { HasPlaces project.now tables.old }
    ensures fault { result ≡ line_fault project.now line.now }
    ensures places { HasPlaces project.now tables.new }
    ensures said { IfNone result ((rows : List (List (List ℕ))) → AreDistinct project.now.node_ids
        → AreSaid project.now rows tables.old
        → AreSaid project.now (rows ++ words_in (form.body line.now) ∷ []) tables.new) }
{
    match read_line(project, ids, line) {
        Ok(None) => None,
        Ok(Some(row)) => {
            tables.hear(project, &row);
            None
        }
        Err(cause) => Some(cause),
    }
}

// Reads a text of at most 64 MiB into the tables, and answers its first fault.
fn read_rows(
    project: &Project,
    ids: &NumberedIds,
    text: &[u8],
    tables: &mut Tables,
) -> Option<SpreadFault>
    requires ids { ids.now ≡ project.now.node_ids }
    requires distinct { AreDistinct project.now.node_ids }
    requires short { length text.now ≤ 2 ^ 26 }
    requires places { HasPlaces project.now tables.old }
    requires said { AreSaid project.now [] tables.old }
    ensures fault { IfSome result (λ f. IsLineFault project.now text.now f.line f.cause) }
    ensures fine { IfNone result ((k : ℕ) (line : List ℕ) → slice_get (text_lines text.now) k ≡ Some line
        → line_fault project.now line ≡ None) }
    ensures said { IfNone result (AreSaid project.now (rows_of (text_lines text.now)) tables.new) }
    ensures places { HasPlaces project.now tables.new }
{
    let mut at = 0;
    let mut number = 0;
    while at < text.len() {
        let (line, used) = first_line(&text[at..]);
        match take_in(project, ids, line, tables) {
            None => {}
            Some(cause) => {
                return Some(SpreadFault {
                    line: number + 1,
                    cause,
                });
            }
        }
        number += 1;
        at += used;
    }
    None
}

/// Reads the spread of a text over a network. The first fault is, in this order: more than 64 MiB (line 0, Limit 1),
/// and the first line that is wrong: more than 1,024 bytes (Limit 2), a byte that isn't printing ASCII, a space or a
/// tab before its comment (Syntax), and word by word from the left a wrong first word, a missing or a further word
/// (Syntax), an ID longer than 31 bytes (Limit 3), a name that nothing of the kind has (UnknownName), no number
/// (Number), a number outside its range (Range).
pub fn read_spread(
    alloc: Global,
    project: &Project,
    text: &[u8],
) -> Result<SpreadRows, SpreadRefused>
    requires { IsSound project.now }
    ensures fault { IfErr result (λ refused. IfFault refused (λ f. IsFault project.now text.now f.line f.cause)) }
    ensures no_fault { IfOk result (λ _. HasNoFault project.now text.now) }
    ensures spread { IfOk result (λ rows. spread_of rows ≡ spread_in project.now text.now) }
    ensures range { IfOk result AreInRange }
{
    if text.len() > LONGEST_TEXT {
        return Err(SpreadRefused::Fault(TEXT_TOO_LONG));
    }
    let ids = numbered(alloc, project)?;
    let mut tables = Tables::new(alloc, count(project))?;
    match read_rows(project, &ids, text, &mut tables) {
        None => {}
        Some(fault) => return Err(SpreadRefused::Fault(fault)),
    }
    let rows = resolve(alloc, project, &tables)?;
    Ok(rows)
}
