//! Tables of IDs.
#![tactic(auto)]

ghost use Rattle.std.specs.Prelude.{◌≡◌, ◌^◌, ◌<◌, ◌≤◌, ◌+◌, [], ◌∷◌, ◌++◌, ℕ, List, length, not, if◌then◌else◌, Some};
ghost use Rattle.std.specs.Prelude.{None, IfOk, IfSome, IfNone};
ghost use Rattle.hyd_spec_lines.specs.Lines.{LiesIn, row_of, Row};
ghost use Rattle.hyd_spec_input.specs.SectionsAndTables as table;
ghost use Rattle.hyd_spec_input.specs.SectionsAndTables.{row_with, has_id};
ghost use Rattle.hyd_rows_and_tables.specs.IdTables.{IsTable, IsEven};

use crate::numbered_ids::NumberedIds;
use hyd_lex::{Line, Lines};
use hyd_net::OutOfMemory;
use std::alloc::Global;

/// The IDs of rows, each with the line of the first row that has it.
#[derive(Drop)]
pub struct Table {
    /// Each ID once, in the order of the rows.
    pub names: NumberedIds,
    /// For each ID the line of the first row that has it, in the order of `names`.
    pub firsts: Vec<Line>,
}

/// The ID of a line, empty where it has no word.
pub fn own_id<'a>(text: &Lines<'a>, line: &Line) -> &'a [u8]
    requires { LiesIn text.now.text line.now }
    ensures { result.now ≡ table.own_id (row_of text.now.text line.now) }
{
    text.word(line, 0).unwrap_or(b"")
}

impl Table {
    /// The empty table. It takes no memory.
    pub fn new(alloc: Global) -> Table
        ensures table { (text : List ℕ) → IsTable text [] result }
        ensures empty { result.names ≡ [] }
        ensures even { IsEven result }
    {
        Table {
            names: NumberedIds::new(alloc),
            firsts: Vec::new(alloc),
        }
    }

    /// Adds the ID of a row by its line, and answers whether no earlier row has it. After want of memory the table is
    /// of no further use.
    pub fn add(&mut self, text: &Lines<'_>, line: &Line) -> Result<bool, OutOfMemory>
        requires lies { LiesIn text.now.text line.now }
        requires few { length self.old.names < 2 ^ 31 }
        ensures new { IfOk result (λ new. (rows : List Row) → IsTable text.now.text rows self.old
            → new ≡ not (has_id (table.own_id (row_of text.now.text line.now)) rows)) }
        ensures table { IfOk result (λ _. (rows : List Row) → IsTable text.now.text rows self.old
            → IsTable text.now.text (rows ++ row_of text.now.text line.now ∷ []) self.new) }
        ensures count { IfOk result (λ new. length self.new.names
            ≡ (if new then length self.old.names + 1 else length self.old.names)) }
        ensures even { IsEven self.old → IfOk result (λ _. IsEven self.new) }
        ensures longer { IfOk result (λ _. length self.new.names ≤ length self.old.names + 1) }
    {
        let new = self.names.add(own_id(text, line))?;
        if new {
            self.firsts.push(*line)?;
        }
        Ok(new)
    }

    /// The line of the first row with an ID. `None` comes exactly where no row has it.
    pub fn find(&self, text: &Lines<'_>, name: &[u8]) -> Option<Line>
        requires { IsEven self.now }
        ensures some { IfSome result (λ line. (rows : List Row) → IsTable text.now.text rows self.now
            → row_with name.now rows ≡ Some (row_of text.now.text line)) }
        ensures none { IfNone result ((rows : List Row) → IsTable text.now.text rows self.now
            → row_with name.now rows ≡ None) }
        ensures lies { IfSome result (λ line. (rows : List Row) → IsTable text.now.text rows self.now
            → LiesIn text.now.text line) }
    {
        let number = self.names.number(name)?;
        Some(self.firsts[number as usize])
    }
}
