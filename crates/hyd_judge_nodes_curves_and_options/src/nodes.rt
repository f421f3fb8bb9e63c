//! Nodes among all rows.
#![tactic(auto)]

ghost use Rattle.std.specs.Prelude.{◌≡◌, ◌<◌, ◌+◌, ◌^◌, ◌==◌, ◌||◌, List, None, length, IfOk, OnOk};
ghost use Rattle.std.specs.List.{All};
ghost use Rattle.hyd_spec_lines.specs.Lines.{LiesIn, Row};
ghost use Rattle.hyd_option_and_rule_lines.specs.FaultOrValue.{words_at};
ghost use Rattle.hyd_spec_input.specs.SingleRows.{IsWrongByItself};
ghost use Rattle.hyd_spec_input.specs.Faults.{NoneIs};
ghost use Rattle.hyd_spec_input.specs.SectionsAndTables.{place as section_place, node_rows};
ghost use Rattle.hyd_rows_and_tables.specs.FirstWrongRow.{HasFound};
ghost use Rattle.hyd_rows_and_tables.specs.RowsOfLines.{rows_at};
ghost use Rattle.hyd_rows_and_tables.specs.IdTables.{IsTable};
ghost use Rattle.hyd_judge_nodes_curves_and_options.specs.JudgedNodes as judged;
ghost use Rattle.hyd_judge_nodes_curves_and_options.specs.JudgedNodes.{AreNodes, IsWrongNode, AreEven, AreTables};

use crate::judged_against::NodeTables;
use crate::junctions::junction_fault;
use crate::reservoirs::reservoir_fault;
use crate::tanks::tank_fault;
use hyd_lex::{Line, Lines, Section};
use hyd_net::{Cause, OutOfMemory};
use hyd_rows_and_tables::{Found, Table, kept};
use std::alloc::Global;

// How many nodes there are of each kind.
#[derive(Clone, Copy, Drop)]
struct Counts {
    junctions: usize,
    reservoirs: usize,
    tanks: usize,
}

/// The nodes of a file, and the first of their rows that is wrong with the others.
#[derive(Drop)]
pub struct Nodes {
    counts: Counts,
    /// The IDs of junctions, reservoirs and tanks.
    pub table: Table,
    /// The first wrong row.
    pub found: Option<Found>,
}

fn is_node(section: Section) -> bool
    ensures { result
        ≡ ((section_place section == 0) || ((section_place section == 1) || (section_place section == 2))) }
{
    match section {
        Section::Junctions => true,
        Section::Reservoirs => true,
        Section::Tanks => true,
        _ => false,
    }
}

impl Counts {
    // One more of a section.
    fn add(&mut self, section: Section)
        requires junctions { self.old.junctions < 2 ^ 31 }
        requires reservoirs { self.old.reservoirs < 2 ^ 31 }
        requires tanks { self.old.tanks < 2 ^ 31 }
        ensures { self.new ≡ judged.counted section self.old }
    {
        match section {
            Section::Junctions => self.junctions += 1,
            Section::Reservoirs => self.reservoirs += 1,
            Section::Tanks => self.tanks += 1,
            _ => {}
        }
    }
}

// What is wrong with a row of nodes that is right by itself.
fn node_fault(
    text: &Lines<'_>,
    line: &Line,
    counts: Counts,
    new: bool,
    tables: &NodeTables<'_>,
) -> Option<Cause>
    requires lies { LiesIn text.now.text line.now }
    requires even { AreEven tables.now }
    requires right { judged.node_alone line.now.section (words_at text.now line.now) ≡ None }
    ensures { (rows : List Row) → AreTables text.now.text rows tables.now
        → result ≡ judged.fault_among line.now.section rows tables.now.unit counts new (words_at text.now line.now) }
{
    match line.section {
        Section::Junctions => junction_fault(
            text,
            line,
            counts.junctions,
            new,
            &tables.patterns.table,
            tables.unit,
        ),
        Section::Reservoirs => reservoir_fault(
            text,
            line,
            counts.reservoirs,
            new,
            tables.patterns,
            tables.unit,
        ),
        Section::Tanks => tank_fault(text, line, counts.tanks, new, tables),
        _ => None,
    }
}

impl Nodes {
    // The next row.
    fn add(
        &mut self,
        text: &Lines<'_>,
        lines: &[Line],
        place: usize,
        tables: &NodeTables<'_>,
    ) -> Result<(), OutOfMemory>
        requires within { place < length lines.now }
        requires few { length lines.now < 2 ^ 31 }
        requires lie { All (LiesIn text.now.text) lines.now }
        requires right { NoneIs (IsWrongByItself (rows_at text.now.text lines.now)) }
        requires tables { AreTables text.now.text (rows_at text.now.text lines.now) tables.now }
        requires judged { AreNodes text.now.text (rows_at text.now.text lines.now) place self.old }
        ensures { OnOk result (AreNodes text.now.text (rows_at text.now.text lines.now) (place + 1) self.new) }
    {
        let line = &lines[place];
        if !is_node(line.section) {
            return Ok(());
        }
        let new = self.table.add(text, line)?;
        self.counts.add(line.section);
        let cause = node_fault(text, line, self.counts, new, tables);
        self.found = kept(self.found, place, line.number, cause);
        Ok(())
    }
}

/// The nodes of a file whose rows are right by themselves, and the first row of [JUNCTIONS], [RESERVOIRS] or [TANKS]
/// that is wrong with the others. It is the first with more than 10,000 junctions (Limit 4), 1,000 reservoirs (Limit 5)
/// or 32 tanks (Limit 6) up to it, an ID that an earlier node has (DuplicateId), a pattern or volume curve that isn't
/// there (UnknownName), and else out of range (Range): a head, elevation or highest level above 10^17 head ticks up or
/// down, a head that is so times a multiplier of its pattern, a demand above 10^15 flow ticks either way, levels less
/// than a hundredth of a foot apart, or a volume curve that can't be the tank's: of fewer than two points, with a level
/// above 10^17 head ticks up or down, a level or volume that isn't above the one before, a volume below 0 or above
/// 10^9 m3, that doesn't cover the tank's levels, or with less than a litre between them.
pub fn judge_nodes(
    alloc: Global,
    text: &Lines<'_>,
    lines: &[Line],
    tables: &NodeTables<'_>,
) -> Result<Nodes, OutOfMemory>
    requires few { length lines.now < 2 ^ 31 }
    requires lie { All (LiesIn text.now.text) lines.now }
    requires right { NoneIs (IsWrongByItself (rows_at text.now.text lines.now)) }
    requires tables { AreTables text.now.text (rows_at text.now.text lines.now) tables.now }
    ensures table { IfOk result (λ nodes.
        IsTable text.now.text (node_rows (rows_at text.now.text lines.now)) nodes.table) }
    ensures found { IfOk result (λ nodes. HasFound (rows_at text.now.text lines.now)
        (IsWrongNode (rows_at text.now.text lines.now)) (length lines.now) nodes.found) }
{
    let mut nodes = Nodes {
        counts: Counts {
            junctions: 0,
            reservoirs: 0,
            tanks: 0,
        },
        table: Table::new(alloc),
        found: None,
    };
    for place in 0..lines.len() {
        nodes.add(text, lines, place, tables)?;
    }
    Ok(nodes)
}
