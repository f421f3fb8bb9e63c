//! Links among all rows.
#![tactic(auto)]

ghost use Rattle.std.specs.Prelude.{◌≡◌, ◌<◌, ◌+◌, ◌^◌, ◌==◌, ◌||◌, List, None, length, IfOk, OnOk};
ghost use Rattle.std.specs.List.{All};
ghost use Rattle.hyd_spec_lines.specs.Lines.{LiesIn, Row};
ghost use Rattle.hyd_option_and_rule_lines.specs.FaultOrValue.{words_at};
ghost use Rattle.hyd_spec_input.specs.SingleRows.{IsWrongByItself};
ghost use Rattle.hyd_spec_input.specs.Faults.{NoneIs};
ghost use Rattle.hyd_spec_input.specs.SectionsAndTables.{place as section_place, link_rows};
ghost use Rattle.hyd_rows_and_tables.specs.FirstWrongRow.{HasFound};
ghost use Rattle.hyd_rows_and_tables.specs.RowsOfLines.{rows_at};
ghost use Rattle.hyd_rows_and_tables.specs.WrongInSection.{IsFaultThen};
ghost use Rattle.hyd_rows_and_tables.specs.IdTables.{IsTable};
ghost use Rattle.hyd_judge_links_controls_and_rules.specs.LinksSoFar.{AreLinks, IsWrongLink};
ghost use Rattle.hyd_judge_links_controls_and_rules.specs.LinkFaults as among;
ghost use Rattle.hyd_judge_links_controls_and_rules.specs.LinkFaults.{AreEven, AreTables, IsRefusedLink};

use crate::judged_against::LinkTables;
use crate::pipes::pipe_fault;
use crate::pumps::pump_fault;
use crate::valves::valve_fault;
use hyd_kept_capacities::KeptCapacities;
use hyd_lex::{Line, Lines, Section};
use hyd_net::{Cause, OutOfMemory};
use hyd_rows_and_tables::{Found, Table};
use std::alloc::Global;

/// The links of a file, and the first of their rows that is wrong with the others.
#[derive(Drop)]
pub struct Links {
    count: usize,
    /// The IDs of pipes, pumps and valves.
    pub table: Table,
    /// The first wrong row.
    pub found: Option<Found>,
}

fn is_link(section: Section) -> bool
    ensures { result
        ≡ ((section_place section == 3) || ((section_place section == 4) || (section_place section == 5))) }
{
    match section {
        Section::Pipes => true,
        Section::Pumps => true,
        Section::Valves => true,
        _ => false,
    }
}

// What is wrong with a row of links that is right by itself.
fn link_fault(
    text: &Lines<'_>,
    line: &Line,
    count: usize,
    new: bool,
    tables: &LinkTables<'_>,
    kept: &mut KeptCapacities,
) -> Option<Cause>
    requires lies { LiesIn text.now.text line.now }
    requires even { AreEven tables.now }
    requires right { among.link_alone tables.now.by_power line.now.section (words_at text.now line.now) ≡ None }
    ensures { (rows : List Row) → AreTables text.now.text rows tables.now
        → IsFaultThen (among.fault_among line.now.section rows tables.now.unit count new (words_at text.now line.now))
        (IsRefusedLink line.now.section rows tables.now.unit (words_at text.now line.now)) result }
{
    match line.section {
        Section::Pipes => pipe_fault(
            text,
            line,
            count,
            new,
            tables.nodes,
            tables.unit,
            tables.by_power,
            kept,
        ),
        Section::Pumps => pump_fault(text, line, count, new, tables),
        Section::Valves => valve_fault(text, line, count, new, tables),
        _ => None,
    }
}

impl Links {
    // The next row.
    fn add(
        &mut self,
        text: &Lines<'_>,
        lines: &[Line],
        place: usize,
        tables: &LinkTables<'_>,
        kept: &mut KeptCapacities,
    ) -> Result<(), OutOfMemory>
        requires within { place < length lines.now }
        requires few { length lines.now < 2 ^ 31 }
        requires lie { All (LiesIn text.now.text) lines.now }
        requires right { NoneIs (IsWrongByItself (rows_at text.now.text lines.now)) }
        requires tables { AreTables text.now.text (rows_at text.now.text lines.now) tables.now }
        requires judged { AreLinks text.now.text (rows_at text.now.text lines.now) place self.old }
        ensures { OnOk result (AreLinks text.now.text (rows_at text.now.text lines.now) (place + 1) self.new) }
    {
        let line = &lines[place];
        if !is_link(line.section) {
            return Ok(());
        }
        let new = self.table.add(text, line)?;
        self.count += 1;
        let cause = link_fault(text, line, self.count, new, tables, kept);
        self.found = hyd_rows_and_tables::kept(self.found, place, line.number, cause);
        Ok(())
    }
}

/// The links of a file whose rows are right by themselves, and its first row of [PIPES], [PUMPS] and [VALVES] that is
/// wrong with the others: the first with more than 20,000 links up to it (Limit 7), an ID that an earlier link has
/// (DuplicateId), a node, curve or pattern that isn't there (UnknownName), a pump's curve of a kind that isn't
/// supported (Unsupported 4), a curve out of range, a multiplier of a pump's pattern that isn't from 0 to 10, the flow
/// of a flow control valve above 10^15 flow ticks, a Hazen-Williams coefficient outside 0 to 10,000, also 0 (Range), and
/// last a capacity out of range (Limit 13). The capacities of pipes are kept.
pub fn judge_links(
    alloc: Global,
    text: &Lines<'_>,
    lines: &[Line],
    tables: &LinkTables<'_>,
    kept: &mut KeptCapacities,
) -> Result<Links, OutOfMemory>
    requires few { length lines.now < 2 ^ 31 }
    requires lie { All (LiesIn text.now.text) lines.now }
    requires right { NoneIs (IsWrongByItself (rows_at text.now.text lines.now)) }
    requires tables { AreTables text.now.text (rows_at text.now.text lines.now) tables.now }
    ensures table { IfOk result (λ links.
        IsTable text.now.text (link_rows (rows_at text.now.text lines.now)) links.table) }
    ensures found { IfOk result (λ links. HasFound (rows_at text.now.text lines.now)
        (IsWrongLink (rows_at text.now.text lines.now)) (length lines.now) links.found) }
{
    let mut links = Links {
        count: 0,
        table: Table::new(alloc),
        found: None,
    };
    for place in 0..lines.len() {
        links.add(text, lines, place, tables, kept)?;
    }
    Ok(links)
}
