//! Rules among all rows.
#![tactic(auto)]

ghost use Rattle.std.specs.Prelude.{◌≡◌, ◌<◌, ◌+◌, ◌^◌, Some, true, not, length, take, slice_get, IfOk, OnOk};
ghost use Rattle.std.specs.List.{All};
ghost use Rattle.hyd_spec_lines.specs.Lines.{LiesIn, Row};
ghost use Rattle.hyd_spec_lines.specs.declared.section.Section.TheVariants.{Rules as InRules};
ghost use Rattle.hyd_net.specs.CountLimits.{most_rules};
ghost use Rattle.hyd_net.specs.declared.refusal_cause.Cause.TheVariants as cause;
ghost use Rattle.hyd_spec_input.specs.SingleRows.{IsWrongByItself};
ghost use Rattle.hyd_spec_input.specs.Columns.{or_else, unless, word};
ghost use Rattle.hyd_spec_input.specs.Faults.{NoneIs};
ghost use Rattle.hyd_spec_input.specs.OptionsAndTimesInForce as force;
ghost use Rattle.hyd_spec_input.specs.SectionsAndTables.{link_rows, node_rows};
ghost use Rattle.hyd_spec_input.specs.FaultsWithOtherRows as others;
ghost use Rattle.hyd_rows_and_tables.specs.FirstWrongRow.{HasFound};
ghost use Rattle.hyd_rows_and_tables.specs.RowsOfLines.{rows_at};
ghost use Rattle.hyd_rows_and_tables.specs.WrongInSection.{IsWrongIn};
ghost use Rattle.hyd_rows_and_tables.specs.IdTables.{IsTable};
ghost use Rattle.hyd_judge_links_controls_and_rules.specs.declared.rule_parts.Part.TheVariants as part_form;
ghost use Rattle.hyd_judge_links_controls_and_rules.specs.Rules.{AreCounted, AreRules, IsPartAt, IsRuleFault};

use crate::rule_parts::{Part, action_fault, clause_fault, read_part};
use hyd_lex::{Line, Lines};
use hyd_net::{Cause, OutOfMemory};
use hyd_network_rows::{is_acting, is_rules, next_stage};
use hyd_num::FlowUnit;
use hyd_option_and_rule_lines::or_empty;
use hyd_rows_and_tables::{Found, NumberedIds, Table, kept, limit};
use hyd_spec_input::Stage;
use std::alloc::Global;

const MOST_RULES: usize = 10_000;

const MOST_PARTS: usize = 100_000;

/// The IDs of rules, how many there are, and how many clauses and actions.
#[derive(Drop)]
pub struct RuleCounts {
    pub names: NumberedIds,
    pub rules: usize,
    pub parts: usize,
}

/// The rules of the first rows of a file, what stands before the next line of rules, and the first line that is wrong
/// with the others.
#[derive(Drop)]
pub struct Rules {
    pub counts: RuleCounts,
    pub stage: Stage,
    pub found: Option<Found>,
}

impl RuleCounts {
    // Counts a line, and answers whether no earlier rule has the ID that it gives.
    fn add(
        &mut self,
        text: &Lines<'_>,
        lines: &[Line],
        place: usize,
        part: Part,
    ) -> Result<bool, OutOfMemory>
        requires within { place < length lines.now }
        requires few { length lines.now < 2 ^ 31 }
        requires lie { All (LiesIn text.now.text) lines.now }
        requires part { IsPartAt (rows_at text.now.text lines.now) place part }
        requires counted { AreCounted (rows_at text.now.text lines.now) place self.old }
        ensures counted { OnOk result (AreCounted (rows_at text.now.text lines.now) (place + 1) self.new) }
        ensures new { IfOk result (λ new. part ≡ part_form.Name → (row : Row)
            → slice_get (rows_at text.now.text lines.now) place ≡ Some row
            → new ≡ not (others.has_rule (word 1 row.words)
            (others.rules_in (take place (rows_at text.now.text lines.now))))) }
    {
        match part {
            Part::Name => {
                let new = self.names.add(or_empty(text, &lines[place], 1))?;
                self.rules += 1;
                Ok(new)
            }
            Part::Clause(_) => {
                self.parts += 1;
                Ok(true)
            }
            Part::Action(_) => {
                self.parts += 1;
                Ok(true)
            }
            Part::Priority => Ok(true),
        }
    }
}

// The fault of what comes first, else that of what comes next.
fn first_of(fault: Option<Cause>, next: Option<Cause>) -> Option<Cause>
    ensures { result ≡ or_else fault next }
{
    match fault {
        Some(cause) => Some(cause),
        None => next,
    }
}

// Limit 12 where there are too many rules, DuplicateId where an earlier rule has the ID.
fn rule_fault(count: usize, new: bool) -> Option<Cause>
    ensures { result ≡ or_else (others.passes most_rules 12 count) (unless new cause.DuplicateId) }
{
    if let Some(cause) = limit(MOST_RULES, 12, count) {
        return Some(cause);
    }
    if new {
        return None;
    }
    Some(Cause::DuplicateId)
}

// What is wrong with the line of a place, where it is counted.
fn part_fault(
    text: &Lines<'_>,
    lines: &[Line],
    place: usize,
    part: Part,
    new: bool,
    counts: &RuleCounts,
    nodes: &Table,
    links: &Table,
    unit: FlowUnit,
) -> Option<Cause>
    requires within { place < length lines.now }
    requires lie { All (LiesIn text.now.text) lines.now }
    requires right { NoneIs (IsWrongByItself (rows_at text.now.text lines.now)) }
    requires nodes { IsTable text.now.text (node_rows (rows_at text.now.text lines.now)) nodes.now }
    requires links { IsTable text.now.text (link_rows (rows_at text.now.text lines.now)) links.now }
    requires unit { unit ≡ force.unit (rows_at text.now.text lines.now) }
    requires part { IsPartAt (rows_at text.now.text lines.now) place part }
    requires new { part ≡ part_form.Name → (row : Row) → slice_get (rows_at text.now.text lines.now) place ≡ Some row
        → new ≡ not (others.has_rule (word 1 row.words)
        (others.rules_in (take place (rows_at text.now.text lines.now)))) }
    requires counted { AreCounted (rows_at text.now.text lines.now) (place + 1) counts.now }
    ensures { (row : Row) → slice_get (rows_at text.now.text lines.now) place ≡ Some row
        → IsRuleFault (rows_at text.now.text lines.now) place row result }
{
    match part {
        Part::Name => rule_fault(counts.rules, new),
        Part::Clause(clause) => first_of(
            limit(MOST_PARTS, 12, counts.parts),
            clause_fault(text, &lines[place], &clause, nodes, links),
        ),
        Part::Action(action) => first_of(
            limit(MOST_PARTS, 12, counts.parts),
            action_fault(text, lines, place, &action, links, unit),
        ),
        Part::Priority => None,
    }
}

impl Rules {
    // The next row.
    fn add(
        &mut self,
        text: &Lines<'_>,
        lines: &[Line],
        place: usize,
        nodes: &Table,
        links: &Table,
        unit: FlowUnit,
    ) -> Result<(), OutOfMemory>
        requires within { place < length lines.now }
        requires few { length lines.now < 2 ^ 31 }
        requires lie { All (LiesIn text.now.text) lines.now }
        requires right { NoneIs (IsWrongByItself (rows_at text.now.text lines.now)) }
        requires nodes { IsTable text.now.text (node_rows (rows_at text.now.text lines.now)) nodes.now }
        requires links { IsTable text.now.text (link_rows (rows_at text.now.text lines.now)) links.now }
        requires unit { unit ≡ force.unit (rows_at text.now.text lines.now) }
        requires judged { AreRules (rows_at text.now.text lines.now) place self.old }
        ensures { OnOk result (AreRules (rows_at text.now.text lines.now) (place + 1) self.new) }
    {
        let line = &lines[place];
        if !is_rules(text, line) {
            return Ok(());
        }
        let part = read_part(text, line, is_acting(self.stage));
        let new = self.counts.add(text, lines, place, part)?;
        let cause = part_fault(
            text,
            lines,
            place,
            part,
            new,
            &self.counts,
            nodes,
            links,
            unit,
        );
        self.found = kept(self.found, place, line.number, cause);
        self.stage = next_stage(text, line, self.stage);
        Ok(())
    }
}

/// Of a file whose rows are right by themselves, its first row of [RULES] that is wrong with the others: the first with
/// more than 10,000 rules, or 100,000 clauses and actions, up to it (Limit 12); a rule's ID that an earlier rule has
/// (DuplicateId); a node or link that isn't there, that its word doesn't allow or that lacks the quantity
/// (UnknownName); of an action, a number for a link that takes none (Syntax), a pipe with a check valve
/// (Unsupported 11), a number out of range (Range), a setting of a throttle control valve that makes a capacity out of
/// range (Limit 13).
pub fn judge_rules(
    alloc: Global,
    text: &Lines<'_>,
    lines: &[Line],
    nodes: &Table,
    links: &Table,
    unit: FlowUnit,
) -> Result<Option<Found>, OutOfMemory>
    requires few { length lines.now < 2 ^ 31 }
    requires lie { All (LiesIn text.now.text) lines.now }
    requires right { NoneIs (IsWrongByItself (rows_at text.now.text lines.now)) }
    requires nodes { IsTable text.now.text (node_rows (rows_at text.now.text lines.now)) nodes.now }
    requires links { IsTable text.now.text (link_rows (rows_at text.now.text lines.now)) links.now }
    requires unit { unit ≡ force.unit (rows_at text.now.text lines.now) }
    ensures { IfOk result (λ found. HasFound (rows_at text.now.text lines.now)
        (IsWrongIn InRules (rows_at text.now.text lines.now)) (length lines.now) found) }
{
    let mut rules = Rules {
        counts: RuleCounts {
            names: NumberedIds::new(alloc),
            rules: 0,
            parts: 0,
        },
        stage: Stage::Outside,
        found: None,
    };
    for place in 0..lines.len() {
        rules.add(text, lines, place, nodes, links, unit)?;
    }
    Ok(rules.found)
}
