//! The parts of a rule.
#![tactic(auto)]

ghost use Rattle.std.specs.Prelude.{◌≡◌, ◌<◌, ℕ, List as ListOf, Some, None, true, false, length, slice_get, IfOk};
ghost use Rattle.std.specs.Prelude.{IfSome, IfNone};
ghost use Rattle.std.specs.List.{All};
ghost use Rattle.hyd_spec_lines.specs.Lines.{LiesIn, Row};
ghost use Rattle.hyd_option_and_rule_lines.specs.FaultOrValue.{words_at};
ghost use Rattle.hyd_option_and_rule_lines.specs.WhatLinesSay.{IsRuleLine, IsClauseLine};
ghost use Rattle.hyd_spec_input.specs.SingleRows.{IsWrongByItself};
ghost use Rattle.hyd_spec_input.specs.Columns as column;
ghost use Rattle.hyd_spec_input.specs.Columns.{amount};
ghost use Rattle.hyd_spec_input.specs.Faults.{NoneIs, IsWrongWithOthers};
ghost use Rattle.hyd_spec_input.specs.OptionsAndTimesInForce as force;
ghost use Rattle.hyd_spec_input.specs.MeaningsAcrossRows as across;
ghost use Rattle.hyd_spec_input.specs.MeaningsAcrossRows.{node_ids, tank_ids, link_ids, lines_at};
ghost use Rattle.hyd_spec_input.specs.Project as project;
ghost use Rattle.hyd_spec_input.specs.RuleRows.{begins_with};
ghost use Rattle.hyd_spec_input.specs.Project.{Match, IsClause, IsAction};
ghost use Rattle.hyd_spec_input.specs.SectionsAndTables.{link_rows};
ghost use Rattle.hyd_spec_input.specs.declared.Stage.TheVariants.{Named};
ghost use Rattle.hyd_rows_and_tables.specs.RowsOfLines.{rows_at};
ghost use Rattle.hyd_rows_and_tables.specs.IdTables.{IsTable};
ghost use Rattle.hyd_build_links_controls_and_rules.specs.Rules as rules;
ghost use Rattle.hyd_build_links_controls_and_rules.specs.Rules.{is_clause_word, IsRightClause, rest_of_rule, stage_at};

use crate::actions::action_of;
use crate::clauses::clause_of;
use hyd_lex::{Line, Lines};
use hyd_net::{Action, Clause, Joined, List, OutOfMemory, Relation, RuleClause, Value, What};
use hyd_network_rows::{first_word, is_rule, is_rules, stage_by};
use hyd_num::FlowUnit;
use hyd_option_and_rule_lines::{ClauseLine, RuleLine, number, read_rule_line};
use hyd_rows_and_tables::{NumberedIds, Table};
use hyd_spec_input::{RuleWord, Stage};
use std::alloc::Global;

/// The actions of a rule where its clauses hold, or where they don't.
#[derive(Clone, Copy, Drop)]
pub(crate) enum Branch {
    Then,
    Else,
}

// What stands for a clause of a file with a fault.
const NO_CLAUSE: RuleClause = RuleClause {
    joined: Joined::And,
    clause: Clause {
        what: What::Time,
        relation: Relation::Less,
        value: Value::Active,
    },
};

fn is_asking(stage: Stage) -> bool
    ensures { result ≡ across.is_asking stage }
{
    match stage {
        Stage::Asking => true,
        _ => false,
    }
}

fn is_of_branch(branch: Branch, stage: Stage) -> bool
    ensures { result ≡ rules.is_of_branch branch stage }
{
    match branch {
        Branch::Then => stage == Stage::Acting,
        Branch::Else => stage == Stage::Otherwise,
    }
}

fn is_priority(first: Option<RuleWord>) -> bool
    ensures { result ≡ across.is_priority first }
{
    match first {
        Some(RuleWord::Priority) => true,
        _ => false,
    }
}

// The clause that a line before THEN says, and how it is joined.
fn clause_said(line: RuleLine) -> Option<(Joined, ClauseLine)>
    ensures some { IfSome result (λ found. (words : ListOf (ListOf ℕ)) → IsRuleLine false words line
        → (found.0 ≡ project.joined_by (begins_with words)) × IsClauseLine words found.1) }
    ensures none { IfNone result ((words : ListOf (ListOf ℕ)) → IsRuleLine false words line
        → is_clause_word (begins_with words) ≡ true → ⊥) }
{
    match line {
        RuleLine::If(clause) => Some((Joined::And, clause)),
        RuleLine::And(clause) => Some((Joined::And, clause)),
        RuleLine::Or(clause) => Some((Joined::Or, clause)),
        _ => None,
    }
}

// The clause of a place.
fn clause_at(
    text: &Lines<'_>,
    lines: &[Line],
    place: usize,
    nodes: &NumberedIds,
    tanks: &NumberedIds,
    links: &NumberedIds,
    unit: FlowUnit,
) -> RuleClause
    requires within { place < length lines.now }
    requires lie { All (LiesIn text.now.text) lines.now }
    requires nodes { nodes.now ≡ node_ids (rows_at text.now.text lines.now) }
    requires tanks { tanks.now ≡ tank_ids (rows_at text.now.text lines.now) }
    requires links { links.now ≡ link_ids (rows_at text.now.text lines.now) }
    requires unit { unit ≡ force.unit (rows_at text.now.text lines.now) }
    requires right { (row : Row) → slice_get (rows_at text.now.text lines.now) place ≡ Some row
        → IsRightClause (rows_at text.now.text lines.now) row.words }
    ensures { (row : Row) → slice_get (rows_at text.now.text lines.now) place ≡ Some row
        → IsClause (rows_at text.now.text lines.now) row.words result }
{
    let line = &lines[place];
    let Ok(said) = read_rule_line(text, line, false) else {
        return NO_CLAUSE;
    };
    let Some(found) = clause_said(said) else {
        return NO_CLAUSE;
    };
    clause_of(text, line, &found.1, found.0, nodes, tanks, links, unit)
}

/// The clauses of a rule, from behind its RULE line up to the next one.
pub(crate) fn clauses_of(
    alloc: Global,
    text: &Lines<'_>,
    lines: &[Line],
    from: usize,
    nodes: &NumberedIds,
    tanks: &NumberedIds,
    links: &NumberedIds,
    unit: FlowUnit,
) -> Result<List<RuleClause>, OutOfMemory>
    requires lie { All (LiesIn text.now.text) lines.now }
    requires by_itself { NoneIs (IsWrongByItself (rows_at text.now.text lines.now)) }
    requires with_others { NoneIs (IsWrongWithOthers (rows_at text.now.text lines.now)) }
    requires nodes { nodes.now ≡ node_ids (rows_at text.now.text lines.now) }
    requires tanks { tanks.now ≡ tank_ids (rows_at text.now.text lines.now) }
    requires links { links.now ≡ link_ids (rows_at text.now.text lines.now) }
    requires unit { unit ≡ force.unit (rows_at text.now.text lines.now) }
    requires begun { Named ≡ stage_at (rows_at text.now.text lines.now) from }
    ensures { IfOk result (λ list. Match (IsClause (rows_at text.now.text lines.now))
        (lines_at across.is_asking Named (rest_of_rule (rows_at text.now.text lines.now) from)) list.list) }
{
    let mut list = List::new(alloc);
    let mut stage = Stage::Named;
    for place in from..lines.len() {
        let line = &lines[place];
        if !is_rules(text, line) {
            continue;
        }
        let first = first_word(text, line);
        if is_rule(first) {
            return Ok(list);
        }
        stage = stage_by(stage, first);
        if !is_asking(stage) {
            continue;
        }
        list.push(clause_at(text, lines, place, nodes, tanks, links, unit))?;
    }
    Ok(list)
}

/// The actions of a branch of a rule, from behind its RULE line up to the next one.
pub(crate) fn actions_of(
    alloc: Global,
    text: &Lines<'_>,
    lines: &[Line],
    from: usize,
    branch: Branch,
    links: &NumberedIds,
    table: &Table,
    unit: FlowUnit,
) -> Result<List<Action>, OutOfMemory>
    requires lie { All (LiesIn text.now.text) lines.now }
    requires by_itself { NoneIs (IsWrongByItself (rows_at text.now.text lines.now)) }
    requires with_others { NoneIs (IsWrongWithOthers (rows_at text.now.text lines.now)) }
    requires links { links.now ≡ link_ids (rows_at text.now.text lines.now) }
    requires table { IsTable text.now.text (link_rows (rows_at text.now.text lines.now)) table.now }
    requires unit { unit ≡ force.unit (rows_at text.now.text lines.now) }
    requires begun { Named ≡ stage_at (rows_at text.now.text lines.now) from }
    ensures { IfOk result (λ list. Match (IsAction (rows_at text.now.text lines.now))
        (lines_at (rules.is_of_branch branch) Named (rest_of_rule (rows_at text.now.text lines.now) from)) list.list) }
{
    let mut list = List::new(alloc);
    let mut stage = Stage::Named;
    for place in from..lines.len() {
        let line = &lines[place];
        if !is_rules(text, line) {
            continue;
        }
        let first = first_word(text, line);
        if is_rule(first) {
            return Ok(list);
        }
        stage = stage_by(stage, first);
        if !is_of_branch(branch, stage) {
            continue;
        }
        list.push(action_of(text, lines, place, links, table, unit))?;
    }
    Ok(list)
}

// The billionths of the number of a PRIORITY line.
fn billionths(text: &Lines<'_>, line: &Line) -> Option<i128>
    requires lies { LiesIn text.now.text line.now }
    requires there { column.needed column.number 1 (words_at text.now line.now) ≡ None }
    ensures { result ≡ Some (amount 1 (words_at text.now line.now)) }
{
    match number(text, line, 1) {
        Ok(number) => Some(number.nano),
        Err(_) => None,
    }
}

/// The priority of a rule in billionths, by the first PRIORITY line from behind its RULE line up to the next one.
pub(crate) fn priority_of(text: &Lines<'_>, lines: &[Line], from: usize) -> Option<i128>
    requires lie { All (LiesIn text.now.text) lines.now }
    requires by_itself { NoneIs (IsWrongByItself (rows_at text.now.text lines.now)) }
    ensures { result ≡ across.priority_of (rest_of_rule (rows_at text.now.text lines.now) from) }
{
    for place in from..lines.len() {
        let line = &lines[place];
        if !is_rules(text, line) {
            continue;
        }
        let first = first_word(text, line);
        if is_rule(first) {
            return None;
        }
        if is_priority(first) {
            return billionths(text, line);
        }
    }
    None
}
