//! Clauses and actions of rules among all rows.
#![tactic(auto)]

ghost use Rattle.std.specs.Prelude.{◌≡◌, ◌<◌, ℕ, Bool, List, Some, None, length, slice_get};
ghost use Rattle.std.specs.List.{All};
ghost use Rattle.hyd_spec_lines.specs.Lines.{LiesIn, Row};
ghost use Rattle.hyd_option_and_rule_lines.specs.FaultOrValue.{words_at};
ghost use Rattle.hyd_option_and_rule_lines.specs.WhatLinesSay.{IsClauseLine, IsActionLine, IsRuleLine};
ghost use Rattle.hyd_spec_input.specs.SingleRows.{IsWrongByItself};
ghost use Rattle.hyd_spec_input.specs.CapacitiesOutOfRange.{IsRefusedSetting};
ghost use Rattle.hyd_spec_input.specs.Columns.{word};
ghost use Rattle.hyd_spec_input.specs.Faults.{NoneIs};
ghost use Rattle.hyd_spec_input.specs.OptionsAndTimesInForce as force;
ghost use Rattle.hyd_spec_input.specs.Keywords.{attribute_word};
ghost use Rattle.hyd_spec_input.specs.declared.ObjectWord.TheVariants as object;
ghost use Rattle.hyd_spec_input.specs.RuleRows as form;
ghost use Rattle.hyd_spec_input.specs.SectionsAndTables.{link_rows, node_rows, link_named};
ghost use Rattle.hyd_spec_input.specs.FaultsWithOtherRows as others;
ghost use Rattle.hyd_rows_and_tables.specs.RowsOfLines.{rows_at};
ghost use Rattle.hyd_rows_and_tables.specs.WrongInSection.{IsFaultThen};
ghost use Rattle.hyd_rows_and_tables.specs.IdTables.{IsTable, IsEven};
ghost use Rattle.hyd_judge_links_controls_and_rules.specs.Rules.{IsPart};

use crate::asked_states::asked_fault;
use crate::names_of_links_and_nodes::{named_link, named_node};
use hyd_lex::{Line, Lines, Section};
use hyd_net::Cause;
use hyd_num::FlowUnit;
use hyd_option_and_rule_lines::{
    ActionLine, Attribute, ClauseLine, LinkWord, NodeWord, Object, RuleLine, asked_at, or_empty,
    read_rule_line,
};
use hyd_rows_and_tables::Table;

/// What a line of a rule is.
#[derive(Clone, Copy, Drop)]
pub(crate) enum Part {
    /// A RULE line.
    Name,
    Clause(ClauseLine),
    Action(ActionLine),
    /// A PRIORITY line.
    Priority,
}

fn part_of(line: RuleLine) -> Part
    ensures { (acting : Bool) (words : List (List ℕ)) → IsRuleLine acting words line → IsPart acting words result }
{
    match line {
        RuleLine::Rule(_) => Part::Name,
        RuleLine::If(clause) => Part::Clause(clause),
        RuleLine::And(clause) => Part::Clause(clause),
        RuleLine::Or(clause) => Part::Clause(clause),
        RuleLine::Then(action) => Part::Action(action),
        RuleLine::Else(action) => Part::Action(action),
        RuleLine::Further(action) => Part::Action(action),
        RuleLine::Priority(_) => Part::Priority,
    }
}

/// What a line of a rule is, where an AND line holds an action or not.
pub(crate) fn read_part(text: &Lines<'_>, line: &Line, acting: bool) -> Part
    requires lies { LiesIn text.now.text line.now }
    requires right { form.words_of_rule_line acting (words_at text.now line.now) ≡ None }
    ensures { IsPart acting (words_at text.now line.now) result }
{
    match read_rule_line(text, line, acting) {
        Ok(line) => part_of(line),
        Err(_) => Part::Name,
    }
}

// Whether a node has a quantity: pressure is that of a junction or a tank, a level that of a tank.
fn can_show(what: Attribute, section: Section) -> bool
    ensures { (node : Row) → section ≡ node.section → result ≡ others.can_show (Some what) node }
{
    match what {
        Attribute::Pressure => section != Section::Reservoirs,
        Attribute::Level => section == Section::Tanks,
        _ => true,
    }
}

// UnknownName where no node has a name, or one that its word doesn't allow or that lacks a quantity.
fn node_fault(
    text: &Lines<'_>,
    nodes: &Table,
    kind: NodeWord,
    name: &[u8],
    what: Attribute,
) -> Option<Cause>
    requires { IsEven nodes.now }
    ensures { (rows : List Row) (words : List (List ℕ)) → IsTable text.now.text (node_rows rows) nodes.now
        → name.now ≡ word 2 words → attribute_word (word 3 words) ≡ Some what
        → result ≡ others.object_known rows (Some (object.Node kind)) words }
{
    match named_node(text, nodes, kind, name) {
        Ok(node) if can_show(what, node.section) => None,
        Ok(_) => Some(Cause::UnknownName),
        Err(cause) => Some(cause),
    }
}

// UnknownName where no link has a name, or one that its word doesn't allow.
fn link_fault(text: &Lines<'_>, links: &Table, kind: LinkWord, name: &[u8]) -> Option<Cause>
    requires { IsEven links.now }
    ensures { (rows : List Row) → IsTable text.now.text (link_rows rows) links.now → NoneIs (IsWrongByItself rows)
        → result ≡ others.link_by_word rows (Some kind) name.now }
{
    match named_link(text, links, kind, name) {
        Ok(_) => None,
        Err(cause) => Some(cause),
    }
}

/// What is wrong with a clause: UnknownName where its object isn't there, isn't allowed or lacks its quantity.
pub(crate) fn clause_fault(
    text: &Lines<'_>,
    line: &Line,
    clause: &ClauseLine,
    nodes: &Table,
    links: &Table,
) -> Option<Cause>
    requires lies { LiesIn text.now.text line.now }
    requires even_nodes { IsEven nodes.now }
    requires even_links { IsEven links.now }
    requires says { IsClauseLine (words_at text.now line.now) clause.now }
    ensures { (rows : List Row) → IsTable text.now.text (node_rows rows) nodes.now
        → IsTable text.now.text (link_rows rows) links.now → NoneIs (IsWrongByItself rows)
        → result ≡ others.clause rows (words_at text.now line.now) }
{
    match clause.object {
        Object::System => None,
        Object::Node(kind, k) => node_fault(
            text,
            nodes,
            kind,
            or_empty(text, line, k),
            clause.what,
        ),
        Object::Link(kind, k) => link_fault(text, links, kind, or_empty(text, line, k)),
    }
}

/// What is wrong with the action of a place, a capacity out of range last.
pub(crate) fn action_fault(
    text: &Lines<'_>,
    lines: &[Line],
    place: usize,
    action: &ActionLine,
    links: &Table,
    unit: FlowUnit,
) -> Option<Cause>
    requires within { place < length lines.now }
    requires lie { All (LiesIn text.now.text) lines.now }
    requires right { NoneIs (IsWrongByItself (rows_at text.now.text lines.now)) }
    requires links { IsTable text.now.text (link_rows (rows_at text.now.text lines.now)) links.now }
    requires unit { unit ≡ force.unit (rows_at text.now.text lines.now) }
    requires by_itself { (row : Row) → slice_get (rows_at text.now.text lines.now) place ≡ Some row
        → form.action row.words ≡ None }
    requires says { (row : Row) → slice_get (rows_at text.now.text lines.now) place ≡ Some row
        → IsActionLine row.words action.now }
    ensures { (row : Row) → slice_get (rows_at text.now.text lines.now) place ≡ Some row
        → IsFaultThen (others.action (rows_at text.now.text lines.now) row.words)
        (IsRefusedSetting (rows_at text.now.text lines.now)
        (link_named (rows_at text.now.text lines.now) (word 2 row.words)) (word 5 row.words)) result }
{
    let line = &lines[place];
    let Ok(asked) = asked_at(text, line, 5) else {
        return None;
    };
    match named_link(
        text,
        links,
        action.object,
        or_empty(text, line, action.link),
    ) {
        Ok(link) => asked_fault(text, &link, asked, unit),
        Err(cause) => Some(cause),
    }
}
