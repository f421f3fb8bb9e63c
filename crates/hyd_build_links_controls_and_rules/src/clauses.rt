//! Clauses of rules.
#![tactic(auto)]

ghost use Rattle.std.specs.Prelude.{◌≡◌, ℕ, List, Some, true, ℤ, pos, ◌*ℤ◌};
ghost use Rattle.hyd_spec_lines.specs.Lines.{LiesIn, Row};
ghost use Rattle.hyd_option_and_rule_lines.specs.FaultOrValue.{words_at};
ghost use Rattle.hyd_option_and_rule_lines.specs.WhatLinesSay as meaning;
ghost use Rattle.hyd_option_and_rule_lines.specs.WhatLinesSay.{IsClauseLine};
ghost use Rattle.hyd_option_and_rule_lines.specs.declared.rules.Value.TheVariants as said;
ghost use Rattle.hyd_net.specs.declared.rules.What.TheVariants as what_form;
ghost use Rattle.hyd_spec_input.specs.Columns.{word, units};
ghost use Rattle.hyd_spec_input.specs.OptionsAndTimesInForce as force;
ghost use Rattle.hyd_spec_input.specs.MeaningsAcrossRows.{node_ids, tank_ids, link_ids};
ghost use Rattle.hyd_spec_input.specs.Project as project;
ghost use Rattle.hyd_spec_input.specs.Project.{IsWhat, IsClause};
ghost use Rattle.hyd_spec_input.specs.RuleRows.{begins_with};
ghost use Rattle.hyd_build_links_controls_and_rules.specs.ComparedValues.{is_quantity, IsAmountOf};
ghost use Rattle.hyd_build_links_controls_and_rules.specs.Clauses.{HasNumber, IsOfAttribute};

use crate::compared_values::{quantity_value, time_value};
use crate::name_numbers_and_ticks::number_of;
use hyd_lex::{Line, Lines};
use hyd_net::{Clause, Joined, RuleClause, Value, What};
use hyd_num::FlowUnit;
use hyd_option_and_rule_lines::{Attribute, ClauseLine, or_empty};
use hyd_rows_and_tables::NumberedIds;

// What a clause speaks of.
fn what_of(
    attribute: Attribute,
    name: &[u8],
    nodes: &NumberedIds,
    tanks: &NumberedIds,
    links: &NumberedIds,
) -> What
    requires { HasNumber nodes.now tanks.now links.now attribute name.now }
    ensures kind { IsOfAttribute attribute result }
    ensures what { (rows : List Row) (words : List (List ℕ)) → nodes.now ≡ node_ids rows → tanks.now ≡ tank_ids rows
        → links.now ≡ link_ids rows → name.now ≡ word 2 words → IsWhat rows words (Some attribute) result }
{
    match attribute {
        Attribute::Head => What::Head(number_of(nodes, name)),
        Attribute::Pressure => What::Pressure(number_of(nodes, name)),
        Attribute::Level => What::Level(number_of(tanks, name)),
        Attribute::Flow => What::Flow(number_of(links, name)),
        Attribute::Setting => What::Setting(number_of(links, name)),
        Attribute::Status => What::Status(number_of(links, name)),
        Attribute::Time => What::Time,
        Attribute::Clock => What::Clock,
    }
}

fn status_value(value: hyd_option_and_rule_lines::Value) -> Value
    ensures { (asked : List ℕ) → value ≡ meaning.status_value asked → result ≡ project.status_value asked }
{
    match value {
        hyd_option_and_rule_lines::Value::Open => Value::Open,
        hyd_option_and_rule_lines::Value::Closed => Value::Closed,
        _ => Value::Active,
    }
}

fn time_of(value: hyd_option_and_rule_lines::Value, unit: FlowUnit) -> Value
    ensures time { (seconds : ℕ) → value ≡ said.Seconds seconds
        → IsAmountOf unit what_form.Time (pos seconds *ℤ units 1) result }
    ensures clock { (seconds : ℕ) → value ≡ said.Seconds seconds
        → IsAmountOf unit what_form.Clock (pos seconds *ℤ units 1) result }
{
    match value {
        hyd_option_and_rule_lines::Value::Seconds(seconds) => time_value(seconds, unit),
        _ => Value::Active,
    }
}

fn quantity_of(value: hyd_option_and_rule_lines::Value, what: What, unit: FlowUnit) -> Value
    requires { is_quantity what ≡ true }
    ensures { (nano : ℤ) → meaning.IsNumberValue nano value → IsAmountOf unit what nano result }
{
    match value {
        hyd_option_and_rule_lines::Value::Number(number) => quantity_value(what, number, unit),
        _ => Value::Active,
    }
}

// What a clause compares with.
fn value_of(
    attribute: Attribute,
    value: hyd_option_and_rule_lines::Value,
    what: What,
    unit: FlowUnit,
) -> Value
    requires { IsOfAttribute attribute what }
    ensures { (k : ℕ) (words : List (List ℕ)) → meaning.IsValue attribute k words value
        → project.IsValue unit what k words result }
{
    match attribute {
        Attribute::Time => time_of(value, unit),
        Attribute::Clock => time_of(value, unit),
        Attribute::Status => status_value(value),
        Attribute::Head => quantity_of(value, what, unit),
        Attribute::Pressure => quantity_of(value, what, unit),
        Attribute::Level => quantity_of(value, what, unit),
        Attribute::Flow => quantity_of(value, what, unit),
        Attribute::Setting => quantity_of(value, what, unit),
    }
}

/// The clause of a line.
pub(crate) fn clause_of(
    text: &Lines<'_>,
    line: &Line,
    clause: &ClauseLine,
    joined: Joined,
    nodes: &NumberedIds,
    tanks: &NumberedIds,
    links: &NumberedIds,
    unit: FlowUnit,
) -> RuleClause
    requires lies { LiesIn text.now.text line.now }
    requires numbered { HasNumber nodes.now tanks.now links.now clause.now.what (word 2 (words_at text.now line.now)) }
    ensures { (rows : List Row) → nodes.now ≡ node_ids rows → tanks.now ≡ tank_ids rows → links.now ≡ link_ids rows
        → unit ≡ force.unit rows → IsClauseLine (words_at text.now line.now) clause.now
        → joined ≡ project.joined_by (begins_with (words_at text.now line.now))
        → IsClause rows (words_at text.now line.now) result }
{
    let what = what_of(clause.what, or_empty(text, line, 2), nodes, tanks, links);
    RuleClause {
        joined,
        clause: Clause {
            what,
            relation: clause.relation,
            value: value_of(clause.what, clause.value, what, unit),
        },
    }
}
