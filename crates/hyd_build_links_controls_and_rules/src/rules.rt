//! The rules of a file, each with its name, clauses, actions and priority.
#![tactic(auto)]

ghost use Rattle.std.specs.Prelude.{◌≡◌, ◌<◌, ◌+◌, ◌∷◌, Some, length, slice_get, IfOk, OnOk};
ghost use Rattle.std.specs.List.{All};
ghost use Rattle.hyd_spec_lines.specs.Lines.{LiesIn, Row};
ghost use Rattle.hyd_spec_lines.specs.declared.section.Section.TheVariants.{Rules};
ghost use Rattle.hyd_spec_input.specs.SingleRows.{IsWrongByItself};
ghost use Rattle.hyd_spec_input.specs.Faults.{NoneIs, IsWrongWithOthers};
ghost use Rattle.hyd_spec_input.specs.OptionsAndTimesInForce as force;
ghost use Rattle.hyd_spec_input.specs.MeaningsAcrossRows.{node_ids, tank_ids, link_ids, rule_groups};
ghost use Rattle.hyd_spec_input.specs.Project.{Match, IsRule};
ghost use Rattle.hyd_spec_input.specs.SectionsAndTables.{words_of, link_rows};
ghost use Rattle.hyd_rows_and_tables.specs.RowsOfLines.{rows_at};
ghost use Rattle.hyd_rows_and_tables.specs.IdTables.{IsTable};
ghost use Rattle.hyd_build_links_controls_and_rules.specs.Rules.{NamesRule, AreRules, rest_of_rule};

use crate::rule_parts::{Branch, actions_of, clauses_of, priority_of};
use hyd_lex::{Line, Lines};
use hyd_net::{List, OutOfMemory, Rule};
use hyd_network_rows::{first_word, is_rule, is_rules};
use hyd_num::FlowUnit;
use hyd_option_and_rule_lines::or_empty;
use hyd_rows_and_tables::{NumberedIds, Table};
use std::alloc::Global;

fn bytes_of(alloc: Global, word: &[u8]) -> Result<List<u8>, OutOfMemory>
    ensures { IfOk result (λ bytes. bytes.list ≡ word.now) }
{
    let mut bytes = List::new(alloc);
    bytes.reserve(word.len())?;
    for k in 0..word.len() {
        bytes.push(word[k])?;
    }
    Ok(bytes)
}

// The rule whose RULE line stands at a place.
fn rule_of(
    alloc: Global,
    text: &Lines<'_>,
    lines: &[Line],
    place: usize,
    nodes: &NumberedIds,
    tanks: &NumberedIds,
    links: &NumberedIds,
    table: &Table,
    unit: FlowUnit,
) -> Result<Rule, OutOfMemory>
    requires within { place < length lines.now }
    requires lie { All (LiesIn text.now.text) lines.now }
    requires by_itself { NoneIs (IsWrongByItself (rows_at text.now.text lines.now)) }
    requires with_others { NoneIs (IsWrongWithOthers (rows_at text.now.text lines.now)) }
    requires nodes { nodes.now ≡ node_ids (rows_at text.now.text lines.now) }
    requires tanks { tanks.now ≡ tank_ids (rows_at text.now.text lines.now) }
    requires links { links.now ≡ link_ids (rows_at text.now.text lines.now) }
    requires table { IsTable text.now.text (link_rows (rows_at text.now.text lines.now)) table.now }
    requires unit { unit ≡ force.unit (rows_at text.now.text lines.now) }
    requires names { (row : Row) → slice_get (rows_at text.now.text lines.now) place ≡ Some row → NamesRule row }
    ensures { IfOk result (λ rule. (row : Row) → slice_get (rows_at text.now.text lines.now) place ≡ Some row
        → IsRule (rows_at text.now.text lines.now)
        (row.words ∷ rest_of_rule (rows_at text.now.text lines.now) (place + 1)) rule) }
{
    let from = place + 1;
    let id = bytes_of(alloc, or_empty(text, &lines[place], 1))?;
    let clauses = clauses_of(alloc, text, lines, from, nodes, tanks, links, unit)?;
    let yes = actions_of(alloc, text, lines, from, Branch::Then, links, table, unit)?;
    let no = actions_of(alloc, text, lines, from, Branch::Else, links, table, unit)?;
    Ok(Rule {
        id,
        clauses,
        yes,
        no,
        priority: priority_of(text, lines, from),
    })
}

// The next row.
fn add_rule(
    alloc: Global,
    list: &mut List<Rule>,
    text: &Lines<'_>,
    lines: &[Line],
    place: usize,
    nodes: &NumberedIds,
    tanks: &NumberedIds,
    links: &NumberedIds,
    table: &Table,
    unit: FlowUnit,
) -> Result<(), OutOfMemory>
    requires within { place < length lines.now }
    requires lie { All (LiesIn text.now.text) lines.now }
    requires by_itself { NoneIs (IsWrongByItself (rows_at text.now.text lines.now)) }
    requires with_others { NoneIs (IsWrongWithOthers (rows_at text.now.text lines.now)) }
    requires nodes { nodes.now ≡ node_ids (rows_at text.now.text lines.now) }
    requires tanks { tanks.now ≡ tank_ids (rows_at text.now.text lines.now) }
    requires links { links.now ≡ link_ids (rows_at text.now.text lines.now) }
    requires table { IsTable text.now.text (link_rows (rows_at text.now.text lines.now)) table.now }
    requires unit { unit ≡ force.unit (rows_at text.now.text lines.now) }
    requires built { AreRules (rows_at text.now.text lines.now) place list.old.list }
    ensures { OnOk result (AreRules (rows_at text.now.text lines.now) (place + 1) list.new.list) }
{
    let line = &lines[place];
    if !is_rules(text, line) {
        return Ok(());
    }
    if !is_rule(first_word(text, line)) {
        return Ok(());
    }
    let rule = rule_of(alloc, text, lines, place, nodes, tanks, links, table, unit)?;
    list.push(rule)?;
    Ok(())
}

/// The rules of a file without a fault, in order: each is that of its lines in [RULES], from its RULE line up to the
/// next one.
pub fn build_rules(
    alloc: Global,
    text: &Lines<'_>,
    lines: &[Line],
    nodes: &NumberedIds,
    tanks: &NumberedIds,
    links: &NumberedIds,
    table: &Table,
    unit: FlowUnit,
) -> Result<List<Rule>, OutOfMemory>
    requires lie { All (LiesIn text.now.text) lines.now }
    requires by_itself { NoneIs (IsWrongByItself (rows_at text.now.text lines.now)) }
    requires with_others { NoneIs (IsWrongWithOthers (rows_at text.now.text lines.now)) }
    requires nodes { nodes.now ≡ node_ids (rows_at text.now.text lines.now) }
    requires tanks { tanks.now ≡ tank_ids (rows_at text.now.text lines.now) }
    requires links { links.now ≡ link_ids (rows_at text.now.text lines.now) }
    requires table { IsTable text.now.text (link_rows (rows_at text.now.text lines.now)) table.now }
    requires unit { unit ≡ force.unit (rows_at text.now.text lines.now) }
    ensures { IfOk result (λ list. Match (IsRule (rows_at text.now.text lines.now))
        (rule_groups (words_of Rules (rows_at text.now.text lines.now))) list.list) }
{
    let mut list = List::new(alloc);
    for place in 0..lines.len() {
        add_rule(
            alloc, &mut list, text, lines, place, nodes, tanks, links, table, unit,
        )?;
    }
    Ok(list)
}
