//! Simple controls.
#![tactic(auto)]

ghost use Rattle.std.specs.Prelude.{◌≡◌, ◌<◌, ◌+◌, List as ListOf, Some, true, length, slice_get, IfOk, OnOk};
ghost use Rattle.std.specs.List.{All};
ghost use Rattle.hyd_spec_lines.specs.Lines.{LiesIn, Row};
ghost use Rattle.hyd_spec_lines.specs.declared.section.Section.TheVariants.{Controls};
ghost use Rattle.hyd_option_and_rule_lines.specs.FaultOrValue.{words_at};
ghost use Rattle.hyd_option_and_rule_lines.specs.WhatLinesSay as meaning;
ghost use Rattle.hyd_spec_input.specs.SingleRows.{IsWrongByItself};
ghost use Rattle.hyd_spec_input.specs.Faults.{NoneIs, IsWrongWithOthers};
ghost use Rattle.hyd_spec_input.specs.OptionsAndTimesInForce as force;
ghost use Rattle.hyd_spec_input.specs.MeaningsAcrossRows.{tank_ids, link_ids};
ghost use Rattle.hyd_spec_input.specs.Project.{Match, IsControl, IsWhen};
ghost use Rattle.hyd_spec_input.specs.SectionsAndTables.{is_of, words_of, link_rows};
ghost use Rattle.hyd_rows_and_tables.specs.RowsOfLines.{rows_at};
ghost use Rattle.hyd_rows_and_tables.specs.IdTables.{IsTable};
ghost use Rattle.hyd_build_links_controls_and_rules.specs.Controls.{IsRightWhen, AreControls};

use crate::name_numbers_and_ticks::{level_ticks, number_of};
use hyd_judge_links_controls_and_rules::link_state;
use hyd_lex::{Line, Lines};
use hyd_net::{Control, LinkState, List, OutOfMemory, When};
use hyd_num::FlowUnit;
use hyd_option_and_rule_lines::{WhenLine, or_empty, read_control};
use hyd_rows_and_tables::{NumberedIds, Table, is_controls};
use std::alloc::Global;

// What stands for a control of a file with a fault.
const NO_CONTROL: Control = Control {
    link: 0,
    to: LinkState::Open,
    when: When::Time(0),
};

// When a control acts.
fn when_of(
    text: &Lines<'_>,
    line: &Line,
    tanks: &NumberedIds,
    when: WhenLine,
    unit: FlowUnit,
) -> When
    requires lies { LiesIn text.now.text line.now }
    requires says { meaning.IsWhen (words_at text.now line.now) when }
    requires right { IsRightWhen tanks.now unit (words_at text.now line.now) }
    ensures { (rows : ListOf Row) → tanks.now ≡ tank_ids rows → unit ≡ force.unit rows
        → IsWhen rows (words_at text.now line.now) result }
{
    match when {
        WhenLine::Level {
            node,
            above,
            level,
            ..
        } => When::Level {
            tank: number_of(tanks, or_empty(text, line, node)),
            above,
            ticks: level_ticks(level, unit),
        },
        WhenLine::Time(seconds) => When::Time(seconds),
        WhenLine::Clock(seconds) => When::Clock(seconds),
    }
}

// The control of a place.
fn control_of(
    text: &Lines<'_>,
    lines: &[Line],
    place: usize,
    tanks: &NumberedIds,
    links: &NumberedIds,
    table: &Table,
    unit: FlowUnit,
) -> Control
    requires within { place < length lines.now }
    requires lie { All (LiesIn text.now.text) lines.now }
    requires by_itself { NoneIs (IsWrongByItself (rows_at text.now.text lines.now)) }
    requires with_others { NoneIs (IsWrongWithOthers (rows_at text.now.text lines.now)) }
    requires tanks { tanks.now ≡ tank_ids (rows_at text.now.text lines.now) }
    requires links { links.now ≡ link_ids (rows_at text.now.text lines.now) }
    requires table { IsTable text.now.text (link_rows (rows_at text.now.text lines.now)) table.now }
    requires unit { unit ≡ force.unit (rows_at text.now.text lines.now) }
    requires member { (row : Row) → slice_get (rows_at text.now.text lines.now) place ≡ Some row
        → is_of Controls row ≡ true }
    ensures { (row : Row) → slice_get (rows_at text.now.text lines.now) place ≡ Some row
        → IsControl (rows_at text.now.text lines.now) row.words result }
{
    let line = &lines[place];
    let Ok(control) = read_control(text, line) else {
        return NO_CONTROL;
    };
    let name = or_empty(text, line, control.link);
    let Some(link) = table.find(text, name) else {
        return NO_CONTROL;
    };
    Control {
        link: number_of(links, name),
        to: link_state(text, &link, control.to, unit),
        when: when_of(text, line, tanks, control.when, unit),
    }
}

// The next row.
fn add_control(
    list: &mut List<Control>,
    text: &Lines<'_>,
    lines: &[Line],
    place: usize,
    tanks: &NumberedIds,
    links: &NumberedIds,
    table: &Table,
    unit: FlowUnit,
) -> Result<(), OutOfMemory>
    requires within { place < length lines.now }
    requires lie { All (LiesIn text.now.text) lines.now }
    requires by_itself { NoneIs (IsWrongByItself (rows_at text.now.text lines.now)) }
    requires with_others { NoneIs (IsWrongWithOthers (rows_at text.now.text lines.now)) }
    requires tanks { tanks.now ≡ tank_ids (rows_at text.now.text lines.now) }
    requires links { links.now ≡ link_ids (rows_at text.now.text lines.now) }
    requires table { IsTable text.now.text (link_rows (rows_at text.now.text lines.now)) table.now }
    requires unit { unit ≡ force.unit (rows_at text.now.text lines.now) }
    requires built { AreControls (rows_at text.now.text lines.now) place list.old.list }
    ensures { OnOk result (AreControls (rows_at text.now.text lines.now) (place + 1) list.new.list) }
{
    if !is_controls(lines[place].section) {
        return Ok(());
    }
    list.push(control_of(text, lines, place, tanks, links, table, unit))?;
    Ok(())
}

/// The controls of a file without a fault, in order: each is that of its row of [CONTROLS].
pub fn build_controls(
    alloc: Global,
    text: &Lines<'_>,
    lines: &[Line],
    tanks: &NumberedIds,
    links: &NumberedIds,
    table: &Table,
    unit: FlowUnit,
) -> Result<List<Control>, OutOfMemory>
    requires lie { All (LiesIn text.now.text) lines.now }
    requires by_itself { NoneIs (IsWrongByItself (rows_at text.now.text lines.now)) }
    requires with_others { NoneIs (IsWrongWithOthers (rows_at text.now.text lines.now)) }
    requires tanks { tanks.now ≡ tank_ids (rows_at text.now.text lines.now) }
    requires links { links.now ≡ link_ids (rows_at text.now.text lines.now) }
    requires table { IsTable text.now.text (link_rows (rows_at text.now.text lines.now)) table.now }
    requires unit { unit ≡ force.unit (rows_at text.now.text lines.now) }
    ensures { IfOk result (λ list. Match (IsControl (rows_at text.now.text lines.now))
        (words_of Controls (rows_at text.now.text lines.now)) list.list) }
{
    let mut list = List::new(alloc);
    for place in 0..lines.len() {
        add_control(&mut list, text, lines, place, tanks, links, table, unit)?;
    }
    Ok(list)
}
