//! Simple controls among all rows.
#![tactic(auto)]

ghost use Rattle.std.specs.Prelude.{◌≡◌, ◌<◌, ◌+◌, ◌^◌, List, Some, true, length, slice_get};
ghost use Rattle.std.specs.List.{All};
ghost use Rattle.hyd_spec_lines.specs.Lines.{LiesIn, Row, row_of};
ghost use Rattle.hyd_spec_lines.specs.declared.section.Section.TheVariants.{Controls as InControls};
ghost use Rattle.hyd_option_and_rule_lines.specs.FaultOrValue.{Judged, words_at};
ghost use Rattle.hyd_option_and_rule_lines.specs.WhatLinesSay.{IsControlLine, IsWhen};
ghost use Rattle.hyd_spec_input.specs.SingleRows.{IsWrongByItself};
ghost use Rattle.hyd_spec_input.specs.CapacitiesOutOfRange.{IsRefusedSetting};
ghost use Rattle.hyd_spec_input.specs.Columns.{word};
ghost use Rattle.hyd_spec_input.specs.Faults.{NoneIs};
ghost use Rattle.hyd_spec_input.specs.OptionsAndTimesInForce as force;
ghost use Rattle.hyd_spec_input.specs.SectionsAndTables.{is_of, link_rows, node_rows};
ghost use Rattle.hyd_spec_input.specs.FaultsWithOtherRows as others;
ghost use Rattle.hyd_judge_links_controls_and_rules.specs.AskedStatesOfLinks.{IsRightLink};
ghost use Rattle.hyd_rows_and_tables.specs.FirstWrongRow.{HasFound};
ghost use Rattle.hyd_rows_and_tables.specs.RowsOfLines.{rows_at};
ghost use Rattle.hyd_rows_and_tables.specs.WrongInSection.{IsWrongIn, IsFaultThen};
ghost use Rattle.hyd_rows_and_tables.specs.IdTables.{IsTable, IsEven};
ghost use Rattle.hyd_judge_links_controls_and_rules.specs.Controls.{AreControls, IsControlNode, IsControlFault};
ghost use Rattle.hyd_judge_links_controls_and_rules.specs.Controls.{commanded_fault as fault_of_commanded};

use crate::asked_states::capacity_fault;
use crate::faults::state_fault;
use crate::names_of_links_and_nodes::{named_link, named_node};
use hyd_lex::{Line, Lines, Section};
use hyd_net::Cause;
use hyd_num::FlowUnit;
use hyd_option_and_rule_lines::{ControlLine, WhenLine, or_empty, read_control};
use hyd_rows_and_tables::{Found, Table, head_fault, is_controls, kept, limit};

const MOST_CONTROLS: usize = 10_000;

/// The controls of the first rows of a file: how many there are, and the first one that is wrong with the others.
#[derive(Clone, Copy, Drop)]
pub struct Controls {
    pub count: usize,
    pub found: Option<Found>,
}

// The node at whose level a control acts: UnknownName where no node has its ID, or one that its word doesn't allow.
fn control_node(
    text: &Lines<'_>,
    line: &Line,
    nodes: &Table,
    when: WhenLine,
) -> Result<Option<Line>, Cause>
    requires lies { LiesIn text.now.text line.now }
    requires even { IsEven nodes.now }
    requires when { IsWhen (words_at text.now line.now) when }
    ensures { (rows : List Row) → IsTable text.now.text (node_rows rows) nodes.now
        → Judged (others.control_node rows (row_of text.now.text line.now)) result
        (IsControlNode text.now.text rows (row_of text.now.text line.now)) }
{
    let WhenLine::Level { object, node, .. } = when else {
        return Ok(None);
    };
    let found = named_node(text, nodes, object, or_empty(text, line, node))?;
    Ok(Some(found))
}

// Unsupported 8 where a control acts at the level of a node that is no tank.
fn tank_fault(text: &Lines<'_>, node: Option<Line>) -> Option<Cause>
    ensures { (rows : List Row) (row : Row) → IsControlNode text.now.text rows row node
        → result ≡ others.control_tank rows row }
{
    match node {
        Some(node) if node.section != Section::Tanks => Some(Cause::Unsupported(8)),
        _ => None,
    }
}

// Range of the level at which a control acts.
fn level_fault(when: WhenLine, unit: FlowUnit) -> Option<Cause>
    ensures { (rows : List Row) (row : Row) → unit ≡ force.unit rows → IsWhen row.words when
        → result ≡ others.control_level rows row }
{
    match when {
        WhenLine::Level { level, .. } => head_fault(level, unit),
        _ => None,
    }
}

// What is wrong with a control behind its link and its node.
fn commanded_fault(
    text: &Lines<'_>,
    link: &Line,
    node: Option<Line>,
    control: &ControlLine,
    unit: FlowUnit,
) -> Option<Cause>
    requires lies { LiesIn text.now.text link.now }
    requires right { IsRightLink (row_of text.now.text link.now) }
    ensures { (rows : List Row) (row : Row) → unit ≡ force.unit rows → IsControlLine row.words control.now
        → IsControlNode text.now.text rows row node
        → IsFaultThen (fault_of_commanded rows (row_of text.now.text link.now) row)
        (IsRefusedSetting rows (Some (row_of text.now.text link.now)) (word 2 row.words)) result }
{
    if let Some(cause) = state_fault(text, link, control.to, tank_fault(text, node), unit) {
        return Some(cause);
    }
    if let Some(cause) = level_fault(control.when, unit) {
        return Some(cause);
    }
    capacity_fault(text, link, control.to, unit)
}

// What is wrong with the control of a place.
fn control_fault(
    text: &Lines<'_>,
    lines: &[Line],
    place: usize,
    count: usize,
    nodes: &Table,
    links: &Table,
    unit: FlowUnit,
) -> Option<Cause>
    requires within { place < length lines.now }
    requires lie { All (LiesIn text.now.text) lines.now }
    requires right { NoneIs (IsWrongByItself (rows_at text.now.text lines.now)) }
    requires nodes { IsTable text.now.text (node_rows (rows_at text.now.text lines.now)) nodes.now }
    requires links { IsTable text.now.text (link_rows (rows_at text.now.text lines.now)) links.now }
    requires unit { unit ≡ force.unit (rows_at text.now.text lines.now) }
    requires member { (row : Row) → slice_get (rows_at text.now.text lines.now) place ≡ Some row
        → is_of InControls row ≡ true }
    ensures { (row : Row) → slice_get (rows_at text.now.text lines.now) place ≡ Some row
        → IsControlFault (rows_at text.now.text lines.now) count row result }
{
    let line = &lines[place];
    let Ok(control) = read_control(text, line) else {
        return None;
    };
    if let Some(cause) = limit(MOST_CONTROLS, 11, count) {
        return Some(cause);
    }
    let link = match named_link(
        text,
        links,
        control.object,
        or_empty(text, line, control.link),
    ) {
        Ok(link) => link,
        Err(cause) => return Some(cause),
    };
    match control_node(text, line, nodes, control.when) {
        Ok(node) => commanded_fault(text, &link, node, &control, unit),
        Err(cause) => Some(cause),
    }
}

impl Controls {
    // The next row.
    fn add(
        &mut self,
        text: &Lines<'_>,
        lines: &[Line],
        place: usize,
        nodes: &Table,
        links: &Table,
        unit: FlowUnit,
    )
        requires within { place < length lines.now }
        requires few { length lines.now < 2 ^ 31 }
        requires lie { All (LiesIn text.now.text) lines.now }
        requires right { NoneIs (IsWrongByItself (rows_at text.now.text lines.now)) }
        requires nodes { IsTable text.now.text (node_rows (rows_at text.now.text lines.now)) nodes.now }
        requires links { IsTable text.now.text (link_rows (rows_at text.now.text lines.now)) links.now }
        requires unit { unit ≡ force.unit (rows_at text.now.text lines.now) }
        requires judged { AreControls (rows_at text.now.text lines.now) place self.old }
        ensures { AreControls (rows_at text.now.text lines.now) (place + 1) self.new }
    {
        let line = &lines[place];
        if !is_controls(line.section) {
            return;
        }
        self.count += 1;
        let cause = control_fault(text, lines, place, self.count, nodes, links, unit);
        self.found = kept(self.found, place, line.number, cause);
    }
}

/// Of a file whose rows are right by themselves, its first row of [CONTROLS] that is wrong with the others: the first
/// with more than 10,000 rows up to it (Limit 11), a link or node that isn't there or that its word doesn't allow
/// (UnknownName), a number for a link that takes none (Syntax), a level of another node than a tank (Unsupported 8), a
/// pipe with a check valve (Unsupported 11), a state or a level out of range (Range), a setting of a throttle control
/// valve that makes a capacity out of range (Limit 13).
pub fn judge_controls(
    text: &Lines<'_>,
    lines: &[Line],
    nodes: &Table,
    links: &Table,
    unit: FlowUnit,
) -> Option<Found>
    requires few { length lines.now < 2 ^ 31 }
    requires lie { All (LiesIn text.now.text) lines.now }
    requires right { NoneIs (IsWrongByItself (rows_at text.now.text lines.now)) }
    requires nodes { IsTable text.now.text (node_rows (rows_at text.now.text lines.now)) nodes.now }
    requires links { IsTable text.now.text (link_rows (rows_at text.now.text lines.now)) links.now }
    requires unit { unit ≡ force.unit (rows_at text.now.text lines.now) }
    ensures { HasFound (rows_at text.now.text lines.now) (IsWrongIn InControls (rows_at text.now.text lines.now))
        (length lines.now) result }
{
    let mut controls = Controls {
        count: 0,
        found: None,
    };
    for place in 0..lines.len() {
        controls.add(text, lines, place, nodes, links, unit);
    }
    controls.found
}
