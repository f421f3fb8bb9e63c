//! The states in which links start, by their own rows and by [STATUS].
#![tactic(auto)]

ghost use Rattle.std.specs.Prelude.{◌≡◌, List, ℕ, Some, length, if◌then◌else◌};
ghost use Rattle.hyd_spec_lines.specs.Lines.{LiesIn, row_of};
ghost use Rattle.hyd_spec_lines.specs.declared.section.Section.TheVariants.{Pumps, Valves};
ghost use Rattle.hyd_network_rows.specs.Rows.{pipe_status};
ghost use Rattle.hyd_spec_input.specs.Columns.{word, amount};
ghost use Rattle.hyd_spec_input.specs.MeaningsAcrossRows.{status_row_of};
ghost use Rattle.hyd_spec_input.specs.NodeAndLinkRows as row;
ghost use Rattle.hyd_spec_input.specs.Project as project;
ghost use Rattle.hyd_spec_input.specs.Project.{IsOwnState, IsStart, IsState, IsNumberState, Where};
ghost use Rattle.hyd_spec_input.specs.SectionsAndTables.{is_of, is_link};
ghost use Rattle.hyd_build_links_controls_and_rules.specs.RowsToBuildLinksFrom.{IsRowOf, rows_from};
ghost use Rattle.hyd_build_links_controls_and_rules.specs.Statuses.{AreStatuses};

use crate::rows_to_build_links_from::RowsForLinks;
use crate::statuses::status_line;
use hyd_judge_links_controls_and_rules::{limit_state, link_state, speed_state, throttle_state};
use hyd_lex::{Line, Lines, Section};
use hyd_net::LinkState;
use hyd_network_rows::{
    PipeStatus, ValveSetting, read_pipe_status, read_pump, read_status, read_valve,
};
use hyd_rows_and_tables::own_id;

// The state of a pipe's status word; a pipe with a check valve is open.
fn status_state(status: PipeStatus) -> LinkState
    ensures { (words : List (List ℕ)) → status ≡ pipe_status words
        → result ≡ (if row.is_closed_pipe words then LinkState.Closed else LinkState.Open) }
{
    match status {
        PipeStatus::Closed => LinkState::Closed,
        _ => LinkState::Open,
    }
}

// The state of a pump's own row.
fn pump_state(text: &Lines<'_>, line: &Line, given: &RowsForLinks<'_>) -> LinkState
    requires { IsRowOf (is_of Pumps) text.now.text given.now line.now }
    ensures { result ≡ project.speed_state (row.pump_speed (row_of text.now.text line.now).words) }
{
    let Ok(pump) = read_pump(text, line) else {
        unreachable!()
    };
    speed_state(pump.speed)
}

// The state of a valve's own row: its setting; a general purpose valve is open.
fn valve_state(text: &Lines<'_>, line: &Line, given: &RowsForLinks<'_>) -> LinkState
    requires { IsRowOf (is_of Valves) text.now.text given.now line.now }
    ensures { Where (row.is_general (row_of text.now.text line.now).words) (result ≡ LinkState.Open)
        (IsNumberState (rows_from text.now.text given.now) (row_of text.now.text line.now)
        (amount 5 (row_of text.now.text line.now).words) result) }
{
    let Ok(valve) = read_valve(text, line) else {
        unreachable!()
    };
    match valve.setting {
        ValveSetting::Throttle(coefficient) => {
            throttle_state(text, line, coefficient, given.unit.is_us())
        }
        ValveSetting::Curve(_) => LinkState::Open,
        ValveSetting::Flow(flow) => limit_state(flow, given.unit),
    }
}

// The state of a pipe's own row.
fn pipe_state(text: &Lines<'_>, line: &Line) -> LinkState
    requires { LiesIn text.now.text line.now }
    ensures { result
        ≡ (if row.is_closed_pipe (row_of text.now.text line.now).words then LinkState.Closed else LinkState.Open) }
{
    status_state(read_pipe_status(text, line))
}

// The state of a link's own row.
fn own_state(text: &Lines<'_>, line: &Line, given: &RowsForLinks<'_>) -> LinkState
    requires { IsRowOf is_link text.now.text given.now line.now }
    ensures { IsOwnState (rows_from text.now.text given.now) (row_of text.now.text line.now) result }
{
    match line.section {
        Section::Pipes => pipe_state(text, line),
        Section::Pumps => pump_state(text, line, given),
        _ => valve_state(text, line, given),
    }
}

// The state that a row of [STATUS] asks of a link.
fn asked_state(text: &Lines<'_>, line: &Line, given: &RowsForLinks<'_>, status: &Line) -> LinkState
    requires row { IsRowOf is_link text.now.text given.now line.now }
    requires lies { LiesIn text.now.text status.now }
    requires status { status_row_of (rows_from text.now.text given.now) (row_of text.now.text line.now)
        ≡ Some (row_of text.now.text status.now) }
    ensures { IsState (rows_from text.now.text given.now) (row_of text.now.text line.now)
        (word 1 (row_of text.now.text status.now).words) result }
{
    let Ok(row) = read_status(text, status) else {
        unreachable!()
    };
    link_state(text, line, row.to, given.unit)
}

/// The state in which a link starts, where `last` has the last row of [STATUS] that names each link.
pub(crate) fn start_of(
    text: &Lines<'_>,
    line: &Line,
    given: &RowsForLinks<'_>,
    last: &[Option<Line>],
) -> LinkState
    requires row { IsRowOf is_link text.now.text given.now line.now }
    requires statuses { AreStatuses text.now.text (rows_from text.now.text given.now) (length given.now.lines.now)
        given.now.links.now.names last.now }
    ensures { IsStart (rows_from text.now.text given.now) (row_of text.now.text line.now)
        (status_row_of (rows_from text.now.text given.now) (row_of text.now.text line.now)) result }
{
    match status_line(text, last, given.links, own_id(text, line)) {
        Some(status) => asked_state(text, line, given, &status),
        None => own_state(text, line, given),
    }
}
