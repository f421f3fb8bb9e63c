//! Events of level controls.
#![tactic(auto)]

ghost use Rattle.std.specs.Prelude.{◌≡◌, ◌<◌, ◌≤◌, ◌+◌, ◌++◌, Some, length, map, slice_get};
ghost use Rattle.hyd_net.specs.Sound.{IsSound};
ghost use Rattle.hyd_net.specs.ControlsAndRules.{IsControl};
ghost use Rattle.hyd_spec.specs.ProgramTypes.{Control as Each};
ghost use Rattle.hyd_spec.specs.Lists.{map_from, present};
ghost use Rattle.hyd_spec.specs.NodeNumbers.{tank_count};
ghost use Rattle.hyd_spec_certificates.specs.SpansAsIntervals.{levels_of};
ghost use Rattle.hyd_spec_certificates.specs.Decided.{acts_on};
ghost use Rattle.hyd_spec_certificates.specs.EndsOfPeriods.{control_event};

use crate::event_list::add_event;
use hyd_net::{Control, List, Project, When};
use hyd_period_facts::{control_holds, level_at};
use hyd_spec_certificates::{Event, EventKind, LevelSpan};

// Whether a level control holds at the levels of its tank.
fn acts(levels: &[LevelSpan], tank: u32, above: bool, ticks: i64) -> bool
    requires { tank < length levels.now }
    ensures { result ≡ acts_on (map levels_of levels.now) tank above ticks }
{
    let level = level_at(levels, tank);
    control_holds(&level, above, ticks)
}

// The event of a level control that didn't hold before and holds at the carried levels.
fn control_event(
    project: &Project,
    number: u32,
    control: &Control,
    before: &[LevelSpan],
    carried: &[LevelSpan],
) -> Option<Event>
    requires control { IsControl project.now control.now }
    requires each_before { length before.now ≡ tank_count project.now }
    requires each_carried { length carried.now ≡ tank_count project.now }
    ensures { result ≡ control_event (map levels_of before.now) (map levels_of carried.now) number control.now }
{
    let _project = project;
    let When::Level { tank, above, ticks } = control.when else {
        return None;
    };
    if acts(before, tank, above, ticks) {
        return None;
    }
    if acts(carried, tank, above, ticks) {
        return Some(Event {
            tank,
            what: EventKind::Control(number),
        });
    }
    None
}

// The event of the control of a number.
fn event_at(
    project: &Project,
    before: &[LevelSpan],
    carried: &[LevelSpan],
    number: u32,
) -> Option<Event>
    requires sound { IsSound project.now }
    requires in_range { number < length project.now.controls.list }
    requires each_before { length before.now ≡ tank_count project.now }
    requires each_carried { length carried.now ≡ tank_count project.now }
    ensures { (each : Each) → slice_get project.now.controls.list number ≡ Some each
        → result ≡ control_event (map levels_of before.now) (map levels_of carried.now) number each }
{
    let control = &project.controls.as_slice()[number as usize];
    control_event(project, number, control, before, carried)
}

/// Appends the events of level controls in order, by the levels of tanks at the start and the carried ones at the end.
pub(crate) fn add_controls(
    project: &Project,
    before: &[LevelSpan],
    carried: &[LevelSpan],
    events: &mut List<Event>,
)
    requires sound { IsSound project.now }
    requires each_before { length before.now ≡ tank_count project.now }
    requires each_carried { length carried.now ≡ tank_count project.now }
    requires fit { length project.now.controls.list ≤ events.old.spare }
    ensures events { events.new.list ≡ events.old.list
        ++ present (map_from (control_event (map levels_of before.now) (map levels_of carried.now)) 0
        project.now.controls.list) }
    ensures room { length events.old.list + events.old.spare ≤ length events.new.list + events.new.spare }
{
    for number in 0..project.controls.len() {
        add_event(events, event_at(project, before, carried, number as u32));
    }
}
