//! Events of tanks.
#![tactic(auto)]

ghost use Rattle.std.specs.Prelude.{◌≡◌, ◌<◌, ◌≤◌, ◌+◌, ◌++◌, ◌∷◌, [], Some, length, map, slice_get};
ghost use Rattle.hyd_net.specs.Sound.{IsSound};
ghost use Rattle.hyd_spec.specs.ProgramTypes.{Tank as Each};
ghost use Rattle.hyd_spec.specs.declared.TankState.{TankState as State};
ghost use Rattle.hyd_spec.specs.Lists.{present};
ghost use Rattle.hyd_spec.specs.NodeNumbers.{tank_count};
ghost use Rattle.hyd_spec_certificates.specs.SpansAsIntervals.{levels_of};
ghost use Rattle.hyd_spec_certificates.specs.declared.LevelSpan.{LevelSpan as Levels};
ghost use Rattle.hyd_spec_certificates.specs.EndsOfPeriods.{tank_event, tank_events};

use crate::event_list::add_event;
use hyd_net::{List, Project, Tank};
use hyd_spec::TankState;
use hyd_spec_certificates::{Event, EventKind, LevelSpan};

// What a tank that was in this state reaches at its carried levels.
fn tank_event(tank: u32, here: &Tank, state: TankState, level: LevelSpan) -> Option<Event>
    ensures { present (result ∷ []) ≡ tank_event tank here.now state (levels_of level) }
{
    let full = matches!(state, TankState::Full);
    if !full && level.lo >= here.maximum {
        return Some(Event {
            tank,
            what: EventKind::Full,
        });
    }
    let empty = matches!(state, TankState::Empty);
    if !empty && level.hi <= here.minimum {
        return Some(Event {
            tank,
            what: EventKind::Empty,
        });
    }
    None
}

// What the tank of a number reaches.
fn event_at(
    project: &Project,
    states: &[TankState],
    carried: &[LevelSpan],
    tank: u32,
) -> Option<Event>
    requires in_range { tank < length project.now.tanks.list }
    requires state { tank < length states.now }
    requires level { tank < length carried.now }
    ensures { (each : Each) (state : State) (level : Levels) → slice_get project.now.tanks.list tank ≡ Some each
        → slice_get states.now tank ≡ Some state → slice_get carried.now tank ≡ Some level
        → present (result ∷ []) ≡ tank_event tank each state (levels_of level) }
{
    let here = project.tanks.as_slice()[tank as usize];
    let state = states[tank as usize];
    let level = carried[tank as usize];
    tank_event(tank, &here, state, level)
}

/// Appends the events of tanks in order, by their states at the start and their carried levels at the end.
pub(crate) fn add_tanks(
    project: &Project,
    states: &[TankState],
    carried: &[LevelSpan],
    events: &mut List<Event>,
)
    requires sound { IsSound project.now }
    requires each_state { length states.now ≡ tank_count project.now }
    requires each_level { length carried.now ≡ tank_count project.now }
    requires fit { tank_count project.now ≤ events.old.spare }
    ensures events { events.new.list ≡ events.old.list
        ++ tank_events 0 project.now.tanks.list states.now (map levels_of carried.now) }
    ensures spare { events.old.spare ≤ events.new.spare + tank_count project.now }
    ensures room { length events.old.list + events.old.spare ≤ length events.new.list + events.new.spare }
{
    for tank in 0..project.tanks.len() {
        add_event(events, event_at(project, states, carried, tank as u32));
    }
}
