//! All events at the end of a period.
#![tactic(auto)]

ghost use Rattle.std.specs.Prelude.{◌≡◌, ◌≤◌, ◌+◌, length, map};
ghost use Rattle.hyd_net.specs.Sound.{IsSound};
ghost use Rattle.hyd_spec.specs.NodeNumbers.{tank_count};
ghost use Rattle.hyd_spec_certificates.specs.SpansAsIntervals.{levels_of};
ghost use Rattle.hyd_spec_certificates.specs.PeriodNetwork.{Grid};
ghost use Rattle.hyd_spec_certificates.specs.RecordAndStanding.{Record, Standing};
ghost use Rattle.hyd_spec_certificates.specs.Decided.{carried_at};
ghost use Rattle.hyd_spec_certificates.specs.EndsOfPeriods.{events_of};
ghost use Rattle.hyd_period_end.specs.Events.{events_by};

use crate::controls::add_controls;
use crate::tanks::add_tanks;
use hyd_net::{List, Project};
use hyd_spec::TankState;
use hyd_spec_certificates::{Event, LevelSpan};

/// Puts what happens at the end of a period: each tank that wasn't full, or wasn't empty, and whose carried levels
/// all stand at its maximum, or at its minimum; then each level control that didn't hold at the start and holds at
/// all carried levels of its tank (EPANET 2.2 User Manual, chapter 3, tanks and controls).
///
/// `states` and `levels` are those of tanks at the start of the period, `carried` the levels at its end, in head ticks
/// above their bottoms. What the list held before goes. It has room for an event of each tank and each control, so no
/// memory is taken.
pub fn put_events(
    project: &Project,
    states: &[TankState],
    levels: &[LevelSpan],
    carried: &[LevelSpan],
    events: &mut List<Event>,
)
    requires sound { IsSound project.now }
    requires each_state { length states.now ≡ tank_count project.now }
    requires each_level { length levels.now ≡ tank_count project.now }
    requires each_carried { length carried.now ≡ tank_count project.now }
    requires room { tank_count project.now + length project.now.controls.list
        ≤ length events.old.list + events.old.spare }
    ensures list { events.new.list
        ≡ events_by project.now states.now (map levels_of levels.now) (map levels_of carried.now) }

    // They are those of a period that begins with these states and levels, and ends with these carried ones.
    ensures events { (grid : Grid) (standing : Standing) (row : Record) → states.now ≡ standing.tanks
        → map levels_of levels.now ≡ standing.levels
        → map levels_of carried.now ≡ carried_at project.now grid standing row row.length
        → events.new.list ≡ events_of project.now grid standing row }
    ensures room { length events.old.list + events.old.spare ≤ length events.new.list + events.new.spare }
{
    events.clear();
    add_tanks(project, states, carried, events);
    add_controls(project, levels, carried, events);
}
