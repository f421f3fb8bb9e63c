//! When a period of a witness ends, and what its end commands.
#![tactic(auto)]

ghost use Rattle.std.specs.Prelude.{◌≡◌, ◌<◌, ◌≤◌, ◌+◌, length};
ghost use Rattle.hyd_spec.specs.PeriodLength.{IsLeast, MayEnd, EndsByLevel};
ghost use Rattle.hyd_spec.specs.History.{commanded_after};
ghost use Rattle.hyd_laws_at_scale.specs.Scales.{parts_of};
ghost use Rattle.hyd_length_at_scale.specs.MetPeriods.{IsMetPeriod, told};
ghost use Rattle.hyd_length_at_scale.specs.LevelEnds.{IsFirst};
ghost use Rattle.hyd_length_at_scale.specs.ReservedMemory.{IsRoomFor};

use crate::clock::clock_end;
use crate::level_controls::first_control_level;
use crate::periods::MetPeriod;
use crate::room::EndRoom;
use crate::tank_bounds::first_bound;
use crate::trials::{act_at, copy_states, first_by_rules};
use hyd_net::LinkState;

// The first second, from 1 on, at which a level ends the period, or the cap where that comes first.
fn first_by_levels(period: &MetPeriod<'_>, cap: u32) -> u32
    requires { IsMetPeriod period.now }
    ensures { IsFirst (EndsByLevel period.now.project.now (parts_of period.now.scale) (told period.now)) cap result }
{
    let bound = first_bound(period, cap);
    first_control_level(period, bound)
}

/// The instant at which a period ends that begins before the end of the run, in seconds: the least one at which the
/// clock, a level that is reached, or a change by the rules may end it (EPANET 2.2 User Manual, chapter 3, hydraulic
/// time steps). Levels and rules are judged exactly. It takes no memory.
pub fn least_end(period: &MetPeriod<'_>, room: &mut EndRoom) -> u32
    requires period { IsMetPeriod period.now }
    requires before_end { period.now.moment.now.time < period.now.project.now.times.duration }
    requires room { IsRoomFor period.now.project.now room.old }
    ensures least { IsLeast (MayEnd period.now.project.now (parts_of period.now.scale) (told period.now)) result }
    ensures later { period.now.moment.now.time < result }
    ensures within { result ≤ period.now.project.now.times.duration }
    ensures room { IsRoomFor period.now.project.now room.new }
{
    let start = period.moment.time;
    let clock = clock_end(period.project, start);
    let seconds = first_by_levels(period, clock - start);
    first_by_rules(period, start + seconds, room)
}

/// Puts the states that links are commanded to be in at the end of a period: those of the rules' actions where the
/// rules are tried there, else those of the period (EPANET 2.2 User Manual, chapter 3, rule-based controls). The
/// period's length is that of its moment. It takes no memory.
pub fn command_at_end(period: &MetPeriod<'_>, room: &mut EndRoom, into: &mut [LinkState])
    requires period { IsMetPeriod period.now }
    requires within { period.now.moment.now.time + period.now.moment.now.length
        ≤ period.now.project.now.times.duration }
    requires room { IsRoomFor period.now.project.now room.old }
    requires each { length into.old ≡ length period.now.project.now.links.list }
    ensures commanded { into.new ≡ commanded_after period.now.project.now (parts_of period.now.scale)
        (told period.now) }
    ensures room { IsRoomFor period.now.project.now room.new }
{
    let end = period.moment.time + period.moment.length;
    copy_states(period.links, into);
    if end % period.project.times.rule == 0 {
        act_at(period, end, &mut room.trial, into);
    }
}
