//! Controls by time and by clock.
#![tactic(auto)]

ghost use Rattle.std.specs.Prelude.{◌≤◌, ◌<◌, ◌^◌};
ghost use Rattle.hyd_net.specs.Sound.{IsSound};
ghost use Rattle.hyd_net.specs.ControlsAndRules.{IsMoment};
ghost use Rattle.hyd_period_length.specs.Instants.{IsToClock, IsFirstComing, IsFirstAmong};

use hyd_net::{Project, When};

/// A day, in seconds.
const DAY: u32 = 86_400;

// How many seconds, at least 1, it is until the clock shows a time of day.
fn to_clock(project: &Project, time: u32, at: u32) -> u32
    requires day { at < 86400 }
    requires clock { project.now.times.start_clock < 86400 }
    requires time { time ≤ 10 ^ 8 }
    ensures to { IsToClock project.now time at result }
    ensures within { result ≤ 86400 }
{
    let now = (time + project.times.start_clock) % DAY;
    if at > now { at - now } else { at + DAY - now }
}

// The next instant after a time at which a control acts by time or by clock, or the cap where that comes first.
fn first_coming(project: &Project, time: u32, when: &When, cap: u32) -> u32
    requires moment { IsMoment project.now when.now }
    requires clock { project.now.times.start_clock < 86400 }
    requires time { time ≤ 10 ^ 8 }
    requires later { time < cap }
    ensures { IsFirstComing project.now time cap when.now result }
{
    match when {
        When::Level { .. } => cap,
        When::Time(at) => { if time < *at { cap.min(*at) } else { cap } }
        When::Clock(at) => cap.min(time + to_clock(project, time, *at)),
    }
}

/// The next instant after a time at which some control acts by time or by clock, or the cap where that comes first.
pub(crate) fn first_control(project: &Project, time: u32, cap: u32) -> u32
    requires sound { IsSound project.now }
    requires time { time ≤ 10 ^ 8 }
    requires later { time < cap }
    ensures { IsFirstAmong project.now time cap project.now.controls.list result }
{
    let mut first = cap;
    for control in project.controls.as_slice() {
        first = first_coming(project, time, &control.when, first);
    }
    first
}
