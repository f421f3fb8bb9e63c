//! Instants of the clock.
#![tactic(auto)]

ghost use Rattle.std.specs.Prelude.{◌+◌, ◌<◌, ◌≤◌};
ghost use Rattle.hyd_net.specs.Sound.{IsSound};
ghost use Rattle.hyd_spec_open_ends.specs.InstantsOfClock.{AreSecondsToInstant};
ghost use Rattle.hyd_period_length.specs.Instants.{IsToMultiple, IsNextPattern, IsNextReport};

use crate::timed_controls::first_control;
use hyd_net::Project;

// How many seconds, at least 1, it is to the next multiple of a step, where so many have passed.
fn to_multiple(passed: u32, step: u32) -> u32
    requires { 1 ≤ step }
    ensures to { IsToMultiple passed step result }
    ensures within { result ≤ step }
{
    step - passed % step
}

// When the next step of the patterns begins.
fn next_pattern(project: &Project, time: u32) -> u32
    requires sound { IsSound project.now }
    requires before_end { time < project.now.times.duration }
    ensures { IsNextPattern project.now time result }
{
    time + to_multiple(time + project.times.pattern_start, project.times.pattern)
}

// The next report time.
fn next_report(project: &Project, time: u32) -> u32
    requires sound { IsSound project.now }
    requires before_end { time < project.now.times.duration }
    ensures { IsNextReport project.now time result }
{
    let start = project.times.report_start;
    if time < start {
        return start;
    }
    time + to_multiple(time - start, project.times.report)
}

/// How many seconds it is from a time before the end of the run to the next instant of the clock: the end of the run, a
/// step of the patterns, a report time, or a control by time or by clock, whichever comes first. The hydraulic step
/// isn't among them, since it is counted from a period's own start.
pub fn seconds_to_instant(project: &Project, time: u32) -> u32
    requires sound { IsSound project.now }
    requires before_end { time < project.now.times.duration }
    ensures seconds { AreSecondsToInstant project.now time result }
    ensures some { 0 < result }
    ensures within { time + result ≤ project.now.times.duration }
{
    let alone = project
        .times
        .duration
        .min(next_pattern(project, time))
        .min(next_report(project, time));
    first_control(project, time, alone) - time
}
