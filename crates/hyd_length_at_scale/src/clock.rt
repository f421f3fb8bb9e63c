//! When the clock ends a period.
#![tactic(auto)]

ghost use Rattle.std.specs.Prelude.{◌<◌, ◌≤◌};
ghost use Rattle.hyd_net.specs.Sound.{IsSound};
ghost use Rattle.hyd_spec.specs.PeriodLength.{IsLeast, EndsByClock};
ghost use Rattle.hyd_length_at_scale.specs.Instants.{IsNextPattern, IsNextReport};

use crate::clock_controls::first_control;
use crate::multiples::to_multiple;
use hyd_net::Project;

// When the next step of the patterns begins.
fn next_pattern(project: &Project, time: u32) -> u32
    requires sound { IsSound project.now }
    requires before_end { time < project.now.times.duration }
    ensures { IsNextPattern project.now time result }
{
    time + to_multiple(time + project.times.pattern_start, project.times.pattern)
}

// The next report time.
fn next_report(project: &Project, time: u32) -> u32
    requires sound { IsSound project.now }
    requires before_end { time < project.now.times.duration }
    ensures { IsNextReport project.now time result }
{
    let start = project.times.report_start;
    if time < start {
        return start;
    }
    time + to_multiple(time - start, project.times.report)
}

/// The first instant at which the clock ends a period that begins before the end of the run: a hydraulic step is over,
/// the run ends, a step of the patterns begins, a report time comes, or a control acts by time or by clock (EPANET 2.2
/// User Manual, chapter 3, hydraulic time steps).
pub(crate) fn clock_end(project: &Project, time: u32) -> u32
    requires sound { IsSound project.now }
    requires before_end { time < project.now.times.duration }
    ensures least { IsLeast (EndsByClock project.now time) result }
    ensures later { time < result }
    ensures within { result ≤ project.now.times.duration }
{
    let alone = (time + project.times.hydraulic)
        .min(project.times.duration)
        .min(next_pattern(project, time))
        .min(next_report(project, time));
    first_control(project, time, alone)
}
