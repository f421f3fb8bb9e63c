//! What the clock shows.
#![tactic(auto)]

ghost use Rattle.std.specs.Prelude.{◌≡◌, ◌<◌};
ghost use Rattle.hyd_spec.specs.PumpPatternsAndSimpleControls.{clock_at};

use hyd_net::Project;

/// A day, in seconds.
pub(crate) const DAY: u32 = 86_400;

/// The time of day at a time of the run, in seconds.
pub(crate) fn clock_at(project: &Project, time: u32) -> u32
    ensures value { result ≡ clock_at project.now time }
    ensures day { result < 86400 }
{
    let passed = u64::from(time) + u64::from(project.times.start_clock);
    (passed % u64::from(DAY)) as u32
}
