//! Heads of reservoirs.
#![tactic(auto)]

ghost use Rattle.std.specs.Prelude.{◌≡◌, ◌<◌, ◌≤◌, ◌*◌, ◌^◌, ◌*ℤ◌, length, unsigned_abs};
ghost use Rattle.std.specs.List.{All};
ghost use Rattle.hyd_net.specs.Sound.{IsSound, IsPattern};
ghost use Rattle.hyd_net.specs.NumberRanges.{IsHead};
ghost use Rattle.hyd_spec.specs.WholeNumbers.{cut};
ghost use Rattle.hyd_spec.specs.DemandsHeadsAndPumpLifts.{multiplier_at};
ghost use Rattle.hyd_demands_and_reservoir_heads.specs.DemandsAndHeadsByNumber.{head_of_reservoir};

use crate::multipliers::{multiplier_at, times};
use hyd_net::Project;

// A head times the multiplier of a pattern, cut toward zero.
fn head_by_pattern(project: &Project, head: i64, pattern: u32, time: u32) -> i64
    requires step { 1 ≤ project.now.times.pattern }
    requires patterns { All IsPattern project.now.patterns.list }
    requires in_range { pattern < length project.now.patterns.list }
    requires small { unsigned_abs head * unsigned_abs (multiplier_at project.now pattern time) ≤ 10 ^ 26 }
    ensures value { result ≡ cut (head *ℤ multiplier_at project.now pattern time) (10 ^ 9) }
    ensures head { IsHead result }
{
    let multiplier = multiplier_at(project, pattern, time);
    times(i128::from(head), i128::from(multiplier)) as i64
}

/// The head of a reservoir at a time, in head ticks: its base head, times its pattern's multiplier where it has a
/// pattern, cut toward zero (EPANET 2.2 User Manual, The Network Model). Reservoirs are counted from 0.
pub fn head_at(project: &Project, reservoir: u32, time: u32) -> i64
    requires sound { IsSound project.now }
    requires in_range { reservoir < length project.now.reservoirs.list }
    ensures value { result ≡ head_of_reservoir project.now time reservoir }
    ensures head { IsHead result }
{
    let reservoir = project.reservoirs.as_slice()[reservoir as usize];
    match reservoir.pattern {
        Some(pattern) => head_by_pattern(project, reservoir.head, pattern, time),
        None => reservoir.head,
    }
}
