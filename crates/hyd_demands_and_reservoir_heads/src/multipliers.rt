//! Multipliers of patterns over time.
#![tactic(auto)]

ghost use Rattle.std.specs.Prelude.{◌≡◌, ◌<◌, ◌≤◌, ◌^◌, length, ◌*◌, ◌*ℤ◌, unsigned_abs};
ghost use Rattle.std.specs.List.{All};
ghost use Rattle.hyd_net.specs.Sound.{IsPattern};
ghost use Rattle.hyd_spec.specs.WholeNumbers.{cut};
ghost use Rattle.hyd_spec.specs.DemandsHeadsAndPumpLifts.{multiplier_at};

use hyd_net::Project;

/// The multiplier of a pattern at a time, in billionths: the pattern's steps begin at time 0 less the pattern start,
/// and it is repeated (EPANET 2.2 User Manual, Time Patterns). Patterns are counted from 0.
pub fn multiplier_at(project: &Project, pattern: u32, time: u32) -> i64
    requires step { 1 ≤ project.now.times.pattern }
    requires patterns { All IsPattern project.now.patterns.list }
    requires in_range { pattern < length project.now.patterns.list }
    ensures value { result ≡ multiplier_at project.now pattern time }
    ensures small { unsigned_abs result ≤ 10 ^ 15 }
{
    let multipliers = project.patterns.as_slice()[pattern as usize]
        .multipliers
        .as_slice();
    let passed = u64::from(time) + u64::from(project.times.pattern_start);
    let step = passed / u64::from(project.times.pattern);
    multipliers[(step % multipliers.len() as u64) as usize]
}

/// A number times a number of billionths, cut toward zero.
pub(crate) fn times(a: i128, billionths: i128) -> i128
    requires { unsigned_abs a * unsigned_abs billionths ≤ 10 ^ 36 }
    ensures value { result ≡ cut (a *ℤ billionths) (10 ^ 9) }
    ensures small { unsigned_abs result * 10 ^ 9 ≤ unsigned_abs a * unsigned_abs billionths }
{
    a * billionths / 1_000_000_000
}
