//! The whole flows that enclose a pipe's exact flow, in parts of ticks.
#![tactic(auto)]

ghost use Rattle.std.specs.Prelude.{◌≡◌, ◌^◌, ◌*◌, ◌≤◌, unsigned_abs};
ghost use Rattle.hyd_spec_pipe_laws.specs.FlowsAtScale.{flow_down_at, flow_up_at, power_low_at, power_high_at};
ghost use Rattle.hyd_spec_pipe_laws.specs.FlowsAtScale.{covers_at, IsPowerInRange};

use crate::ends_in_parts::{constant_in_parts, minor_in_parts};
use hyd_power_laws::{covers, flow_down, flow_up};
use hyd_spec_power_laws::PowerCapacity;

/// Whether a capacity is in range where a tick has `2^power` parts: the greatest flow that is sought, of 2^62 parts,
/// loses at least the greatest difference of heads, of 3 * 10^18 parts.
pub fn is_in_range(capacity: &PowerCapacity, power: u32) -> bool
    requires { power ≤ 10 }
    ensures { result ≡ covers_at (2 ^ power) capacity.now.high capacity.now.minor }
{
    covers(
        constant_in_parts(capacity.high, power),
        minor_in_parts(capacity.minor, power),
    )
}

/// At most the flow that the head difference `d` drives, both in `2^power`-th parts of a tick.
pub fn power_low_at(capacity: &PowerCapacity, power: u32, d: i64) -> i128
    requires few { power ≤ 10 }
    requires difference { unsigned_abs d ≤ 3 * 10 ^ 18 }
    requires in_range { IsPowerInRange (2 ^ power) capacity.now }
    ensures value { result ≡ power_low_at (2 ^ power) capacity.now d }
    ensures small { unsigned_abs result ≤ 2 ^ 62 }
{
    let magnitude = d.unsigned_abs();
    if d >= 0 {
        return i128::from(down_in_parts(capacity, power, magnitude));
    }
    -i128::from(up_in_parts(capacity, power, magnitude))
}

/// At least that flow.
pub fn power_high_at(capacity: &PowerCapacity, power: u32, d: i64) -> i128
    requires few { power ≤ 10 }
    requires difference { unsigned_abs d ≤ 3 * 10 ^ 18 }
    requires in_range { IsPowerInRange (2 ^ power) capacity.now }
    ensures value { result ≡ power_high_at (2 ^ power) capacity.now d }
    ensures small { unsigned_abs result ≤ 2 ^ 62 }
{
    let magnitude = d.unsigned_abs();
    if d >= 0 {
        return i128::from(up_in_parts(capacity, power, magnitude));
    }
    -i128::from(down_in_parts(capacity, power, magnitude))
}

// At most the flow at a head.
fn down_in_parts(capacity: &PowerCapacity, power: u32, head: u64) -> u64
    requires few { power ≤ 10 }
    requires head { head ≤ 3 * 10 ^ 18 }
    ensures value { result ≡ flow_down_at (2 ^ power) capacity.now.low capacity.now.minor head }
    ensures small { result ≤ 2 ^ 62 }
{
    let low = constant_in_parts(capacity.low, power);
    let minor = minor_in_parts(capacity.minor, power);
    flow_down(low, minor, head)
}

// At least it.
fn up_in_parts(capacity: &PowerCapacity, power: u32, head: u64) -> u64
    requires few { power ≤ 10 }
    requires head { head ≤ 3 * 10 ^ 18 }
    requires in_range { IsPowerInRange (2 ^ power) capacity.now }
    ensures value { result ≡ flow_up_at (2 ^ power) capacity.now.high capacity.now.minor head }
    ensures small { result ≤ 2 ^ 62 }
{
    let high = constant_in_parts(capacity.high, power);
    let minor = minor_in_parts(capacity.minor, power);
    flow_up(high, minor, head)
}
