//! The whole flows that enclose a pipe's exact flow.
#![tactic(auto)]

ghost use Rattle.std.specs.Prelude.{◌≡◌, ◌^◌, ◌*◌, ◌≤◌, unsigned_abs};
ghost use Rattle.hyd_spec_power_laws.specs.WholeFlows.{flow_down, flow_up, passes_high, Covers};
ghost use Rattle.hyd_spec_power_laws.specs.WholeFlows.{greatest_head, greatest_flow};
ghost use Rattle.hyd_spec_power_laws.specs.EnclosingFlows.{power_low, power_high};

use crate::flow_tests::{End, flow_test};
use crate::searches::greatest_within;
use crate::seeds::guess;

const GREATEST_HEAD: u64 = 3_000_000_000_000_000_000;

const GREATEST_FLOW: u64 = 1 << 62;

use hyd_num::{Pair, Scaled};
use hyd_spec_power_laws::PowerCapacity;

/// At most the flow, in flow ticks, that the head difference `d`, in head ticks, drives.
pub fn power_low(capacity: &PowerCapacity, d: i64) -> i128
    requires { unsigned_abs d ≤ 3 * 10 ^ 18 }
    ensures value { result ≡ power_low capacity.now d }
    ensures small { unsigned_abs result ≤ 2 ^ 62 }
{
    let magnitude = d.unsigned_abs();
    if d >= 0 {
        return i128::from(flow_down(capacity.low, capacity.minor, magnitude));
    }
    -i128::from(flow_up(capacity.high, capacity.minor, magnitude))
}

/// At least that flow.
pub fn power_high(capacity: &PowerCapacity, d: i64) -> i128
    requires { unsigned_abs d ≤ 3 * 10 ^ 18 }
    ensures value { result ≡ power_high capacity.now d }
    ensures small { unsigned_abs result ≤ 2 ^ 62 }
{
    let magnitude = d.unsigned_abs();
    if d >= 0 {
        return i128::from(flow_up(capacity.high, capacity.minor, magnitude));
    }
    -i128::from(flow_down(capacity.low, capacity.minor, magnitude))
}

/// At most the flow at a head, by the lower end of a constant of powers and a minor loss.
pub fn flow_down(low: Scaled, minor: Option<Pair>, head: u64) -> u64
    requires { head ≤ 3 * 10 ^ 18 }
    ensures value { result ≡ flow_down low minor head }
    ensures small { result ≤ 2 ^ 62 }
{
    if head == 0 {
        return 0;
    }
    let test = flow_test(End::Low, low, minor, head);
    greatest_within(&test, guess(&test))
}

/// At least it, by the upper end: the flow after the greatest one that loses less than the head.
pub fn flow_up(high: Scaled, minor: Option<Pair>, head: u64) -> u64
    requires head { head ≤ 3 * 10 ^ 18 }
    requires covers { Covers high minor }
    ensures value { result ≡ flow_up high minor head }
    ensures small { result ≤ 2 ^ 62 }
{
    if head == 0 {
        return 0;
    }
    let test = flow_test(End::High, high, minor, head);
    greatest_within(&test, guess(&test)) + 1
}

/// Whether the greatest flow loses at least any difference of heads.
pub fn covers(high: Scaled, minor: Option<Pair>) -> bool
    ensures { result ≡ passes_high high minor greatest_head greatest_flow }
{
    flow_test(End::High, high, minor, GREATEST_HEAD).passes_high(GREATEST_FLOW)
}
