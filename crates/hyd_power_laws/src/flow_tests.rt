//! Tests of whole flows by cut powers.
#![tactic(auto)]

ghost use Rattle.std.specs.Prelude.{◌≡◌, ◌+◌, ◌*◌, ◌^◌, ◌≤◌, ◌<◌, nat_le};
ghost use borrow.Author.Differences.{up, down};
ghost use Rattle.hyd_spec_power_laws.specs.CutPowers.{value, IsNormal, cut_power, in_63_digits, digits_of_1852};
ghost use Rattle.hyd_spec_power_laws.specs.WholeFlows.{driving, passes_low, passes_high};
ghost use Rattle.hyd_power_laws.specs.FlowsWithin.{is_within};

use crate::comparisons::is_at_most;
use crate::cut_powers::{power, product};
use crate::left_heads::{left_rounded_down, left_rounded_up};
use crate::whole_numbers::in_63_digits;
use hyd_num::{Pair, Scaled};
use hyd_spec_power_laws::CutNumber;

// The binary digits of both exponents below their first one, the last digit first.
const DIGITS_OF_1852: [bool; 10] = [
    false, false, true, true, true, true, false, false, true, true,
];

const DIGITS_OF_1000: [bool; 9] = [false, false, false, true, false, true, true, true, true];

// 122 * 1000 - 62 * 1852: heads are in 2^-60 ticks, and both numbers stand 2^62 times as large.
const PLACES_OF_FLOWS: u64 = 7176;

/// Which end of the flow is sought: the greatest one that loses at most the head, or the least that loses at least it.
#[derive(Clone, Copy, Drop)]
pub(crate) enum End {
    Low,
    High,
}

/// What a flow is tried against.
#[derive(Clone, Copy, Drop)]
pub(crate) struct FlowTest {
    pub end: End,
    pub constant: Scaled,
    pub minor: Option<Pair>,
    pub head: u64,
    // what drives a flow that loses nothing to fittings
    pub whole: CutNumber,
    pub ghost some: { 1 ≤ head },
    pub ghost small: { head ≤ 3 * 10 ^ 18 },
    pub ghost whole_is: { whole ≡ driving constant (head * 2 ^ 60) },
    pub ghost normal: { IsNormal whole },
    pub ghost near: { whole.exp < 2 ^ 20 },
}

/// The test at a head above 0.
pub(crate) fn flow_test(end: End, constant: Scaled, minor: Option<Pair>, head: u64) -> FlowTest
    requires some { 1 ≤ head }
    requires small { head ≤ 3 * 10 ^ 18 }
    ensures end { result.end ≡ end }
    ensures constant { result.constant ≡ constant }
    ensures minor { result.minor ≡ minor }
    ensures head { result.head ≡ head }
{
    let whole = driving(constant, u128::from(head) * TICK);
    FlowTest {
        end,
        constant,
        minor,
        head,
        whole,
    }
}

// A head tick in 2^-60 head ticks.
const TICK: u128 = 1 << 60;

impl FlowTest {
    /// Whether the flow isn't beyond the one that is sought: it passes the lower test, or doesn't pass the upper one.
    pub(crate) fn holds(&self, flow: u64) -> bool
        requires some { 1 ≤ flow }
        requires short { flow ≤ 2 ^ 62 }
        ensures { result ≡ is_within self.now.end self.now.constant self.now.minor self.now.head flow }
    {
        match self.end {
            End::Low => self.passes_low(flow),
            End::High => !self.passes_high(flow),
        }
    }

    fn passes_low(&self, flow: u64) -> bool
        requires some { 1 ≤ flow }
        requires short { flow ≤ 2 ^ 62 }
        ensures { result ≡ passes_low self.now.constant self.now.minor self.now.head flow }
    {
        let powered = flow_power(flow);
        let Some(minor) = self.minor else {
            return is_flow_at_most(self.constant, powered, self.whole);
        };
        let left = left_rounded_down(minor.hi, self.head, flow);
        left > 0 && is_flow_at_most(self.constant, powered, driving(self.constant, left))
    }

    pub(crate) fn passes_high(&self, flow: u64) -> bool
        requires some { 1 ≤ flow }
        requires short { flow ≤ 2 ^ 62 }
        ensures { result ≡ passes_high self.now.constant self.now.minor self.now.head flow }
    {
        let powered = flow_power(flow);
        let Some(minor) = self.minor else {
            return is_flow_at_least(self.constant, powered, self.whole);
        };
        let left = left_rounded_up(minor.lo, self.head, flow);
        left == 0 || is_flow_at_least(self.constant, powered, driving(self.constant, left))
    }
}

// The power 1852 of a flow.
fn flow_power(flow: u64) -> CutNumber
    requires { 1 ≤ flow }
    ensures value { result ≡ cut_power (in_63_digits flow) digits_of_1852 }
    ensures normal { IsNormal result }
    ensures near { result.exp < 2 ^ 20 }
{
    power(in_63_digits(u128::from(flow)), &DIGITS_OF_1852)
}

// The mantissa of a constant times the power 1000 of a head.
fn driving(constant: Scaled, head: u128) -> CutNumber
    requires { 1 ≤ head }
    ensures value { result ≡ driving constant head }
    ensures normal { IsNormal result }
    ensures near { result.exp < 2 ^ 20 }
{
    let mantissa = CutNumber {
        mant: constant.mant,
        exp: 0,
    };
    product(mantissa, power(in_63_digits(head), &DIGITS_OF_1000))
}

// Whether a flow's side is at most a head's.
fn is_flow_at_most(constant: Scaled, flow: CutNumber, head: CutNumber) -> bool
    requires flow_normal { IsNormal flow }
    requires head_normal { IsNormal head }
    ensures { result ≡ nat_le (value flow * 2 ^ (7176 + down constant.exp)) (value head * 2 ^ up constant.exp) }
{
    is_at_most(
        flow,
        PLACES_OF_FLOWS + places_below(constant.exp),
        head,
        places_above(constant.exp),
    )
}

// Whether it is at least it.
fn is_flow_at_least(constant: Scaled, flow: CutNumber, head: CutNumber) -> bool
    requires flow_normal { IsNormal flow }
    requires head_normal { IsNormal head }
    ensures { result ≡ nat_le (value head * 2 ^ up constant.exp) (value flow * 2 ^ (7176 + down constant.exp)) }
{
    is_at_most(
        head,
        places_above(constant.exp),
        flow,
        PLACES_OF_FLOWS + places_below(constant.exp),
    )
}

// The places of an exponent above 0.
fn places_above(exp: i32) -> u64
    ensures value { result ≡ up exp }
    ensures near { result ≤ 2 ^ 31 }
{
    u64::from(exp.max(0).unsigned_abs())
}

// The places of an exponent below 0.
fn places_below(exp: i32) -> u64
    ensures value { result ≡ down exp }
    ensures near { result ≤ 2 ^ 31 }
{
    u64::from(exp.min(0).unsigned_abs())
}
