//! The law of a running pump that has a capacity and a shutoff head.
#![tactic(auto)]

ghost use Rattle.std.specs.Prelude.{◌≡◌, ◌<◌, ◌≤◌, ◌*◌, ◌^◌, unsigned_abs, pos, ◌*ℤ◌, ◌<ℤ◌};
ghost use Rattle.hyd_num.specs.Rational.{Rational};
ghost use Rattle.hyd_num.specs.CapacityPairs.{IsMade};
ghost use Rattle.hyd_net.specs.NumberRanges.{shutoff_head_limit};
ghost use Rattle.hyd_net.specs.LinkStates.{IsSpeed};
ghost use Rattle.hyd_spec.specs.Law as exact;
ghost use Rattle.hyd_spec.specs.DemandsHeadsAndPumpLifts.{shutoff_head, lift_of};
ghost use Rattle.hyd_law.specs.ComposedLaws.{IsLift};
ghost use Rattle.hyd_law.specs.KnotsOfStraightLines.{IsValue};
ghost use Rattle.hyd_period_network.specs.LawsInSettings.{Represents, IsShutoff};

use hyd_law::{Lifted, LinkLaw, OneWay, Quad};
use hyd_net::ShutoffHead;
use hyd_num::{Capacity, Span};
use hyd_units::head_ticks;

/// The square of a speed of 1.
pub(crate) const SQUARED_BILLION: i128 = 1_000_000_000_000_000_000;

// The shutoff head as a numerator and a denominator.
fn shutoff_head(us: bool, head: &ShutoffHead) -> (i128, i128)
    requires { IsShutoff us head.now }
    ensures numerator { result.0 ≡ (shutoff_head us head.now).num }
    ensures denominator { result.1 ≡ pos (shutoff_head us head.now).den }
    ensures small { unsigned_abs result.0 ≤ 3 * shutoff_head_limit }
    ensures few { unsigned_abs result.0 ≤ shutoff_head_limit * unsigned_abs result.1 }
    ensures above { 0 < (shutoff_head us head.now).den }
    ensures thirds { unsigned_abs result.1 ≤ 3 }
{
    match head {
        ShutoffHead::FourThirds(head) => (4 * head_ticks(*head, us), 3),
        ShutoffHead::Given(head) => (head_ticks(*head, us), 1),
    }
}

/// A product.
pub(crate) fn product(a: i128, b: i128) -> i128
    requires { unsigned_abs a * unsigned_abs b ≤ 3 * 10 ^ 36 }
    ensures value { result ≡ a *ℤ b }
    ensures small { unsigned_abs result ≡ unsigned_abs a * unsigned_abs b }
{
    a * b
}

// The floor and the ceiling of a fraction.
fn rounded(numerator: i128, denominator: i128) -> Span
    requires above { pos 0 <ℤ denominator }
    requires small { unsigned_abs numerator ≤ 3 * 10 ^ 36 }
    requires within { unsigned_abs numerator ≤ 10 ^ 18 * unsigned_abs denominator }
    ensures least { unsigned_abs result.lo ≤ 10 ^ 18 }
    ensures greatest { unsigned_abs result.hi ≤ 10 ^ 18 }
    ensures rounded { (x : Rational) → IsValue numerator denominator x → IsLift x result }
{
    let lo = numerator.div_euclid(denominator);
    let hi = -(-numerator).div_euclid(denominator);
    Span { lo, hi }
}

/// A squared speed times a head, both as fractions of their billionths and thirds.
pub(crate) fn squared_times(speed: i64, head: i128) -> i128
    requires speed { IsSpeed speed }
    requires head { unsigned_abs head ≤ 3 * shutoff_head_limit }
    ensures value { result ≡ ((speed *ℤ speed) *ℤ head) }
    ensures small { unsigned_abs result ≤ 10 ^ 20 * unsigned_abs head }
{
    let speed = i128::from(speed);
    product(product(speed, speed), head)
}

// The head that a pump lifts at a speed: the squared speed times the shutoff head.
fn lift_of(us: bool, head: &ShutoffHead, speed: i64) -> Span
    requires head { IsShutoff us head.now }
    requires speed { IsSpeed speed }
    ensures rounded { IsLift (lift_of us head.now speed) result }
    ensures least { unsigned_abs result.lo ≤ 10 ^ 18 }
    ensures greatest { unsigned_abs result.hi ≤ 10 ^ 18 }
{
    let (numerator, denominator) = shutoff_head(us, head);
    rounded(
        squared_times(speed, numerator),
        SQUARED_BILLION * denominator,
    )
}

/// The law of a pump of this capacity and shutoff head at a speed.
pub(crate) fn pump_law(us: bool, cap: &Capacity, head: &ShutoffHead, speed: i64) -> LinkLaw
    requires made { IsMade cap.now }
    requires head { IsShutoff us head.now }
    requires speed { IsSpeed speed }
    ensures { Represents result (exact.ForwardOnly (exact.Lifted (lift_of us head.now speed)
        (exact.QuadraticLaw cap.now))) }
{
    LinkLaw::Pump(OneWay {
        forward: true,
        inner: Lifted {
            lift: lift_of(us, head, speed),
            head: *head,
            speed,
            us,
            inner: Quad { cap: *cap },
        },
    })
}
