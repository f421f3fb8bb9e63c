//! Low and high flows of laws that aren't made of others: closed, quadratic and linear ones, those by powers, and a
//! quadratic one that a pump lifts.
#![tactic(auto)]

ghost use Rattle.std.specs.Prelude.{◌≡◌, ◌*◌, ◌^◌, ◌≤◌, ◌+ℤ◌, ℕ, ℤ, unsigned_abs};
ghost use Rattle.hyd_spec.specs.DemandsHeadsAndPumpLifts.{lift_of};
ghost use Rattle.hyd_spec.specs.Law as exact;
ghost use Rattle.hyd_spec_witnesses.specs.EnclosingFunctionsAtScale.{IsDifference};
ghost use Rattle.hyd_law.specs.ComposedLaws.{IsLift};
ghost use Rattle.hyd_laws_at_scale.specs.Scales.{parts_of};
ghost use Rattle.hyd_laws_at_scale.specs.Windows.{IsWindow, IsAnswer};

use crate::quadratic::{quadratic_high, quadratic_low};
use crate::ranges::{fits, lifted};
use crate::scale::Scale;
use crate::windows::{Window, window_of};
use hyd_law::{Lifted, Quad};
use hyd_num::Capacity;
use hyd_power_laws_at_scale::{is_in_range, power_high_at, power_low_at};
use hyd_spec_power_laws::PowerCapacity;

/// A closed link passes nothing.
pub(crate) fn shut() -> Window
    ensures { (S : ℕ) (d : ℤ) → IsDifference d → IsWindow S exact.Shut d result }
{
    window_of(0, 0)
}

/// What a quadratic law passes.
pub(crate) fn quadratic(capacity: &Capacity, scale: Scale, d: i64) -> Option<Window>
    requires { IsDifference d }
    ensures { IsAnswer (parts_of scale) (exact.QuadraticLaw capacity.now) d result }
{
    if !fits(capacity, scale) {
        return None;
    }
    Some(window_of(
        quadratic_low(capacity, scale, d),
        quadratic_high(capacity, scale, d),
    ))
}

/// What a pipe with Hazen-Williams losses passes.
pub(crate) fn power(capacity: &PowerCapacity, scale: Scale, d: i64) -> Option<Window>
    requires { IsDifference d }
    ensures { IsAnswer (parts_of scale) (exact.PowerLaw capacity.now) d result }
{
    if !is_in_range(capacity, scale.power) {
        return None;
    }
    Some(window_of(
        power_low_at(capacity, scale.power, d),
        power_high_at(capacity, scale.power, d),
    ))
}

/// What a valve without loss coefficient passes: 8026.822656 flow ticks for a head tick.
pub(crate) fn linear(d: i64) -> Window
    requires { IsDifference d }
    ensures { (S : ℕ) → IsWindow S exact.LinearLaw d result }
{
    let flow = 8_026_822_656 * i128::from(d);
    let low = flow.div_euclid(1_000_000);
    let high = -(-flow).div_euclid(1_000_000);
    window_of(low, high)
}

/// What a quadratic law passes that a pump lifts.
pub(crate) fn pumped(law: &Lifted<Quad>, scale: Scale, d: i64) -> Option<Window>
    requires difference { IsDifference d }
    requires lift { IsLift (lift_of law.now.us law.now.head law.now.speed) law.now.lift }
    requires low { unsigned_abs law.now.lift.lo ≤ 10 ^ 20 }
    requires high { unsigned_abs law.now.lift.hi ≤ 10 ^ 20 }
    ensures { IsAnswer (parts_of scale) (exact.Lifted (lift_of law.now.us law.now.head law.now.speed)
        (exact.QuadraticLaw law.now.inner.cap)) d result }
{
    let low = lifted(d, law.lift.lo, scale)?;
    let high = lifted(d, law.lift.hi, scale)?;
    if !fits(&law.inner.cap, scale) {
        return None;
    }
    Some(window_of(
        quadratic_low(&law.inner.cap, scale, low),
        quadratic_high(&law.inner.cap, scale, high),
    ))
}
