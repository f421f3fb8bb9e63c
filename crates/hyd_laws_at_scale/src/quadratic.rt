//! What a quadratic law passes at a scale.
#![tactic(auto)]

ghost use Rattle.std.specs.Prelude.{◌≡◌, ◌*◌, ◌^◌, ◌<◌, ◌≤◌, unsigned_abs};
ghost use Rattle.hyd_num.specs.BinaryNumbers.{numerator, denominator};
ghost use Rattle.hyd_spec_certificates.specs.EnclosingFunctions.{root_down, root_up};
ghost use Rattle.hyd_spec_witnesses.specs.EnclosingFunctionsAtScale.{quadratic_low_at, quadratic_high_at};
ghost use Rattle.hyd_spec_witnesses.specs.EnclosingFunctionsAtScale.{IsDifference, IsCapacityInRange};
ghost use Rattle.hyd_laws_at_scale.specs.Scales.{parts_of};

use crate::scale::Scale;
use hyd_num::{Capacity, Scaled, sqrt_down, sqrt_up};

// The binary number of this mantissa and exponent.
fn scaled(mant: u64, exp: i32) -> Scaled
    requires normal { 2 ^ 62 ≤ mant }
    requires short { mant < 2 ^ 63 }
    ensures mantissa { result.mant ≡ mant }
    ensures exponent { result.exp ≡ exp }
{
    Scaled { mant, exp }
}

// A binary number as many times as a tick has parts.
fn taken(c: Scaled, scale: Scale) -> Scaled
    requires { numerator c < 2 ^ 66 * denominator c }
    ensures { numerator result * denominator c ≡ parts_of scale * numerator c * denominator result }
{
    scaled(c.mant, c.exp + scale.power as i32)
}

// The floor of the root of a binary number, taken so many times, times d.
fn root_below(c: Scaled, scale: Scale, d: u64) -> u64
    requires least { denominator c ≤ numerator c * 2 ^ 61 }
    requires greatest { parts_of scale * numerator c < 2 ^ 66 * denominator c }
    requires small { d ≤ 3 * 10 ^ 18 }
    ensures { result ≡ root_down ((parts_of scale * numerator c) * d) (denominator c) }
{
    sqrt_down(taken(c, scale), d)
}

// The ceiling of that root.
fn root_above(c: Scaled, scale: Scale, d: u64) -> u64
    requires least { denominator c ≤ numerator c * 2 ^ 61 }
    requires greatest { parts_of scale * numerator c < 2 ^ 66 * denominator c }
    requires small { d ≤ 3 * 10 ^ 18 }
    ensures { result ≡ root_up ((parts_of scale * numerator c) * d) (denominator c) }
{
    sqrt_up(taken(c, scale), d)
}

/// At most the flow, in parts of a flow tick, that the head difference `d`, in parts of a head tick, drives.
pub(crate) fn quadratic_low(capacity: &Capacity, scale: Scale, d: i64) -> i128
    requires difference { IsDifference d }
    requires capacity { IsCapacityInRange (parts_of scale) capacity.now }
    ensures value { result ≡ quadratic_low_at (parts_of scale) capacity.now d }
    ensures small { unsigned_abs result ≤ 2 ^ 64 }
{
    let magnitude = d.unsigned_abs();
    if d >= 0 {
        return i128::from(root_below(capacity.lo, scale, magnitude));
    }
    -i128::from(root_above(capacity.hi, scale, magnitude))
}

/// At least that flow.
pub(crate) fn quadratic_high(capacity: &Capacity, scale: Scale, d: i64) -> i128
    requires difference { IsDifference d }
    requires capacity { IsCapacityInRange (parts_of scale) capacity.now }
    ensures value { result ≡ quadratic_high_at (parts_of scale) capacity.now d }
    ensures small { unsigned_abs result ≤ 2 ^ 64 }
{
    let magnitude = d.unsigned_abs();
    if d >= 0 {
        return i128::from(root_above(capacity.hi, scale, magnitude));
    }
    -i128::from(root_below(capacity.lo, scale, magnitude))
}
