//! What a quadratic law passes.
#![tactic(auto)]

ghost use Rattle.std.specs.Prelude.{◌≡◌, ◌^◌, ◌≤◌, unsigned_abs};
ghost use Rattle.hyd_spec_certificates.specs.EnclosingFunctions.{quadratic_low, quadratic_high};
ghost use Rattle.hyd_law.specs.ComposedLaws.{IsDifference};

use hyd_num::{Capacity, sqrt_down, sqrt_up};

/// At most the flow, in flow ticks, that the head difference `d`, in head ticks, drives.
pub(crate) fn quadratic_low(capacity: &Capacity, d: i64) -> i128
    requires { IsDifference d }
    ensures value { result ≡ quadratic_low capacity.now d }
    ensures small { unsigned_abs result ≤ 2 ^ 64 }
{
    let magnitude = d.unsigned_abs();
    if d >= 0 {
        return i128::from(sqrt_down(capacity.lo, magnitude));
    }
    -i128::from(sqrt_up(capacity.hi, magnitude))
}

/// At least that flow.
pub(crate) fn quadratic_high(capacity: &Capacity, d: i64) -> i128
    requires { IsDifference d }
    ensures value { result ≡ quadratic_high capacity.now d }
    ensures small { unsigned_abs result ≤ 2 ^ 64 }
{
    let magnitude = d.unsigned_abs();
    if d >= 0 {
        return i128::from(sqrt_up(capacity.hi, magnitude));
    }
    -i128::from(sqrt_down(capacity.lo, magnitude))
}
