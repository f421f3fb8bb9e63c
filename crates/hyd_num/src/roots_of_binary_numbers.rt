//! Square roots of a binary number times a whole number: the flow that a head difference drives.
#![tactic(auto)]

ghost use Rattle.std.specs.Prelude.{◌+◌, ◌*◌, ◌^◌, ◌<◌, ◌≤◌};
ghost use Rattle.hyd_num.specs.BinaryNumbers.{numerator, denominator};
ghost use Rattle.hyd_num.specs.QuotientsAndRoots.{IsSquareRootDown, IsSquareRootUp};

use crate::binary::Scaled;
use crate::binary_arithmetic::power_of_two;
use crate::roots::isqrt;

/// The greatest whole number whose square is at most `c * d`.
pub fn sqrt_down(c: Scaled, d: u64) -> u64
    requires least { denominator c ≤ numerator c * 2 ^ 61 }
    requires greatest { numerator c < 2 ^ 66 * denominator c }
    requires small { d ≤ 3 * 10 ^ 18 }
    ensures { IsSquareRootDown (numerator c * d) (denominator c) result }
{
    isqrt(times_down(c, d))
}

/// The least whole number whose square is at least `c * d`.
pub fn sqrt_up(c: Scaled, d: u64) -> u64
    requires least { denominator c ≤ numerator c * 2 ^ 61 }
    requires greatest { numerator c < 2 ^ 66 * denominator c }
    requires small { d ≤ 3 * 10 ^ 18 }
    ensures { IsSquareRootUp (numerator c * d) (denominator c) result }
{
    root_up(times_up(c, d))
}

// `c * d`, cut to a whole number.
fn times_down(c: Scaled, d: u64) -> u128
    requires least { denominator c ≤ numerator c * 2 ^ 61 }
    requires greatest { numerator c < 2 ^ 66 * denominator c }
    requires small { d ≤ 3 * 10 ^ 18 }
    ensures at_most { result * denominator c ≤ numerator c * d }
    ensures next_above { numerator c * d < (result + 1) * denominator c }
{
    let product = u128::from(c.mant) * u128::from(d);
    let places = c.exp.unsigned_abs();
    if c.exp >= 0 {
        return product * power_of_two(places);
    }
    product >> places
}

// `c * d`, rounded up to a whole number.
fn times_up(c: Scaled, d: u64) -> u128
    requires least { denominator c ≤ numerator c * 2 ^ 61 }
    requires greatest { numerator c < 2 ^ 66 * denominator c }
    requires small { d ≤ 3 * 10 ^ 18 }
    ensures at_least { numerator c * d ≤ result * denominator c }
    ensures next_below { result * denominator c < numerator c * d + denominator c }
    ensures fits { result < 2 ^ 66 * 3 * 10 ^ 18 + 1 }
{
    let product = u128::from(c.mant) * u128::from(d);
    let places = c.exp.unsigned_abs();
    if c.exp >= 0 {
        return product * power_of_two(places);
    }
    (product + (power_of_two(places) - 1)) >> places
}

// The least whole number whose square is at least `x`.
fn root_up(x: u128) -> u64
    requires { x < 2 ^ 66 * 3 * 10 ^ 18 + 1 }
    ensures { IsSquareRootUp x 1 result }
{
    let root = isqrt(x);
    if u128::from(root) * u128::from(root) == x {
        return root;
    }
    root + 1
}
