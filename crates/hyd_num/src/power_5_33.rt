//! The power 5.33 of a pair, by way of its 533rd power and 100th roots of that.
#![tactic(auto)]

ghost use Rattle.std.specs.Prelude.{◌≡◌, ◌+◌, ◌-◌, ◌*◌, ◌^◌, ◌<◌, ◌≤◌, true, false, pos, ◌+ℤ◌, ◌*ℤ◌, ◌≤ℤ◌, ◌<ℤ◌};
ghost use Rattle.std.specs.Prelude.{unsigned_abs};
ghost use Rattle.hyd_num.specs.BinaryNumbers.{numerator, denominator, reach};
ghost use Rattle.hyd_num.specs.Pairs.{IsOwnPower, RootsBelow, RootsAbove, IsRootDown, IsRootUp, IsRoot533, pair_reach};
ghost use Rattle.hyd_num.specs.CutsOfBinaryNumbers.{RootsOver, RootsUnder};

use crate::binary::Scaled;
use crate::binary_arithmetic::scaled;
use crate::guessed_roots::{guess, improved};
use crate::pair_arithmetic::{between, pow};
use crate::pairs::Pair;

/// The enclosure of `d` to the power 5.33.
pub fn root533(d: Pair) -> Pair
    requires { pair_reach d ≤ 2 ^ 19 }
    ensures root { IsRoot533 d result }
    ensures near { pair_reach result ≤ 533 * pair_reach d + 2 ^ 10 }
{
    let raised = pow(d, 533);
    let low = root_down(raised.lo, guess(raised.lo));
    between(low, root_up(raised.hi, low.mant))
}

const LEAST: u64 = 0x4000_0000_0000_0000;

const END: u64 = 0x8000_0000_0000_0000;

// The greatest number whose 100th power, rounded up on its way, is at most the bound. The search begins near a guess of
// its mantissa.
fn root_down(bound: Scaled, guess: u64) -> Scaled
    requires { reach bound ≤ 533 * 2 ^ 19 }
    ensures root { IsRootDown bound result }
    ensures near { reach result ≤ reach bound + 2 ^ 9 }
{
    let exp = root_exponent(bound.exp);
    let mut wanted = near_root(bound, exp, guess, End::Upper);
    let mut stride = 0u64;
    let mut low = scaled(LEAST, exp);
    let mut high = END;
    prove!(is_root_below(low, bound));
    while high - low.mant > 1 {
        let middle = scaled(place_in(low.mant + 1, high, wanted), exp);
        stride = stride.wrapping_mul(2).wrapping_add(1);
        if is_root_below(middle, bound) {
            low = middle;
            wanted = middle.mant.wrapping_add(stride);
        } else {
            high = middle.mant;
            wanted = middle.mant.wrapping_sub(stride);
        }
    }
    low
}

// The least number whose 100th power, rounded down on its way, is at least the bound.
fn root_up(bound: Scaled, guess: u64) -> Scaled
    requires { reach bound ≤ 533 * 2 ^ 19 }
    ensures root { IsRootUp bound result }
    ensures near { reach result ≤ reach bound + 2 ^ 9 }
{
    let exp = root_exponent(bound.exp);
    let mut wanted = near_root(bound, exp, guess, End::Lower);
    let mut stride = 0u64;
    let mut high = scaled(LEAST, exp + 1);
    let mut low = LEAST;
    let mut end = END;
    prove!(is_root_above(high, bound));
    while low < end {
        let middle = scaled(place_in(low, end, wanted), exp);
        stride = stride.wrapping_mul(2).wrapping_add(1);
        if is_root_above(middle, bound) {
            high = middle;
            end = middle.mant;
            wanted = middle.mant.wrapping_sub(stride);
        } else {
            low = middle.mant + 1;
            wanted = middle.mant.wrapping_add(stride);
        }
    }
    high
}

// Which end of a 100th power is meant.
#[derive(Clone, Copy, Drop)]
enum End {
    Lower,
    Upper,
}

// A mantissa near that of the root, from a guess of it. Nothing rests on it.
fn near_root(bound: Scaled, exp: i32, guess: u64, end: End) -> u64
    requires { unsigned_abs exp ≤ 2 ^ 22 - 64 }
{
    let start = scaled(place_in(LEAST, END, guess), exp);
    let power = own_power(start);
    match end {
        End::Lower => improved(start.mant, power.lo, bound),
        End::Upper => improved(start.mant, power.hi, bound),
    }
}

// The place that is wanted, where it is one of these, else the one in their middle. Strides double until a place lies
// on the other side; from then on what is wanted lies outside, and places are halved.
fn place_in(low: u64, end: u64, wanted: u64) -> u64
    requires { low < end }
    ensures from { low ≤ result }
    ensures to { result < end }
{
    if low <= wanted && wanted < end {
        return wanted;
    }
    low + (end - low) / 2
}

// The exponent of the root: those of the 100th powers of its numbers end about the bound's.
fn root_exponent(exp: i32) -> i32
    requires { unsigned_abs exp ≤ 533 * 2 ^ 19 }
    ensures low { (pos 100 *ℤ (result +ℤ pos 62)) ≤ℤ (exp +ℤ pos 62) }
    ensures high { (exp +ℤ pos 62) <ℤ ((pos 100 *ℤ (result +ℤ pos 62)) +ℤ pos 100) }
{
    let places = exp + 62;
    let quotient = places / 100;
    if places < 100 * quotient {
        return quotient - 63;
    }
    quotient - 62
}

fn is_root_below(s: Scaled, bound: Scaled) -> bool
    requires { reach s ≤ 2 ^ 22 }
    ensures below { result ≡ true → RootsBelow s bound }
    ensures above { result ≡ false → RootsOver s bound }
{
    let power = own_power(s);
    is_at_most(power.hi, bound)
}

fn is_root_above(s: Scaled, bound: Scaled) -> bool
    requires { reach s ≤ 2 ^ 22 }
    ensures above { result ≡ true → RootsAbove s bound }
    ensures below { result ≡ false → RootsUnder s bound }
{
    let power = own_power(s);
    is_at_most(bound, power.lo)
}

// The 100th power of the pair whose two ends are one number.
fn own_power(s: Scaled) -> Pair
    requires { reach s ≤ 2 ^ 22 }
    ensures { IsOwnPower s 100 result }
{
    pow(own(s), 100)
}

// The pair whose two ends are one number.
fn own(s: Scaled) -> Pair
    ensures low { result.lo ≡ s }
    ensures high { result.hi ≡ s }
{
    between(s, s)
}

// Whether one number is at most another.
fn is_at_most(a: Scaled, b: Scaled) -> bool
    ensures at_most { result ≡ true → numerator a * denominator b ≤ numerator b * denominator a }
    ensures above { result ≡ false → numerator b * denominator a < numerator a * denominator b }
{
    if a.exp == b.exp {
        return a.mant <= b.mant;
    }
    a.exp < b.exp
}
