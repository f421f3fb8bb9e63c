//! Rounding of sums, products and quotients of binary numbers, each as the number below it and
//! whether something was lost.
#![tactic(auto)]

ghost use Rattle.std.specs.Prelude.{◌≡◌, ℕ, ◌+◌, ◌*◌, ◌/◌, ◌%◌, ◌^◌, ◌<◌, ◌≤◌, unsigned_abs, pos, ◌+ℤ◌, ◌≤ℤ◌};
ghost use Rattle.hyd_num.specs.BinaryNumbers.{numerator, denominator, reach, IsUp};
ghost use Rattle.hyd_num.specs.CutsOfBinaryNumbers.{IsCut, IsNext, IsShortened};

use crate::binary::Scaled;

/// A number rounded down, and whether it was that number already.
#[derive(Clone, Copy, Drop)]
pub struct Cut {
    pub down: Scaled,
    pub exact: bool,
}

// Mantissas lie from 2^62 to below 2^63, and products of two below 2^126.
const LEAST: u64 = 0x4000_0000_0000_0000;

const END: u64 = 0x8000_0000_0000_0000;

const TWO_TO_62: u128 = 0x4000_0000_0000_0000;

const TWO_TO_63: u128 = 0x8000_0000_0000_0000;

const TWO_TO_125: u128 = 0x2000_0000_0000_0000_0000_0000_0000_0000;

/// The binary number of this mantissa and exponent.
pub fn scaled(mant: u64, exp: i32) -> Scaled
    requires normal { 2 ^ 62 ≤ mant }
    requires short { mant < 2 ^ 63 }
    ensures mantissa { result.mant ≡ mant }
    ensures exponent { result.exp ≡ exp }
{
    Scaled { mant, exp }
}

/// A number rounded down to this mantissa and exponent.
pub fn cut_at(mant: u64, exp: i32, exact: bool) -> Cut
    requires normal { 2 ^ 62 ≤ mant }
    requires short { mant < 2 ^ 63 }
    ensures mantissa { result.down.mant ≡ mant }
    ensures exponent { result.down.exp ≡ exp }
    ensures exactness { result.exact ≡ exact }
{
    Cut {
        down: scaled(mant, exp),
        exact,
    }
}

/// The next greater number.
pub fn next(s: Scaled) -> Scaled
    requires { reach s ≤ 2 ^ 30 + 64 }
    ensures above { IsNext s result }
    ensures near { reach result ≤ reach s + 1 }
{
    if s.mant + 1 == END {
        return scaled(LEAST, s.exp + 1);
    }
    scaled(s.mant + 1, s.exp)
}

/// The number rounded up, of a number that was rounded down.
pub fn raised(cut: Cut) -> Scaled
    requires { reach cut.down ≤ 2 ^ 30 + 64 }
    ensures up { (p q : ℕ) → 0 < q → IsCut p q cut.down cut.exact → IsUp p q result }
    ensures near { reach result ≤ reach cut.down + 1 }
{
    if cut.exact {
        return cut.down;
    }
    next(cut.down)
}

/// The product of two numbers, rounded down.
pub fn product(a: Scaled, b: Scaled) -> Cut
    requires { reach a + reach b ≤ 2 ^ 30 }
    ensures cut { IsCut (numerator a * numerator b) (denominator a * denominator b) result.down result.exact }
    ensures near { reach result.down + 1 ≤ reach a + reach b }
{
    let product = u128::from(a.mant) * u128::from(b.mant);
    let exp = a.exp + b.exp;
    if product < TWO_TO_125 {
        let mant = product / TWO_TO_62;
        return cut_at(mant as u64, exp + 62, product % TWO_TO_62 == 0);
    }
    let mant = product / TWO_TO_63;
    cut_at(mant as u64, exp + 63, product % TWO_TO_63 == 0)
}

/// The quotient of two numbers, rounded down.
pub fn quotient(a: Scaled, b: Scaled) -> Cut
    requires { reach a + reach b ≤ 2 ^ 30 }
    ensures cut { IsCut (numerator a * denominator b) (denominator a * numerator b) result.down result.exact }
    ensures near { reach result.down + 1 ≤ reach a + reach b }
{
    let divisor = u128::from(b.mant);
    let exp = a.exp - b.exp;
    if a.mant >= b.mant {
        let dividend = u128::from(a.mant) * TWO_TO_62;
        let (mant, rest) = quotient_and_rest(dividend, divisor);
        return cut_at(mant as u64, exp - 62, rest == 0);
    }
    let dividend = u128::from(a.mant) * TWO_TO_63;
    let (mant, rest) = quotient_and_rest(dividend, divisor);
    cut_at(mant as u64, exp - 63, rest == 0)
}

/// A quotient and what is left, by one division.
pub(crate) fn quotient_and_rest(dividend: u128, divisor: u128) -> (u128, u128)
    requires { 1 ≤ divisor }
    ensures quotient { result.0 ≡ dividend / divisor }
    ensures rest { result.1 ≡ dividend % divisor }
{
    let quotient = dividend / divisor;
    (quotient, dividend - quotient * divisor)
}

/// The sum of two numbers, rounded down.
pub fn sum(a: Scaled, b: Scaled) -> Cut
    requires { reach a + reach b ≤ 2 ^ 30 }
    ensures cut { IsCut (numerator a * denominator b + numerator b * denominator a) (denominator a * denominator b)
        result.down result.exact }
    ensures near { reach result.down + 1 ≤ reach a + reach b }
{
    if a.exp < b.exp {
        return sum_in_order(b, a);
    }
    sum_in_order(a, b)
}

// The first number has the exponent that isn't less. More than 64 places below it the second one
// is lost.
fn sum_in_order(a: Scaled, b: Scaled) -> Cut
    requires near { reach a + reach b ≤ 2 ^ 30 }
    requires in_order { b.exp ≤ℤ a.exp }
    ensures cut { IsCut (numerator a * denominator b + numerator b * denominator a) (denominator a * denominator b)
        result.down result.exact }
    ensures near { reach result.down + 1 ≤ reach a + reach b }
{
    let gap = places_between(b.exp, a.exp);
    if gap > 64 {
        return cut_at(a.mant, a.exp, false);
    }
    let total = u128::from(a.mant) * power_of_two(gap) + u128::from(b.mant);
    shortened(total, b.exp)
}

// How far the second exponent is above the first.
fn places_between(low: i32, high: i32) -> u32
    requires in_order { low ≤ℤ high }
    requires near { unsigned_abs low + unsigned_abs high ≤ 2 ^ 30 + 124 }
    ensures { high ≡ low +ℤ pos result }
{
    (high - low) as u32
}

/// 2^k.
pub(crate) fn power_of_two(k: u32) -> u128
    requires { k < 128 }
    ensures { result ≡ 2 ^ k }
{
    1 << k
}

// A whole number times 2^exp, rounded down to a mantissa.
fn shortened(total: u128, exp: i32) -> Cut
    requires least { 2 ^ 62 ≤ total }
    requires near { unsigned_abs exp ≤ 2 ^ 30 + 124 }
    ensures cut { (k : ℕ) × (result.down.exp ≡ exp +ℤ pos k) × IsShortened total k result.down result.exact }
{
    let spare = total.ilog2() - 62;
    let unit = power_of_two(spare);
    cut_at((total / unit) as u64, exp + spare as i32, total % unit == 0)
}
