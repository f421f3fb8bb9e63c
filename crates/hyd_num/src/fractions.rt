//! Rounding of fractions of whole numbers, by long division.
#![tactic(auto)]

ghost use Rattle.std.specs.Prelude.{◌≡◌, ◌+◌, ◌*◌, ◌^◌, ◌<◌, ◌≤◌};
ghost use Rattle.hyd_num.specs.BinaryNumbers.{reach};
ghost use Rattle.hyd_num.specs.CutsOfBinaryNumbers.{IsCut};

use crate::binary_arithmetic::{Cut, cut_at, power_of_two, quotient_and_rest};

const TWO_TO_62: u128 = 0x4000_0000_0000_0000;

const TWO_TO_63: u128 = 0x8000_0000_0000_0000;

// `q * 2^doublings`.
#[derive(Clone, Copy, Drop)]
struct Divisor {
    value: u128,
    doublings: u32,
}

// `p * 2^digits` divided by a divisor.
#[derive(Clone, Copy, Drop)]
struct Division {
    mant: u64,
    rest: u128,
    digits: u32,
}

/// The fraction `p / q`, rounded down.
pub fn fraction(p: u128, q: u128) -> Cut
    requires p_positive { 1 ≤ p }
    requires p_short { p < 2 ^ 100 }
    requires q_positive { 1 ≤ q }
    requires q_short { q < 2 ^ 100 }
    ensures cut { IsCut p q result.down result.exact }
    ensures near { reach result.down ≤ 2 ^ 8 }
{
    let divisor = doubled(p, q);
    let division = divided(p, divisor.value);
    let exp = divisor.doublings as i32 - division.digits as i32;
    cut_at(division.mant, exp, division.rest == 0)
}

// The divisor doubled until the quotient has at most 63 digits.
fn doubled(p: u128, q: u128) -> Divisor
    requires p_short { p < 2 ^ 100 }
    requires q_positive { 1 ≤ q }
    requires q_short { q < 2 ^ 100 }
    ensures value { result.value ≡ q * 2 ^ result.doublings }
    ensures short { p < 2 ^ 63 * result.value }
    ensures fits { result.value < 2 ^ 101 }
    ensures few { result.doublings ≤ 100 }
{
    let mut value = q;
    let mut doublings = 0;
    while p / TWO_TO_63 >= value {
        value *= 2;
        doublings += 1;
    }
    Divisor { value, doublings }
}

// The digits of the quotient, until there are 63.
fn divided(p: u128, divisor: u128) -> Division
    requires p_positive { 1 ≤ p }
    requires short { p < 2 ^ 63 * divisor }
    requires fits { divisor < 2 ^ 101 }
    ensures split { result.mant * divisor + result.rest ≡ p * 2 ^ result.digits }
    ensures rest { result.rest < divisor }
    ensures least { 2 ^ 62 ≤ result.mant }
    ensures below { result.mant < 2 ^ 63 }
    ensures few { result.digits ≤ 163 }
{
    let (mut mant, mut rest) = quotient_and_rest(p, divisor);
    let mut digits = 0;
    while mant < TWO_TO_62 {
        let more = digits_at_once(mant, divisor);
        (mant, rest) = with_digits(mant, rest, divisor, more);
        digits += more;
    }
    Division {
        mant: mant as u64,
        rest,
        digits,
    }
}

// How many binary digits the quotient still lacks, but no more than can be had at once.
fn digits_at_once(mant: u128, divisor: u128) -> u32
    requires below { mant < 2 ^ 62 }
    requires positive { 1 ≤ divisor }
    requires fits { divisor < 2 ^ 101 }
    ensures some { 1 ≤ result }
    ensures few { result ≤ 63 }
    ensures below { (mant + 1) * 2 ^ result ≤ 2 ^ 63 }
    ensures fits { divisor * 2 ^ result ≤ 2 ^ 128 }
{
    let room = 127 - divisor.ilog2();
    room.min(lacking_digits(mant))
}

// How many binary digits a quotient lacks to 63, at most where it is 0.
fn lacking_digits(mant: u128) -> u32
    requires { mant < 2 ^ 62 }
    ensures some { 1 ≤ result }
    ensures few { result ≤ 63 }
    ensures below { (mant + 1) * 2 ^ result ≤ 2 ^ 63 }
{
    if mant == 0 {
        return 63;
    }
    62 - mant.ilog2()
}

// The quotient and the rest with so many binary digits more.
fn with_digits(mant: u128, rest: u128, divisor: u128, more: u32) -> (u128, u128)
    requires few { more ≤ 63 }
    requires below { (mant + 1) * 2 ^ more ≤ 2 ^ 63 }
    requires small { rest < divisor }
    requires fits { divisor * 2 ^ more ≤ 2 ^ 128 }
    ensures split { result.0 * divisor + result.1 ≡ 2 ^ more * (mant * divisor + rest) }
    ensures rest { result.1 < divisor }
    ensures short { result.0 < 2 ^ 63 }
{
    let unit = power_of_two(more);
    let (behind, rest) = quotient_and_rest(rest * unit, divisor);
    (mant * unit + behind, rest)
}
