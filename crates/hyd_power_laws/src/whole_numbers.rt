//! Whole numbers as cut numbers.
#![tactic(auto)]

ghost use Rattle.std.specs.Prelude.{◌≡◌, ◌*◌, ◌/◌, ◌^◌, ◌≤◌, ◌<◌};
ghost use Rattle.hyd_spec_power_laws.specs.CutPowers.{IsNormal, in_63_digits};

use hyd_spec_power_laws::CutNumber;

/// 2^62 times the number, with 0 for its digits past the 63rd.
#[inline]
pub(crate) fn in_63_digits(n: u128) -> CutNumber
    requires { 1 ≤ n }
    ensures value { result ≡ in_63_digits n }
    ensures normal { IsNormal result }
    ensures near { result.exp ≤ 127 }
{
    let places = n.ilog2();
    CutNumber {
        mant: first_digits(n, places),
        exp: places,
    }
}

// The first 63 digits of a number that has so many below its first one.
#[inline]
fn first_digits(n: u128, places: u32) -> u64
    requires from { 2 ^ places ≤ n }
    requires to { n < 2 * 2 ^ places }
    ensures value { result ≡ n * 2 ^ 62 / 2 ^ places }
    ensures least { 2 ^ 62 ≤ result }
    ensures short { result < 2 ^ 63 }
{
    if places <= 62 {
        return (n * power_of_two(62 - places)) as u64;
    }
    (n / power_of_two(places - 62)) as u64
}

/// 2^k.
#[inline]
pub(crate) fn power_of_two(k: u32) -> u128
    requires { k < 128 }
    ensures { result ≡ 2 ^ k }
{
    1 << k
}
