//! Powers cut to 63 significant binary digits after each product.
#![tactic(auto)]

ghost use Rattle.std.specs.Prelude.{◌≡◌, ◌+◌, ◌*◌, ◌^◌, ◌≤◌, ◌<◌};
ghost use Rattle.hyd_spec_power_laws.specs.CutPowers.{IsNormal, cut_product, cut_power, exponent};

use hyd_spec_power_laws::CutNumber;

const TWO_TO_62: u128 = 0x4000_0000_0000_0000;

const TWO_TO_63: u64 = 0x8000_0000_0000_0000;

/// The product of two numbers, with 0 for its digits past the 63rd.
#[inline]
pub(crate) fn product(a: CutNumber, b: CutNumber) -> CutNumber
    requires a_normal { IsNormal a }
    requires b_normal { IsNormal b }
    requires near { a.exp + b.exp + 63 < 2 ^ 32 }
    ensures value { result ≡ cut_product a b }
    ensures normal { IsNormal result }
    ensures near { result.exp ≤ a.exp + b.exp + 63 }
{
    let product = u128::from(a.mant) * u128::from(b.mant);
    // 63 or 64 digits; no branch, since either is as likely
    let high = (product / TWO_TO_62) as u64;
    let longer = (high / TWO_TO_63) as u32;
    CutNumber {
        mant: high >> longer,
        exp: a.exp + b.exp + 62 + longer,
    }
}

/// The power of a number whose exponent has these binary digits below its first one, the last digit first.
#[inline]
pub(crate) fn power(x: CutNumber, digits: &[bool]) -> CutNumber
    requires normal { IsNormal x }
    requires near { exponent digits.now * (x.exp + 63) < 2 ^ 31 }
    ensures value { result ≡ cut_power x digits.now }
    ensures normal { IsNormal result }
    ensures near { result.exp + 63 ≤ exponent digits.now * (x.exp + 63) }
{
    let mut power = x;
    let mut place = digits.len();
    while place > 0 {
        place -= 1;
        power = product(power, power);
        if digits[place] {
            power = product(power, x);
        }
    }
    power
}
