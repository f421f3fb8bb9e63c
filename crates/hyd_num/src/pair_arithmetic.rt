//! Operations on pairs. Each keeps the ends on their sides of the exact result.
//!
//! The condition of each is on reaches, the magnitudes of exponents and 64 for each end: so
//! exponents never leave their type, and a caller sees from the numbers of its operations that a
//! chain of them fits.
#![tactic(auto)]

ghost use Rattle.std.specs.Prelude.{◌+◌, ◌*◌, ◌^◌, ◌<◌, ◌≤◌, ◌≡◌, ◌⊎◌};
ghost use Rattle.hyd_num.specs.BinaryNumbers.{numerator, denominator, reach, IsDown, IsUp};
ghost use Rattle.hyd_num.specs.Pairs.{IsRatio, IsProduct, IsQuotient, IsSum, IsPower, StaysNear, pair_reach};

use crate::binary::Scaled;
use crate::binary_arithmetic::{product, quotient, raised, sum};
use crate::fractions::fraction;
use crate::pairs::Pair;

/// The pair of two ends.
pub fn between(lo: Scaled, hi: Scaled) -> Pair
    requires { numerator lo * denominator hi ≤ numerator hi * denominator lo }
    ensures low { result.lo ≡ lo }
    ensures high { result.hi ≡ hi }
{
    Pair { lo, hi }
}

/// The enclosure of `p / q`.
pub fn ratio(p: u128, q: u128) -> Pair
    requires p_positive { 1 ≤ p }
    requires p_short { p < 2 ^ 100 }
    requires q_positive { 1 ≤ q }
    requires q_short { q < 2 ^ 100 }
    ensures ratio { IsRatio p q result }
    ensures near { pair_reach result ≤ 2 ^ 10 }
{
    let cut = fraction(p, q);
    between(cut.down, raised(cut))
}

/// The enclosure of `x * y`.
pub fn mul(x: Pair, y: Pair) -> Pair
    requires { pair_reach x + pair_reach y ≤ 2 ^ 30 }
    ensures product { IsProduct x y result }
    ensures near { pair_reach result ≤ pair_reach x + pair_reach y }
{
    between(product_down(x.lo, y.lo), product_up(x.hi, y.hi))
}

/// The enclosure of `x / y`.
pub fn div(x: Pair, y: Pair) -> Pair
    requires { pair_reach x + pair_reach y ≤ 2 ^ 30 }
    ensures quotient { IsQuotient x y result }
    ensures near { pair_reach result ≤ pair_reach x + pair_reach y }
{
    between(quotient_down(x.lo, y.hi), quotient_up(x.hi, y.lo))
}

/// The enclosure of `x + y`.
pub fn add(x: Pair, y: Pair) -> Pair
    requires { pair_reach x + pair_reach y ≤ 2 ^ 30 }
    ensures sum { IsSum x y result }
    ensures near { pair_reach result ≤ pair_reach x + pair_reach y }
{
    between(sum_down(x.lo, y.lo), sum_up(x.hi, y.hi))
}

/// The enclosure of `x` to the power `n`, by the binary digits of `n`. Either `n` times the reach
/// of `x` is at most 2^30, or no power of `x` up to the `n`-th has a reach above 2^22.
pub fn pow(x: Pair, n: u32) -> Pair
    requires positive { 1 ≤ n }
    requires near { (n * pair_reach x ≤ 2 ^ 30) ⊎ StaysNear x n }
    ensures power { IsPower x n result }
    ensures near { pair_reach result ≤ n * pair_reach x }
{
    if n == 1 {
        return x;
    }
    let half = pow(x, n / 2);
    let square = mul(half, half);
    if n % 2 == 0 {
        return square;
    }
    mul(square, x)
}

fn product_down(a: Scaled, b: Scaled) -> Scaled
    requires { reach a + reach b ≤ 2 ^ 30 }
    ensures down { IsDown (numerator a * numerator b) (denominator a * denominator b) result }
    ensures near { reach result ≤ reach a + reach b }
{
    product(a, b).down
}

fn product_up(a: Scaled, b: Scaled) -> Scaled
    requires { reach a + reach b ≤ 2 ^ 30 }
    ensures up { IsUp (numerator a * numerator b) (denominator a * denominator b) result }
    ensures near { reach result ≤ reach a + reach b }
{
    raised(product(a, b))
}

fn quotient_down(a: Scaled, b: Scaled) -> Scaled
    requires { reach a + reach b ≤ 2 ^ 30 }
    ensures down { IsDown (numerator a * denominator b) (denominator a * numerator b) result }
    ensures near { reach result ≤ reach a + reach b }
{
    quotient(a, b).down
}

fn quotient_up(a: Scaled, b: Scaled) -> Scaled
    requires { reach a + reach b ≤ 2 ^ 30 }
    ensures up { IsUp (numerator a * denominator b) (denominator a * numerator b) result }
    ensures near { reach result ≤ reach a + reach b }
{
    raised(quotient(a, b))
}

fn sum_down(a: Scaled, b: Scaled) -> Scaled
    requires { reach a + reach b ≤ 2 ^ 30 }
    ensures down { IsDown (numerator a * denominator b + numerator b * denominator a) (denominator a * denominator b)
        result }
    ensures near { reach result ≤ reach a + reach b }
{
    sum(a, b).down
}

fn sum_up(a: Scaled, b: Scaled) -> Scaled
    requires { reach a + reach b ≤ 2 ^ 30 }
    ensures up { IsUp (numerator a * denominator b + numerator b * denominator a) (denominator a * denominator b)
        result }
    ensures near { reach result ≤ reach a + reach b }
{
    raised(sum(a, b))
}
