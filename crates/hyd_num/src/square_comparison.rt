//! A square times a factor compared with another number times a factor: products of three numbers, which are wider
//! than 128 bits.
#![tactic(auto)]

ghost use Rattle.std.specs.Prelude.{◌≡◌, ◌*◌, ◌^◌, ◌<◌};
ghost use Rattle.hyd_num.specs.WideNumbers.{value, HasParts, IsOrder};

use std::cmp::Ordering;

// One more than the greatest of the two lower parts.
const BASE: u128 = 1 << 56;

/// A number below 2^240, in parts of 56 bits, the last of which takes what is left.
#[derive(Debug, Clone, Copy, PartialEq, Eq, Drop)]
struct Wide {
    high: u128,
    middle: u128,
    low: u128,
}

// A number as a wide one.
fn in_parts(n: u128) -> Wide
    requires { n < 2 ^ 72 }
    ensures value { value result ≡ n }
    ensures parts { HasParts result }
{
    Wide {
        high: 0,
        middle: n / BASE,
        low: n % BASE,
    }
}

// A product.
fn times(x: Wide, m: u128) -> Wide
    requires parts { HasParts x }
    requires x_small { value x < 2 ^ 144 }
    requires m_small { m < 2 ^ 72 }
    ensures value { value result ≡ value x * m }
    ensures parts { HasParts result }
{
    let low = x.low * m;
    let middle = x.middle * m + low / BASE;
    let high = x.high * m + middle / BASE;
    Wide {
        high,
        middle: middle % BASE,
        low: low % BASE,
    }
}

// The order of two numbers: that of their highest parts that differ.
fn order(x: Wide, y: Wide) -> Ordering
    requires x_parts { HasParts x }
    requires y_parts { HasParts y }
    ensures { IsOrder (value x) (value y) result }
{
    if x.high != y.high {
        return x.high.cmp(&y.high);
    }
    if x.middle != y.middle {
        return x.middle.cmp(&y.middle);
    }
    x.low.cmp(&y.low)
}

/// How `a q^2` compares with `b p^2`, exactly.
pub fn compare_squares(a: u128, q: u128, b: u128, p: u128) -> Ordering
    requires a_small { a < 2 ^ 72 }
    requires q_small { q < 2 ^ 72 }
    requires b_small { b < 2 ^ 72 }
    requires p_small { p < 2 ^ 72 }
    ensures { IsOrder (a * (q * q)) (b * (p * p)) result }
{
    order(
        times(times(in_parts(a), q), q),
        times(times(in_parts(b), p), p),
    )
}
