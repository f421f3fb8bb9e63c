//! Decimals, pairs, roots, quotients and squares.

ghost use Rattle.std.specs.Prelude.{◌≤◌, ◌^◌, IfSome};
ghost use Rattle.hyd_num.specs.Pairs.{pair_reach};

use crate::words::{natural_at, put_ends, unit_at, word_at};
use hyd_num::{
    NumFault, Pair, Scaled, add, compare_squares, div, isqrt, mul, mul_div_ceil, mul_div_floor,
    pow, ratio, read_decimal, root533, sqrt_down, sqrt_up,
};
use std::alloc::AllocError;
use std::cmp::Ordering;
use std::fmt::Write;

/// The billionths of a decimal, or why there are none.
pub(crate) fn put_decimal(asked: &str, out: &mut String) -> Result<(), AllocError> {
    match read_decimal(asked.as_bytes()) {
        Ok(decimal) => write!(out, "{}", decimal.nano),
        Err(NumFault::NotANumber) => out.push_str("not a number"),
        Err(NumFault::TooLarge) => out.push_str("too large"),
    }
}

/// The pair of a fraction whose parts are at least 1 and below 2^100.
fn ratio_at(asked: &str, place: usize) -> Option<Pair>
    ensures { IfSome result (λ pair. pair_reach pair ≤ 2 ^ 10) }
{
    const LIMIT: u128 = 1 << 100;
    let p = natural_at(asked, place);
    let q = natural_at(asked, place.saturating_add(1));
    if p >= 1 && p < LIMIT && q >= 1 && q < LIMIT {
        return Some(ratio(p, q));
    }
    None
}

/// The pair of an operation on fractions: `of P Q`, `mul P Q P Q`, `div P Q P Q`, `add P Q P Q`, `pow4 P Q`,
/// `pow533 P Q`, `root533 P Q`.
fn pair_of(asked: &str) -> Option<Pair> {
    let first = ratio_at(asked, 1)?;
    match word_at(asked, 0) {
        "of" => Some(first),
        "mul" => Some(mul(first, ratio_at(asked, 3)?)),
        "div" => Some(div(first, ratio_at(asked, 3)?)),
        "add" => Some(add(first, ratio_at(asked, 3)?)),
        "pow4" => Some(pow(first, 4)),
        "pow533" => Some(pow(first, 533)),
        "root533" => Some(root533(first)),
        _ => None,
    }
}

/// The ends of the pair of an operation.
pub(crate) fn put_pair(asked: &str, out: &mut String) -> Result<(), AllocError> {
    match pair_of(asked) {
        Some(pair) => put_ends(out, pair.lo, pair.hi),
        None => out.push_str("none"),
    }
}

/// The floor of a square root.
pub(crate) fn put_root(asked: &str, out: &mut String) -> Result<(), AllocError> {
    write!(out, "{}", isqrt(natural_at(asked, 0)))
}

/// The floor and the ceiling of three halves of a whole number.
pub(crate) fn put_three_halves(asked: &str, out: &mut String) -> Result<(), AllocError> {
    let number = i128::from(word_at(asked, 0).parse::<i32>().unwrap_or(0));
    write!(
        out,
        "{} {}",
        mul_div_floor(number, 3, 2),
        mul_div_ceil(number, 3, 2)
    )
}

/// How `a q^2` compares with `b p^2`, for numbers below 2^72.
pub(crate) fn put_order(asked: &str, out: &mut String) -> Result<(), AllocError> {
    const LIMIT: u128 = 1 << 72;
    let a = natural_at(asked, 0);
    let q = natural_at(asked, 1);
    let b = natural_at(asked, 2);
    let p = natural_at(asked, 3);
    if a >= LIMIT || q >= LIMIT || b >= LIMIT || p >= LIMIT {
        return out.push_str("none");
    }
    match compare_squares(a, q, b, p) {
        Ordering::Less => out.push_str("less"),
        Ordering::Equal => out.push_str("equal"),
        Ordering::Greater => out.push_str("greater"),
    }
}

/// The capacity of a pipe, and the greatest and the least capacity of all.
const PIPE: Scaled = Scaled {
    mant: 0x4659_c2d2_fcdc_b500,
    exp: -32,
};

const GREATEST: Scaled = Scaled {
    mant: 0x7fff_ffff_ffff_ffff,
    exp: 3,
};

const LEAST: Scaled = Scaled {
    mant: 0x4000_0000_0000_0000,
    exp: -123,
};

/// The floor and the ceiling of the root of a capacity times a head.
pub(crate) fn put_roots_of_products(asked: &str, out: &mut String) -> Result<(), AllocError> {
    let head = word_at(asked, 1).parse::<u64>().unwrap_or(0);
    if head > 3_000_000_000_000_000_000 {
        return out.push_str("none");
    }
    let (down, up) = match word_at(asked, 0) {
        "pipe" => (sqrt_down(PIPE, head), sqrt_up(PIPE, head)),
        "greatest" => (sqrt_down(GREATEST, head), sqrt_up(GREATEST, head)),
        _ => (sqrt_down(LEAST, head), sqrt_up(LEAST, head)),
    };
    write!(out, "{down} {up}")
}

/// The factor of a unit of flows to flow ticks, as a fraction, and whether it is US customary.
pub(crate) fn put_factor(asked: &str, out: &mut String) -> Result<(), AllocError> {
    let unit = unit_at(asked, 0);
    let (over, under) = unit.factor();
    write!(out, "{over} {under} {}", unit.is_us())
}
