//! The value of straight lines at a head difference.
#![tactic(auto)]

ghost use Rattle.std.specs.Prelude.{◌≡◌, ◌<◌, ◌≤◌, ◌*◌, ◌^◌, ◌-ℤ◌, ◌<ℤ◌, ◌≤ℤ◌, length, unsigned_abs};
ghost use Rattle.std.specs.List.{All};
ghost use Rattle.std.specs.Bool.{OnTrue, OnFalse};
ghost use Rattle.hyd_net.specs.Curves.{on_line, between, value_at};
ghost use Rattle.hyd_law.specs.ComposedLaws.{IsDifference};
ghost use Rattle.hyd_law.specs.KnotsOfStraightLines.{place_of, places, IsKnot, IsValue};

use crate::law_kinds::Knot;
use hyd_num::whole_product;

/// A value that need not be whole.
#[derive(Clone, Copy, Drop)]
pub(crate) struct Quotient {
    pub numerator: i128,
    pub denominator: i128,
}

fn difference(a: i64, b: i64) -> i128
    ensures { result ≡ a -ℤ b }
{
    i128::from(a) - i128::from(b)
}

fn lies_before(d: i64, knot: Knot) -> bool
    ensures before { OnTrue result (d <ℤ knot.head) }
    ensures from { OnFalse result (knot.head ≤ℤ d) }
{
    d < knot.head
}

// The value on the line of two knots that are apart.
fn on_line(first: Knot, second: Knot, d: i64) -> Quotient
    requires first { IsKnot first }
    requires second { IsKnot second }
    requires apart { first.head <ℤ second.head }
    requires difference { IsDifference d }
    ensures value { IsValue result.numerator result.denominator (on_line 1 (place_of first) (place_of second) d) }
    ensures small { unsigned_abs result.numerator ≤ 32 * 10 ^ 36 }
{
    let width = difference(second.head, first.head);
    let rise = difference(second.flow, first.flow);
    let beyond = difference(d, first.head);
    Quotient {
        numerator: whole_product(width, i128::from(first.flow)) + whole_product(rise, beyond),
        denominator: width,
    }
}

// The value by two knots.
fn between(first: Knot, second: Knot, d: i64) -> Quotient
    requires first { IsKnot first }
    requires second { IsKnot second }
    requires difference { IsDifference d }
    ensures value { IsValue result.numerator result.denominator (between 1 (place_of first) (place_of second) d) }
    ensures small { unsigned_abs result.numerator ≤ 32 * 10 ^ 36 }
{
    if lies_before(first.head, second) {
        return on_line(first, second, d);
    }
    if lies_before(d, first) {
        return Quotient {
            numerator: i128::from(first.flow),
            denominator: 1,
        };
    }
    Quotient {
        numerator: i128::from(second.flow),
        denominator: 1,
    }
}

/// The value of at least two knots at a head difference.
pub(crate) fn value_at(knots: &[Knot], d: i64) -> Quotient
    requires two { 2 ≤ length knots.now }
    requires ranges { All IsKnot knots.now }
    requires difference { IsDifference d }
    ensures value { IsValue result.numerator result.denominator (value_at 1 (places knots.now) d) }
    ensures small { unsigned_abs result.numerator ≤ 32 * 10 ^ 36 }
{
    let last = knots.len() - 1;
    for i in 0..last - 1 {
        if lies_before(d, knots[i + 1]) {
            return between(knots[i], knots[i + 1], d);
        }
    }
    between(knots[last - 1], knots[last], d)
}
