//! Straight lines between knots at a scale.
#![tactic(auto)]

ghost use Rattle.std.specs.Prelude.{◌≡◌, ◌<◌, ◌≤◌, ◌*◌, ◌^◌, ◌-ℤ◌, ◌*ℤ◌, ◌<ℤ◌, ◌≤ℤ◌, length, pos, unsigned_abs};
ghost use Rattle.std.specs.List.{All};
ghost use Rattle.std.specs.Bool.{OnTrue, OnFalse};
ghost use Rattle.hyd_num.specs.Rational.{floor, ceiling};
ghost use Rattle.hyd_net.specs.Curves.{on_line, between, value_at};
ghost use Rattle.hyd_spec.specs.Scale.{at_scale};
ghost use Rattle.hyd_spec.specs.Law as exact;
ghost use Rattle.hyd_spec_witnesses.specs.EnclosingFunctionsAtScale.{IsDifference};
ghost use Rattle.hyd_law.specs.KnotsOfStraightLines.{place_of, places, IsCurve, IsKnot, IsValue};
ghost use Rattle.hyd_laws_at_scale.specs.Scales.{parts_of};
ghost use Rattle.hyd_laws_at_scale.specs.Windows.{IsWindow};

use crate::composed_windows::held;
use crate::scale::Scale;
use crate::windows::{Window, window_of};
use hyd_law::{Bent, Held, Knot};

/// A value that need not be whole.
#[derive(Clone, Copy, Drop)]
struct Quotient {
    numerator: i128,
    denominator: i128,
}

fn difference(a: i64, b: i64) -> i128
    ensures { result ≡ a -ℤ b }
{
    i128::from(a) - i128::from(b)
}

fn lies_before(d: i64, place: i64, scale: Scale) -> bool
    ensures before { OnTrue result (d <ℤ at_scale (parts_of scale) place) }
    ensures from { OnFalse result (at_scale (parts_of scale) place ≤ℤ d) }
{
    i128::from(d) < scale.in_parts(i128::from(place))
}

// How far a head difference is beyond a place.
fn beyond(d: i64, place: i64, scale: Scale) -> i128
    requires difference { IsDifference d }
    requires place { unsigned_abs place ≤ 10 ^ 18 }
    ensures value { result ≡ d -ℤ at_scale (parts_of scale) place }
    ensures small { unsigned_abs result ≤ 3 * 10 ^ 21 }
{
    i128::from(d) - scale.in_parts(i128::from(place))
}

// The product of a head difference of parts and a flow of ticks.
fn product(difference: i128, flow: i128) -> i128
    requires difference { unsigned_abs difference ≤ 3 * 10 ^ 21 }
    requires flow { unsigned_abs flow ≤ 2 * 10 ^ 16 }
    ensures value { result ≡ difference *ℤ flow }
    ensures small { unsigned_abs result ≤ 6 * 10 ^ 37 }
{
    difference * flow
}

// The value on the line of two knots that are apart.
fn on_line(first: Knot, second: Knot, scale: Scale, d: i64) -> Quotient
    requires first { IsKnot first }
    requires second { IsKnot second }
    requires apart { first.head <ℤ second.head }
    requires difference { IsDifference d }
    ensures value { IsValue result.numerator result.denominator (on_line (parts_of scale) (place_of first)
        (place_of second) d) }
    ensures small { unsigned_abs result.numerator ≤ 12 * 10 ^ 37 }
{
    let width = difference(second.head, first.head);
    let rise = difference(second.flow, first.flow);
    Quotient {
        numerator: product(scale.in_parts(width), i128::from(first.flow))
            + product(beyond(d, first.head, scale), rise),
        denominator: width,
    }
}

// A number of ticks as a value of parts.
fn whole(ticks: i64, scale: Scale) -> Quotient
    ensures numerator { result.numerator ≡ at_scale (parts_of scale) ticks }
    ensures denominator { result.denominator ≡ pos 1 }
    ensures small { unsigned_abs result.numerator ≤ 12 * 10 ^ 37 }
{
    Quotient {
        numerator: scale.in_parts(i128::from(ticks)),
        denominator: 1,
    }
}

// The value by two knots.
fn between(first: Knot, second: Knot, scale: Scale, d: i64) -> Quotient
    requires first { IsKnot first }
    requires second { IsKnot second }
    requires difference { IsDifference d }
    ensures value { IsValue result.numerator result.denominator (between (parts_of scale) (place_of first)
        (place_of second) d) }
    ensures small { unsigned_abs result.numerator ≤ 12 * 10 ^ 37 }
{
    if first.head < second.head {
        return on_line(first, second, scale, d);
    }
    if lies_before(d, first.head, scale) {
        return whole(first.flow, scale);
    }
    whole(second.flow, scale)
}

// The value of at least two knots at a head difference.
fn value_at(knots: &[Knot], scale: Scale, d: i64) -> Quotient
    requires two { 2 ≤ length knots.now }
    requires ranges { All IsKnot knots.now }
    requires difference { IsDifference d }
    ensures value { IsValue result.numerator result.denominator (value_at (parts_of scale) (places knots.now) d) }
    ensures small { unsigned_abs result.numerator ≤ 12 * 10 ^ 37 }
{
    let last = knots.len() - 1;
    for i in 0..last - 1 {
        if lies_before(d, knots[i + 1].head, scale) {
            return between(knots[i], knots[i + 1], scale, d);
        }
    }
    between(knots[last - 1], knots[last], scale, d)
}

// At most the value, in whole parts.
fn floor_at(knots: &[Knot], scale: Scale, d: i64) -> i128
    requires two { 2 ≤ length knots.now }
    requires ranges { All IsKnot knots.now }
    requires difference { IsDifference d }
    ensures { result ≡ floor (value_at (parts_of scale) (places knots.now) d) }
{
    let value = value_at(knots, scale, d);
    value.numerator.div_euclid(value.denominator)
}

// At least the value.
fn ceiling_at(knots: &[Knot], scale: Scale, d: i64) -> i128
    requires two { 2 ≤ length knots.now }
    requires ranges { All IsKnot knots.now }
    requires difference { IsDifference d }
    ensures { result ≡ ceiling (value_at (parts_of scale) (places knots.now) d) }
{
    let value = value_at(knots, scale, d);
    -(-value.numerator).div_euclid(value.denominator)
}

/// What passes by straight lines between knots, held from a least to a greatest flow.
pub(crate) fn bent(law: &Held<Bent>, scale: Scale, d: i64) -> Window
    requires curve { IsCurve law.now.inner.knots.list }
    requires difference { IsDifference d }
    ensures { IsWindow (parts_of scale) (exact.Held law.now.least law.now.most
        (exact.Bent (places law.now.inner.knots.list))) d result }
{
    let knots = law.inner.knots.as_slice();
    window_of(
        held(law.least, law.most, scale, floor_at(knots, scale, d)),
        held(law.least, law.most, scale, ceiling_at(knots, scale, d)),
    )
}
