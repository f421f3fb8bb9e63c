//! A tank's volume curve, read by level or by volume.
#![tactic(auto)]

ghost use Rattle.std.specs.Prelude.{◌≡◌, ℕ, ◌*◌, ◌-◌, ◌^◌, ◌<◌, ◌≤◌, unsigned_abs, length};
ghost use Rattle.std.specs.List.{HoldsAt};
ghost use Rattle.hyd_num.specs.Rational.{floor, ceiling};
ghost use Rattle.hyd_net.specs.Curves.{IsVolumeCurve};
ghost use Rattle.hyd_tank.specs.CurveByLevelOrVolume.{place_of, knot_by, knots_by, value_of, times_value, value_in};
ghost use Rattle.hyd_tank.specs.CurveByLevelOrVolume.{line_in, IsMixed};
ghost use Rattle.hyd_tank.specs.CurveByLevelOrVolume.{IsAtLeast, IsAtMost, AreNeighbours, IsFrom, IsUpTo, IsOnCurve};

use crate::contents_of_tanks::in_parts;
use hyd_net::VolumePoint;

/// Which number of a point is known. The other one is its value.
#[derive(Clone, Copy, Drop)]
pub(crate) enum Known {
    Level,
    Volume,
}

/// A point as a place and the value there, in ticks.
#[derive(Clone, Copy, Drop)]
pub(crate) struct Knot {
    pub place: i64,
    pub value: i64,
}

/// The number `whole + part / of`.
#[derive(Clone, Copy, Drop)]
pub(crate) struct Mixed {
    pub whole: i64,
    pub part: u128,
    pub of: u128,
}

impl Mixed {
    /// The greatest whole number of at most `times` times the value.
    pub fn floor_of(self, times: u32) -> i128
        requires some { 0 < times }
        requires times { times ≤ 864 }
        requires small { IsMixed times self }
        ensures value { result ≡ floor (times_value times self) }
        ensures small { unsigned_abs result ≤ times * (2 * 10 ^ 18) }
    {
        let fraction = u128::from(times) * self.part / self.of;
        in_parts(i128::from(times), self.whole) + fraction as i128
    }

    /// The least whole number of at least `times` times the value.
    pub fn ceiling_of(self, times: u32) -> i128
        requires some { 0 < times }
        requires times { times ≤ 864 }
        requires small { IsMixed times self }
        ensures value { result ≡ ceiling (times_value times self) }
        ensures small { unsigned_abs result ≤ times * (2 * 10 ^ 18) }
    {
        let fraction = (u128::from(times) * self.part).div_ceil(self.of);
        in_parts(i128::from(times), self.whole) + fraction as i128
    }
}

fn knot_of(point: VolumePoint, known: Known) -> Knot
    ensures { place_of result ≡ knot_by known point }
{
    match known {
        Known::Level => Knot {
            place: point.level,
            value: point.volume,
        },
        Known::Volume => Knot {
            place: point.volume,
            value: point.level,
        },
    }
}

// The value on the line of two knots.
fn on_line(first: Knot, second: Knot, scale: u32, x: i128) -> Mixed
    requires scale { 0 < scale }
    requires scale_range { scale ≤ 864 }
    requires neighbours { AreNeighbours (place_of first) (place_of second) }
    requires from_first { IsFrom scale x (place_of first) }
    requires to_second { IsUpTo scale x (place_of second) }
    ensures value { value_of result ≡ line_in scale (place_of first) (place_of second) x }
    ensures at_least { IsAtLeast first.value result }
    ensures at_most { IsAtMost second.value result }
    ensures small { (times : ℕ) → times * scale ≤ 864 → IsMixed times result }
{
    let width = second.place.abs_diff(first.place);
    let rise = second.value.abs_diff(first.value);
    let beyond = x - in_parts(i128::from(scale), first.place);
    Mixed {
        whole: first.value,
        part: u128::from(rise) * beyond as u128,
        of: u128::from(scale) * u128::from(width),
    }
}

/// The value in ticks where the known number is `x / scale`.
pub(crate) fn value_at(points: &[VolumePoint], known: Known, scale: u32, x: i128) -> Mixed
    requires curve { IsVolumeCurve points.now }
    requires scale { 0 < scale }
    requires scale_range { scale ≤ 864 }
    requires on_curve { IsOnCurve known scale points.now x }
    ensures value { value_of result ≡ value_in scale (knots_by known points.now) x }
    ensures at_least { HoldsAt (λ point. IsAtLeast (knot_by known point).value result) points.now 0 }
    ensures at_most { HoldsAt (λ point. IsAtMost (knot_by known point).value result) points.now
        (length points.now - 1) }
    ensures small { (times : ℕ) → times * scale ≤ 864 → IsMixed times result }
{
    let last = points.len() - 1;
    for i in 0..last - 1 {
        let next = knot_of(points[i + 1], known);
        if x < in_parts(i128::from(scale), next.place) {
            return on_line(knot_of(points[i], known), next, scale, x);
        }
    }
    on_line(
        knot_of(points[last - 1], known),
        knot_of(points[last], known),
        scale,
        x,
    )
}
