//! A tank's volume curve at a scale, read by level or by volume.
#![tactic(auto)]

ghost use Rattle.std.specs.Prelude.{◌≡◌, ◌+◌, ◌*◌, ◌-◌, ◌^◌, ◌<◌, ◌≤◌, pos, ◌-ℤ◌, ◌*ℤ◌, ◌≤ℤ◌, unsigned_abs, length};
ghost use Rattle.std.specs.List.{HoldsAt};
ghost use Rattle.hyd_num.specs.Rational.{floor, ceiling};
ghost use Rattle.hyd_net.specs.Curves.{IsVolumeCurve, on_line, value_at};
ghost use Rattle.hyd_stocks_at_scale.specs.VolumeCurves.{place_of, knot_by, knots_by, AreNeighbours, IsFrom, IsUpTo};
ghost use Rattle.hyd_stocks_at_scale.specs.VolumeCurves.{IsOnCurve, value_of, times_value, IsMixed, IsAtLeast};
ghost use Rattle.hyd_stocks_at_scale.specs.VolumeCurves.{IsAtMost, finest};

use hyd_net::VolumePoint;

/// Which number of a point is known. The other one is its value.
#[derive(Clone, Copy, Drop)]
pub(crate) enum Known {
    Level,
    Volume,
}

/// A point as a place and the value there, in ticks.
#[derive(Clone, Copy, Drop)]
struct Knot {
    place: i64,
    value: i64,
}

/// The number `whole + part / of`, where `part` is less than `of`.
#[derive(Clone, Copy, Drop)]
pub(crate) struct Mixed {
    pub whole: i128,
    pub part: u128,
    pub of: u128,
}

impl Mixed {
    /// The greatest whole number of at most `times` times the value.
    pub fn floor_of(self, times: u32) -> i128
        requires times { times ≤ finest }
        requires range { IsMixed self }
        ensures value { result ≡ floor (times_value times self) }
        ensures small { unsigned_abs result ≤ 10 ^ 31 }
    {
        let fraction = part_times(times, self.part) / self.of;
        whole_times(times, self.whole) + fraction as i128
    }

    /// The least whole number of at least `times` times the value.
    pub fn ceiling_of(self, times: u32) -> i128
        requires times { times ≤ finest }
        requires range { IsMixed self }
        ensures value { result ≡ ceiling (times_value times self) }
        ensures small { unsigned_abs result ≤ 10 ^ 31 }
    {
        let fraction = part_times(times, self.part).div_ceil(self.of);
        whole_times(times, self.whole) + fraction as i128
    }
}

// A number of times a whole number.
fn whole_times(times: u32, whole: i128) -> i128
    requires times { times ≤ finest }
    requires whole { unsigned_abs whole ≤ 2 * 10 ^ 24 }
    ensures value { result ≡ pos times *ℤ whole }
    ensures small { unsigned_abs result ≤ 2 * 10 ^ 30 }
{
    i128::from(times) * whole
}

// A number of times a part.
fn part_times(times: u32, part: u128) -> u128
    requires times { times ≤ finest }
    requires part { part ≤ 10 ^ 18 }
    ensures value { result ≡ times * part }
    ensures small { result ≤ finest * 10 ^ 18 }
{
    u128::from(times) * part
}

fn knot_of(point: VolumePoint, known: Known) -> Knot
    ensures { place_of result ≡ knot_by known point }
{
    match known {
        Known::Level => Knot {
            place: point.level,
            value: point.volume,
        },
        Known::Volume => Knot {
            place: point.volume,
            value: point.level,
        },
    }
}

// A number of ticks in parts.
fn in_parts(scale: u32, ticks: i64) -> i128
    requires scale { scale ≤ finest }
    requires ticks { unsigned_abs ticks ≤ 10 ^ 18 }
    ensures value { result ≡ pos scale *ℤ ticks }
    ensures small { unsigned_abs result ≤ finest * 10 ^ 18 }
{
    i128::from(scale) * i128::from(ticks)
}

// How far a place of parts is beyond one of ticks.
fn beyond(scale: u32, place: i64, x: i128) -> u128
    requires scale { scale ≤ finest }
    requires place { unsigned_abs place ≤ 10 ^ 18 }
    requires from { (pos scale *ℤ place) ≤ℤ x }
    requires small { unsigned_abs x ≤ 10 ^ 25 }
    ensures { pos result ≡ x -ℤ (pos scale *ℤ place) }
{
    (x - in_parts(scale, place)) as u128
}

// How far a number rises to another one.
fn rise(from: i64, to: i64) -> u128
    requires { from ≤ℤ to }
    ensures { pos result ≡ to -ℤ from }
{
    u128::from(to.abs_diff(from))
}

// The quotient and the rest of a product, in two steps, for it may pass 128 bits.
fn share(rise: u128, beyond: u128, width: u128) -> (u128, u128)
    requires some { 0 < width }
    requires rise { rise ≤ 10 ^ 18 }
    requires area { rise * width ≤ 2 * 10 ^ 35 }
    requires within { beyond ≤ finest * width }
    ensures value { rise * beyond ≡ width * result.0 + result.1 }
    ensures rest { result.1 < width }
    ensures small { result.0 ≤ finest * 10 ^ 18 }
{
    let rest = rise * (beyond % width);
    (rise * (beyond / width) + rest / width, rest % width)
}

// The value on the line of two knots, in parts.
fn on_line(first: Knot, second: Knot, scale: u32, x: i128) -> Mixed
    requires scale { scale ≤ finest }
    requires neighbours { AreNeighbours (place_of first) (place_of second) }
    requires from_first { IsFrom scale x (place_of first) }
    requires to_second { IsUpTo scale x (place_of second) }
    ensures value { value_of result ≡ on_line scale (place_of first) (place_of second) x }
    ensures range { IsMixed result }
    ensures at_least { IsAtLeast scale first.value result }
    ensures at_most { IsAtMost scale second.value result }
{
    let width = rise(first.place, second.place);
    let height = rise(first.value, second.value);
    let (steps, part) = share(height, beyond(scale, first.place, x), width);
    Mixed {
        whole: in_parts(scale, first.value) + steps as i128,
        part,
        of: width,
    }
}

/// The value in parts of a tick where the known number is x parts of a tick.
pub(crate) fn value_at(points: &[VolumePoint], known: Known, scale: u32, x: i128) -> Mixed
    requires curve { IsVolumeCurve points.now }
    requires some { 0 < scale }
    requires scale { scale ≤ finest }
    requires on_curve { IsOnCurve known scale points.now x }
    ensures value { value_of result ≡ value_at scale (knots_by known points.now) x }
    ensures range { IsMixed result }
    ensures at_least { HoldsAt (λ point. IsAtLeast scale (knot_by known point).value result) points.now 0 }
    ensures at_most { HoldsAt (λ point. IsAtMost scale (knot_by known point).value result) points.now
        (length points.now - 1) }
{
    let last = points.len() - 1;
    for i in 0..last - 1 {
        let next = knot_of(points[i + 1], known);
        if x < in_parts(scale, next.place) {
            return on_line(knot_of(points[i], known), next, scale, x);
        }
    }
    on_line(
        knot_of(points[last - 1], known),
        knot_of(points[last], known),
        scale,
        x,
    )
}
