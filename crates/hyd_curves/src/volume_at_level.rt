//! Volumes by a volume curve.
#![tactic(auto)]

ghost use Rattle.std.specs.Prelude.{◌≡◌, ◌==◌, ◌≤◌, ◌^◌, ◌*◌, ◌||◌, length, ◌<ℤ◌, unsigned_abs};
ghost use lib.Signed.{lt_z};
ghost use Rattle.hyd_num.specs.Rational.{floor};
ghost use Rattle.hyd_net.specs.Curves.{between, volume_at};
ghost use Rattle.hyd_net.specs.NumberRanges.{head_limit};
ghost use Rattle.hyd_spec_input.specs.Curves.{volume_points};
ghost use Rattle.hyd_curves.specs.Points.{points_in};
ghost use Rattle.hyd_curves.specs.PointsAsKnots.{IsSmall, knot_of};
ghost use Rattle.hyd_curves.specs.TankCurveTests.{IsRight};

use crate::interpolation::on_line;
use crate::points::CurvePoint;
use crate::points_in_ticks::{Ticks, volume_point};

// The volume up to a level on the line of two points, cut to whole ticks.
fn volume_between(first: Ticks, second: Ticks, level: i128) -> i128
    requires first { IsSmall first }
    requires second { IsSmall second }
    requires level { unsigned_abs level ≤ head_limit }
    requires apart { first.place <ℤ second.place }
    ensures value { result ≡ floor (between 1 (knot_of first) (knot_of second) level) }
    ensures small { unsigned_abs result ≤ 32 * 10 ^ 36 }
{
    on_line(first, second, level).div_euclid(second.place - first.place)
}

// Whether a level is looked up on the line to a point: it lies below it, or no point comes later.
fn is_reached(level: i128, second: Ticks, later: &[CurvePoint]) -> bool
    ensures { result ≡ ((length later.now == 0) || lt_z level second.place) }
{
    if later.is_empty() {
        return true;
    }
    level < second.place
}

/// The volume up to a level, cut to whole ticks.
pub(crate) fn volume_up_to(points: &[CurvePoint], level: i128, us: bool) -> i128
    requires right { IsRight (volume_points us (points_in points.now)) }
    requires level { unsigned_abs level ≤ head_limit }
    ensures value { result ≡ volume_at (volume_points us (points_in points.now)) level }
    ensures small { unsigned_abs result ≤ 32 * 10 ^ 36 }
{
    let Some((first, rest)) = points.split_first() else {
        return 0;
    };
    let mut first = volume_point(*first, us);
    let mut left = rest;
    while let Some((next, later)) = left.split_first() {
        let second = volume_point(*next, us);
        if is_reached(level, second, later) {
            return volume_between(first, second, level);
        }
        first = second;
        left = later;
    }
    first.value
}
