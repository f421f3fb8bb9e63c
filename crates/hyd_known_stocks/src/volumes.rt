//! The volume at a level of a volume curve, cut to whole volume ticks.
#![tactic(auto)]

ghost use Rattle.std.specs.Prelude.{◌≡◌, pos, ◌+ℤ◌, ◌-ℤ◌, ◌≤ℤ◌};
ghost use Rattle.hyd_num.specs.Rational.{floor};
ghost use Rattle.hyd_net.specs.Curves as curves;
ghost use Rattle.hyd_net.specs.NumberRanges.{Lies, volume_limit};
ghost use Rattle.hyd_open_stocks.specs.VolumesOnCurve.{AreNeighbours, IsOnCurve, knot_at};

use hyd_net::VolumePoint;
use hyd_num::mul_div_floor;

fn difference(from: i64, to: i64) -> i128
    ensures { result ≡ to -ℤ from }
{
    i128::from(to) - i128::from(from)
}

fn sum(volume: i64, share: i128) -> i64
    requires volume { Lies (pos 0) (pos volume_limit) volume }
    requires share { Lies (pos 0) (pos volume_limit) share }
    ensures { result ≡ volume +ℤ share }
{
    (i128::from(volume) + share) as i64
}

// The volume on the line of two points.
fn on_line(first: VolumePoint, second: VolumePoint, level: i64) -> i64
    requires neighbours { AreNeighbours first second }
    requires from_first { first.level ≤ℤ level }
    requires to_second { level ≤ℤ second.level }
    ensures { result ≡ floor (curves.on_line 1 (knot_at first) (knot_at second) level) }
{
    let width = difference(first.level, second.level);
    let rise = difference(first.volume, second.volume);
    let beyond = difference(first.level, level);
    sum(first.volume, mul_div_floor(rise, beyond, width))
}

/// The volume at a level that lies on a curve.
pub(crate) fn volume_at(points: &[VolumePoint], level: i64) -> i64
    requires curve { curves.IsVolumeCurve points.now }
    requires on_curve { IsOnCurve points.now level }
    ensures { result ≡ curves.volume_at points.now level }
{
    let last = points.len() - 1;
    for i in 0..last - 1 {
        let next = points[i + 1];
        if level < next.level {
            return on_line(points[i], next, level);
        }
    }
    on_line(points[last - 1], points[last], level)
}
