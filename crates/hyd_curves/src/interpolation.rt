//! Straight lines between points, in ticks.
#![tactic(auto)]

ghost use Rattle.std.specs.Prelude.{◌≡◌, ◌≤◌, ◌^◌, ◌*◌, ◌<ℤ◌, ◌-ℤ◌, unsigned_abs};
ghost use Rattle.hyd_net.specs.Curves as curve;
ghost use Rattle.hyd_curves.specs.PointsAsKnots.{IsSmall, knot_of};

use crate::points_in_ticks::Ticks;
use hyd_num::whole_product;

// A difference of two numbers of at most 10^18 either way.
fn difference(a: i128, b: i128) -> i128
    requires a { unsigned_abs a ≤ 10 ^ 18 }
    requires b { unsigned_abs b ≤ 10 ^ 18 }
    ensures value { result ≡ a -ℤ b }
    ensures small { unsigned_abs result ≤ 2 * 10 ^ 18 }
{
    a - b
}

/// The value at a place on the line through two points, times the distance of their places.
pub(crate) fn on_line(first: Ticks, second: Ticks, place: i128) -> i128
    requires first { IsSmall first }
    requires second { IsSmall second }
    requires place { unsigned_abs place ≤ 10 ^ 18 }
    requires apart { first.place <ℤ second.place }
    ensures value { result ≡ (curve.on_line 1 (knot_of first) (knot_of second) place).num }
    ensures small { unsigned_abs result ≤ 32 * 10 ^ 36 }
{
    let width = difference(second.place, first.place);
    let rise = difference(second.value, first.value);
    let beyond = difference(place, first.place);
    whole_product(width, first.value) + whole_product(rise, beyond)
}
