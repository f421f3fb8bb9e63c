//! Target levels of tanks without a volume curve, at a scale.
#![tactic(auto)]

ghost use Rattle.std.specs.Prelude.{◌^◌, ◌≤◌, unsigned_abs, Bool};
ghost use Rattle.hyd_tank.specs.StockIntervals.{IsCylinder, cylinder};
ghost use Rattle.hyd_laws_at_scale.specs.Scales.{parts_of};
ghost use Rattle.hyd_stocks_at_scale.specs.Targets.{IsSmall, StandsFor};

use crate::contents::in_parts;
use crate::first_seconds::Target;
use crate::motions::{breadth_of_cylinder, in_shares};
use hyd_laws_at_scale::Scale;
use hyd_net::Tank;

/// The level with which a tank has reached a level, in shares.
pub(crate) fn target_of_cylinder(tank: &Tank, scale: Scale, level: i64) -> Target
    requires tank { IsCylinder tank.now }
    requires level { unsigned_abs level ≤ 10 ^ 18 }
    ensures small { IsSmall result }
    ensures stands { (rising : Bool)
        → StandsFor (parts_of scale) (cylinder tank.now) tank.now level rising result }
{
    Target::Shares(in_shares(breadth_of_cylinder(tank), in_parts(scale, level)))
}
