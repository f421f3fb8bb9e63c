//! Stocks after some seconds, rounded down.
#![tactic(auto)]

ghost use Rattle.std.specs.Prelude.{◌≡◌, ◌<◌, ◌≤◌, List, Some, length, slice_get, unsigned_abs};
ghost use Rattle.hyd_num.specs.Rational.{floor};
ghost use Rattle.hyd_net.specs.Sound.{IsSound};
ghost use Rattle.hyd_spec.specs.ProgramTypes.{Tank, VolumePoint};
ghost use Rattle.hyd_spec.specs.Tank.{Curve, walls_of, carried_level};
ghost use Rattle.hyd_spec_witnesses.specs.MiddleCandidate.{halves, stock_below};
ghost use Rattle.hyd_laws_at_scale.specs.Scales.{parts_of};
ghost use Rattle.hyd_stocks_at_scale.specs.Motions.{IsSmallStock, stock_of, content_limit, inflow_limit};

use crate::kept_volumes::kept_volumes;
use crate::volumes::volume_below;
use hyd_laws_at_scale::Scale;
use hyd_net::Project;
use hyd_stocks_at_scale::{Stock, carried_level};
use hyd_tank::tank_at;

/// The scale of the middle candidate: halves of ticks.
pub fn halves() -> Scale
    ensures { parts_of result ≡ halves }
{
    Scale { power: 1 }
}

// The carried level, rounded down.
fn level_below(project: &Project, tank: u32, stock: Stock, inflow: i128, seconds: u32) -> i128
    requires sound { IsSound project.now }
    requires tank { tank < length project.now.tanks.list }
    requires stock { IsSmallStock stock }
    requires inflow { unsigned_abs inflow ≤ inflow_limit }
    ensures value { (each : Tank) → slice_get project.now.tanks.list tank ≡ Some each
        → result ≡ floor (carried_level halves (walls_of project.now each) each (stock_of stock) inflow seconds) }
    ensures small { unsigned_abs result ≤ content_limit }
{
    carried_level(project, tank, halves(), stock, inflow, seconds).whole
}

// The volume of a tank with a volume curve, rounded down, and the level that goes with it, rounded down too.
fn below_on_curve(project: &Project, tank: u32, stock: Stock, inflow: i128, seconds: u32) -> Stock
    requires sound { IsSound project.now }
    requires tank { tank < length project.now.tanks.list }
    requires stock { IsSmallStock stock }
    requires inflow { unsigned_abs inflow ≤ inflow_limit }
    ensures value { (each : Tank) (points : List VolumePoint) → slice_get project.now.tanks.list tank ≡ Some each
        → walls_of project.now each ≡ Curve points
        → stock_of result ≡ stock_below (Curve points) each (stock_of stock) inflow seconds }
    ensures small { IsSmallStock result }
{
    let volume = volume_below(kept_volumes(project, tank), stock, inflow, seconds);
    let filled = Stock { level: 0, volume };
    Stock {
        level: level_below(project, tank, filled, 0, 0),
        volume,
    }
}

/// The stock of a tank after so many seconds of a constant inflow, in halves of ticks and flow ticks: the content held
/// within its bounds and rounded down and, of a tank with a volume curve, the level that goes with that, rounded down.
/// The network is sound. (EPANET 2.2 User Manual, chapter 3, tanks and curves.)
pub fn stock_below(project: &Project, tank: u32, stock: Stock, inflow: i128, seconds: u32) -> Stock
    requires sound { IsSound project.now }
    requires tank { tank < length project.now.tanks.list }
    requires stock { IsSmallStock stock }
    requires inflow { unsigned_abs inflow ≤ inflow_limit }
    ensures value { (each : Tank) → slice_get project.now.tanks.list tank ≡ Some each
        → stock_of result ≡ stock_below (walls_of project.now each) each (stock_of stock) inflow seconds }
    ensures small { IsSmallStock result }
{
    match tank_at(project, tank).shape {
        None => Stock {
            level: level_below(project, tank, stock, inflow, seconds),
            volume: 0,
        },
        Some(_) => below_on_curve(project, tank, stock, inflow, seconds),
    }
}
