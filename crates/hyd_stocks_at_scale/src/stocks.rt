//! Stocks of tanks with and without a volume curve, at a scale.
#![tactic(auto)]

ghost use Rattle.std.specs.Prelude.{◌≡◌, ◌^◌, ◌<◌, ◌≤◌, length, slice_get, Some, unsigned_abs};
ghost use Rattle.std.specs.Bool.{OnTrue, OnFalse};
ghost use Rattle.hyd_net.specs.Sound.{IsSound};
ghost use Rattle.hyd_spec.specs.ProgramTypes.{Tank};
ghost use Rattle.hyd_spec.specs.Tank.{Stock as OneStock, shape_points, walls_of, has_reached, IsNextStock, Curve};
ghost use Rattle.hyd_spec.specs.Tank.{carried_level};
ghost use Rattle.hyd_stocks_at_scale.specs.ExactLevels.{IsLevel};
ghost use Rattle.hyd_spec_certificates.specs.FirstSeconds.{IsFirstSecond};
ghost use Rattle.std.specs.Prelude.{ℤ};
ghost use Rattle.hyd_tank.specs.StockIntervals.{IsTankOf, IsBasin};
ghost use Rattle.hyd_laws_at_scale.specs.Scales.{parts_of};
ghost use Rattle.hyd_stocks_at_scale.specs.Motions.{Moves, IsMotion, stock_of, IsSmallStock, inflow_limit};
ghost use Rattle.hyd_stocks_at_scale.specs.Targets.{IsSmall, StandsFor};

use crate::carried_levels::{ExactLevel, carried_of_curve, carried_of_cylinder};
use crate::contents::{is_next_content, level_bounds};
use crate::cylinders::target_of_cylinder;
use crate::first_seconds::{Target, first_met, meets};
use crate::motions::{Motion, Stock, motion_of_cylinder, motion_of_volume};
use crate::tanks_with_curve::{is_level_at, target_of_curve, volume_bounds};
use hyd_laws_at_scale::Scale;
use hyd_net::{Project, Tank, VolumePoint};
use hyd_tank::tank_at;

fn points_of(project: &Project, shape: u32) -> &[VolumePoint]
    requires { shape < length project.now.shapes.list }
    ensures { result.now ≡ shape_points project.now shape }
{
    project.shapes.as_slice()[shape as usize].as_slice()
}

// How the content of a tank moves.
fn motion_of(project: &Project, tank: &Tank, stock: Stock, inflow: i128) -> Motion
    requires tank { IsTankOf project.now tank.now }
    requires stock { IsSmallStock stock }
    requires inflow { unsigned_abs inflow ≤ inflow_limit }
    ensures { Moves (walls_of project.now tank.now) (stock_of stock) inflow result }
{
    let _project = project;
    match tank.shape {
        None => motion_of_cylinder(tank, stock, inflow),
        Some(_) => motion_of_volume(stock, inflow),
    }
}

// The content with which a tank has reached a level.
fn target_of(project: &Project, tank: &Tank, scale: Scale, level: i64, rising: bool) -> Target
    requires tank { IsTankOf project.now tank.now }
    requires level { unsigned_abs level ≤ 10 ^ 18 }
    ensures small { IsSmall result }
    ensures stands { StandsFor (parts_of scale) (walls_of project.now tank.now) tank.now level rising result }
{
    match tank.shape {
        None => target_of_cylinder(tank, scale, level),
        Some(shape) => target_of_curve(tank, points_of(project, shape), scale, level, rising),
    }
}

// Whether a next period may begin with a stock, of a tank with a volume curve.
fn is_next_of_curve(
    tank: &Tank,
    points: &[VolumePoint],
    scale: Scale,
    motion: Motion,
    seconds: u32,
    next: Stock,
) -> bool
    requires tank { IsBasin tank.now points.now }
    requires motion { IsMotion motion }
    ensures yes { (stock : OneStock) (q : ℤ) → Moves (Curve points.now) stock q motion
        → OnTrue result (IsNextStock (parts_of scale) (Curve points.now) tank.now stock q seconds (stock_of next)) }
    ensures no { (stock : OneStock) (q : ℤ) → Moves (Curve points.now) stock q motion
        → OnFalse result (IsNextStock (parts_of scale) (Curve points.now) tank.now stock q seconds (stock_of next)
        → ⊥) }
    ensures small { OnTrue result (IsSmallStock next) }
{
    let volumes = volume_bounds(tank, points);
    is_next_content(motion, seconds, scale, volumes, next.volume)
        && is_level_at(tank, points, volumes, scale, next.volume, next.level)
}

// Whether a next period may begin with a stock.
fn is_next_of(
    project: &Project,
    tank: &Tank,
    scale: Scale,
    motion: Motion,
    seconds: u32,
    next: Stock,
) -> bool
    requires tank { IsTankOf project.now tank.now }
    requires motion { IsMotion motion }
    ensures yes { (stock : OneStock) (q : ℤ) → Moves (walls_of project.now tank.now) stock q motion
        → OnTrue result (IsNextStock (parts_of scale) (walls_of project.now tank.now) tank.now stock q seconds
        (stock_of next)) }
    ensures no { (stock : OneStock) (q : ℤ) → Moves (walls_of project.now tank.now) stock q motion
        → OnFalse result (IsNextStock (parts_of scale) (walls_of project.now tank.now) tank.now stock q seconds
        (stock_of next) → ⊥) }
    ensures small { OnTrue result (IsSmallStock next) }
{
    match tank.shape {
        None => next.volume == 0
            && is_next_content(motion, seconds, scale, level_bounds(tank), next.level),
        Some(shape) => is_next_of_curve(
            tank,
            points_of(project, shape),
            scale,
            motion,
            seconds,
            next,
        ),
    }
}

// The carried level of a tank.
fn carried_of(
    project: &Project,
    tank: &Tank,
    scale: Scale,
    motion: Motion,
    seconds: u32,
) -> ExactLevel
    requires tank { IsTankOf project.now tank.now }
    requires motion { IsMotion motion }
    ensures { (stock : OneStock) (q : ℤ) → Moves (walls_of project.now tank.now) stock q motion
        → IsLevel result (carried_level (parts_of scale) (walls_of project.now tank.now) tank.now stock q seconds) }
{
    match tank.shape {
        None => carried_of_cylinder(tank, scale, motion, seconds),
        Some(shape) => carried_of_curve(tank, points_of(project, shape), scale, motion, seconds),
    }
}

/// Whether a next period may begin with a stock, so many seconds after another one, under a constant inflow (parts of
/// a flow tick): its content within ten ticks of the exact one and within its bounds, or at a bound that the exact one
/// has reached, and with a volume curve its level so with its volume. The network is sound. (EPANET 2.2 User Manual,
/// chapter 3, tanks.)
pub fn is_next_stock(
    project: &Project,
    tank: u32,
    scale: Scale,
    stock: Stock,
    inflow: i128,
    seconds: u32,
    next: Stock,
) -> bool
    requires sound { IsSound project.now }
    requires tank { tank < length project.now.tanks.list }
    requires stock { IsSmallStock stock }
    requires inflow { unsigned_abs inflow ≤ inflow_limit }
    ensures yes { (each : Tank) → slice_get project.now.tanks.list tank ≡ Some each
        → OnTrue result (IsNextStock (parts_of scale) (walls_of project.now each) each (stock_of stock) inflow seconds
        (stock_of next)) }
    ensures no { (each : Tank) → slice_get project.now.tanks.list tank ≡ Some each
        → OnFalse result (IsNextStock (parts_of scale) (walls_of project.now each) each (stock_of stock) inflow seconds
        (stock_of next) → ⊥) }

    // It is a stock of which the one after it can be asked.
    ensures small { OnTrue result (IsSmallStock next) }
{
    let tank = tank_at(project, tank);
    let motion = motion_of(project, &tank, stock, inflow);
    is_next_of(project, &tank, scale, motion, seconds, next)
}

/// Whether a stock has reached a target level (head ticks above the tank's bottom) after so many seconds of a constant
/// inflow (parts of a flow tick): risen to it or fallen to it. A tank with a volume curve has reached a bound of its
/// levels where its exact volume has reached that of the bound. The network is sound.
pub fn has_reached(
    project: &Project,
    tank: u32,
    scale: Scale,
    stock: Stock,
    inflow: i128,
    target: i64,
    rising: bool,
    seconds: u32,
) -> bool
    requires sound { IsSound project.now }
    requires tank { tank < length project.now.tanks.list }
    requires stock { IsSmallStock stock }
    requires inflow { unsigned_abs inflow ≤ inflow_limit }
    requires target { unsigned_abs target ≤ 10 ^ 18 }
    ensures { (each : Tank) → slice_get project.now.tanks.list tank ≡ Some each
        → result ≡ has_reached (parts_of scale) (walls_of project.now each) each (stock_of stock) inflow rising target
        seconds }
{
    let tank = tank_at(project, tank);
    let motion = motion_of(project, &tank, stock, inflow);
    let content = target_of(project, &tank, scale, target, rising);
    meets(motion, content, rising, seconds)
}

/// The first second, from 1 on, at which a stock has reached a target level, or the cap where none up to the cap does;
/// as `has_reached`.
pub fn first_second(
    project: &Project,
    tank: u32,
    scale: Scale,
    stock: Stock,
    inflow: i128,
    target: i64,
    rising: bool,
    cap: u32,
) -> u32
    requires sound { IsSound project.now }
    requires tank { tank < length project.now.tanks.list }
    requires stock { IsSmallStock stock }
    requires inflow { unsigned_abs inflow ≤ inflow_limit }
    requires target { unsigned_abs target ≤ 10 ^ 18 }
    ensures { (each : Tank) → slice_get project.now.tanks.list tank ≡ Some each
        → IsFirstSecond (has_reached (parts_of scale) (walls_of project.now each) each (stock_of stock) inflow rising
        target) cap result }
{
    let tank = tank_at(project, tank);
    let motion = motion_of(project, &tank, stock, inflow);
    let content = target_of(project, &tank, scale, target, rising);
    first_met(motion, content, rising, cap)
}

/// The level carried to so many seconds after the start, under a constant inflow (parts of a flow tick): the maximum
/// where the exact content is at least that of the maximum, the minimum where it is at most that of the minimum, else
/// the exact level. The network is sound.
pub fn carried_level(
    project: &Project,
    tank: u32,
    scale: Scale,
    stock: Stock,
    inflow: i128,
    seconds: u32,
) -> ExactLevel
    requires sound { IsSound project.now }
    requires tank { tank < length project.now.tanks.list }
    requires stock { IsSmallStock stock }
    requires inflow { unsigned_abs inflow ≤ inflow_limit }
    ensures { (each : Tank) → slice_get project.now.tanks.list tank ≡ Some each
        → IsLevel result (carried_level (parts_of scale) (walls_of project.now each) each (stock_of stock) inflow
        seconds) }
{
    let tank = tank_at(project, tank);
    let motion = motion_of(project, &tank, stock, inflow);
    carried_of(project, &tank, scale, motion, seconds)
}
