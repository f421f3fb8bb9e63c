//! Stocks of tanks with and without a volume curve: with which a run begins, what they become after some seconds of a
//! constant inflow, and when they reach a target level (EPANET 2.2 User Manual, chapter 3, tanks and curves).
#![tactic(auto)]

ghost use Rattle.std.specs.Prelude.{◌≡◌, ◌*◌, ◌^◌, ◌<◌, ◌≤◌, unsigned_abs, ℕ, ℤ, length, slice_get, Some};
ghost use Rattle.hyd_net.specs.NumberRanges.{Lies, head_limit};
ghost use Rattle.hyd_net.specs.Sound.{IsSound};
ghost use Rattle.hyd_spec.specs.ProgramTypes.{Tank};
ghost use Rattle.hyd_spec.specs.Tank.{Stock as OneStock, shape_points, walls_of, has_reached, carried_level};
ghost use Rattle.hyd_spec.specs.Tank.{IsNextStock};
ghost use Rattle.hyd_spec_certificates.specs.SpansAsIntervals.{levels_of, flows_of};
ghost use Rattle.hyd_spec_certificates.specs.Interval.{Interval};
ghost use Rattle.hyd_spec_certificates.specs.Stocks.{Stocks, next_stocks, carried_stocks};
ghost use Rattle.hyd_spec_certificates.specs.FirstSeconds.{IsFirstSecond, IsEarliestSecond, IsLatestSecond};
ghost use Rattle.hyd_theorems_on_definitions.specs.LyingInIntervals.{LiesIn, LiesAround, StockLies, IsInside};
ghost use Rattle.hyd_theorems_on_definitions.specs.LyingInIntervals.{AreInside};
ghost use Rattle.hyd_theorems_on_definitions.specs.LyingInIntervals.{HasStock};
ghost use Rattle.hyd_tank.specs.StockIntervals.{initial_stocks, stocks_of, IsInflow, AreHeld};
ghost use Rattle.hyd_tank.specs.StockIntervals.{IsTankOf};

use crate::cylinders::{first_second, level_at, next_level};
use crate::stock_intervals::{Stock, VolumeSpan};
use crate::volume_curve_tanks::{carried_from, first_from, kept_at, next_from};
use hyd_net::{Project, Tank, VolumePoint};
use hyd_num::Span;
use hyd_spec_certificates::LevelSpan;

/// The volume that is kept of a tank without a volume curve.
const NO_VOLUME: VolumeSpan = VolumeSpan { lo: 0, hi: 0 };

/// A tank of a network, counted from 0.
pub fn tank_at(project: &Project, tank: u32) -> Tank
    requires { tank < length project.now.tanks.list }
    ensures { slice_get project.now.tanks.list tank ≡ Some result }
{
    project.tanks.as_slice()[tank as usize]
}

fn points_of(project: &Project, shape: u32) -> &[VolumePoint]
    requires { shape < length project.now.shapes.list }
    ensures { result.now ≡ shape_points project.now shape }
{
    project.shapes.as_slice()[shape as usize].as_slice()
}

fn initial_of(project: &Project, tank: &Tank) -> Stock
    requires tank { IsTankOf project.now tank.now }
    requires initial { Lies tank.now.minimum tank.now.maximum tank.now.initial }
    ensures { stocks_of result ≡ initial_stocks (walls_of project.now tank.now) tank.now }
{
    let level = LevelSpan {
        lo: tank.initial,
        hi: tank.initial,
    };
    match tank.shape {
        None => Stock {
            level,
            volume: NO_VOLUME,
        },
        Some(shape) => {
            let kept = kept_at(tank, points_of(project, shape), tank.initial);
            Stock {
                level,
                volume: VolumeSpan { lo: kept, hi: kept },
            }
        }
    }
}

fn next_of(project: &Project, tank: &Tank, stock: Stock, inflow: Span, seconds: u32) -> Stock
    requires tank { IsTankOf project.now tank.now }
    requires held { AreHeld (walls_of project.now tank.now) tank.now (stocks_of stock) }
    requires inflow { IsInflow inflow }
    requires seconds { seconds ≤ 10 ^ 8 }
    ensures { stocks_of result ≡ next_stocks (walls_of project.now tank.now) tank.now (stocks_of stock)
        (flows_of inflow) seconds }
{
    match tank.shape {
        None => Stock {
            level: next_level(tank, stock.level, inflow, seconds),
            volume: NO_VOLUME,
        },
        Some(shape) => next_from(tank, points_of(project, shape), stock, inflow, seconds),
    }
}

fn carried_of(project: &Project, tank: &Tank, stock: Stock, inflow: Span, seconds: u32) -> Stock
    requires tank { IsTankOf project.now tank.now }
    requires held { AreHeld (walls_of project.now tank.now) tank.now (stocks_of stock) }
    requires inflow { IsInflow inflow }
    requires seconds { seconds ≤ 10 ^ 8 }
    ensures { stocks_of result ≡ carried_stocks (walls_of project.now tank.now) tank.now (stocks_of stock)
        (flows_of inflow) seconds }
{
    match tank.shape {
        None => Stock {
            level: level_at(tank, stock.level, inflow, seconds),
            volume: NO_VOLUME,
        },
        Some(shape) => carried_from(tank, points_of(project, shape), stock, inflow, seconds),
    }
}

fn first_of(
    project: &Project,
    tank: &Tank,
    stock: Stock,
    inflow: Span,
    target: i64,
    rising: bool,
    cap: u32,
) -> (u32, u32)
    requires tank { IsTankOf project.now tank.now }
    requires held { AreHeld (walls_of project.now tank.now) tank.now (stocks_of stock) }
    requires inflow { IsInflow inflow }
    requires target { unsigned_abs target ≤ 2 * head_limit }
    ensures earliest { IsEarliestSecond (walls_of project.now tank.now) tank.now (stocks_of stock) (flows_of inflow)
        target rising cap result.0 }
    ensures latest { IsLatestSecond (walls_of project.now tank.now) tank.now (stocks_of stock) (flows_of inflow)
        target rising cap result.1 }
{
    match tank.shape {
        None => first_second(tank, stock.level, inflow, target, rising, cap),
        Some(shape) => first_from(
            tank,
            points_of(project, shape),
            stock,
            inflow,
            target,
            rising,
            cap,
        ),
    }
}

/// The stock with which a run begins: exactly the tank's initial level and, with a volume curve, exactly the volume at
/// it, cut to whole volume ticks. The network is sound.
pub fn initial_stock(project: &Project, tank: u32) -> Stock
    requires sound { IsSound project.now }
    requires tank { tank < length project.now.tanks.list }
    ensures value { (each : Tank) → slice_get project.now.tanks.list tank ≡ Some each
        → stocks_of result ≡ initial_stocks (walls_of project.now each) each }
    ensures held { (each : Tank) → slice_get project.now.tanks.list tank ≡ Some each
        → AreHeld (walls_of project.now each) each (stocks_of result) }
{
    initial_of(project, &tank_at(project, tank))
}

/// The stock with which the next period begins after so many seconds of an inflow (flow ticks). Each end of the level
/// of a tank without a volume curve, and of the volume of one with a curve, is rounded and moved outward by ten ticks,
/// but not beyond its bounds; an end that is at or beyond a bound before it is moved is the bound. With a curve the
/// levels go with the volumes: where the volume's end is a bound the level's is the minimum or the maximum, any other
/// end is the level at that volume, rounded and moved outward by ten ticks within minimum and maximum. The network is
/// sound.
pub fn next_stock(project: &Project, tank: u32, stock: Stock, inflow: Span, seconds: u32) -> Stock
    requires sound { IsSound project.now }
    requires tank { tank < length project.now.tanks.list }
    requires held { (each : Tank) → slice_get project.now.tanks.list tank ≡ Some each
        → AreHeld (walls_of project.now each) each (stocks_of stock) }
    requires inflow { IsInflow inflow }
    requires seconds { seconds ≤ 10 ^ 8 }
    ensures value { (each : Tank) → slice_get project.now.tanks.list tank ≡ Some each
        → stocks_of result ≡ next_stocks (walls_of project.now each) each (stocks_of stock) (flows_of inflow)
        seconds }
    ensures held { (each : Tank) → slice_get project.now.tanks.list tank ≡ Some each
        → AreHeld (walls_of project.now each) each (stocks_of result) }
    ensures ordered { HasStock (stocks_of stock) → HasStock (stocks_of result) }

    // Each stock with which a next period may begin lies in it, at every scale.
    ensures holds { (each : Tank) → slice_get project.now.tanks.list tank ≡ Some each
        → (S : ℕ) (one : OneStock) (q : ℤ) (next : OneStock) → 0 < S → StockLies S (stocks_of stock) one
        → LiesIn S (flows_of inflow) q
        → IsNextStock S (walls_of project.now each) each one q seconds next → StockLies S (stocks_of result) next }

    // It lies in those of a wider stock under a wider inflow.
    ensures nests { (each : Tank) → slice_get project.now.tanks.list tank ≡ Some each
        → (wider : Stocks) (more : Interval) → AreInside (stocks_of stock) wider → IsInside (flows_of inflow) more
        → AreInside (stocks_of result) (next_stocks (walls_of project.now each) each wider more seconds) }
{
    next_of(project, &tank_at(project, tank), stock, inflow, seconds)
}

/// The stock carried to so many seconds after the start, not moved outward: the levels' ends are the carried levels of
/// the two ends, rounded outward. The network is sound.
pub fn stock_at(project: &Project, tank: u32, stock: Stock, inflow: Span, seconds: u32) -> Stock
    requires sound { IsSound project.now }
    requires tank { tank < length project.now.tanks.list }
    requires held { (each : Tank) → slice_get project.now.tanks.list tank ≡ Some each
        → AreHeld (walls_of project.now each) each (stocks_of stock) }
    requires inflow { IsInflow inflow }
    requires seconds { seconds ≤ 10 ^ 8 }
    ensures value { (each : Tank) → slice_get project.now.tanks.list tank ≡ Some each
        → stocks_of result ≡ carried_stocks (walls_of project.now each) each (stocks_of stock) (flows_of inflow)
        seconds }
    ensures held { (each : Tank) → slice_get project.now.tanks.list tank ≡ Some each
        → AreHeld (walls_of project.now each) each (stocks_of result) }
    ensures ordered { HasStock (stocks_of stock) → HasStock (stocks_of result) }

    // Each carried level lies in it, at every scale.
    ensures holds { (each : Tank) → slice_get project.now.tanks.list tank ≡ Some each
        → (S : ℕ) (one : OneStock) (q : ℤ) → 0 < S → StockLies S (stocks_of stock) one → LiesIn S (flows_of inflow) q
        → LiesAround S (levels_of result.level) (carried_level S (walls_of project.now each) each one q seconds) }

    // It lies in those of a wider stock under a wider inflow.
    ensures nests { (each : Tank) → slice_get project.now.tanks.list tank ≡ Some each
        → (wider : Stocks) (more : Interval) → AreInside (stocks_of stock) wider → IsInside (flows_of inflow) more
        → AreInside (stocks_of result) (carried_stocks (walls_of project.now each) each wider more seconds) }
{
    carried_of(project, &tank_at(project, tank), stock, inflow, seconds)
}

/// The earliest and the latest first second, from 1 on, at which a stock has reached a target level (head ticks above
/// the tank's bottom): risen to it or fallen to it. Each is the cap where it is reached at no second up to the cap. A
/// tank with a volume curve has reached a bound of its levels where its exact volume has reached that of the bound. The
/// network is sound.
pub fn first_stock(
    project: &Project,
    tank: u32,
    stock: Stock,
    inflow: Span,
    target: i64,
    rising: bool,
    cap: u32,
) -> (u32, u32)
    requires sound { IsSound project.now }
    requires tank { tank < length project.now.tanks.list }
    requires held { (each : Tank) → slice_get project.now.tanks.list tank ≡ Some each
        → AreHeld (walls_of project.now each) each (stocks_of stock) }
    requires inflow { IsInflow inflow }
    requires target { unsigned_abs target ≤ 2 * head_limit }
    ensures earliest { (each : Tank) → slice_get project.now.tanks.list tank ≡ Some each
        → IsEarliestSecond (walls_of project.now each) each (stocks_of stock) (flows_of inflow) target rising cap
        result.0 }
    ensures latest { (each : Tank) → slice_get project.now.tanks.list tank ≡ Some each
        → IsLatestSecond (walls_of project.now each) each (stocks_of stock) (flows_of inflow) target rising cap
        result.1 }
    ensures ordered { HasStock (stocks_of stock) → result.0 ≤ result.1 }

    // The first second of each stock of the interval under each inflow lies between them, at every scale.
    ensures holds { (each : Tank) → slice_get project.now.tanks.list tank ≡ Some each
        → (S : ℕ) (one : OneStock) (q : ℤ) (first : ℕ) → 0 < S → StockLies S (stocks_of stock) one
        → LiesIn S (flows_of inflow) q
        → IsFirstSecond (has_reached S (walls_of project.now each) each one q rising target) cap first
        → (result.0 ≤ first) × (first ≤ result.1) }

    // They lie between those of a wider stock under a wider inflow.
    ensures nests { (each : Tank) → slice_get project.now.tanks.list tank ≡ Some each
        → (wider : Stocks) (more : Interval) (sooner later : ℕ) → AreInside (stocks_of stock) wider
        → IsInside (flows_of inflow) more
        → IsEarliestSecond (walls_of project.now each) each wider more target rising cap sooner
        → IsLatestSecond (walls_of project.now each) each wider more target rising cap later
        → (sooner ≤ result.0) × (result.1 ≤ later) }
{
    first_of(
        project,
        &tank_at(project, tank),
        stock,
        inflow,
        target,
        rising,
        cap,
    )
}
