//! Tanks with a volume curve: their volumes and levels after some seconds, and when these reach a target.
#![tactic(auto)]

ghost use Rattle.std.specs.Prelude.{◌≡◌, ◌*◌, ◌^◌, ◌<◌, ◌≤◌, pos, ◌+ℤ◌, ◌*ℤ◌, unsigned_abs, ℕ, ◌-◌, length, true};
ghost use Rattle.std.specs.Prelude.{false};
ghost use Rattle.std.specs.List.{HoldsAt};
ghost use Rattle.hyd_spec.specs.ProgramTypes.{VolumePoint};
ghost use Rattle.hyd_net.specs.NumberRanges.{Lies, volume_limit};
ghost use Rattle.hyd_net.specs.Curves.{volume_knots, value_at};
ghost use Rattle.hyd_spec.specs.Scale.{missed_stock_ticks};
ghost use Rattle.hyd_spec.specs.Tank.{Curve, kept_volume, level_bounds, content_bounds};
ghost use Rattle.hyd_spec_certificates.specs.SpansAsIntervals.{flows_of};
ghost use Rattle.hyd_spec_certificates.specs.Stocks.{lower_level, upper_level};
ghost use Rattle.hyd_spec_certificates.specs.Stocks.{next_stocks, carried_stocks};
ghost use Rattle.hyd_spec_certificates.specs.FirstSeconds.{IsEarliestSecond, IsLatestSecond};
ghost use Rattle.hyd_theorems_on_definitions.specs.LyingInIntervals.{IsWithin};
ghost use Rattle.hyd_tank.specs.Contents.{bounds_of, AreBounds, held_in};
ghost use Rattle.hyd_tank.specs.CurveByLevelOrVolume.{value_of, IsMixed, IsAtLeast, IsAtMost};
ghost use Rattle.hyd_tank.specs.StockIntervals.{volumes_of, stocks_of, IsInflow, IsBasin};
ghost use Rattle.hyd_tank.specs.Targets.{AreVolumes, IsSmall, IsFirstMet, StandsFor};

use crate::contents_of_tanks::{
    Bounds, Motion, bound_at, held, held_after, in_parts, lower_content, moved_down, moved_up,
    upper_content,
};
use crate::cylinders::{WIDENING, level_bounds};
use crate::first_second_at_target::{Target, first_meeting};
use crate::stock_intervals::{Stock, VolumeSpan};
use crate::volume_curve::{Known, Mixed, value_at};
use hyd_net::{Tank, VolumePoint};
use hyd_num::Span;
use hyd_spec_certificates::LevelSpan;

/// Parts of a volume tick: a flow tick for a second is one of them.
const PARTS: u32 = 864;

fn volume_at(tank: &Tank, points: &[VolumePoint], level: i64) -> Mixed
    requires tank { IsBasin tank.now points.now }
    requires level { Lies tank.now.minimum tank.now.maximum level }
    ensures value { value_of result ≡ value_at 1 (volume_knots points.now) level }
    ensures small { (times : ℕ) → times ≤ 864 → IsMixed times result }
    ensures at_least { HoldsAt (λ (p : VolumePoint). IsAtLeast p.volume result) points.now 0 }
    ensures at_most { HoldsAt (λ (p : VolumePoint). IsAtMost p.volume result) points.now (length points.now - 1) }
{
    value_at(points, Known::Level, 1, i128::from(level))
}

/// The volume that is kept at a level between minimum and maximum: that of the curve, cut to whole volume ticks.
pub(crate) fn kept_at(tank: &Tank, points: &[VolumePoint], level: i64) -> i64
    requires tank { IsBasin tank.now points.now }
    requires level { Lies tank.now.minimum tank.now.maximum level }
    ensures { result ≡ kept_volume (Curve points.now) level }
{
    volume_at(tank, points, level).floor_of(1) as i64
}

fn volume_bounds(tank: &Tank, points: &[VolumePoint]) -> Bounds
    requires tank { IsBasin tank.now points.now }
    ensures { AreVolumes tank.now points.now result }
{
    let least = volume_at(tank, points, tank.minimum).floor_of(1);
    let most = volume_at(tank, points, tank.maximum).floor_of(1);
    Bounds {
        least: least as i64,
        most: most as i64,
    }
}

// The lower end of the levels that go with a volume of `parts / scale` ticks.
fn lower_level(
    tank: &Tank,
    points: &[VolumePoint],
    volumes: Bounds,
    scale: u32,
    parts: i128,
    widening: i64,
) -> i64
    requires tank { IsBasin tank.now points.now }
    requires volumes { AreVolumes tank.now points.now volumes }
    requires scale { 0 < scale }
    requires scale_range { scale ≤ 864 }
    requires widening { Lies (pos 0) (pos missed_stock_ticks) widening }
    ensures { result ≡ lower_level (Curve points.now) tank.now (record { num = parts; den = scale }) widening }
{
    let levels = level_bounds(tank);
    if let Some(bound) = bound_at(parts, i128::from(scale), volumes, levels) {
        return bound;
    }
    let value = value_at(points, Known::Volume, scale, parts);
    moved_down(held(value.floor_of(1), levels), levels, widening)
}

// Their upper end.
fn upper_level(
    tank: &Tank,
    points: &[VolumePoint],
    volumes: Bounds,
    scale: u32,
    parts: i128,
    widening: i64,
) -> i64
    requires tank { IsBasin tank.now points.now }
    requires volumes { AreVolumes tank.now points.now volumes }
    requires scale { 0 < scale }
    requires scale_range { scale ≤ 864 }
    requires widening { Lies (pos 0) (pos missed_stock_ticks) widening }
    ensures { result ≡ upper_level (Curve points.now) tank.now (record { num = parts; den = scale }) widening }
{
    let levels = level_bounds(tank);
    if let Some(bound) = bound_at(parts, i128::from(scale), volumes, levels) {
        return bound;
    }
    let value = value_at(points, Known::Volume, scale, parts);
    moved_up(held(value.ceiling_of(1), levels), levels, widening)
}

// The least and the greatest volume after some seconds, in parts, held within the bounds.
fn parts_after(volumes: Bounds, volume: VolumeSpan, inflow: Span, seconds: u32) -> (i128, i128)
    requires volumes { AreBounds volumes }
    requires volume { IsWithin (bounds_of volumes) (volumes_of volume) }
    requires seconds { seconds ≤ 10 ^ 8 }
    ensures least { result.0
        ≡ held_in (pos 864) volumes ((pos 864 *ℤ volume.lo) +ℤ (pos seconds *ℤ inflow.lo)) }
    ensures greatest { result.1
        ≡ held_in (pos 864) volumes ((pos 864 *ℤ volume.hi) +ℤ (pos seconds *ℤ inflow.hi)) }
{
    let motion = Motion {
        drive: i128::from(seconds),
        breadth: i128::from(PARTS),
    };
    let least = held_after(motion, volumes, volume.lo, inflow.lo);
    let greatest = held_after(motion, volumes, volume.hi, inflow.hi);
    (least, greatest)
}

/// The stock with which the next period begins.
pub(crate) fn next_from(
    tank: &Tank,
    points: &[VolumePoint],
    stock: Stock,
    inflow: Span,
    seconds: u32,
) -> Stock
    requires tank { IsBasin tank.now points.now }
    requires volume { IsWithin (content_bounds (Curve points.now) tank.now) (volumes_of stock.volume) }
    requires seconds { seconds ≤ 10 ^ 8 }
    ensures { stocks_of result ≡ next_stocks (Curve points.now) tank.now (stocks_of stock) (flows_of inflow) seconds }
{
    let volumes = volume_bounds(tank, points);
    let breadth = i128::from(PARTS);
    let (least, greatest) = parts_after(volumes, stock.volume, inflow, seconds);
    let lo = lower_content(least, breadth, volumes, WIDENING);
    let hi = upper_content(greatest, breadth, volumes, WIDENING);
    Stock {
        level: LevelSpan {
            lo: lower_level(tank, points, volumes, 1, i128::from(lo), WIDENING),
            hi: upper_level(tank, points, volumes, 1, i128::from(hi), WIDENING),
        },
        volume: VolumeSpan { lo, hi },
    }
}

/// The stock carried to some seconds after the start.
pub(crate) fn carried_from(
    tank: &Tank,
    points: &[VolumePoint],
    stock: Stock,
    inflow: Span,
    seconds: u32,
) -> Stock
    requires tank { IsBasin tank.now points.now }
    requires volume { IsWithin (content_bounds (Curve points.now) tank.now) (volumes_of stock.volume) }
    requires seconds { seconds ≤ 10 ^ 8 }
    ensures { stocks_of result ≡ carried_stocks (Curve points.now) tank.now (stocks_of stock) (flows_of inflow)
        seconds }
{
    let volumes = volume_bounds(tank, points);
    let breadth = i128::from(PARTS);
    let (least, greatest) = parts_after(volumes, stock.volume, inflow, seconds);
    Stock {
        level: LevelSpan {
            lo: lower_level(tank, points, volumes, PARTS, least, 0),
            hi: upper_level(tank, points, volumes, PARTS, greatest, 0),
        },
        volume: VolumeSpan {
            lo: lower_content(least, breadth, volumes, 0),
            hi: upper_content(greatest, breadth, volumes, 0),
        },
    }
}

// A target level that is risen to, as a volume. At the maximum's volume the level is the maximum.
fn risen_target(tank: &Tank, points: &[VolumePoint], volumes: Bounds, level: i64) -> Target
    requires tank { IsBasin tank.now points.now }
    requires volumes { AreVolumes tank.now points.now volumes }
    ensures small { IsSmall result }
    ensures meets { StandsFor tank.now points.now level true result }
{
    if level <= tank.minimum {
        return Target::Always;
    }
    if level > tank.maximum {
        return Target::Never;
    }
    let parts = volume_at(tank, points, level).ceiling_of(PARTS);
    Target::Parts(parts.min(in_parts(i128::from(PARTS), volumes.most)))
}

// A target level that is fallen to, as a volume. Below the maximum's volume the level isn't the maximum.
fn fallen_target(tank: &Tank, points: &[VolumePoint], volumes: Bounds, level: i64) -> Target
    requires tank { IsBasin tank.now points.now }
    requires volumes { AreVolumes tank.now points.now volumes }
    ensures small { IsSmall result }
    ensures meets { StandsFor tank.now points.now level false result }
{
    if level >= tank.maximum {
        return Target::Always;
    }
    if level < tank.minimum {
        return Target::Never;
    }
    if level == tank.minimum {
        return Target::Parts(in_parts(i128::from(PARTS), volumes.least));
    }
    let parts = volume_at(tank, points, level).floor_of(PARTS);
    Target::Parts(parts.min(in_parts(i128::from(PARTS), volumes.most) - 1))
}

// The first second at which one volume under one inflow has met a target.
fn first_of(volume: i64, inflow: i128, target: Target, rising: bool, cap: u32) -> u32
    requires volume { Lies (pos 0) (pos volume_limit) volume }
    requires inflow { unsigned_abs inflow ≤ 10 ^ 27 }
    requires target { IsSmall target }
    ensures { IsFirstMet volume inflow target rising cap result }
{
    let start = in_parts(i128::from(PARTS), volume);
    match target {
        Target::Always => cap.min(1),
        Target::Never => cap,
        Target::Parts(parts) if rising => first_meeting(parts - start, inflow, cap),
        Target::Parts(parts) => first_meeting(start - parts, -inflow, cap),
    }
}

/// The earliest and the latest first second at which a stock has reached a target level.
pub(crate) fn first_from(
    tank: &Tank,
    points: &[VolumePoint],
    stock: Stock,
    inflow: Span,
    level: i64,
    rising: bool,
    cap: u32,
) -> (u32, u32)
    requires tank { IsBasin tank.now points.now }
    requires volume { IsWithin (content_bounds (Curve points.now) tank.now) (volumes_of stock.volume) }
    requires inflow { IsInflow inflow }
    ensures earliest { IsEarliestSecond (Curve points.now) tank.now (stocks_of stock) (flows_of inflow) level rising
        cap result.0 }
    ensures latest { IsLatestSecond (Curve points.now) tank.now (stocks_of stock) (flows_of inflow) level rising cap
        result.1 }
{
    let volumes = volume_bounds(tank, points);
    if rising {
        let target = risen_target(tank, points, volumes, level);
        let low = first_of(stock.volume.lo, inflow.lo, target, true, cap);
        let high = first_of(stock.volume.hi, inflow.hi, target, true, cap);
        (high, low)
    } else {
        let target = fallen_target(tank, points, volumes, level);
        let low = first_of(stock.volume.lo, inflow.lo, target, false, cap);
        let high = first_of(stock.volume.hi, inflow.hi, target, false, cap);
        (low, high)
    }
}
