//! Tanks with a volume curve at a scale: their bounds as volumes, target levels as volumes, and the levels that go with
//! volumes.
#![tactic(auto)]

ghost use Rattle.std.specs.Prelude.{◌≡◌, ◌*◌, ◌-◌, ◌^◌, ◌<◌, ◌≤◌, pos, ◌+ℤ◌, ◌-ℤ◌, ◌*ℤ◌, ◌≤ℤ◌, unsigned_abs, length};
ghost use Rattle.std.specs.Prelude.{true, false};
ghost use Rattle.std.specs.List.{HoldsAt};
ghost use Rattle.std.specs.Int.{int_max, int_min};
ghost use Rattle.std.specs.Bool.{OnTrue, OnFalse};
ghost use Rattle.hyd_net.specs.NumberRanges.{Lies};
ghost use Rattle.hyd_net.specs.Curves.{volume_knots, value_at};
ghost use Rattle.hyd_spec.specs.ProgramTypes.{VolumePoint};
ghost use Rattle.hyd_spec.specs.Tank.{Curve, IsLevelAt, IsNear, placed};
ghost use Rattle.hyd_tank.specs.StockIntervals.{IsBasin};
ghost use Rattle.hyd_laws_at_scale.specs.Scales.{parts_of};
ghost use Rattle.hyd_stocks_at_scale.specs.Contents.{bounds_of, AreBounds, AreVolumes};
ghost use Rattle.hyd_stocks_at_scale.specs.Motions.{content_limit};
ghost use Rattle.hyd_stocks_at_scale.specs.Targets.{IsSmall, StandsFor};
ghost use Rattle.hyd_stocks_at_scale.specs.VolumeCurves.{value_of, IsMixed, IsAtLeast, IsAtMost};

use crate::contents::{Bounds, in_parts, is_same, is_within, level_bounds, missed};
use crate::first_seconds::Target;
use crate::motions::{SHARES, in_shares};
use crate::volume_curve::{Known, Mixed, value_at};
use hyd_laws_at_scale::Scale;
use hyd_net::{Tank, VolumePoint};

fn volume_at(tank: &Tank, points: &[VolumePoint], level: i64) -> Mixed
    requires tank { IsBasin tank.now points.now }
    requires level { Lies tank.now.minimum tank.now.maximum level }
    ensures value { value_of result ≡ value_at 1 (volume_knots points.now) level }
    ensures range { IsMixed result }
    ensures at_least { HoldsAt (λ (p : VolumePoint). IsAtLeast 1 p.volume result) points.now 0 }
    ensures at_most { HoldsAt (λ (p : VolumePoint). IsAtMost 1 p.volume result) points.now (length points.now - 1) }
{
    value_at(points, Known::Level, 1, i128::from(level))
}

/// The volumes at a tank's minimum and maximum, cut to whole volume ticks.
pub(crate) fn volume_bounds(tank: &Tank, points: &[VolumePoint]) -> Bounds
    requires tank { IsBasin tank.now points.now }
    ensures { AreVolumes tank.now points.now result }
{
    let least = volume_at(tank, points, tank.minimum).floor_of(1);
    let most = volume_at(tank, points, tank.maximum).floor_of(1);
    Bounds {
        least: least as i64,
        most: most as i64,
    }
}

/// How many shares a tick of volume has.
pub(crate) fn shares_of_tick(scale: Scale) -> u32
    ensures { result ≡ 864 * parts_of scale }
{
    864 * scale.parts()
}

/// A number of ticks in shares of a part of a tick, of which 864 make one.
pub(crate) fn volume_in_shares(scale: Scale, ticks: i64) -> i128
    requires { unsigned_abs ticks ≤ 10 ^ 18 }
    ensures value { result ≡ pos 864 *ℤ (pos (parts_of scale) *ℤ ticks) }
    ensures small { unsigned_abs result ≤ 10 ^ 24 }
{
    in_shares(SHARES, in_parts(scale, ticks))
}

/// The volume with which a rising tank has reached a level: that at the level, but at most that of the maximum.
pub(crate) fn risen_target(
    tank: &Tank,
    points: &[VolumePoint],
    volumes: Bounds,
    scale: Scale,
    level: i64,
) -> Target
    requires tank { IsBasin tank.now points.now }
    requires volumes { AreVolumes tank.now points.now volumes }
    ensures small { IsSmall result }
    ensures stands { StandsFor (parts_of scale) (Curve points.now) tank.now level true result }
{
    if level <= tank.minimum {
        return Target::Always;
    }
    if level > tank.maximum {
        return Target::Never;
    }
    let shares = volume_at(tank, points, level).ceiling_of(shares_of_tick(scale));
    Target::Shares(shares.min(volume_in_shares(scale, volumes.most)))
}

/// The volume with which a falling tank has reached a level: that at the level, but less than that of the maximum, and
/// that of the minimum, which is cut, at the minimum.
pub(crate) fn fallen_target(
    tank: &Tank,
    points: &[VolumePoint],
    volumes: Bounds,
    scale: Scale,
    level: i64,
) -> Target
    requires tank { IsBasin tank.now points.now }
    requires volumes { AreVolumes tank.now points.now volumes }
    ensures small { IsSmall result }
    ensures stands { StandsFor (parts_of scale) (Curve points.now) tank.now level false result }
{
    if level >= tank.maximum {
        return Target::Always;
    }
    if level < tank.minimum {
        return Target::Never;
    }
    if level == tank.minimum {
        return Target::Shares(volume_in_shares(scale, volumes.least));
    }
    let shares = volume_at(tank, points, level).floor_of(shares_of_tick(scale));
    Target::Shares(shares.min(volume_in_shares(scale, volumes.most) - 1))
}

/// The volume with which a tank has reached a level.
pub(crate) fn target_of_curve(
    tank: &Tank,
    points: &[VolumePoint],
    scale: Scale,
    level: i64,
    rising: bool,
) -> Target
    requires tank { IsBasin tank.now points.now }
    ensures small { IsSmall result }
    ensures stands { StandsFor (parts_of scale) (Curve points.now) tank.now level rising result }
{
    let volumes = volume_bounds(tank, points);
    if rising {
        risen_target(tank, points, volumes, scale, level)
    } else {
        fallen_target(tank, points, volumes, scale, level)
    }
}

// A number held from a least to a greatest one.
fn held(number: i128, least: i128, most: i128) -> i128
    requires most { unsigned_abs most ≤ 1024 * 10 ^ 18 }
    requires least { unsigned_abs least ≤ 1024 * 10 ^ 18 }
    ensures value { result ≡ int_min (int_max number least) most }
    ensures small { unsigned_abs result ≤ 1024 * 10 ^ 18 }
{
    number.max(least).min(most)
}

// Whether a level lies near an exact one that is held within bounds, and within them.
fn is_near_level(exact: Mixed, scale: Scale, levels: Bounds, level: i128) -> bool
    requires exact { IsMixed exact }
    requires levels { AreBounds levels }
    ensures yes { OnTrue result (IsNear (parts_of scale) (bounds_of levels)
        (placed (parts_of scale) (bounds_of levels) (bounds_of levels) (value_of exact) (value_of exact)) level) }
    ensures no { OnFalse result (IsNear (parts_of scale) (bounds_of levels)
        (placed (parts_of scale) (bounds_of levels) (bounds_of levels) (value_of exact) (value_of exact)) level → ⊥) }
    ensures small { OnTrue result (unsigned_abs level ≤ content_limit) }
{
    let least = in_parts(scale, levels.least);
    let most = in_parts(scale, levels.most);
    if level < least {
        return false;
    }
    if level > most {
        return false;
    }
    let missed = missed(scale);
    let low = held(exact.ceiling_of(1), least, most) - missed;
    let high = held(exact.floor_of(1), least, most) + missed;
    is_within(level, low, high)
}

/// Whether a level goes with a volume: the maximum at its volume, the minimum at its own, and any that is near that at
/// the volume and within them otherwise.
pub(crate) fn is_level_at(
    tank: &Tank,
    points: &[VolumePoint],
    volumes: Bounds,
    scale: Scale,
    volume: i128,
    level: i128,
) -> bool
    requires tank { IsBasin tank.now points.now }
    requires volumes { AreVolumes tank.now points.now volumes }
    ensures yes { OnTrue result (IsLevelAt (parts_of scale) points.now tank.now volume level) }
    ensures no { OnFalse result (IsLevelAt (parts_of scale) points.now tank.now volume level → ⊥) }
    ensures small { OnTrue result (unsigned_abs level ≤ content_limit) }
{
    let levels = level_bounds(tank);
    let least = in_parts(scale, levels.least);
    let most = in_parts(scale, levels.most);
    let emptied = in_parts(scale, volumes.least);
    let filled = in_parts(scale, volumes.most);
    if volume >= filled {
        return is_same(level, most);
    }
    if volume <= emptied {
        return is_same(level, least);
    }
    let exact = value_at(points, Known::Volume, scale.parts(), volume);
    is_near_level(exact, scale, levels, level)
}
