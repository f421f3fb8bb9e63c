//! Levels of tanks carried to some seconds after the start of a period: exact values that need not be whole.
#![tactic(auto)]

ghost use Rattle.std.specs.Prelude.{◌≡◌, ◌*◌, ◌+◌, ◌^◌, ◌<◌, ◌≤◌, ℤ, pos, ◌*ℤ◌, ◌≤ℤ◌, unsigned_abs};
ghost use Rattle.hyd_num.specs.Rational.{Rational, whole};
ghost use Rattle.hyd_net.specs.NumberRanges.{Lies};
ghost use Rattle.hyd_spec.specs.ProgramTypes.{VolumePoint};
ghost use Rattle.hyd_spec.specs.Tank.{Stock as OneStock, Curve, carried_level, placed};
ghost use Rattle.hyd_tank.specs.StockIntervals.{IsCylinder, IsBasin, cylinder};
ghost use Rattle.hyd_laws_at_scale.specs.Scales.{parts_of};
ghost use Rattle.hyd_stocks_at_scale.specs.Contents.{bounds_of, AreBounds};
ghost use Rattle.hyd_stocks_at_scale.specs.Motions.{IsMotion, Moves, IsInShares};
ghost use Rattle.hyd_stocks_at_scale.specs.VolumeCurves.{IsMixed};
ghost use Rattle.hyd_stocks_at_scale.specs.ExactLevels.{IsLevel, in_parts_of};

use crate::contents::{Bounds, in_parts, level_bounds};
use crate::motions::{Motion, in_shares, shares_after};
use crate::tanks_with_curve::{shares_of_tick, volume_bounds, volume_in_shares};
use crate::volume_curve::{Known, Mixed, value_at};
use hyd_laws_at_scale::Scale;
use hyd_net::{Tank, VolumePoint};

/// A level that need not be whole, in parts of a head tick: `whole + part / of`, where `part` is less than `of`.
#[derive(Clone, Copy, Drop)]
pub struct ExactLevel {
    pub whole: i128,
    pub part: u128,
    pub of: u128,
}

/// A whole level.
fn whole_level(level: i128) -> ExactLevel
    ensures { IsLevel result (whole level) }
{
    ExactLevel {
        whole: level,
        part: 0,
        of: 1,
    }
}

// A level of so many shares.
fn level_of_shares(shares: i128, breadth: i128) -> ExactLevel
    requires breadth { Lies (pos 1) (pos (3 * 10 ^ 16)) breadth }
    requires shares { pos 0 ≤ℤ shares }
    ensures { (x : Rational) → IsInShares breadth shares x → IsLevel result x }
{
    let of = breadth.unsigned_abs();
    let shares = shares.unsigned_abs();
    ExactLevel {
        whole: (shares / of) as i128,
        part: shares % of,
        of,
    }
}

// A level of shares of which 864 make a part of a tick.
fn level_of_fine(exact: Mixed) -> ExactLevel
    requires exact { IsMixed exact }
    requires whole { pos 0 ≤ℤ exact.whole }
    ensures { IsLevel result (in_parts_of exact) }
{
    let whole = exact.whole.unsigned_abs();
    ExactLevel {
        whole: (whole / 864) as i128,
        part: whole % 864 * exact.of + exact.part,
        of: 864 * exact.of,
    }
}

/// The carried level of a tank without a volume curve.
pub(crate) fn carried_of_cylinder(
    tank: &Tank,
    scale: Scale,
    motion: Motion,
    seconds: u32,
) -> ExactLevel
    requires tank { IsCylinder tank.now }
    requires motion { IsMotion motion }
    ensures { (stock : OneStock) (q : ℤ) → Moves (cylinder tank.now) stock q motion
        → IsLevel result (carried_level (parts_of scale) (cylinder tank.now) tank.now stock q seconds) }
{
    let levels = level_bounds(tank);
    let shares = shares_after(motion, seconds);
    let least = in_parts(scale, levels.least);
    let most = in_parts(scale, levels.most);
    if shares >= in_shares(motion.breadth, most) {
        return whole_level(most);
    }
    if shares <= in_shares(motion.breadth, least) {
        return whole_level(least);
    }
    level_of_shares(shares, motion.breadth)
}

// A level on a curve, held within bounds.
fn held_level(exact: Mixed, scale: Scale, levels: Bounds) -> ExactLevel
    requires exact { IsMixed exact }
    requires levels { AreBounds levels }
    ensures { IsLevel result (placed (parts_of scale) (bounds_of levels) (bounds_of levels) (in_parts_of exact)
        (in_parts_of exact)) }
{
    let least = volume_in_shares(scale, levels.least);
    let most = volume_in_shares(scale, levels.most);
    if exact.whole >= most {
        return whole_level(in_parts(scale, levels.most));
    }
    if exact.whole < least {
        return whole_level(in_parts(scale, levels.least));
    }
    level_of_fine(exact)
}

/// The carried level of a tank with a volume curve.
pub(crate) fn carried_of_curve(
    tank: &Tank,
    points: &[VolumePoint],
    scale: Scale,
    motion: Motion,
    seconds: u32,
) -> ExactLevel
    requires tank { IsBasin tank.now points.now }
    requires motion { IsMotion motion }
    ensures { (stock : OneStock) (q : ℤ) → Moves (Curve points.now) stock q motion
        → IsLevel result (carried_level (parts_of scale) (Curve points.now) tank.now stock q seconds) }
{
    let volumes = volume_bounds(tank, points);
    let levels = level_bounds(tank);
    let shares = shares_after(motion, seconds);
    let emptied = volume_in_shares(scale, volumes.least);
    let filled = volume_in_shares(scale, volumes.most);
    if shares >= filled {
        return whole_level(in_parts(scale, levels.most));
    }
    if shares <= emptied {
        return whole_level(in_parts(scale, levels.least));
    }
    let exact = value_at(points, Known::Volume, shares_of_tick(scale), shares);
    held_level(exact, scale, levels)
}
