//! The ends of a tank's contents, each with the level that goes with it.
#![tactic(auto)]

ghost use Rattle.std.specs.Prelude.{◌≡◌, ◌⊎◌, ℤ, true, false};
ghost use Rattle.std.specs.Int.{int_max, int_min};
ghost use Rattle.hyd_spec.specs.ProgramTypes.{Tank};
ghost use Rattle.hyd_spec.specs.Tank.{Walls, Bounds, content_bounds, level_bounds};
ghost use Rattle.hyd_spec_certificates.specs.Interval.{Interval};
ghost use Rattle.hyd_spec_certificates.specs.SpansAsIntervals.{levels_of};
ghost use Rattle.hyd_spec_open_ends.specs.StocksOverLengths.{hull};
ghost use Rattle.hyd_tank.specs.StockIntervals.{stocks_of, AreHeld};
ghost use Rattle.hyd_theorems_on_definitions.specs.LyingInIntervals.{IsWithin};
ghost use Rattle.hyd_open_stocks.specs.EndsOfContents.{contents_of, levels_with, GoWith, AreOfStocks, AreWithin};
ghost use Rattle.hyd_open_stocks.specs.EndsOfContents.{is_curve};
ghost use Rattle.hyd_open_stocks.specs.EndsOfContents.{lower_with, upper_with, stocks_with, cut_to, arrival_of};

use crate::lengths_and_arrivals::Arrival;
use hyd_spec_certificates::LevelSpan;
use hyd_tank::{Stock, VolumeSpan};

/// The volume that is kept of a tank without a volume curve.
pub(crate) const NO_VOLUME: VolumeSpan = VolumeSpan { lo: 0, hi: 0 };

/// An end of the contents of a tank, in head or volume ticks, and the level that goes with it.
#[derive(Clone, Copy, Drop)]
pub(crate) struct End {
    pub(crate) content: i64,
    pub(crate) level: i64,
}

/// All contents from one to another.
#[derive(Clone, Copy, Drop)]
pub(crate) struct Contents {
    pub(crate) lo: End,
    pub(crate) hi: End,
}

// The end with the lesser content.
fn lesser(a: End, b: End) -> End
    ensures content { result.content ≡ int_min a.content b.content }
    ensures one { (result ≡ a) ⊎ (result ≡ b) }
{
    if b.content < a.content { b } else { a }
}

// The end with the greater content.
fn greater(a: End, b: End) -> End
    ensures content { result.content ≡ int_max a.content b.content }
    ensures one { (result ≡ a) ⊎ (result ≡ b) }
{
    if b.content < a.content { a } else { b }
}

/// From the lesser of the least contents to the greater of the greatest.
pub(crate) fn hull(a: Contents, b: Contents) -> Contents
    ensures contents { contents_of result ≡ hull (contents_of a) (contents_of b) }
    ensures levels { (lower upper : ℤ → ℤ) → GoWith lower upper a → GoWith lower upper b
        → GoWith lower upper result }
    ensures within { (contents levels : Bounds) → AreWithin contents levels a → AreWithin contents levels b
        → AreWithin contents levels result }
{
    Contents {
        lo: lesser(a.lo, b.lo),
        hi: greater(a.hi, b.hi),
    }
}

// What is left where a level has just been reached from below.
fn cut_from_below(all: Contents, once: Contents, later: Contents, not_before: bool) -> Contents
    ensures least { result.lo.content ≡ int_max all.lo.content once.lo.content }
    ensures greatest { not_before ≡ true → result.hi.content ≡ int_min all.hi.content later.hi.content }
    ensures stays { not_before ≡ false → result.hi ≡ all.hi }
    ensures levels { (lower upper : ℤ → ℤ) → GoWith lower upper all → GoWith lower upper once
        → GoWith lower upper later → GoWith lower upper result }
    ensures within { (contents levels : Bounds) → AreWithin contents levels all → AreWithin contents levels once
        → AreWithin contents levels later → AreWithin contents levels result }
{
    Contents {
        lo: greater(all.lo, once.lo),
        hi: if not_before {
            lesser(all.hi, later.hi)
        } else {
            all.hi
        },
    }
}

// What is left where it has been reached from above.
fn cut_from_above(all: Contents, once: Contents, later: Contents, not_before: bool) -> Contents
    ensures least { not_before ≡ true → result.lo.content ≡ int_max all.lo.content later.lo.content }
    ensures stays { not_before ≡ false → result.lo ≡ all.lo }
    ensures greatest { result.hi.content ≡ int_min all.hi.content once.hi.content }
    ensures levels { (lower upper : ℤ → ℤ) → GoWith lower upper all → GoWith lower upper once
        → GoWith lower upper later → GoWith lower upper result }
    ensures within { (contents levels : Bounds) → AreWithin contents levels all → AreWithin contents levels once
        → AreWithin contents levels later → AreWithin contents levels result }
{
    Contents {
        lo: if not_before {
            greater(all.lo, later.lo)
        } else {
            all.lo
        },
        hi: lesser(all.hi, once.hi),
    }
}

/// What a level that has just been reached leaves of contents: `once` are those at which it is met, `later` those a
/// second later.
pub(crate) fn cut(all: Contents, once: Contents, later: Contents, arrival: Arrival) -> Contents
    ensures contents { contents_of result
        ≡ cut_to (arrival_of arrival) (contents_of once) (contents_of later) (contents_of all) }
    ensures levels { (lower upper : ℤ → ℤ) → GoWith lower upper all → GoWith lower upper once
        → GoWith lower upper later → GoWith lower upper result }
    ensures within { (contents levels : Bounds) → AreWithin contents levels all → AreWithin contents levels once
        → AreWithin contents levels later → AreWithin contents levels result }
{
    if arrival.rising {
        cut_from_below(all, once, later, arrival.not_before)
    } else {
        cut_from_above(all, once, later, arrival.not_before)
    }
}

/// Levels as the contents of a cylinder.
pub(crate) fn of_levels(levels: LevelSpan) -> Contents
    ensures contents { contents_of result ≡ levels_of levels }
    ensures levels { levels_with result ≡ levels_of levels }
    ensures within { (bounds : Bounds) → IsWithin bounds (levels_of levels) → AreWithin bounds bounds result }
{
    Contents {
        lo: End {
            content: levels.lo,
            level: levels.lo,
        },
        hi: End {
            content: levels.hi,
            level: levels.hi,
        },
    }
}

/// The levels that are the contents of a cylinder.
pub(crate) fn to_levels(contents: Contents) -> LevelSpan
    ensures { levels_of result ≡ contents_of contents }
{
    LevelSpan {
        lo: contents.lo.content,
        hi: contents.hi.content,
    }
}

/// The contents of a stock: its volumes where the tank has a volume curve, else its levels.
pub(crate) fn of_stock(with_curve: bool, stock: Stock) -> Contents
    ensures value { (walls : Walls) (tank : Tank) (x : Interval) → with_curve ≡ is_curve walls
        → stocks_of stock ≡ stocks_with walls tank x → AreOfStocks walls tank x result }
    ensures within { (walls : Walls) (tank : Tank) → with_curve ≡ is_curve walls
        → AreHeld walls tank (stocks_of stock)
        → AreWithin (content_bounds walls tank) (level_bounds tank) result }
{
    if !with_curve {
        return of_levels(stock.level);
    }
    Contents {
        lo: End {
            content: stock.volume.lo,
            level: stock.level.lo,
        },
        hi: End {
            content: stock.volume.hi,
            level: stock.level.hi,
        },
    }
}

/// The stock of contents.
pub(crate) fn to_stock(with_curve: bool, contents: Contents) -> Stock
    ensures value { (walls : Walls) (tank : Tank) → with_curve ≡ is_curve walls
        → GoWith (lower_with walls tank) (upper_with walls tank) contents
        → stocks_of result ≡ stocks_with walls tank (contents_of contents) }
    ensures held { (walls : Walls) (tank : Tank) → with_curve ≡ is_curve walls
        → AreWithin (content_bounds walls tank) (level_bounds tank) contents
        → AreHeld walls tank (stocks_of result) }
{
    Stock {
        level: LevelSpan {
            lo: contents.lo.level,
            hi: contents.hi.level,
        },
        volume: if with_curve {
            VolumeSpan {
                lo: contents.lo.content,
                hi: contents.hi.content,
            }
        } else {
            NO_VOLUME
        },
    }
}
