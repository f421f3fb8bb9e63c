//! Tanks without a volume curve: their levels after some seconds, and when these reach a target.
#![tactic(auto)]

ghost use Rattle.std.specs.Prelude.{◌≡◌, ◌*◌, ◌^◌, ◌<◌, ◌≤◌, ◌≤ℤ◌, pos, unsigned_abs, ℕ, ℤ};
ghost use Rattle.hyd_net.specs.NumberRanges.{Lies, head_limit};
ghost use Rattle.hyd_spec.specs.Scale.{missed_stock_ticks};
ghost use Rattle.hyd_spec.specs.Tank.{level_bounds, has_reached, carried_level, IsNextStock};
ghost use Rattle.hyd_spec_certificates.specs.SpansAsIntervals.{levels_of, flows_of};
ghost use Rattle.hyd_spec_certificates.specs.Interval.{Interval};
ghost use Rattle.hyd_spec_certificates.specs.Stocks.{contents_after, next_stocks, carried_levels};
ghost use Rattle.hyd_spec_certificates.specs.FirstSeconds.{IsFirstSecond, IsEarliestSecond, IsLatestSecond};
ghost use Rattle.hyd_theorems_on_definitions.specs.LyingInIntervals.{LiesIn, LiesAround, IsInside, IsWithin};
ghost use Rattle.hyd_tank.specs.Contents.{bounds_of, AreBounds, IsMotion};
ghost use Rattle.hyd_tank.specs.StockIntervals.{stocks_at, with_levels, level_stock, cylinder};
ghost use Rattle.hyd_tank.specs.StockIntervals.{IsInflow};
ghost use Rattle.hyd_tank.specs.StockIntervals.{IsTankOfRange, IsCylinder};

use crate::contents_of_tanks::{
    Bounds, Motion, held_after, in_parts, lower_content, upper_content,
};
use crate::first_second_at_target::first_meeting;
use hyd_net::Tank;
use hyd_num::Span;
use hyd_spec::MISSED_STOCK_TICKS;
use hyd_spec_certificates::LevelSpan;

/// The seconds of a day, which flows are measured by.
const DAY: i128 = 86_400;

/// Head ticks that a flow tick for a day is on 10^-9 square metres.
const RISE: i128 = 1_000_000_000_000_000;

/// What the ends of a level or volume are moved outward by at the end of a period, in ticks.
pub(crate) const WIDENING: i64 = MISSED_STOCK_TICKS;

/// The least and the greatest level of a tank.
pub(crate) fn level_bounds(tank: &Tank) -> Bounds
    requires { IsTankOfRange tank.now }
    ensures value { bounds_of result ≡ level_bounds tank.now }
    ensures range { AreBounds result }
{
    Bounds {
        least: tank.minimum,
        most: tank.maximum,
    }
}

/// Parts of a head tick: a flow tick for a second is 10^15 of them.
fn breadth_of(tank: &Tank) -> i128
    requires { IsCylinder tank.now }
    ensures value { result ≡ pos (86400 * unsigned_abs tank.now.area) }
    ensures range { Lies (pos 1) (pos (9 * 10 ^ 19)) result }
{
    DAY * i128::from(tank.area)
}

fn motion_of(tank: &Tank, seconds: u32) -> Motion
    requires tank { IsCylinder tank.now }
    requires seconds { seconds ≤ 10 ^ 8 }
    ensures breadth { result.breadth ≡ pos (86400 * unsigned_abs tank.now.area) }
    ensures drive { result.drive ≡ pos (seconds * 10 ^ 15) }
    ensures range { IsMotion result }
{
    Motion {
        drive: i128::from(seconds) * RISE,
        breadth: breadth_of(tank),
    }
}

fn levels_after(
    tank: &Tank,
    level: LevelSpan,
    inflow: Span,
    seconds: u32,
    widening: i64,
) -> LevelSpan
    requires tank { IsCylinder tank.now }
    requires level { IsWithin (level_bounds tank.now) (levels_of level) }
    requires seconds { seconds ≤ 10 ^ 8 }
    requires widening { Lies (pos 0) (pos missed_stock_ticks) widening }
    ensures { levels_of result
        ≡ contents_after widening (cylinder tank.now) tank.now (stocks_at level) (flows_of inflow) seconds }
{
    let motion = motion_of(tank, seconds);
    let bounds = level_bounds(tank);
    let least = held_after(motion, bounds, level.lo, inflow.lo);
    let greatest = held_after(motion, bounds, level.hi, inflow.hi);
    LevelSpan {
        lo: lower_content(least, motion.breadth, bounds, widening),
        hi: upper_content(greatest, motion.breadth, bounds, widening),
    }
}

/// The levels with which the next period begins after so many seconds of an inflow (flow ticks): each end rounded and
/// moved outward by ten ticks, but not beyond the tank's minimum and maximum; an end that is at or beyond one of these
/// before it is moved is that one. The tank is one without a volume curve, of a sound network. (EPANET 2.2 User Manual,
/// chapter 3, tanks.)
pub fn next_level(tank: &Tank, level: LevelSpan, inflow: Span, seconds: u32) -> LevelSpan
    requires tank { IsCylinder tank.now }
    requires level { IsWithin (level_bounds tank.now) (levels_of level) }
    requires inflow { IsInflow inflow }
    requires seconds { seconds ≤ 10 ^ 8 }
    ensures value { levels_of result
        ≡ (next_stocks (cylinder tank.now) tank.now (stocks_at level) (flows_of inflow) seconds).level }
    ensures bounded { IsWithin (level_bounds tank.now) (levels_of result) }
    ensures ordered { level.lo ≤ℤ level.hi → result.lo ≤ℤ result.hi }

    // Each level with which a next period may begin lies in it, at every scale.
    ensures holds { (S : ℕ) (z q next : ℤ) → 0 < S → LiesIn S (levels_of level) z → LiesIn S (flows_of inflow) q
        → IsNextStock S (cylinder tank.now) tank.now (level_stock z) q seconds (level_stock next)
        → LiesIn S (levels_of result) next }

    // It lies in those of wider levels under a wider inflow.
    ensures nests { (wider more : Interval) → IsInside (levels_of level) wider → IsInside (flows_of inflow) more
        → IsInside (levels_of result)
        (next_stocks (cylinder tank.now) tank.now (with_levels wider) more seconds).level }
{
    levels_after(tank, level, inflow, seconds, WIDENING)
}

/// The levels carried to so many seconds after the start: as `next_level`, but not moved outward.
pub fn level_at(tank: &Tank, level: LevelSpan, inflow: Span, seconds: u32) -> LevelSpan
    requires tank { IsCylinder tank.now }
    requires level { IsWithin (level_bounds tank.now) (levels_of level) }
    requires inflow { IsInflow inflow }
    requires seconds { seconds ≤ 10 ^ 8 }
    ensures value { levels_of result ≡ carried_levels (cylinder tank.now) tank.now (stocks_at level)
        (flows_of inflow) seconds }
    ensures bounded { IsWithin (level_bounds tank.now) (levels_of result) }
    ensures ordered { level.lo ≤ℤ level.hi → result.lo ≤ℤ result.hi }

    // Each carried level lies in it, at every scale.
    ensures holds { (S : ℕ) (z q : ℤ) → 0 < S → LiesIn S (levels_of level) z → LiesIn S (flows_of inflow) q
        → LiesAround S (levels_of result) (carried_level S (cylinder tank.now) tank.now (level_stock z) q seconds) }

    // It lies in those of wider levels under a wider inflow.
    ensures nests { (wider more : Interval) → IsInside (levels_of level) wider → IsInside (flows_of inflow) more
        → IsInside (levels_of result) (carried_levels (cylinder tank.now) tank.now (with_levels wider) more seconds) }
{
    levels_after(tank, level, inflow, seconds, 0)
}

// The first second at which one level under one inflow has reached a target.
fn first_from(tank: &Tank, level: i64, inflow: i128, target: i64, rising: bool, cap: u32) -> u32
    requires tank { IsCylinder tank.now }
    requires level { Lies tank.now.minimum tank.now.maximum level }
    requires inflow { unsigned_abs inflow ≤ 10 ^ 27 }
    requires target { unsigned_abs target ≤ 2 * head_limit }
    ensures { IsFirstSecond (has_reached 1 (cylinder tank.now) tank.now (level_stock level) inflow rising target) cap
        result }
{
    let breadth = breadth_of(tank);
    if rising {
        first_meeting(
            in_parts(breadth, target - level),
            inflow.saturating_mul(RISE),
            cap,
        )
    } else {
        first_meeting(
            in_parts(breadth, level - target),
            (-inflow).saturating_mul(RISE),
            cap,
        )
    }
}

// The first seconds of both ends of a level interval: the earlier, and the later.
fn first_seconds(
    tank: &Tank,
    level: LevelSpan,
    inflow: Span,
    target: i64,
    rising: bool,
    cap: u32,
) -> (u32, u32)
    requires tank { IsCylinder tank.now }
    requires level { IsWithin (level_bounds tank.now) (levels_of level) }
    requires inflow { IsInflow inflow }
    requires target { unsigned_abs target ≤ 2 * head_limit }
    ensures earliest { IsEarliestSecond (cylinder tank.now) tank.now (stocks_at level) (flows_of inflow) target
        rising cap result.0 }
    ensures latest { IsLatestSecond (cylinder tank.now) tank.now (stocks_at level) (flows_of inflow) target rising
        cap result.1 }
{
    let low = first_from(tank, level.lo, inflow.lo, target, rising, cap);
    let high = first_from(tank, level.hi, inflow.hi, target, rising, cap);
    if rising { (high, low) } else { (low, high) }
}

/// The earliest and the latest first second, from 1 on, at which a level of the interval has reached a target (head
/// ticks): risen to it or fallen to it. Each is the cap where it is reached at no second up to the cap. The tank is one
/// without a volume curve, of a sound network.
pub fn first_second(
    tank: &Tank,
    level: LevelSpan,
    inflow: Span,
    target: i64,
    rising: bool,
    cap: u32,
) -> (u32, u32)
    requires tank { IsCylinder tank.now }
    requires level { IsWithin (level_bounds tank.now) (levels_of level) }
    requires inflow { IsInflow inflow }
    requires target { unsigned_abs target ≤ 2 * head_limit }
    ensures earliest { IsEarliestSecond (cylinder tank.now) tank.now (stocks_at level) (flows_of inflow) target
        rising cap result.0 }
    ensures latest { IsLatestSecond (cylinder tank.now) tank.now (stocks_at level) (flows_of inflow) target rising
        cap result.1 }
    ensures ordered { level.lo ≤ℤ level.hi → result.0 ≤ result.1 }

    // The first second of each level of the interval under each inflow lies between them, at every scale.
    ensures holds { (S : ℕ) (z q : ℤ) (first : ℕ) → 0 < S → LiesIn S (levels_of level) z
        → LiesIn S (flows_of inflow) q
        → IsFirstSecond (has_reached S (cylinder tank.now) tank.now (level_stock z) q rising target) cap first
        → (result.0 ≤ first) × (first ≤ result.1) }

    // They lie between those of wider levels under a wider inflow.
    ensures nests { (wider more : Interval) (sooner later : ℕ) → IsInside (levels_of level) wider
        → IsInside (flows_of inflow) more
        → IsEarliestSecond (cylinder tank.now) tank.now (with_levels wider) more target rising cap sooner
        → IsLatestSecond (cylinder tank.now) tank.now (with_levels wider) more target rising cap later
        → (sooner ≤ result.0) × (result.1 ≤ later) }
{
    first_seconds(tank, level, inflow, target, rising, cap)
}
