//! Whether a content is that with which a next period begins.
#![tactic(auto)]

ghost use Rattle.std.specs.Prelude.{ℤ, ◌≡◌, ◌*◌, ◌^◌, ◌≤◌, pos, ◌+ℤ◌, ◌-ℤ◌, ◌*ℤ◌, ◌≤ℤ◌, unsigned_abs};
ghost use Rattle.std.specs.Bool.{OnTrue, OnFalse};
ghost use Rattle.hyd_num.specs.Rational.{Rational};
ghost use Rattle.hyd_net.specs.NumberRanges.{Lies};
ghost use Rattle.hyd_spec.specs.Scale.{at_scale, missed_stock_ticks};
ghost use Rattle.hyd_spec.specs.Tank.{IsPlaced, level_bounds};
ghost use Rattle.hyd_tank.specs.StockIntervals.{IsTankOfRange};
ghost use Rattle.hyd_laws_at_scale.specs.Scales.{parts_of};
ghost use Rattle.hyd_stocks_at_scale.specs.Motions.{IsMotion, IsInShares, LiesAs, exact_shares, content_limit};
ghost use Rattle.hyd_stocks_at_scale.specs.Contents.{bounds_of, AreBounds, IsNearBy};

use crate::motions::{Motion, in_shares, shares_after};
use hyd_laws_at_scale::Scale;
use hyd_net::Tank;
use hyd_spec::MISSED_STOCK_TICKS;

/// The least and the most that a level or a volume may be, in ticks.
#[derive(Clone, Copy, Drop)]
pub(crate) struct Bounds {
    pub least: i64,
    pub most: i64,
}

/// The least and the greatest level of a tank.
pub(crate) fn level_bounds(tank: &Tank) -> Bounds
    requires { IsTankOfRange tank.now }
    ensures value { bounds_of result ≡ level_bounds tank.now }
    ensures range { AreBounds result }
{
    Bounds {
        least: tank.minimum,
        most: tank.maximum,
    }
}

/// A level or a volume in parts of a tick.
pub(crate) fn in_parts(scale: Scale, ticks: i64) -> i128
    requires { unsigned_abs ticks ≤ 10 ^ 18 }
    ensures value { result ≡ at_scale (parts_of scale) ticks }
    ensures small { unsigned_abs result ≤ 1024 * 10 ^ 18 }
{
    scale.in_parts(i128::from(ticks))
}

/// What a next level or volume may miss, in parts of a tick.
pub(crate) fn missed(scale: Scale) -> i128
    ensures value { result ≡ at_scale (parts_of scale) (pos missed_stock_ticks) }
    ensures small { Lies (pos 0) (pos 10240) result }
{
    in_parts(scale, MISSED_STOCK_TICKS)
}

/// Whether two numbers are one.
pub(crate) fn is_same(a: i128, b: i128) -> bool
    ensures yes { OnTrue result (a ≡ b) }
    ensures no { OnFalse result (a ≡ b → ⊥) }
{
    a == b
}

/// Whether a number lies from one to another, both included.
pub(crate) fn is_within(number: i128, from: i128, to: i128) -> bool
    ensures yes { OnTrue result (Lies from to number) }
    ensures no { OnFalse result (Lies from to number → ⊥) }
{
    from <= number && number <= to
}

// Whether a content lies near so many shares.
fn is_near(shares: i128, breadth: i128, scale: Scale, next: i128) -> bool
    requires breadth { Lies (pos 1) (pos (3 * 10 ^ 16)) breadth }
    requires next { unsigned_abs next ≤ 1024 * 10 ^ 18 }
    ensures yes { (exact : ℤ) → LiesAs exact shares
        → OnTrue result (IsNearBy (parts_of scale) breadth next exact) }
    ensures no { (exact : ℤ) → LiesAs exact shares
        → OnFalse result (IsNearBy (parts_of scale) breadth next exact → ⊥) }
{
    let missed = missed(scale);
    let least = in_shares(breadth, next - missed);
    let most = in_shares(breadth, next + missed);
    is_within(shares, least, most)
}

/// Whether a next period may begin with a content: the most where the exact content is at least that, the least where
/// it is at most that, any that is near it and within them otherwise.
pub(crate) fn is_next_content(
    motion: Motion,
    seconds: u32,
    scale: Scale,
    bounds: Bounds,
    next: i128,
) -> bool
    requires motion { IsMotion motion }
    requires bounds { AreBounds bounds }
    ensures yes { (x : Rational) → IsInShares motion.breadth (exact_shares motion seconds) x
        → OnTrue result (IsPlaced (parts_of scale) (bounds_of bounds) (bounds_of bounds) x x next) }
    ensures no { (x : Rational) → IsInShares motion.breadth (exact_shares motion seconds) x
        → OnFalse result (IsPlaced (parts_of scale) (bounds_of bounds) (bounds_of bounds) x x next → ⊥) }
    ensures small { OnTrue result (unsigned_abs next ≤ content_limit) }
{
    let shares = shares_after(motion, seconds);
    let least = in_parts(scale, bounds.least);
    let most = in_parts(scale, bounds.most);
    if shares >= in_shares(motion.breadth, most) {
        return is_same(next, most);
    }
    if shares <= in_shares(motion.breadth, least) {
        return is_same(next, least);
    }
    if next < least {
        return false;
    }
    if next > most {
        return false;
    }
    is_near(shares, motion.breadth, scale, next)
}
