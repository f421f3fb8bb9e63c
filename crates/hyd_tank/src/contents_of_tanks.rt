//! Contents of tanks: the level of a cylinder, the volume of a tank with a curve. After some seconds a content is a
//! whole number of parts of a tick.
#![tactic(auto)]

ghost use Rattle.std.specs.Prelude.{◌≡◌, ◌*◌, ◌^◌, ◌≤◌, pos, ◌+ℤ◌, ◌-ℤ◌, ◌*ℤ◌, ◌≤ℤ◌, unsigned_abs, None, IfSome, ℤ};
ghost use Rattle.std.specs.Int.{int_max, int_min};
ghost use Rattle.hyd_num.specs.Rational.{floor, ceiling};
ghost use Rattle.hyd_net.specs.NumberRanges.{Lies};
ghost use Rattle.hyd_spec.specs.Scale.{missed_stock_ticks};
ghost use Rattle.hyd_spec_certificates.specs.Stocks.{end_of, lower_end, upper_end};
ghost use Rattle.hyd_tank.specs.Contents.{bounds_of, AreBounds, IsMotion, in_ticks, moved, held_in, IsBetween};

/// The least and the most that a level or a volume may be, in ticks.
#[derive(Clone, Copy, Drop)]
pub(crate) struct Bounds {
    pub least: i64,
    pub most: i64,
}

/// How a content grows in some seconds: by `drive / breadth` ticks for each flow tick of inflow.
#[derive(Clone, Copy, Drop)]
pub(crate) struct Motion {
    pub drive: i128,
    pub breadth: i128,
}

/// A number of ticks in parts, of which `breadth` make a tick.
pub(crate) fn in_parts(breadth: i128, ticks: i64) -> i128
    requires breadth { Lies (pos 1) (pos (9 * 10 ^ 19)) breadth }
    requires ticks { unsigned_abs ticks ≤ 10 ^ 18 }
    ensures value { result ≡ breadth *ℤ ticks }
    ensures small { unsigned_abs result ≤ 9 * 10 ^ 37 }
{
    breadth * i128::from(ticks)
}

/// The content that an inflow leads to, in parts, held within its bounds. Where a product would pass 128 bits, the
/// content is beyond them.
pub(crate) fn held_after(motion: Motion, bounds: Bounds, content: i64, inflow: i128) -> i128
    requires motion { IsMotion motion }
    requires bounds { AreBounds bounds }
    requires content { Lies bounds.least bounds.most content }
    ensures { result ≡ held_in motion.breadth bounds (moved motion content inflow).num }
{
    let change = motion.drive.saturating_mul(inflow);
    let least = in_parts(motion.breadth, bounds.least);
    let most = in_parts(motion.breadth, bounds.most);
    in_parts(motion.breadth, content)
        .saturating_add(change)
        .clamp(least, most)
}

/// Where a content is at or beyond a bound of its own, the same bound of a range.
pub(crate) fn bound_at(parts: i128, breadth: i128, bounds: Bounds, range: Bounds) -> Option<i64>
    requires breadth { Lies (pos 1) (pos (9 * 10 ^ 19)) breadth }
    requires bounds { AreBounds bounds }
    ensures bound { IfSome result (λ bound. (inside : ℤ)
        → end_of (bounds_of bounds) (bounds_of range) (in_ticks breadth parts) inside ≡ bound) }
    ensures inside { result ≡ None → (inside : ℤ)
        → end_of (bounds_of bounds) (bounds_of range) (in_ticks breadth parts) inside ≡ inside }
    ensures between { result ≡ None → IsBetween (bounds_of bounds) (in_ticks breadth parts) }
{
    if parts >= in_parts(breadth, bounds.most) {
        return Some(range.most);
    }
    if parts <= in_parts(breadth, bounds.least) {
        return Some(range.least);
    }
    None
}

/// The greatest number of ticks of at most so many parts.
pub(crate) fn floor(parts: i128, breadth: i128) -> i128
    requires { pos 1 ≤ℤ breadth }
    ensures { result ≡ floor (in_ticks breadth parts) }
{
    parts.div_euclid(breadth)
}

/// The least number of ticks of at least so many parts.
pub(crate) fn ceiling(parts: i128, breadth: i128) -> i128
    requires breadth { pos 1 ≤ℤ breadth }
    requires above { pos 0 ≤ℤ parts }
    ensures { result ≡ ceiling (in_ticks breadth parts) }
{
    -(-parts).div_euclid(breadth)
}

/// A number held within bounds.
pub(crate) fn held(number: i128, bounds: Bounds) -> i128
    requires { AreBounds bounds }
    ensures value { result ≡ int_max bounds.least (int_min number bounds.most) }
    ensures within { Lies bounds.least bounds.most result }
{
    number.clamp(i128::from(bounds.least), i128::from(bounds.most))
}

/// A number within bounds, moved down by the widening, but not below them.
pub(crate) fn moved_down(number: i128, bounds: Bounds, widening: i64) -> i64
    requires bounds { AreBounds bounds }
    requires number { Lies bounds.least bounds.most number }
    requires widening { Lies (pos 0) (pos missed_stock_ticks) widening }
    ensures { result ≡ int_max bounds.least (number -ℤ widening) }
{
    i128::from(bounds.least).max(number - i128::from(widening)) as i64
}

/// A number within bounds, moved up by the widening, but not above them.
pub(crate) fn moved_up(number: i128, bounds: Bounds, widening: i64) -> i64
    requires bounds { AreBounds bounds }
    requires number { Lies bounds.least bounds.most number }
    requires widening { Lies (pos 0) (pos missed_stock_ticks) widening }
    ensures { result ≡ int_min bounds.most (number +ℤ widening) }
{
    i128::from(bounds.most).min(number + i128::from(widening)) as i64
}

/// The lower end that goes with a content: rounded down, moved down by the widening and held, or a bound.
pub(crate) fn lower_content(parts: i128, breadth: i128, bounds: Bounds, widening: i64) -> i64
    requires breadth { Lies (pos 1) (pos (9 * 10 ^ 19)) breadth }
    requires bounds { AreBounds bounds }
    requires widening { Lies (pos 0) (pos missed_stock_ticks) widening }
    ensures { result ≡ lower_end (bounds_of bounds) (bounds_of bounds) (in_ticks breadth parts)
        (in_ticks breadth parts) widening }
{
    if let Some(bound) = bound_at(parts, breadth, bounds, bounds) {
        return bound;
    }
    moved_down(floor(parts, breadth), bounds, widening)
}

/// The upper end that goes with a content.
pub(crate) fn upper_content(parts: i128, breadth: i128, bounds: Bounds, widening: i64) -> i64
    requires breadth { Lies (pos 1) (pos (9 * 10 ^ 19)) breadth }
    requires bounds { AreBounds bounds }
    requires widening { Lies (pos 0) (pos missed_stock_ticks) widening }
    ensures { result ≡ upper_end (bounds_of bounds) (bounds_of bounds) (in_ticks breadth parts)
        (in_ticks breadth parts) widening }
{
    if let Some(bound) = bound_at(parts, breadth, bounds, bounds) {
        return bound;
    }
    moved_up(ceiling(parts, breadth), bounds, widening)
}
