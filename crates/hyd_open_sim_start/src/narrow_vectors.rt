//! How narrow vectors are, and level intervals.
#![tactic(auto)]

ghost use Rattle.std.specs.Prelude.{◌≡◌, ◌<◌, ◌≤◌, ◌^◌, ℤ, pos, ◌+ℤ◌, ◌-ℤ◌, ◌*ℤ◌, ◌≤ℤ◌, length, map, true, false};
ghost use Rattle.std.specs.Prelude.{slice_index_or};
ghost use Rattle.hyd_spec.specs.Assignment.{head_at};
ghost use Rattle.hyd_spec.specs.Lists.{Each};
ghost use Rattle.hyd_spec_certificates.specs.SpansAsIntervals.{levels_of};
ghost use Rattle.hyd_spec_certificates.specs.Interval.{width as width_of};
ghost use Rattle.hyd_spec_certificates.specs.Narrow as narrow;
ghost use Rattle.hyd_spec_certificates.specs.Decided.{nowhere};

use hyd_spec_certificates::LevelSpan;

// How far a head of one vector lies above that of another.
fn gap(upper: &[i64], lower: &[i64], j: usize) -> i128
    requires within { j < length upper.now }
    requires each { length lower.now ≡ length upper.now }
    ensures { result ≡ head_at upper.now j -ℤ head_at lower.now j }
{
    i128::from(upper[j]) - i128::from(lower[j])
}

// Whether no head of one vector lies farther above that of another than so many head ticks.
fn are_within(upper: &[i64], lower: &[i64], most: i128) -> bool
    requires { length lower.now ≡ length upper.now }
    ensures close { result ≡ true → Each upper.now (λ j h. (h -ℤ head_at lower.now j) ≤ℤ most) }
    ensures wide { result ≡ false → Each upper.now (λ j h. (h -ℤ head_at lower.now j) ≤ℤ most) → ⊥ }
{
    for j in 0..upper.len() {
        if gap(upper, lower, j) > most {
            return false;
        }
    }
    true
}

// How wide the level interval of a tank is.
fn width_at(levels: &[LevelSpan], tank: usize) -> i128
    requires { tank < length levels.now }
    ensures width { result ≡ width_of (slice_index_or (map levels_of levels.now) tank nowhere) }
    ensures most { result ≤ℤ pos (2 ^ 64) }
    ensures least { (pos 0 -ℤ pos (2 ^ 64)) ≤ℤ result }
{
    i128::from(levels[tank].hi) - i128::from(levels[tank].lo)
}

// How wide the widest of some level intervals is.
fn widest(levels: &[LevelSpan]) -> i128
    ensures widest { result ≡ narrow.widest (map levels_of levels.now) }
    ensures most { result ≤ℤ pos (2 ^ 64) }
    ensures least { pos 0 ≤ℤ result }
{
    let mut widest = 0;
    for tank in 0..levels.len() {
        let behind = levels.len() - 1 - tank;
        widest = width_at(levels, behind).max(widest);
    }
    widest
}

/// Whether no level interval is more than twice as wide as it was before, and a hundredth of a width besides, in head
/// ticks.
pub fn are_steady(before: &[LevelSpan], after: &[LevelSpan], width: i64) -> bool
    requires { length after.now ≡ length before.now }
    ensures steady { result ≡ true → Each (map levels_of after.now) (λ k level.
        (pos 100 *ℤ width_of level)
        ≤ℤ ((pos 200 *ℤ width_of (slice_index_or (map levels_of before.now) k nowhere)) +ℤ width)) }
    ensures grown { result ≡ false → Each (map levels_of after.now) (λ k level.
        (pos 100 *ℤ width_of level)
        ≤ℤ ((pos 200 *ℤ width_of (slice_index_or (map levels_of before.now) k nowhere)) +ℤ width)) → ⊥ }
{
    for tank in 0..after.len() {
        let now = 100 * width_at(after, tank);
        let most = 200 * width_at(before, tank) + i128::from(width);
        if now > most {
            return false;
        }
    }
    true
}

/// Whether no head of one vector lies farther above that of another than a width and the widest of the level intervals
/// at the start, in head ticks.
pub fn are_close(upper: &[i64], lower: &[i64], before: &[LevelSpan], width: i64) -> bool
    requires heads { length lower.now ≡ length upper.now }
    ensures close { result ≡ true → Each upper.now (λ j h. (h -ℤ head_at lower.now j)
        ≤ℤ (width +ℤ narrow.widest (map levels_of before.now))) }
    ensures wide { result ≡ false → Each upper.now (λ j h. (h -ℤ head_at lower.now j)
        ≤ℤ (width +ℤ narrow.widest (map levels_of before.now))) → ⊥ }
{
    let most = i128::from(width) + widest(before);
    are_within(upper, lower, most)
}
