//! Levels of tanks, one by one, and whether a level control holds on one.

ghost use Rattle.std.specs.Prelude.{◌≡◌, ◌+◌, ◌<◌, ◌≤◌, [], ◌∷◌, ◌++◌, length, map};
ghost use Rattle.std.specs.Prelude.{slice_index_or};
ghost use Rattle.hyd_spec_certificates.specs.Decided.{control_truth, nowhere};
ghost use Rattle.hyd_spec_certificates.specs.SpansAsIntervals.{levels_of};
ghost use Rattle.hyd_spec_certificates.specs.ThreeValuedLogic.{is_yes};

use hyd_net::List;
use hyd_spec_certificates::LevelSpan;

/// Appends levels, for which there is room.
pub fn add_level(levels: &mut List<LevelSpan>, level: LevelSpan)
    requires { 0 < levels.old.spare }
    ensures list { levels.new.list ≡ levels.old.list ++ level ∷ [] }
    ensures spare { levels.old.spare ≤ levels.new.spare + 1 }
{
    levels.push(level).unwrap();
}

/// The levels of a tank, counted from 0.
pub fn level_at(levels: &[LevelSpan], tank: u32) -> LevelSpan
    requires { tank < length levels.now }
    ensures { levels_of result ≡ slice_index_or (map levels_of levels.now) tank nowhere }
{
    levels[tank as usize]
}

/// Whether a level control holds on a whole level interval. ABOVE means at least, and BELOW at most. Levels are in
/// level ticks.
pub fn control_holds(level: &LevelSpan, above: bool, ticks: i64) -> bool
    ensures { result ≡ is_yes (control_truth (levels_of level.now) above ticks) }
{
    if above {
        level.lo >= ticks && level.hi >= ticks
    } else {
        level.lo <= ticks && level.hi <= ticks
    }
}
