//! What level controls keep of the level with which a tank's next period begins.
#![tactic(auto)]

ghost use Rattle.std.specs.Prelude.{◌≡◌};
ghost use Rattle.hyd_spec_certificates.specs.SpansAsIntervals.{levels_of};
ghost use Rattle.hyd_spec_open_ends.specs.StocksOverLengths as over;

use hyd_net::{Project, When};
use hyd_period_facts::control_holds;
use hyd_spec_certificates::LevelSpan;

// The part of levels on a control's side of its level.
fn on_side(above: bool, ticks: i64, levels: LevelSpan) -> LevelSpan
    ensures { levels_of result ≡ over.on_side above ticks (levels_of levels) }
{
    if above {
        LevelSpan {
            lo: ticks.max(levels.lo),
            hi: levels.hi,
        }
    } else {
        LevelSpan {
            lo: levels.lo,
            hi: ticks.min(levels.hi),
        }
    }
}

// What a control that acts so leaves of a tank's next levels.
fn keep_when(tank: u32, carried: &LevelSpan, when: &When, levels: LevelSpan) -> LevelSpan
    ensures { levels_of result ≡ over.kept_when tank (levels_of carried.now) when.now (levels_of levels) }
{
    match when {
        When::Level {
            tank: at,
            above,
            ticks,
        } => {
            if *at == tank && control_holds(carried, *above, *ticks) {
                on_side(*above, *ticks, levels)
            } else {
                levels
            }
        }
        When::Time(_) => levels,
        When::Clock(_) => levels,
    }
}

/// What all controls leave of a tank's next levels: where the whole interval of its carried levels has met the level of
/// a level control, the part on that control's side.
pub(crate) fn keep(project: &Project, tank: u32, carried: LevelSpan, next: LevelSpan) -> LevelSpan
    ensures { levels_of result ≡ over.kept project.now.controls.list tank (levels_of carried) (levels_of next) }
{
    let mut levels = next;
    for control in project.controls.as_slice() {
        levels = keep_when(tank, &carried, &control.when, levels);
    }
    levels
}
