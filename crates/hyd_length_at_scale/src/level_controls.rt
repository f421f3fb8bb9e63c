//! When levels of controls are reached.
#![tactic(auto)]

ghost use Rattle.std.specs.Prelude.{◌≡◌, ◌^◌, ◌<◌, ◌≤◌, length, unsigned_abs, int_le};
ghost use Rattle.hyd_num.specs.Rational.{whole};
ghost use Rattle.hyd_net.specs.ControlsAndRules.{IsControl};
ghost use Rattle.hyd_spec.specs.Scale.{at_scale};
ghost use Rattle.hyd_spec.specs.Tank.{reaches};
ghost use Rattle.hyd_spec.specs.PeriodLength.{level_at_start};
ghost use Rattle.hyd_laws_at_scale.specs.Scales.{parts_of};
ghost use Rattle.hyd_length_at_scale.specs.MetPeriods.{IsMetPeriod, told};
ghost use Rattle.hyd_length_at_scale.specs.LevelEnds.{IsFirst, IsLevelReached, IsSomeReached};

use crate::periods::MetPeriod;
use crate::reached_levels::first_reached;
use hyd_laws_at_scale::Scale;
use hyd_met_flows::number_at;
use hyd_net::{Control, When};

fn is_at_most(one: i128, other: i128) -> bool
    ensures { result ≡ int_le one other }
{
    one <= other
}

// A level in parts of a tick.
fn in_parts(scale: Scale, ticks: i64) -> i128
    requires { unsigned_abs ticks ≤ 10 ^ 18 }
    ensures { result ≡ at_scale (parts_of scale) ticks }
{
    scale.in_parts(i128::from(ticks))
}

// Whether a level control holds at the start. ABOVE means at least, and BELOW at most.
fn holds_at_start(period: &MetPeriod<'_>, tank: u32, above: bool, ticks: i64) -> bool
    requires period { IsMetPeriod period.now }
    requires there { tank < length period.now.project.now.tanks.list }
    requires ticks { unsigned_abs ticks ≤ 10 ^ 18 }
    ensures { result ≡ reaches (parts_of period.now.scale) above ticks
        (whole (level_at_start (told period.now) tank)) }
{
    let level = number_at(period.moment.levels.as_slice(), tank as usize);
    let target = in_parts(period.scale, ticks);
    if above {
        is_at_most(target, level)
    } else {
        is_at_most(level, target)
    }
}

// The first second, from 1 on, at which the level of a control that doesn't hold at the start is reached, or the cap.
fn first_level(period: &MetPeriod<'_>, control: &Control, cap: u32) -> u32
    requires period { IsMetPeriod period.now }
    requires control { IsControl period.now.project.now control.now }
    ensures { IsFirst (IsLevelReached period.now.project.now (parts_of period.now.scale) (told period.now) control.now)
        cap result }
{
    let When::Level { tank, above, ticks } = control.when else {
        return cap;
    };
    if holds_at_start(period, tank, above, ticks) {
        return cap;
    }
    first_reached(period, tank, ticks, above, cap)
}

/// The first second, from 1 on, at which the level of some control that doesn't hold at the start is reached, or the
/// cap where that comes first (EPANET 2.2 User Manual, chapter 3, controls).
pub(crate) fn first_control_level(period: &MetPeriod<'_>, cap: u32) -> u32
    requires { IsMetPeriod period.now }
    ensures { IsFirst (IsSomeReached period.now.project.now (parts_of period.now.scale) (told period.now)
        period.now.project.now.controls.list) cap result }
{
    let mut first = cap;
    for control in period.project.controls.as_slice() {
        first = first_level(period, control, first);
    }
    first
}
