//! When tanks fill and empty.
#![tactic(auto)]

ghost use Rattle.std.specs.Prelude.{◌≡◌, ◌<◌, Some, slice_get, length};
ghost use Rattle.hyd_spec.specs.LinkLaw as states;
ghost use Rattle.hyd_spec.specs.declared.TankState.{TankState as State};
ghost use Rattle.hyd_spec.specs.NodeNumbers.{tank_count};
ghost use Rattle.hyd_laws_at_scale.specs.Scales.{parts_of};
ghost use Rattle.hyd_length_at_scale.specs.MetPeriods.{IsMetPeriod, told};
ghost use Rattle.hyd_length_at_scale.specs.LevelEnds.{IsFirst, Fills, Empties, IsBoundReached};

use crate::periods::MetPeriod;
use crate::reached_levels::first_reached;
use hyd_spec::TankState;
use hyd_tank::tank_at;

fn is_full(tanks: &[TankState], tank: u32) -> bool
    requires { tank < length tanks.now }
    ensures { (state : State) → slice_get tanks.now tank ≡ Some state → result ≡ states.is_full state }
{
    matches!(tanks[tank as usize], TankState::Full)
}

fn is_empty(tanks: &[TankState], tank: u32) -> bool
    requires { tank < length tanks.now }
    ensures { (state : State) → slice_get tanks.now tank ≡ Some state → result ≡ states.is_empty state }
{
    matches!(tanks[tank as usize], TankState::Empty)
}

// The first second, from 1 on, at which a tank that isn't full has filled, or the cap.
fn first_filling(period: &MetPeriod<'_>, tank: u32, cap: u32) -> u32
    requires period { IsMetPeriod period.now }
    requires there { tank < length period.now.project.now.tanks.list }
    ensures { IsFirst (Fills period.now.project.now (parts_of period.now.scale) (told period.now) tank) cap result }
{
    if is_full(period.tanks, tank) {
        return cap;
    }
    let maximum = tank_at(period.project, tank).maximum;
    first_reached(period, tank, maximum, true, cap)
}

// The first second, from 1 on, at which a tank that isn't empty has emptied, or the cap.
fn first_emptying(period: &MetPeriod<'_>, tank: u32, cap: u32) -> u32
    requires period { IsMetPeriod period.now }
    requires there { tank < length period.now.project.now.tanks.list }
    ensures { IsFirst (Empties period.now.project.now (parts_of period.now.scale) (told period.now) tank) cap result }
{
    if is_empty(period.tanks, tank) {
        return cap;
    }
    let minimum = tank_at(period.project, tank).minimum;
    first_reached(period, tank, minimum, false, cap)
}

/// The first second, from 1 on, at which a tank that isn't full has filled or one that isn't empty has emptied, or the
/// cap where that comes first (EPANET 2.2 User Manual, chapter 3, tanks).
pub(crate) fn first_bound(period: &MetPeriod<'_>, cap: u32) -> u32
    requires { IsMetPeriod period.now }
    ensures { IsFirst (IsBoundReached period.now.project.now (parts_of period.now.scale) (told period.now)
        (tank_count period.now.project.now)) cap result }
{
    let mut first = cap;
    for tank in 0..period.project.tanks.len() {
        first = first_filling(period, tank as u32, first);
        first = first_emptying(period, tank as u32, first);
    }
    first
}
