//! Levels of tanks at an instant of a period.
#![tactic(auto)]

ghost use Rattle.std.specs.Prelude.{◌≡◌, ◌<◌, Some, slice_get, length};
ghost use Rattle.std.specs.List.{All};
ghost use Rattle.hyd_spec.specs.ProgramTypes.{Tank};
ghost use Rattle.hyd_spec.specs.NodeNumbers.{tank_count};
ghost use Rattle.hyd_spec.specs.PeriodLength.{carried_after, readings_after};
ghost use Rattle.hyd_laws_at_scale.specs.Scales.{parts_of};
ghost use Rattle.hyd_rules_at_scale.specs.Instants.{AreLevels, IsSmallLevel};
ghost use Rattle.hyd_rules_at_scale.specs.Quantities.{IsExactly};
ghost use Rattle.hyd_length_at_scale.specs.MetPeriods.{IsMetPeriod, told};

use crate::periods::{MetPeriod, inflow_of, stock_at_start};
use hyd_stocks_at_scale::{ExactLevel, carried_level};

// The level of a tank carried to so many seconds after the start.
fn carried_of(period: &MetPeriod<'_>, tank: u32, seconds: u32) -> ExactLevel
    requires period { IsMetPeriod period.now }
    requires there { tank < length period.now.project.now.tanks.list }
    ensures exact { (each : Tank) → slice_get period.now.project.now.tanks.list tank ≡ Some each
        → IsExactly result (carried_after period.now.project.now (parts_of period.now.scale) (told period.now) tank
        each seconds) }
    ensures small { IsSmallLevel result }
{
    let stock = stock_at_start(period, tank);
    let inflow = inflow_of(period, tank);
    carried_level(period.project, tank, period.scale, stock, inflow, seconds)
}

/// Puts the level of each tank carried to so many seconds after the start.
pub(crate) fn put_carried(period: &MetPeriod<'_>, seconds: u32, levels: &mut [ExactLevel])
    requires period { IsMetPeriod period.now }
    requires each { length levels.old ≡ tank_count period.now.project.now }
    ensures exact { AreLevels levels.new (readings_after period.now.project.now (parts_of period.now.scale)
        (told period.now) seconds).levels }
    ensures small { All IsSmallLevel levels.new }
{
    for tank in 0..levels.len() {
        levels[tank] = carried_of(period, tank as u32, seconds);
    }
}
