//! The first second at which a tank has reached a level.
#![tactic(auto)]

ghost use Rattle.std.specs.Prelude.{◌≡◌, ◌^◌, ◌<◌, ◌≤◌, Some, slice_get, length, unsigned_abs};
ghost use Rattle.hyd_spec.specs.ProgramTypes.{Tank};
ghost use Rattle.hyd_spec.specs.PeriodLength.{reached_after};
ghost use Rattle.hyd_spec_certificates.specs.FirstSeconds.{IsFirstSecond};
ghost use Rattle.hyd_laws_at_scale.specs.Scales.{parts_of};
ghost use Rattle.hyd_length_at_scale.specs.MetPeriods.{IsMetPeriod, told};

use crate::periods::{MetPeriod, inflow_of, stock_at_start};
use hyd_stocks_at_scale::first_second;

/// The first second, from 1 on, at which a tank has risen or fallen to a level, in head ticks above its bottom, or the
/// cap where it hasn't up to that.
pub(crate) fn first_reached(
    period: &MetPeriod<'_>,
    tank: u32,
    level: i64,
    rising: bool,
    cap: u32,
) -> u32
    requires period { IsMetPeriod period.now }
    requires there { tank < length period.now.project.now.tanks.list }
    requires level { unsigned_abs level ≤ 10 ^ 18 }
    ensures { (each : Tank) → slice_get period.now.project.now.tanks.list tank ≡ Some each
        → IsFirstSecond (reached_after period.now.project.now (parts_of period.now.scale) (told period.now) tank each
        rising level) cap result }
{
    let stock = stock_at_start(period, tank);
    let inflow = inflow_of(period, tank);
    first_second(
        period.project,
        tank,
        period.scale,
        stock,
        inflow,
        level,
        rising,
        cap,
    )
}
