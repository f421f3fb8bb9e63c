//! Periods of a witness, as their ends are looked for.
#![tactic(auto)]

ghost use Rattle.std.specs.Prelude.{◌≡◌, ◌<◌, ◌≤◌, unsigned_abs, length};
ghost use Rattle.hyd_spec.specs.Tank.{tank_inflow};
ghost use Rattle.hyd_spec.specs.PeriodLength.{stock_at_start};
ghost use Rattle.hyd_stocks_at_scale.specs.Motions.{stock_of, IsSmallStock, inflow_limit};
ghost use Rattle.hyd_length_at_scale.specs.MetPeriods.{IsMetPeriod, told};

use hyd_laws_at_scale::Scale;
use hyd_met_flows::number_at;
use hyd_net::{LinkState, Project};
use hyd_spec::TankState;
use hyd_stocks_at_scale::Stock;
use hyd_witness_texts::Moment;

/// A period of a witness whose flows are met: all that its end follows from. Its length is only looked at where the
/// commands of its end are asked for.
#[derive(Clone, Copy, Drop)]
pub struct MetPeriod<'a> {
    pub project: &'a Project,
    pub scale: Scale,
    /// When it begins, its heads and flows, and the levels and volumes of tanks at its start, in parts of ticks.
    pub moment: &'a Moment,
    /// What flows into each tank, in parts of a flow tick.
    pub inflows: &'a [i128],
    /// How full each tank is throughout it.
    pub tanks: &'a [TankState],
    /// The state of each link throughout it.
    pub links: &'a [LinkState],
}

/// The stock of a tank at the start.
pub(crate) fn stock_at_start(period: &MetPeriod<'_>, tank: u32) -> Stock
    requires period { IsMetPeriod period.now }
    requires there { tank < length period.now.project.now.tanks.list }
    ensures value { stock_of result ≡ stock_at_start (told period.now) tank }
    ensures small { IsSmallStock result }
{
    Stock {
        level: number_at(period.moment.levels.as_slice(), tank as usize),
        volume: number_at(period.moment.volumes.as_slice(), tank as usize),
    }
}

/// What flows into a tank.
pub(crate) fn inflow_of(period: &MetPeriod<'_>, tank: u32) -> i128
    requires period { IsMetPeriod period.now }
    requires there { tank < length period.now.project.now.tanks.list }
    ensures value { result ≡ tank_inflow period.now.project.now tank period.now.moment.now.flows.list }
    ensures small { unsigned_abs result ≤ inflow_limit }
{
    number_at(period.inflows, tank as usize)
}
