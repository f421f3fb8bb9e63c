//! Stocks and inflows of tanks by the facts of a period.
#![tactic(auto)]

ghost use Rattle.std.specs.Prelude.{◌≡◌, ◌<◌, length};
ghost use Rattle.std.specs.List.{All};
ghost use Rattle.hyd_spec_certificates.specs.SpansAsIntervals.{flows_of};
ghost use Rattle.hyd_tank.specs.StockIntervals.{stocks_of, IsInflow};
ghost use Rattle.hyd_period_facts.specs.FactsBeforeEnd.{stocks_in, inflow_in};

use crate::facts::Facts;
use hyd_num::Span;
use hyd_tank::Stock;

/// The stock of a tank at the start of a period.
pub fn stock_at(facts: &Facts, tank: u32) -> Stock
    requires levels { tank < length facts.now.levels.list }
    requires volumes { tank < length facts.now.volumes.list }
    ensures { stocks_of result ≡ stocks_in facts.now tank }
{
    Stock {
        level: facts.levels.as_slice()[tank as usize],
        volume: facts.volumes.as_slice()[tank as usize],
    }
}

/// What flows into a tank during a period, in flow ticks.
pub fn inflow_at(facts: &Facts, tank: u32) -> Span
    requires in_range { tank < length facts.now.inflows.list }
    requires small { All IsInflow facts.now.inflows.list }
    ensures value { flows_of result ≡ inflow_in facts.now tank }
    ensures small { IsInflow result }
{
    facts.inflows.as_slice()[tank as usize]
}
