//! Demands of junctions.
#![tactic(auto)]

ghost use Rattle.std.specs.Prelude.{◌≡◌, ◌<◌, ◌≤◌, ◌^◌, length, map, unsigned_abs, IfOk, IfErr};
ghost use Rattle.std.specs.List.{All};
ghost use Rattle.hyd_net.specs.Sound.{IsSound, IsPattern};
ghost use Rattle.hyd_net.specs.NetworkRanges.{IsDemand, HasOptions};
ghost use Rattle.hyd_spec.specs.Lists.{total};
ghost use Rattle.hyd_spec.specs.DemandsHeadsAndPumpLifts.{category_multiplier, category_demand};
ghost use Rattle.hyd_demands_and_reservoir_heads.specs.DemandsAndHeadsByNumber.{junction_demand, IsInRange};
ghost use Rattle.hyd_demands_and_reservoir_heads.specs.DemandsAndHeadsByNumber.{IsOutOfRange};

use crate::multipliers::{multiplier_at, times};
use hyd_net::ranges::GREATEST_FLOW;
use hyd_net::{Demand, Project};
use thiserror::Error;

/// A demand, in flow ticks, is above 10^8 cubic metres a day in magnitude.
#[derive(Debug, Clone, Copy, PartialEq, Eq, Drop, Error)]
#[error("a demand out of range")]
pub struct DemandRange {
    pub value: i128,
}

// The greatest demand of a period, either way, in flow ticks: the greatest flow of a file.
const GREATEST_DEMAND: u128 = GREATEST_FLOW as u128;

// The multiplier of a category in billionths: that of its own pattern, else of the default one, else 1.
fn category_multiplier(project: &Project, category: &Demand, time: u32) -> i64
    requires step { 1 ≤ project.now.times.pattern }
    requires patterns { All IsPattern project.now.patterns.list }
    requires options { HasOptions project.now.options project.now.patterns.list }
    requires demand { IsDemand project.now.patterns.list category.now }
    ensures value { result ≡ category_multiplier project.now time category.now }
    ensures small { unsigned_abs result ≤ 10 ^ 15 }
{
    if let Some(pattern) = category.pattern {
        return multiplier_at(project, pattern, time);
    }
    if let Some(pattern) = project.options.default_pattern {
        return multiplier_at(project, pattern, time);
    }
    1_000_000_000
}

// The demand of a category in flow ticks.
fn category_demand(project: &Project, category: &Demand, time: u32) -> i128
    requires step { 1 ≤ project.now.times.pattern }
    requires patterns { All IsPattern project.now.patterns.list }
    requires options { HasOptions project.now.options project.now.patterns.list }
    requires demand { IsDemand project.now.patterns.list category.now }
    ensures value { result ≡ category_demand project.now time category.now }
    ensures small { unsigned_abs result ≤ 10 ^ 27 }
{
    let multiplier = i128::from(category_multiplier(project, category, time));
    let factor = times(multiplier, project.options.multiplier.nano);
    times(i128::from(category.base), factor)
}

// The sum over categories.
fn total_demand(project: &Project, categories: &[Demand], time: u32) -> i128
    requires step { 1 ≤ project.now.times.pattern }
    requires patterns { All IsPattern project.now.patterns.list }
    requires options { HasOptions project.now.options project.now.patterns.list }
    requires demands { All (IsDemand project.now.patterns.list) categories.now }
    requires few { length categories.now ≤ 10 ^ 5 }
    ensures value { result ≡ total (map (category_demand project.now time) categories.now) }
{
    let mut sum = 0;
    for category in categories {
        sum += category_demand(project, category, time);
    }
    sum
}

/// The demand of a junction at a time, in flow ticks: the sum over its categories of the base demand times the product
/// of the pattern's multiplier and the demand multiplier, cut toward zero (EPANET 2.2 User Manual, The Network Model).
/// Junctions are counted from 0. Fails with [`DemandRange`] exactly where its magnitude is above 10^15 flow ticks.
pub fn demand_at(project: &Project, junction: u32, time: u32) -> Result<i64, DemandRange>
    requires sound { IsSound project.now }
    requires in_range { junction < length project.now.junctions.list }
    ensures ok { IfOk result (λ q. q ≡ junction_demand project.now time junction) }
    ensures within { IfOk result (λ q. IsInRange q) }
    ensures err { IfErr result (λ e. e.value ≡ junction_demand project.now time junction) }
    ensures beyond { IfErr result (λ e. IsOutOfRange e.value) }
{
    let categories = project.junctions.as_slice()[junction as usize]
        .demands
        .as_slice();
    let value = total_demand(project, categories, time);
    if value.unsigned_abs() > GREATEST_DEMAND {
        return Err(DemandRange { value });
    }
    Ok(value as i64)
}
