//! Demands of junctions in the outermost networks of a period.
#![tactic(auto)]

ghost use Rattle.std.specs.Prelude.{◌≡◌, ◌<◌, map, All, IfOk, IfErr, OnOk, OnErr, length};
ghost use Rattle.std.specs.Bool.{OnTrue, OnFalse};
ghost use Rattle.hyd_net.specs.Sound.{IsSound};
ghost use Rattle.hyd_demands_and_reservoir_heads.specs.DemandsAndHeadsByNumber.{IsInRange, junction_demand};
ghost use Rattle.hyd_spec_certificates.specs.declared.Side.TheVariants.{Upper, Lower};
ghost use Rattle.hyd_spec_spread.specs.IntervalsOfData.{known_junctions, products};
ghost use Rattle.hyd_spec_spread.specs.OutermostGrids.{outermost_demand};
ghost use Rattle.hyd_spec_spread_rows.specs.TextsOfSpreads.{factors_from, interval_from};
ghost use Rattle.hyd_spread_rows.specs.SpreadsRead.{spread_of, AreInRange};
ghost use Rattle.hyd_spec_spread_runs.specs.RunsForSpreads.{AreDemandsInRange};
ghost use Rattle.hyd_spec_spread_rows.specs.RangesOfEnds.{AreFactors};
ghost use Rattle.hyd_spec_spread_stops.specs.StopsOfSpreads.{IsFirstDemandOver};

use crate::ends::{factors_at, products};
use crate::fault::DemandOver;
use hyd_demands_and_reservoir_heads::demand_at;
use hyd_net::Project;
use hyd_net::ranges::GREATEST_FLOW;
use hyd_spec_spread_rows::Ends;
use hyd_spread_rows::SpreadRows;

fn is_demand(demand: i128) -> bool
    ensures yes { OnTrue result (IsInRange demand) }
    ensures no { OnFalse result (IsInRange demand → ⊥) }
{
    demand >= -GREATEST_FLOW && demand <= GREATEST_FLOW
}

// Both ends of the demand of a junction at a time, where they are in range. Fails with the network's own demand.
fn demand_between(
    project: &Project,
    junction: usize,
    time: u32,
    factors: Ends,
) -> Result<Ends, i128>
    requires sound { IsSound project.now }
    requires junction { junction < length project.now.junctions.list }
    requires factors { AreFactors factors }
    ensures ends { IfOk result (λ ends. interval_from ends
        ≡ products (factors_from factors) (junction_demand project.now time junction)) }
    ensures least { IfOk result (λ ends. IsInRange ends.low) }
    ensures greatest { IfOk result (λ ends. IsInRange ends.high) }
    ensures own { IfErr result (λ value. value ≡ junction_demand project.now time junction) }
    ensures beyond { OnErr result (IsInRange (products (factors_from factors) (junction_demand project.now time
        junction)).lo → IsInRange (products (factors_from factors) (junction_demand project.now time junction)).hi
        → ⊥) }
{
    let own = match demand_at(project, junction as u32, time) {
        Ok(demand) => i128::from(demand),
        Err(range) => return Err(range.value),
    };
    let ends = products(factors, own);
    if is_demand(ends.low) && is_demand(ends.high) {
        return Ok(ends);
    }
    Err(own)
}

/// Writes the least and the greatest demand of each junction at a time. Fails with the first junction of whose demand
/// an end is out of range; the lists then hold nothing of use.
pub(crate) fn put_demands(
    project: &Project,
    time: u32,
    rows: &SpreadRows,
    least: &mut [i64],
    greatest: &mut [i64],
) -> Result<(), DemandOver>
    requires sound { IsSound project.now }
    requires range { AreInRange rows.now }
    requires each_least { length least.old ≡ length project.now.junctions.list }
    requires each_greatest { length greatest.old ≡ length project.now.junctions.list }
    ensures count_least { length least.new ≡ length least.old }
    ensures count_greatest { length greatest.new ≡ length greatest.old }
    ensures least { OnOk result (least.new
        ≡ map (outermost_demand Upper) (known_junctions project.now (spread_of rows.now) time)) }
    ensures greatest { OnOk result (greatest.new
        ≡ map (outermost_demand Lower) (known_junctions project.now (spread_of rows.now) time)) }
    ensures least_range { OnOk result (All IsInRange least.new) }
    ensures greatest_range { OnOk result (All IsInRange greatest.new) }
    ensures in_range { OnOk result (AreDemandsInRange project.now (spread_of rows.now) time) }
    ensures refused { IfErr result (λ fault. IsFirstDemandOver project.now (spread_of rows.now) time fault.junction
        fault.value) }
{
    for place in 0..least.len() {
        match demand_between(project, place, time, factors_at(&rows.demands, place)) {
            Ok(ends) => {
                least[place] = ends.low as i64;
                greatest[place] = ends.high as i64;
            }
            Err(value) => {
                return Err(DemandOver {
                    junction: place as u32,
                    value,
                });
            }
        }
    }
    Ok(())
}
