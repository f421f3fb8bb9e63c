//! Demand and emitter flows halfway.
#![tactic(auto)]

ghost use Rattle.std.specs.Prelude.{◌≡◌, ◌<◌, List, Some, length, slice_get, slice_set};
ghost use Rattle.hyd_spec.specs.Lists.{Each};
ghost use Rattle.hyd_spec.specs.ProgramTypes.{LinkState};
ghost use Rattle.hyd_spec.specs.declared.TankState.{TankState as State};
ghost use Rattle.hyd_spec_certificates.specs.PeriodNetwork.{GridJunction};
ghost use Rattle.hyd_spec_witnesses.specs.MetPeriods.{pressure_of};
ghost use Rattle.hyd_spec_witnesses.specs.MiddleCandidate.{halves, IsHalfwayEmitted, DemandIsHalfway};
ghost use Rattle.hyd_spec_witnesses.specs.MiddleCandidate.{EmitterIsHalfway};
ghost use Rattle.hyd_spec_witnesses.specs.WitnessText.{AreValues, IsValue};
ghost use Rattle.hyd_period_network.specs.NetAsPeriodNetwork.{grid_of};
ghost use Rattle.hyd_witness_texts.specs.MomentView.{moment_of};
ghost use Rattle.hyd_met_flows.specs.Periods.{period_in};
ghost use Rattle.hyd_middle_flows.specs.HalfwayFlows.{DemandGets, with_demands, with_emitters};

use crate::halfway::{halfway, store};
use hyd_laws_at_scale::{demand_window, emitter_window};
use hyd_met_flows::pressure_of;
use hyd_period_network::Net;
use hyd_stocks_below::halves;
use hyd_witness_texts::Moment;

// The demand flow of a junction halfway between what it gets at least and at most at a moment's heads.
fn middle_demand(net: &Net, moment: &Moment, junction: u32) -> i128
    requires there { junction < length net.now.junctions }
    requires heads { AreValues (length net.now.junctions) moment.now.heads.list }
    ensures halfway { (tanks : List State) (links : List LinkState) (here : GridJunction)
        → slice_get (grid_of net.now).junctions junction ≡ Some here
        → DemandGets here (pressure_of halves (period_in (moment_of moment.now) tanks links) junction here) result }
    ensures small { IsValue result }
{
    let pressure = pressure_of(net, halves(), moment, junction);
    halfway(demand_window(net.demand_law(junction), halves(), pressure))
}

// The emitter flow of a junction halfway, 0 where it has no emitter.
fn middle_emitter(net: &Net, moment: &Moment, junction: u32) -> i128
    requires there { junction < length net.now.junctions }
    requires heads { AreValues (length net.now.junctions) moment.now.heads.list }
    ensures halfway { (tanks : List State) (links : List LinkState) (here : GridJunction)
        → slice_get (grid_of net.now).junctions junction ≡ Some here
        → IsHalfwayEmitted here.emitter (pressure_of halves (period_in (moment_of moment.now) tanks links) junction
        here) result }
    ensures small { IsValue result }
{
    match net.emitter_law(junction) {
        Some(law) => {
            let pressure = pressure_of(net, halves(), moment, junction);
            halfway(emitter_window(law, halves(), pressure))
        }
        None => 0,
    }
}

// Writes the demand flow of a junction.
fn store_demand(into: &mut Moment, junction: u32, flow: i128)
    requires { junction < length into.old.demands.list }
    ensures { moment_of into.new ≡ with_demands (moment_of into.old) (slice_set into.old.demands.list junction flow) }
{
    store(into.demands.as_mut_slice(), junction as usize, flow);
}

// Writes the emitter flow of a junction.
fn store_emitter(into: &mut Moment, junction: u32, flow: i128)
    requires { junction < length into.old.emitters.list }
    ensures { moment_of into.new ≡ with_emitters (moment_of into.old) (slice_set into.old.emitters.list junction flow) }
{
    store(into.emitters.as_mut_slice(), junction as usize, flow);
}

/// Puts the demand flow of each junction halfway between what it gets at least and at most at the moment's heads, or 0
/// where its demand isn't in range.
pub(crate) fn put_demands(net: &Net, into: &mut Moment)
    requires heads { AreValues (length net.now.junctions) into.old.heads.list }
    requires demands { AreValues (length net.now.junctions) into.old.demands.list }
    ensures rest { moment_of into.new ≡ with_demands (moment_of into.old) into.new.demands.list }
    ensures fit { AreValues (length net.now.junctions) into.new.demands.list }
    ensures demands { (tanks : List State) (links : List LinkState)
        → Each (grid_of net.now).junctions (DemandIsHalfway (period_in (moment_of into.new) tanks links)) }
{
    for junction in 0..net.junctions() {
        let flow = middle_demand(net, into, junction);
        store_demand(into, junction, flow);
    }
}

/// Puts the emitter flow of each junction halfway, 0 where it has no emitter or its emitter isn't in range.
pub(crate) fn put_emitters(net: &Net, into: &mut Moment)
    requires heads { AreValues (length net.now.junctions) into.old.heads.list }
    requires emitters { AreValues (length net.now.junctions) into.old.emitters.list }
    ensures rest { moment_of into.new ≡ with_emitters (moment_of into.old) into.new.emitters.list }
    ensures fit { AreValues (length net.now.junctions) into.new.emitters.list }
    ensures emitters { (tanks : List State) (links : List LinkState)
        → Each (grid_of net.now).junctions (EmitterIsHalfway (period_in (moment_of into.new) tanks links)) }
{
    for junction in 0..net.junctions() {
        let flow = middle_emitter(net, into, junction);
        store_emitter(into, junction, flow);
    }
}
