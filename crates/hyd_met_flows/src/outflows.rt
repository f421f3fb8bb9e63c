//! Whether demands and emitter flows are met.
#![tactic(auto)]

ghost use Rattle.std.specs.Prelude.{◌≡◌, ◌<◌, List, Some, IfSome, IfNone, length, slice_get};
ghost use Rattle.std.specs.Bool.{OnTrue, OnFalse};
ghost use Rattle.hyd_spec.specs.Lists.{Each};
ghost use Rattle.hyd_spec.specs.ProgramTypes.{LinkState};
ghost use Rattle.hyd_spec.specs.declared.TankState.{TankState as State};
ghost use Rattle.hyd_spec_certificates.specs.PeriodNetwork.{GridJunction};
ghost use Rattle.hyd_spec_witnesses.specs.FirstUnmetClause.{FailsFirstAt};
ghost use Rattle.hyd_spec_witnesses.specs.MetPeriods.{pressure_of, DemandIsMet, EmitterIsMet};
ghost use Rattle.hyd_spec_witnesses.specs.WitnessText.{AreValues};
ghost use Rattle.hyd_period_network.specs.NetAsPeriodNetwork.{grid_of};
ghost use Rattle.hyd_laws_at_scale.specs.Scales.{parts_of};
ghost use Rattle.hyd_witness_texts.specs.MomentView.{moment_of};
ghost use Rattle.hyd_met_flows.specs.Periods.{period_in};

use crate::near_flows::{is_demand_met, is_met};
use crate::values::value_at;
use hyd_laws_at_scale::{Scale, demand_window, emitter_window};
use hyd_period_network::Net;
use hyd_witness_texts::Moment;

/// The pressure at a junction, in parts of a head tick.
pub fn pressure_of(net: &Net, scale: Scale, moment: &Moment, junction: u32) -> i128
    requires there { junction < length net.now.junctions }
    requires heads { AreValues (length net.now.junctions) moment.now.heads.list }
    ensures { (tanks : List State) (links : List LinkState) (here : GridJunction)
        → slice_get (grid_of net.now).junctions junction ≡ Some here
        → result ≡ pressure_of (parts_of scale) (period_in (moment_of moment.now) tanks links) junction here }
{
    let head = value_at(moment.heads.as_slice(), junction as usize);
    head - scale.in_parts(i128::from(net.elevation(junction)))
}

// Whether the demand flow of a junction is met.
fn demand_is_met(net: &Net, scale: Scale, moment: &Moment, junction: u32) -> bool
    requires there { junction < length net.now.junctions }
    requires heads { AreValues (length net.now.junctions) moment.now.heads.list }
    requires demands { AreValues (length net.now.junctions) moment.now.demands.list }
    ensures yes { (tanks : List State) (links : List LinkState) (here : GridJunction)
        → slice_get (grid_of net.now).junctions junction ≡ Some here
        → OnTrue result (DemandIsMet (parts_of scale) (period_in (moment_of moment.now) tanks links) junction here) }
    ensures no { (tanks : List State) (links : List LinkState) (here : GridJunction)
        → slice_get (grid_of net.now).junctions junction ≡ Some here
        → OnFalse result (DemandIsMet (parts_of scale) (period_in (moment_of moment.now) tanks links) junction here
        → ⊥) }
{
    let pressure = pressure_of(net, scale, moment, junction);
    let window = demand_window(net.demand_law(junction), scale, pressure);
    let flow = value_at(moment.demands.as_slice(), junction as usize);
    is_demand_met(window, scale, flow)
}

// Whether the emitter flow of a junction is met: 0 where it has no emitter.
fn emitter_is_met(net: &Net, scale: Scale, moment: &Moment, junction: u32) -> bool
    requires there { junction < length net.now.junctions }
    requires heads { AreValues (length net.now.junctions) moment.now.heads.list }
    requires emitters { AreValues (length net.now.junctions) moment.now.emitters.list }
    ensures yes { (tanks : List State) (links : List LinkState) (here : GridJunction)
        → slice_get (grid_of net.now).junctions junction ≡ Some here
        → OnTrue result (EmitterIsMet (parts_of scale) (period_in (moment_of moment.now) tanks links) junction here) }
    ensures no { (tanks : List State) (links : List LinkState) (here : GridJunction)
        → slice_get (grid_of net.now).junctions junction ≡ Some here
        → OnFalse result (EmitterIsMet (parts_of scale) (period_in (moment_of moment.now) tanks links) junction here
        → ⊥) }
{
    let flow = value_at(moment.emitters.as_slice(), junction as usize);
    match net.emitter_law(junction) {
        Some(law) => {
            let pressure = pressure_of(net, scale, moment, junction);
            is_met(emitter_window(law, scale, pressure), scale, flow)
        }
        None => flow == 0,
    }
}

/// The first junction of which the demand flow isn't met, where the net is set to the period.
pub fn first_unmet_demand(net: &Net, scale: Scale, moment: &Moment) -> Option<u32>
    requires heads { AreValues (length net.now.junctions) moment.now.heads.list }
    requires demands { AreValues (length net.now.junctions) moment.now.demands.list }
    ensures some { (tanks : List State) (links : List LinkState) → IfSome result (λ junction.
        FailsFirstAt (grid_of net.now).junctions (DemandIsMet (parts_of scale) (period_in (moment_of moment.now) tanks
        links)) junction) }
    ensures none { (tanks : List State) (links : List LinkState) → IfNone result
        (Each (grid_of net.now).junctions (DemandIsMet (parts_of scale) (period_in (moment_of moment.now) tanks
        links))) }
{
    for junction in 0..net.junctions() {
        if !demand_is_met(net, scale, moment, junction) {
            return Some(junction);
        }
    }
    None
}

/// The first junction of which the emitter flow isn't met.
pub fn first_unmet_emitter(net: &Net, scale: Scale, moment: &Moment) -> Option<u32>
    requires heads { AreValues (length net.now.junctions) moment.now.heads.list }
    requires emitters { AreValues (length net.now.junctions) moment.now.emitters.list }
    ensures some { (tanks : List State) (links : List LinkState) → IfSome result (λ junction.
        FailsFirstAt (grid_of net.now).junctions (EmitterIsMet (parts_of scale) (period_in (moment_of moment.now)
        tanks links)) junction) }
    ensures none { (tanks : List State) (links : List LinkState) → IfNone result
        (Each (grid_of net.now).junctions (EmitterIsMet (parts_of scale) (period_in (moment_of moment.now) tanks
        links))) }
{
    for junction in 0..net.junctions() {
        if !emitter_is_met(net, scale, moment, junction) {
            return Some(junction);
        }
    }
    None
}
