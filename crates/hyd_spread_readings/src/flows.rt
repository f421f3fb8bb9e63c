//! The flows of links that rules look at.
#![tactic(auto)]

ghost use Rattle.std.specs.Prelude.{◌≡◌, ◌<◌, ◌≤◌, ◌+◌, ◌++◌, ◌∷◌, [], pos, length, map, All};
ghost use Rattle.hyd_spec_certificates.specs.SpansAsIntervals.{flows_of};
ghost use Rattle.hyd_spec_certificates.specs.declared.Problem.TheVariants.{Main};
ghost use Rattle.hyd_bounds.specs.VectorsInOrder.{IsVector, AreInOrder};
ghost use Rattle.hyd_controls_and_rules.specs.RuleReadings.{IsBounded};
ghost use Rattle.hyd_spread_bounds.specs.BothSides.{pair_of, IsOrderedPair, all_below, all_above};
ghost use Rattle.hyd_spread_readings.specs.FlowsOfLinks.{boxes_over};

use hyd_net::List;
use hyd_num::Span;
use hyd_period_network::Net;
use hyd_spread_bounds::flow_box;

// Appends a flow, for which there is room.
fn add_flow(flows: &mut List<Span>, flow: Span)
    requires { 0 < flows.old.spare }
    ensures list { flows.new.list ≡ flows.old.list ++ flow ∷ [] }
    ensures spare { flows.old.spare ≤ flows.new.spare + 1 }
{
    flows.push(flow).unwrap();
}

/// Puts the flow box of each link, in flow ticks, between heads of junctions below, on the LOWER net, and above, on the
/// UPPER one. What the list held before goes. It has room for an item for each link, so no memory is taken.
pub(crate) fn put_flows(upper: &Net, lower: &Net, low: &[i64], high: &[i64], flows: &mut List<Span>)
    requires pair { IsOrderedPair (pair_of upper.now lower.now) }
    requires low { IsVector lower.now low.now }
    requires high { IsVector upper.now high.now }
    requires ordered { AreInOrder (pos 0) (all_below (pair_of upper.now lower.now) Main low.now)
        (all_above (pair_of upper.now lower.now) Main high.now) }
    requires room { length upper.now.ends ≤ length flows.old.list + flows.old.spare }
    ensures flows { map flows_of flows.new.list ≡ boxes_over (pair_of upper.now lower.now) low.now high.now }
    ensures bounded { All IsBounded flows.new.list }
    ensures room { length flows.old.list + flows.old.spare ≤ length flows.new.list + flows.new.spare }
{
    flows.clear();
    for link in 0..upper.links() {
        add_flow(flows, flow_box(upper, lower, link, low, high));
    }
}
