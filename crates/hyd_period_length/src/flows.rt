//! The flows of links that rules look at.
#![tactic(auto)]

ghost use Rattle.std.specs.Prelude.{◌≡◌, ◌<◌, ◌≤◌, ◌+◌, ◌++◌, ◌∷◌, [], pos, length, map, All};
ghost use Rattle.hyd_spec_certificates.specs.SpansAsIntervals.{flows_of};
ghost use Rattle.hyd_spec_certificates.specs.declared.Problem.TheVariants.{Main};
ghost use Rattle.hyd_spec_certificates.specs.declared.Side.TheVariants.{Upper, Lower};
ghost use Rattle.hyd_spec_certificates.specs.PeriodNetwork.{all_heads};
ghost use Rattle.hyd_period_network.specs.NetAsPeriodNetwork.{grid_of};
ghost use Rattle.hyd_period_facts.specs.PassedOn.{IsVector, AreInOrder};
ghost use Rattle.hyd_controls_and_rules.specs.RuleReadings.{IsBounded};
ghost use Rattle.hyd_period_length.specs.FlowBoxes.{boxes_between};

use hyd_net::List;
use hyd_num::Span;
use hyd_period_facts::flow_box;
use hyd_period_network::Net;

// Appends a flow, for which there is room.
fn add_flow(flows: &mut List<Span>, flow: Span)
    requires { 0 < flows.old.spare }
    ensures list { flows.new.list ≡ flows.old.list ++ flow ∷ [] }
    ensures spare { flows.old.spare ≤ flows.new.spare + 1 }
{
    flows.push(flow).unwrap();
}

/// Puts the flow box of each link, in flow ticks, between heads of junctions below and above. What the list held before
/// goes. It has room for an item for each link, so no memory is taken.
pub(crate) fn put_flows(net: &Net, low: &[i64], high: &[i64], flows: &mut List<Span>)
    requires low { IsVector net.now low.now }
    requires high { IsVector net.now high.now }
    requires ordered { AreInOrder (pos 0) (all_heads (grid_of net.now) Main Lower low.now)
        (all_heads (grid_of net.now) Main Upper high.now) }
    requires room { length net.now.ends ≤ length flows.old.list + flows.old.spare }
    ensures flows { map flows_of flows.new.list ≡ boxes_between (grid_of net.now) low.now high.now }
    ensures bounded { All IsBounded flows.new.list }
    ensures room { length flows.old.list + flows.old.spare ≤ length flows.new.list + flows.new.spare }
{
    flows.clear();
    for link in 0..net.links() {
        add_flow(flows, flow_box(net, link, low, high));
    }
}
