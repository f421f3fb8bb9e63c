//! What flows into tanks.
#![tactic(auto)]

ghost use Rattle.std.specs.Prelude.{◌≡◌, ◌<◌, ◌≤◌, length, unsigned_abs};
ghost use Rattle.std.specs.List.{All};
ghost use Rattle.hyd_net.specs.Sound.{IsSound};
ghost use Rattle.hyd_spec.specs.NodeNumbers.{tank_count};
ghost use Rattle.hyd_spec.specs.Tank.{tank_inflow};
ghost use Rattle.hyd_period_network.specs.NetsSetToPeriods.{IsNetOf};
ghost use Rattle.hyd_stocks_at_scale.specs.Motions.{inflow_limit};
ghost use Rattle.hyd_witness_texts.specs.MomentView.{moment_of};
ghost use Rattle.hyd_met_flows.specs.Periods.{IsMomentOf, IsSmallFlow};
ghost use Rattle.hyd_length_at_scale.specs.MetPeriods.{AreInflows};

use hyd_met_flows::net_outflow;
use hyd_net::Project;
use hyd_period_network::Net;
use hyd_witness_texts::Moment;

// What flows into a tank.
fn tank_inflow(project: &Project, net: &Net, moment: &Moment, tank: u32) -> i128
    requires sound { IsSound project.now }
    requires of { IsNetOf project.now net.now }
    requires moment { IsMomentOf project.now (moment_of moment.now) }
    requires flows { All IsSmallFlow moment.now.flows.list }
    requires there { tank < tank_count project.now }
    ensures value { result ≡ tank_inflow project.now tank moment.now.flows.list }
    ensures small { unsigned_abs result ≤ inflow_limit }
{
    let node = project.junctions.len() + project.reservoirs.len() + tank as usize;
    -net_outflow(project, net, node as u32, moment.flows.as_slice())
}

/// Puts what flows into each tank of a period, in parts of a flow tick: the sum of the flows of its links toward it.
/// The flows of links are met, so that they are small.
pub fn put_inflows(project: &Project, net: &Net, moment: &Moment, inflows: &mut [i128])
    requires sound { IsSound project.now }
    requires of { IsNetOf project.now net.now }
    requires moment { IsMomentOf project.now (moment_of moment.now) }
    requires flows { All IsSmallFlow moment.now.flows.list }
    requires each { length inflows.old ≡ tank_count project.now }
    ensures { AreInflows project.now moment.now.flows.list inflows.new }
{
    for tank in 0..inflows.len() {
        inflows[tank] = tank_inflow(project, net, moment, tank as u32);
    }
}
