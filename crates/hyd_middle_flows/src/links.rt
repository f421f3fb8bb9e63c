//! Flows of links halfway.
#![tactic(auto)]

ghost use Rattle.std.specs.Prelude.{◌≡◌, ◌<◌, Some, length, slice_get, slice_set};
ghost use Rattle.hyd_spec.specs.Lists.{Each};
ghost use Rattle.hyd_spec_certificates.specs.PeriodNetwork.{GridLink};
ghost use Rattle.hyd_spec_witnesses.specs.MiddleCandidate.{LinkIsHalfway};
ghost use Rattle.hyd_spec_witnesses.specs.WitnessText.{IsValue};
ghost use Rattle.hyd_period_network.specs.NetAsPeriodNetwork.{grid_of, states_of};
ghost use Rattle.hyd_witness_texts.specs.MomentView.{moment_of};
ghost use Rattle.hyd_met_flows.specs.Periods.{period_in, IsSet, IsMomentOf};
ghost use Rattle.hyd_middle_flows.specs.HalfwayFlows.{LinkPasses, with_flows};

use crate::halfway::{halfway, store};
use hyd_met_flows::{difference_of, window_of_link};
use hyd_net::Project;
use hyd_period_network::Net;
use hyd_spec::TankState;
use hyd_stocks_below::halves;
use hyd_witness_texts::Moment;

// The flow of a link halfway between what its law passes at least and at most at a moment's heads.
fn middle_flow(
    project: &Project,
    net: &Net,
    tanks: &[TankState],
    moment: &Moment,
    link: u32,
) -> i128
    requires set { IsSet project.now net.now tanks.now }
    requires there { link < length project.now.links.list }
    requires moment { IsMomentOf project.now (moment_of moment.now) }
    ensures halfway { (here : GridLink) → slice_get (grid_of net.now).links link ≡ Some here
        → LinkPasses project.now (moment_of moment.now) tanks.now (states_of net.now) here result }
    ensures small { IsValue result }
{
    let difference = difference_of(project, halves(), moment, link);
    halfway(window_of_link(project, net, tanks, halves(), link, difference))
}

// Writes the flow of a link.
fn store_flow(into: &mut Moment, link: u32, flow: i128)
    requires { link < length into.old.flows.list }
    ensures { moment_of into.new ≡ with_flows (moment_of into.old) (slice_set into.old.flows.list link flow) }
{
    store(into.flows.as_mut_slice(), link as usize, flow);
}

/// Puts the flow of each link halfway between what its law passes at least and at most at the moment's heads, or 0
/// where its law isn't in range.
pub(crate) fn put_flows(project: &Project, net: &Net, tanks: &[TankState], into: &mut Moment)
    requires set { IsSet project.now net.now tanks.now }
    requires moment { IsMomentOf project.now (moment_of into.old) }
    ensures rest { moment_of into.new ≡ with_flows (moment_of into.old) into.new.flows.list }
    ensures moment { IsMomentOf project.now (moment_of into.new) }
    ensures links { Each (grid_of net.now).links (LinkIsHalfway project.now (period_in (moment_of into.new) tanks.now
        (states_of net.now))) }
{
    for link in 0..net.links() {
        let flow = middle_flow(project, net, tanks, into, link);
        store_flow(into, link, flow);
    }
}
