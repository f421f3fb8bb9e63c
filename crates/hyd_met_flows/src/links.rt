//! Whether the flows of links are met.
#![tactic(auto)]

ghost use Rattle.std.specs.Prelude.{◌≡◌, ◌<◌, Some, IfSome, IfNone, length, slice_get};
ghost use Rattle.std.specs.Prelude.{List};
ghost use Rattle.std.specs.List.{All};
ghost use Rattle.std.specs.Bool.{OnTrue, OnFalse};
ghost use Rattle.hyd_net.specs.Sound.{IsSound};
ghost use Rattle.hyd_spec.specs.Lists.{Each};
ghost use Rattle.hyd_spec.specs.Assignment.{flow_at};
ghost use Rattle.hyd_spec.specs.declared.TankState.{TankState as State};
ghost use Rattle.hyd_spec_certificates.specs.PeriodNetwork.{GridLink};
ghost use Rattle.hyd_spec_witnesses.specs.FirstUnmetClause.{FailsFirstAt};
ghost use Rattle.hyd_spec_witnesses.specs.MetPeriods.{difference_of, LinkIsMet};
ghost use Rattle.hyd_period_network.specs.NetView.{NetView};
ghost use Rattle.hyd_period_network.specs.NetAsPeriodNetwork.{grid_of, states_of};
ghost use Rattle.hyd_laws_at_scale.specs.Scales.{parts_of};
ghost use Rattle.hyd_laws_at_scale.specs.Windows.{IsAnswer};
ghost use Rattle.hyd_witness_texts.specs.MomentView.{moment_of};
ghost use Rattle.hyd_met_flows.specs.Periods.{period_in, IsSet, IsMomentOf, IsSmallFlow};

use crate::forbidden_ways::{forbids_forward, forbids_reverse};
use crate::heads::head_of;
use crate::near_flows::is_met;
use crate::values::value_at;
use hyd_laws_at_scale::{Scale, Window, link_window};
use hyd_net::Project;
use hyd_period_network::Net;
use hyd_spec::TankState;
use hyd_witness_texts::Moment;

/// The head difference between the ends of a link, in parts of a head tick.
pub fn difference_of(project: &Project, scale: Scale, moment: &Moment, link: u32) -> i128
    requires sound { IsSound project.now }
    requires there { link < length project.now.links.list }
    requires moment { IsMomentOf project.now (moment_of moment.now) }
    ensures { (net : NetView) (tanks : List State) (here : GridLink) → IsSet project.now net tanks
        → slice_get (grid_of net).links link ≡ Some here
        → result ≡ difference_of project.now (parts_of scale) (period_in (moment_of moment.now) tanks (states_of net))
        here }
{
    let here = project.links.as_slice()[link as usize];
    let from = head_of(project, scale, moment, here.from);
    let to = head_of(project, scale, moment, here.to);
    from - to
}

/// The low and the high flow of a link at a head difference in parts of a head tick, in the states of the net's links
/// and of tanks. There are none exactly where its law isn't in range.
pub fn window_of_link(
    project: &Project,
    net: &Net,
    tanks: &[TankState],
    scale: Scale,
    link: u32,
    difference: i128,
) -> Option<Window>
    requires set { IsSet project.now net.now tanks.now }
    requires there { link < length project.now.links.list }
    ensures { (here : GridLink) → slice_get (grid_of net.now).links link ≡ Some here
        → IsAnswer (parts_of scale) here.law difference result }
{
    let _links = net.links();
    let here = &project.links.as_slice()[link as usize];
    let no_forward = forbids_forward(project, tanks, here);
    let no_reverse = forbids_reverse(project, tanks, here);
    link_window(net.own_law(link), no_forward, no_reverse, scale, difference)
}

// Whether the flow of a link is met.
fn link_is_met(
    project: &Project,
    net: &Net,
    tanks: &[TankState],
    scale: Scale,
    moment: &Moment,
    link: u32,
) -> bool
    requires set { IsSet project.now net.now tanks.now }
    requires there { link < length project.now.links.list }
    requires moment { IsMomentOf project.now (moment_of moment.now) }
    ensures yes { (here : GridLink) → slice_get (grid_of net.now).links link ≡ Some here
        → OnTrue result (LinkIsMet project.now (parts_of scale) (period_in (moment_of moment.now) tanks.now
        (states_of net.now)) link here) }
    ensures no { (here : GridLink) → slice_get (grid_of net.now).links link ≡ Some here
        → OnFalse result (LinkIsMet project.now (parts_of scale) (period_in (moment_of moment.now) tanks.now
        (states_of net.now)) link here → ⊥) }
    ensures small { OnTrue result (IsSmallFlow (flow_at moment.now.flows.list link)) }
{
    let difference = difference_of(project, scale, moment, link);
    let window = window_of_link(project, net, tanks, scale, link, difference);
    let flow = value_at(moment.flows.as_slice(), link as usize);
    is_met(window, scale, flow)
}

/// The first link of which the flow isn't met, where the net is set to the period and tanks are in these states. Where
/// there is none, the flows are such that inflows of tanks fit.
pub fn first_unmet_link(
    project: &Project,
    net: &Net,
    tanks: &[TankState],
    scale: Scale,
    moment: &Moment,
) -> Option<u32>
    requires set { IsSet project.now net.now tanks.now }
    requires moment { IsMomentOf project.now (moment_of moment.now) }
    ensures some { IfSome result (λ link. FailsFirstAt (grid_of net.now).links (LinkIsMet project.now (parts_of scale)
        (period_in (moment_of moment.now) tanks.now (states_of net.now))) link) }
    ensures none { IfNone result (Each (grid_of net.now).links (LinkIsMet project.now (parts_of scale)
        (period_in (moment_of moment.now) tanks.now (states_of net.now)))) }
    ensures small { IfNone result (All IsSmallFlow moment.now.flows.list) }
{
    for link in 0..net.links() {
        if !link_is_met(project, net, tanks, scale, moment, link) {
            return Some(link);
        }
    }
    None
}
