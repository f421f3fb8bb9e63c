//! All flows of a period halfway.
#![tactic(auto)]

ghost use Rattle.std.specs.Prelude.{◌≡◌, List};
ghost use Rattle.hyd_spec.specs.Lists.{Each};
ghost use Rattle.hyd_spec.specs.ProgramTypes.{LinkState};
ghost use Rattle.hyd_spec.specs.declared.TankState.{TankState as State};
ghost use Rattle.hyd_spec_certificates.specs.RecordAndStanding.{Record};
ghost use Rattle.hyd_spec_witnesses.specs.MetPeriods.{Reached};
ghost use Rattle.hyd_spec_witnesses.specs.MiddleCandidate.{IsMiddle, LinkIsHalfway, DemandIsHalfway};
ghost use Rattle.hyd_spec_witnesses.specs.MiddleCandidate.{EmitterIsHalfway};
ghost use Rattle.hyd_period_network.specs.NetAsPeriodNetwork.{grid_of, states_of};
ghost use Rattle.hyd_witness_texts.specs.MomentView.{moment_of};
ghost use Rattle.hyd_met_flows.specs.Periods.{period_in, IsSet, IsMomentOf};
ghost use Rattle.hyd_middle_flows.specs.CandidateParts.{HasHeadsAndStocks, IsSetFor};
ghost use Rattle.hyd_middle_flows.specs.HalfwayFlows.{with_flows, with_demands, with_emitters};

use crate::links::put_flows;
use crate::outflows::{put_demands, put_emitters};
use hyd_net::Project;
use hyd_period_network::Net;
use hyd_spec::TankState;
use hyd_witness_texts::Moment;

/// Puts the flow of each link, each demand flow and each emitter flow, where a net is set to the moment's period and
/// tanks are in these states: halfway between what the law passes at least and at most at the moment's heads, rounded
/// down, and 0 where the law isn't in range or there is no emitter. Heads, levels and volumes are halves of ticks, and
/// so are the flows. Nothing else of the moment changes.
pub fn put_flows_halfway(project: &Project, net: &Net, tanks: &[TankState], into: &mut Moment)
    requires set { IsSet project.now net.now tanks.now }
    requires moment { IsMomentOf project.now (moment_of into.old) }
    ensures rest { moment_of into.new ≡ with_emitters (with_demands (with_flows (moment_of into.old)
        into.new.flows.list) into.new.demands.list) into.new.emitters.list }
    ensures moment { IsMomentOf project.now (moment_of into.new) }
    ensures links { Each (grid_of net.now).links (LinkIsHalfway project.now (period_in (moment_of into.new) tanks.now
        (states_of net.now))) }
    ensures demands { (tanks : List State) (links : List LinkState)
        → Each (grid_of net.now).junctions (DemandIsHalfway (period_in (moment_of into.new) tanks links)) }
    ensures emitters { (tanks : List State) (links : List LinkState)
        → Each (grid_of net.now).junctions (EmitterIsHalfway (period_in (moment_of into.new) tanks links)) }

    // Where a moment had all else of the middle candidate, it is that candidate now.
    ensures middle { (reached : Reached) (row : Record)
        → HasHeadsAndStocks project.now reached row (moment_of into.old)
        → IsSetFor project.now reached (moment_of into.old) net.now tanks.now
        → IsMiddle project.now reached row (moment_of into.new) }
{
    put_flows(project, net, tanks, into);
    put_demands(net, into);
    put_emitters(net, into);
}
