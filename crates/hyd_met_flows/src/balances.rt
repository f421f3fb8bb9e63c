//! Whether the flows at junctions balance, and what flows into tanks.
#![tactic(auto)]

ghost use Rattle.std.specs.Prelude.{◌≡◌, ◌*◌, ◌^◌, ◌<◌, ◌≤◌, ℕ, List, IfSome, IfNone, length};
ghost use Rattle.std.specs.Prelude.{slice_index_or, unsigned_abs};
ghost use Rattle.std.specs.List.{All};
ghost use Rattle.std.specs.Bool.{OnTrue, OnFalse};
ghost use Rattle.hyd_spec.specs.Lists.{Each};
ghost use Rattle.hyd_spec.specs.ProgramTypes.{LinkState};
ghost use Rattle.hyd_spec.specs.Assignment.{net_outflow, IsBalanced};
ghost use Rattle.hyd_spec.specs.declared.TankState.{TankState as State};
ghost use Rattle.hyd_spec_certificates.specs.PeriodNetwork.{GridJunction};
ghost use Rattle.hyd_spec_witnesses.specs.FirstUnmetClause.{FailsFirstAt};
ghost use Rattle.hyd_spec_witnesses.specs.MetPeriods.{BalanceIsMet};
ghost use Rattle.hyd_spec_witnesses.specs.WitnessText.{IsValue};
ghost use Rattle.hyd_period_network.specs.declared.junctions_ends_and_settings.Tie as ends;
ghost use Rattle.hyd_period_network.specs.NetAsPeriodNetwork.{grid_of, node_count};
ghost use Rattle.hyd_period_network.specs.NetsSetToPeriods.{IsNetOf};
ghost use Rattle.hyd_laws_at_scale.specs.Scales.{parts_of};
ghost use Rattle.hyd_witness_texts.specs.MomentView.{moment_of};
ghost use Rattle.hyd_met_flows.specs.Periods.{period_in, IsMomentOf};
ghost use Rattle.hyd_met_flows.specs.TieFlows.{tie_flow, ties_flow};

use crate::near_flows::tolerance;
use crate::values::value_at;
use hyd_laws_at_scale::Scale;
use hyd_net::Project;
use hyd_period_network::{Net, Tie};
use hyd_witness_texts::Moment;

// What a link end takes out of its node.
fn taken(tie: Tie, flows: &[i128]) -> i128
    requires there { tie.link < length flows.now }
    requires small { All IsValue flows.now }
    ensures value { result ≡ tie_flow flows.now tie }
    ensures small { unsigned_abs result ≤ 10 ^ 24 }
{
    let flow = value_at(flows, tie.link as usize);
    if tie.out { flow } else { -flow }
}

// The link end of this number.
fn tie_at(ties: &[Tie], number: usize) -> Tie
    requires there { number < length ties.now }
    ensures value { result ≡ slice_index_or ties.now number result }
{
    ties[number]
}

// What the link ends of a node take out together.
fn taken_by(ties: &[Tie], flows: &[i128]) -> i128
    requires there { All (λ (tie : ends.Tie). tie.link < length flows.now) ties.now }
    requires few { length ties.now ≤ 40000 }
    requires small { All IsValue flows.now }
    ensures value { result ≡ ties_flow flows.now ties.now }
    ensures small { unsigned_abs result ≤ 4 * 10 ^ 28 }
{
    let mut sum = 0;
    for i in 0..ties.len() {
        let tie = tie_at(ties, i);
        sum += taken(tie, flows);
    }
    sum
}

/// What links take out of a node, less what they bring to it.
pub fn net_outflow(project: &Project, net: &Net, node: u32, flows: &[i128]) -> i128
    requires of { IsNetOf project.now net.now }
    requires there { node < node_count net.now }
    requires each { length flows.now ≡ length project.now.links.list }
    requires small { All IsValue flows.now }
    ensures value { result ≡ net_outflow node project.now.links.list flows.now }
    ensures small { unsigned_abs result ≤ 4 * 10 ^ 28 }
    ensures bound { (most : ℕ) → All (λ q. unsigned_abs q ≤ most) flows.now
        → unsigned_abs result ≤ length project.now.links.list * most }
{
    let _links = net.links();
    taken_by(net.row(node), flows)
}

// Whether these flows balance.
fn is_balanced(scale: Scale, outflow: i128, demand: i128, emitter: i128) -> bool
    requires outflow { unsigned_abs outflow ≤ 4 * 10 ^ 28 }
    requires demand { IsValue demand }
    requires emitter { IsValue emitter }
    ensures yes { OnTrue result (IsBalanced (parts_of scale) outflow demand emitter) }
    ensures no { OnFalse result (IsBalanced (parts_of scale) outflow demand emitter → ⊥) }
{
    let tolerance = tolerance(scale);
    let excess = outflow + demand + emitter;
    excess <= tolerance && -excess <= tolerance
}

// Whether the flows at a junction balance.
fn balance_is_met(
    project: &Project,
    net: &Net,
    scale: Scale,
    moment: &Moment,
    junction: u32,
) -> bool
    requires of { IsNetOf project.now net.now }
    requires there { junction < length net.now.junctions }
    requires moment { IsMomentOf project.now (moment_of moment.now) }
    ensures yes { (tanks : List State) (links : List LinkState) (here : GridJunction)
        → OnTrue result (BalanceIsMet project.now (parts_of scale) (period_in (moment_of moment.now) tanks links)
        junction here) }
    ensures no { (tanks : List State) (links : List LinkState) (here : GridJunction)
        → OnFalse result (BalanceIsMet project.now (parts_of scale) (period_in (moment_of moment.now) tanks links)
        junction here → ⊥) }
{
    let outflow = net_outflow(project, net, junction, moment.flows.as_slice());
    let demand = value_at(moment.demands.as_slice(), junction as usize);
    let emitter = value_at(moment.emitters.as_slice(), junction as usize);
    is_balanced(scale, outflow, demand, emitter)
}

/// The first junction at which the flows don't balance.
pub fn first_unbalanced(project: &Project, net: &Net, scale: Scale, moment: &Moment) -> Option<u32>
    requires of { IsNetOf project.now net.now }
    requires moment { IsMomentOf project.now (moment_of moment.now) }
    ensures some { (tanks : List State) (links : List LinkState) → IfSome result (λ junction.
        FailsFirstAt (grid_of net.now).junctions (BalanceIsMet project.now (parts_of scale)
        (period_in (moment_of moment.now) tanks links)) junction) }
    ensures none { (tanks : List State) (links : List LinkState) → IfNone result
        (Each (grid_of net.now).junctions (BalanceIsMet project.now (parts_of scale)
        (period_in (moment_of moment.now) tanks links))) }
{
    for junction in 0..net.junctions() {
        if !balance_is_met(project, net, scale, moment, junction) {
            return Some(junction);
        }
    }
    None
}
