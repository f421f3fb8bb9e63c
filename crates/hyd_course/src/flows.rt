//! The first flow of a moment that isn't met, or junction whose flows don't balance.
#![tactic(auto)]

ghost use Rattle.std.specs.Prelude.{◌≡◌, IfSome, IfNone};
ghost use Rattle.std.specs.List.{All};
ghost use Rattle.hyd_spec_witnesses.specs.MetPeriods.{Reached, StartIsMet, commanded_at};
ghost use Rattle.hyd_spec_witnesses.specs.FirstUnmetClause.{IsUnmet, HasItsLinks, Balances};
ghost use Rattle.hyd_period_network.specs.NetAsPeriodNetwork.{grid_of};
ghost use Rattle.hyd_laws_at_scale.specs.Scales.{parts_of};
ghost use Rattle.hyd_witness_texts.specs.MomentView.{moment_of};
ghost use Rattle.hyd_met_flows.specs.Periods.{IsMomentOf, IsSet, IsSmallFlow};
ghost use Rattle.hyd_course.specs.NetsSetForMoments.{IsSetAt};

use crate::set_net::SetNet;
use hyd_laws_at_scale::Scale;
use hyd_met_flows::{first_unbalanced, first_unmet_demand, first_unmet_emitter, first_unmet_link};
use hyd_net::Project;
use hyd_spec_witnesses::{MetClause, Unmet};
use hyd_witness_texts::Moment;

/// The clause fails at a link or a junction of this number.
pub(crate) fn at(clause: MetClause, number: u32) -> Unmet
    ensures clause { result.clause ≡ clause }
    ensures number { result.number ≡ number }
{
    Unmet { clause, number }
}

// The first junction whose demand flow or emitter flow isn't met, or whose flows don't balance.
fn first_unmet_junction(
    project: &Project,
    set: &SetNet,
    scale: Scale,
    moment: &Moment,
) -> Option<Unmet>
    requires set { IsSet project.now set.now.net set.now.tanks.items }
    requires moment { IsMomentOf project.now (moment_of moment.now) }
    ensures unmet { (reached : Reached) → HasItsLinks project.now (parts_of scale) reached (moment_of moment.now)
        (grid_of set.now.net).junctions → IfSome result (IsUnmet project.now (parts_of scale) reached
        (moment_of moment.now)) }
    ensures met { (reached : Reached) → HasItsLinks project.now (parts_of scale) reached (moment_of moment.now)
        (grid_of set.now.net).junctions → IfNone result (Balances project.now (parts_of scale) reached
        (moment_of moment.now) (grid_of set.now.net).junctions) }
{
    if let Some(junction) = first_unmet_demand(&set.net, scale, moment) {
        return Some(at(MetClause::Demand, junction));
    }
    if let Some(junction) = first_unmet_emitter(&set.net, scale, moment) {
        return Some(at(MetClause::Emitter, junction));
    }
    if let Some(junction) = first_unbalanced(project, &set.net, scale, moment) {
        return Some(at(MetClause::Balance, junction));
    }
    None
}

/// The first link whose flow isn't met where the net is set to a moment that has its start; then the first junction
/// whose demand flow isn't, then that whose emitter flow isn't, and then that whose flows don't balance.
pub(crate) fn first_unmet_flow(
    project: &Project,
    set: &SetNet,
    scale: Scale,
    moment: &Moment,
) -> Option<Unmet>
    requires set { IsSet project.now set.now.net set.now.tanks.items }
    requires moment { IsMomentOf project.now (moment_of moment.now) }
    ensures unmet { (reached : Reached) → IsSetAt project.now (parts_of scale) moment.now.time moment.now.levels.list
        (commanded_at project.now (parts_of scale) reached.last) set.now
        → StartIsMet project.now (parts_of scale) reached (moment_of moment.now)
        → IfSome result (IsUnmet project.now (parts_of scale) reached (moment_of moment.now)) }
    ensures met { (reached : Reached) → IsSetAt project.now (parts_of scale) moment.now.time moment.now.levels.list
        (commanded_at project.now (parts_of scale) reached.last) set.now
        → StartIsMet project.now (parts_of scale) reached (moment_of moment.now)
        → IfNone result (Balances project.now (parts_of scale) reached (moment_of moment.now)
        (grid_of set.now.net).junctions) }
    ensures small { IfNone result (All IsSmallFlow moment.now.flows.list) }
{
    if let Some(link) = first_unmet_link(project, &set.net, &set.tanks, scale, moment) {
        return Some(at(MetClause::Link, link));
    }
    first_unmet_junction(project, set, scale, moment)
}
