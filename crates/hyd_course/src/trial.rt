//! What a moment is tried with.
#![tactic(auto)]

ghost use Rattle.std.specs.Prelude.{◌≡◌, ◌+◌, ◌≤◌, IfOk, IfErr, OnOk};
ghost use Rattle.std.specs.List.{All};
ghost use Rattle.std.specs.Bool.{OnTrue, OnFalse};
ghost use Rattle.hyd_net.specs.Sound.{IsSound};
ghost use Rattle.hyd_spec.specs.PeriodLength.{HasItsLength};
ghost use Rattle.hyd_spec_witnesses.specs.MetPeriods.{Reached, IsMet};
ghost use Rattle.hyd_spec_witnesses.specs.FirstUnmetClause.{IsUnmet};
ghost use Rattle.hyd_laws_at_scale.specs.Scales.{parts_of};
ghost use Rattle.hyd_witness_texts.specs.MomentView.{moment_of};
ghost use Rattle.hyd_met_flows.specs.Periods.{period_in, IsMomentOf, IsSmallFlow};
ghost use Rattle.hyd_length_at_scale.specs.MetPeriods.{AreInflows, IsMetPeriod, told};
ghost use Rattle.hyd_length_at_scale.specs.ReservedMemory.{IsRoomFor};
ghost use Rattle.hyd_course.specs.Stocks.{AreSmallStocks};
ghost use Rattle.hyd_course.specs.Standings.{IsStanding, StandsAt};
ghost use Rattle.hyd_course.specs.Trials.{IsTrial, IsTried};

use crate::flows::{at, first_unmet_flow};
use crate::set_net::SetNet;
use crate::standing::Standing;
use crate::starts::start_is_met;
use hyd_laws_at_scale::Scale;
use hyd_length_at_scale::{EndRoom, MetPeriod, least_end, put_inflows};
use hyd_net::{OutOfMemory, Project};
use hyd_spec_witnesses::{MetClause, Unmet};
use hyd_witness_texts::Moment;
use std::alloc::Global;

/// What a moment is tried with.
#[derive(Drop)]
pub struct Trial {
    pub set: SetNet,
    /// What flows into each tank, in parts of a flow tick.
    pub inflows: Vec<i128>,
    /// Room for the end of a period.
    pub end: EndRoom,
}

// The clause fails, which speaks of no place.
fn nowhere(clause: MetClause) -> Unmet
    ensures clause { result.clause ≡ clause }
    ensures number { result.number ≡ 0 }
{
    Unmet { clause, number: 0 }
}

// Whether two numbers of seconds are one.
fn is_same(a: u32, b: u32) -> bool
    ensures yes { OnTrue result (a ≡ b) }
    ensures no { OnFalse result (a ≡ b → ⊥) }
{
    a == b
}

// Whether a moment whose flows are met has its length.
fn has_its_length(period: &MetPeriod<'_>, end: &mut EndRoom) -> bool
    requires period { IsMetPeriod period.now }
    requires room { IsRoomFor period.now.project.now end.old }
    requires within { period.now.moment.now.time ≤ period.now.project.now.times.duration }
    ensures yes { OnTrue result (HasItsLength period.now.project.now (parts_of period.now.scale) (told period.now)) }
    ensures no { OnFalse result (HasItsLength period.now.project.now (parts_of period.now.scale) (told period.now)
        → ⊥) }
    ensures within { OnTrue result (period.now.moment.now.time + period.now.moment.now.length
        ≤ period.now.project.now.times.duration) }
    ensures room { IsRoomFor period.now.project.now end.new }
{
    let moment = period.moment;
    if moment.time == period.project.times.duration {
        return is_same(moment.length, 0);
    }
    let least = least_end(period, end);
    is_same(moment.length, least - moment.time)
}

impl Trial {
    /// All the memory that trying moments of a network takes.
    pub fn open(alloc: Global, project: &Project) -> Result<Trial, OutOfMemory>
        requires { IsSound project.now }
        ensures { IfOk result (IsTrial project.now) }
    {
        let set = SetNet::open(alloc, project)?;
        let inflows = vec![in alloc; 0; project.tanks.len()]?;
        let end = EndRoom::open(alloc, project)?;
        Ok(Trial { set, inflows, end })
    }

    // Whether a moment to which the net is set, and whose flows are met, has its length. What flows into tanks is then
    // at hand.
    fn lasts(&mut self, project: &Project, scale: Scale, moment: &Moment) -> bool
        requires sound { IsSound project.now }
        requires trial { IsTrial project.now self.old }
        requires moment { IsMomentOf project.now (moment_of moment.now) }
        requires flows { All IsSmallFlow moment.now.flows.list }
        requires stocks { AreSmallStocks project.now (moment_of moment.now) }
        requires within { moment.now.time ≤ project.now.times.duration }
        ensures yes { OnTrue result (HasItsLength project.now (parts_of scale) (period_in (moment_of moment.now)
            self.old.set.tanks.items self.old.set.links.items)) }
        ensures no { OnFalse result (HasItsLength project.now (parts_of scale) (period_in (moment_of moment.now)
            self.old.set.tanks.items self.old.set.links.items) → ⊥) }
        ensures within { OnTrue result (moment.now.time + moment.now.length ≤ project.now.times.duration) }
        ensures inflows { AreInflows project.now moment.now.flows.list self.new.inflows.items }
        ensures set { self.new.set ≡ self.old.set }
        ensures trial { IsTrial project.now self.new }
    {
        put_inflows(project, &self.set.net, moment, &mut self.inflows);
        let period = MetPeriod {
            project,
            scale,
            moment,
            inflows: &self.inflows,
            tanks: &self.set.tanks,
            links: &self.set.links,
        };
        has_its_length(&period, &mut self.end)
    }

    /// Tries a moment as the next one where a course stands so. Fails with the first of its clauses that isn't met.
    pub(crate) fn judge(
        &mut self,
        project: &Project,
        standing: &Standing,
        moment: &Moment,
    ) -> Result<(), Unmet>
        requires sound { IsSound project.now }
        requires standing { IsStanding project.now standing.now }
        requires trial { IsTrial project.now self.old }
        requires moment { IsMomentOf project.now (moment_of moment.now) }
        ensures met { (reached : Reached) → StandsAt project.now (parts_of standing.now.scale) reached standing.now
            → OnOk result (IsMet project.now (parts_of standing.now.scale) reached (moment_of moment.now)) }
        ensures unmet { (reached : Reached) → StandsAt project.now (parts_of standing.now.scale) reached standing.now
            → IfErr result (IsUnmet project.now (parts_of standing.now.scale) reached (moment_of moment.now)) }
        ensures tried { OnOk result (IsTried project.now (parts_of standing.now.scale) standing.now.commanded.items
            (moment_of moment.now) self.new) }
        ensures trial { IsTrial project.now self.new }
    {
        if !start_is_met(project, standing, moment) {
            return Err(nowhere(MetClause::Start));
        }
        let scale = standing.scale;
        let levels = moment.levels.as_slice();
        match self
            .set
            .set(project, scale, moment.time, levels, &standing.commanded)
        {
            Ok(()) => {}
            Err(fault) => return Err(at(MetClause::Demand, fault.junction)),
        }
        if let Some(unmet) = first_unmet_flow(project, &self.set, scale, moment) {
            return Err(unmet);
        }
        if !self.lasts(project, scale, moment) {
            return Err(nowhere(MetClause::Length));
        }
        Ok(())
    }
}
