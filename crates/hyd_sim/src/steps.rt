//! One period after another.
#![tactic(auto)]

ghost use Rattle.std.specs.Prelude.{◌≡◌, Some, None, true, false, IfErr, IsOk, OnOk, OnErr};
ghost use Rattle.hyd_spec.specs.NodeNumbers.{tank_count};
ghost use Rattle.hyd_spec_certificates.specs.RecordAndStanding.{Record as Row};
ghost use Rattle.hyd_spec_certificates.specs.Stops.{Stops};
ghost use Rattle.hyd_cert.specs.RecordView.{row_of};
ghost use Rattle.hyd_period_network.specs.NetAsPeriodNetwork.{grid_of};
ghost use Rattle.hyd_period_vectors.specs.SoughtVectors.{HaveSame};
ghost use Rattle.hyd_sim.specs.NarrowRecordsAndStops.{NamesStuck};
ghost use Rattle.hyd_sim.specs.Steps.{StepGives, IsPeriod, IsProposal, IsSharpAsSought};
ghost use Rattle.hyd_sim.specs.RunView.{standing_of};

use crate::due_period::advance;
use crate::sim::Sim;
use hyd_period_vectors::Finder;
use hyd_spec_certificates::StopCause;

/// What a step did.
#[derive(Clone, Copy, Drop)]
pub enum Step {
    /// A period was done.
    Period,
    /// The run is over: nothing was done.
    Finished,
    /// The run can't go on. Every later step answers the same cause.
    Stop(StopCause),
}

impl Sim {
    // Does the period that is due.
    fn period<F: Finder>(&mut self, finder: &mut F) -> Result<(), StopCause>
        requires unfinished { (standing_of self.old).finished ≡ false }
        requires running { self.old.stopped ≡ None }
        ensures period { OnOk result (IsPeriod self.old self.new) }
        ensures sought { OnOk result (IsSharpAsSought (F.told finder.old) self.old.project self.old.settings
            (standing_of self.old) (grid_of self.new.net) (row_of self.new.row) (standing_of self.new)) }
        ensures stops { IfErr result (Stops self.old.project (standing_of self.old) self.old.settings.rounds) }
        ensures stuck { IfErr result (NamesStuck self.old.project (standing_of self.old) self.old.settings.rounds) }
        ensures standing { OnErr result (standing_of self.new ≡ standing_of self.old) }
        ensures running { self.new.stopped ≡ None }
        ensures project { self.new.project ≡ self.old.project }
        ensures settings { self.new.settings ≡ self.old.settings }
        ensures proposal { (w : Row) → self.old.settings.tight ≡ false
            → IsProposal (F.told finder.old) self.old.project self.old.settings (standing_of self.old) w
            → IsOk result × HaveSame (tank_count self.old.project) (row_of self.new.row) w }
        ensures told { F.told finder.new ≡ F.told finder.old }
    {
        advance(
            &self.project,
            self.settings,
            &mut self.standing,
            &mut self.net,
            &mut self.search,
            &mut self.row,
            &mut self.facts,
            &mut self.close,
            finder,
        )
    }

    /// Does the period that is due, with vectors that the finder proposes or that rounds of raises find; where the
    /// rounds toward one are spent, where these leave a matter open or their record isn't narrow, and where tight
    /// vectors are asked for, with the tight ones. It takes no memory. Stops with the cause that holds at the standing,
    /// which then stays; after that it answers the same cause again. A stop that says that no vector is a certificate
    /// names a junction that has no value at heads that were reached. Finished comes exactly where the period at the
    /// end of the run is over.
    pub fn step<F: Finder>(&mut self, finder: &mut F) -> Step
        ensures gives { StepGives self.old self.new result }
        ensures sought { result ≡ Step.Period → IsSharpAsSought (F.told finder.old) self.old.project self.old.settings
            (standing_of self.old) (grid_of self.new.net) (row_of self.new.row) (standing_of self.new) }
        ensures stuck { (cause : StopCause) → result ≡ Step.Stop cause
            → NamesStuck self.new.project (standing_of self.new) self.new.settings.rounds cause }
        ensures again { (cause : StopCause) → self.old.stopped ≡ Some cause
            → (result ≡ Step.Stop cause) × (self.new ≡ self.old) }
        ensures finished { self.old.stopped ≡ None → (standing_of self.old).finished ≡ true → result ≡ Step.Finished }
        ensures project { self.new.project ≡ self.old.project }
        ensures settings { self.new.settings ≡ self.old.settings }
        ensures proposal { (w : Row) → self.old.stopped ≡ None → (standing_of self.old).finished ≡ false
            → self.old.settings.tight ≡ false
            → IsProposal (F.told finder.old) self.old.project self.old.settings (standing_of self.old) w
            → (result ≡ Step.Period) × HaveSame (tank_count self.old.project) (row_of self.new.row) w }
        ensures told { F.told finder.new ≡ F.told finder.old }
    {
        if let Some(cause) = self.stopped {
            return Step::Stop(cause);
        }
        if self.standing.finished {
            return Step::Finished;
        }
        match self.period(finder) {
            Ok(()) => Step::Period,
            Err(cause) => {
                self.stopped = Some(cause);
                Step::Stop(cause)
            }
        }
    }
}
