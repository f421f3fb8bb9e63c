//! One period after another.
#![tactic(auto)]

ghost use Rattle.std.specs.Prelude.{◌≡◌, Some, None, true, false, IfErr, OnOk, OnErr};
ghost use Rattle.hyd_spec_open_ends.specs.PromisesOfOpenRuns.{StopsOpenly};
ghost use Rattle.hyd_open_certificates.specs.OpenRowView.{open_record_of};
ghost use Rattle.hyd_period_network.specs.NetAsPeriodNetwork.{grid_of};
ghost use Rattle.hyd_sim.specs.NarrowRecordsAndStops.{NamesStuck};
ghost use Rattle.hyd_open_sim.specs.Steps.{StepGives, IsPeriod, IsSharpAsSought};
ghost use Rattle.hyd_open_sim.specs.RunView.{standing_of};

use crate::due_period::advance;
use crate::open_sim::OpenSim;
use hyd_finders::Finder;
use hyd_sim::Step;
use hyd_spec_certificates::StopCause;

impl OpenSim {
    // Does the period that is due.
    fn period<F: Finder>(&mut self, finder: &mut F) -> Result<(), StopCause>
        requires unfinished { (standing_of self.old).known.finished ≡ false }
        requires running { self.old.stopped ≡ None }
        ensures period { OnOk result (IsPeriod self.old self.new) }
        ensures sought { OnOk result (IsSharpAsSought (F.told finder.old) self.old.project self.old.settings
            (standing_of self.old) (grid_of self.new.net) (open_record_of self.new.found) (standing_of self.new)) }
        ensures stops { IfErr result (StopsOpenly self.old.project (standing_of self.old) self.old.settings.slack
            self.old.settings.search.rounds) }
        ensures stuck { IfErr result (NamesStuck self.old.project (standing_of self.old).known
            self.old.settings.search.rounds) }
        ensures standing { OnErr result (standing_of self.new ≡ standing_of self.old) }
        ensures running { self.new.stopped ≡ None }
        ensures project { self.new.project ≡ self.old.project }
        ensures settings { self.new.settings ≡ self.old.settings }
        ensures told { F.told finder.new ≡ F.told finder.old }
    {
        advance(
            &self.project,
            self.settings,
            &mut self.standing,
            &mut self.net,
            &mut self.search,
            &mut self.found,
            &mut self.facts,
            &mut self.close,
            finder,
        )
    }

    /// Does the period that is due, with vectors that the finder proposes or that rounds of raises find; where the
    /// rounds toward one are spent, where these leave a matter open or an end by more seconds than the slack, or their
    /// record isn't narrow, and where tight vectors are asked for, with the tight ones. It takes no memory. Stops with
    /// the cause that holds at the standing, which then stays; after that it answers the same cause again. A stop that
    /// says that no vector is a certificate names a junction that has no value at heads that were reached. Finished
    /// comes exactly where the period at the end of the run is over.
    pub fn step<F: Finder>(&mut self, finder: &mut F) -> Step
        ensures gives { StepGives self.old self.new result }
        ensures sought { result ≡ Step.Period → IsSharpAsSought (F.told finder.old) self.old.project self.old.settings
            (standing_of self.old) (grid_of self.new.net) (open_record_of self.new.found) (standing_of self.new) }
        ensures stuck { (cause : StopCause) → result ≡ Step.Stop cause
            → NamesStuck self.new.project (standing_of self.new).known self.new.settings.search.rounds cause }
        ensures again { (cause : StopCause) → self.old.stopped ≡ Some cause
            → (result ≡ Step.Stop cause) × (self.new ≡ self.old) }
        ensures finished { self.old.stopped ≡ None → (standing_of self.old).known.finished ≡ true
            → result ≡ Step.Finished }
        ensures project { self.new.project ≡ self.old.project }
        ensures settings { self.new.settings ≡ self.old.settings }
        ensures told { F.told finder.new ≡ F.told finder.old }
    {
        if let Some(cause) = self.stopped {
            return Step::Stop(cause);
        }
        if self.standing.finished {
            return Step::Finished;
        }
        match self.period(finder) {
            Ok(()) => Step::Period,
            Err(cause) => {
                self.stopped = Some(cause);
                Step::Stop(cause)
            }
        }
    }
}
