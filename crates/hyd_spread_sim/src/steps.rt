//! One period of a run for a spread after another.
#![tactic(auto)]

ghost use Rattle.std.specs.Prelude.{◌≡◌, Some, None, true, false, IfErr, OnOk, OnErr};
ghost use Rattle.hyd_spec_spread_stops.specs.StopsOfSpreads.{StopsOver};
ghost use Rattle.hyd_spec_spread_reports.specs.TextsOfSpreadReports.{says_nothing};
ghost use Rattle.hyd_cert.specs.RecordView.{row_of};
ghost use Rattle.hyd_spread_networks.specs.NetsOfSpreads.{pair_of};
ghost use Rattle.hyd_spread_stops.specs.StuckOverSpreads.{NamesStuckOver};
ghost use Rattle.hyd_spread_sim.specs.DuePeriods.{IsSharpOver};
ghost use Rattle.hyd_spread_sim.specs.SpreadRunView.{standing_of};
ghost use Rattle.hyd_spread_sim.specs.SpreadSteps.{IsPeriodOver, StepGivesOver};

use crate::advance::advance;
use crate::spread_sim::SpreadSim;
use hyd_finders::Finder;
use hyd_sim::Step;
use hyd_spec_certificates::StopCause;

impl SpreadSim {
    // Does the period that is due.
    fn period<F: Finder, G: Finder>(
        &mut self,
        above: &mut F,
        below: &mut G,
    ) -> Result<(), StopCause>
        requires unfinished { (standing_of self.old).known.finished ≡ false }
        requires running { self.old.stopped ≡ None }
        requires told { says_nothing self.old.nets.spread ≡ true → G.told below.old ≡ F.told above.old }
        ensures period { OnOk result (IsPeriodOver self.old self.new) }
        ensures sharp { OnOk result (IsSharpOver (record { above = F.told above.old; below = G.told below.old })
            self.old.project self.old.settings self.old.nets.spread (standing_of self.old) (pair_of self.new.nets)
            (row_of self.new.found.row) (standing_of self.new)) }
        ensures stops { IfErr result (StopsOver self.old.project self.old.nets.spread (standing_of self.old)
            self.old.settings.slack self.old.settings.search.rounds) }
        ensures stuck { IfErr result (NamesStuckOver self.old.project self.old.nets.spread
            (standing_of self.old).known self.old.settings.search.rounds) }
        ensures standing { OnErr result (standing_of self.new ≡ standing_of self.old) }
        ensures running { self.new.stopped ≡ None }
        ensures project { self.new.project ≡ self.old.project }
        ensures settings { self.new.settings ≡ self.old.settings }
        ensures spread { self.new.nets.spread ≡ self.old.nets.spread }
        ensures told_above { F.told above.new ≡ F.told above.old }
        ensures told_below { G.told below.new ≡ G.told below.old }
    {
        advance(
            &self.project,
            self.settings,
            &mut self.standing,
            &mut self.nets,
            above,
            below,
            &mut self.search,
            &mut self.found,
            &mut self.facts,
            &mut self.close,
        )
    }

    /// Does the period that is due, with vectors that the finders of both nets propose or that rounds of raises find;
    /// where the rounds toward one are spent, where these leave a matter open or an end by more seconds than the slack,
    /// or their record isn't narrow on a net, and where tight vectors are asked for, with the tight ones. It takes no
    /// memory. Stops with the cause that holds at the standing, which then stays; after that it answers the same cause
    /// again. A stop that says that no vector is a certificate names a junction that has no value at heads that were
    /// reached. Finished comes exactly where the period at the end of the run is over. (Where there is no spread both
    /// nets are alike, only the first finder is asked, and the other tells what it does.)
    pub fn step<F: Finder, G: Finder>(&mut self, above: &mut F, below: &mut G) -> Step
        requires told { says_nothing self.old.nets.spread ≡ true → G.told below.old ≡ F.told above.old }
        ensures gives { StepGivesOver self.old self.new result }
        ensures sharp { result ≡ Step.Period
            → IsSharpOver (record { above = F.told above.old; below = G.told below.old }) self.old.project
            self.old.settings self.old.nets.spread (standing_of self.old) (pair_of self.new.nets)
            (row_of self.new.found.row) (standing_of self.new) }
        ensures stuck { (cause : StopCause) → result ≡ Step.Stop cause → NamesStuckOver self.new.project
            self.new.nets.spread (standing_of self.new).known self.new.settings.search.rounds cause }
        ensures again { (cause : StopCause) → self.old.stopped ≡ Some cause
            → (result ≡ Step.Stop cause) × (self.new ≡ self.old) }
        ensures finished { self.old.stopped ≡ None → (standing_of self.old).known.finished ≡ true
            → result ≡ Step.Finished }
        ensures project { self.new.project ≡ self.old.project }
        ensures settings { self.new.settings ≡ self.old.settings }
        ensures spread { self.new.nets.spread ≡ self.old.nets.spread }
        ensures told_above { F.told above.new ≡ F.told above.old }
        ensures told_below { G.told below.new ≡ G.told below.old }
    {
        if let Some(cause) = self.stopped {
            return Step::Stop(cause);
        }
        if self.standing.finished {
            return Step::Finished;
        }
        match self.period(above, below) {
            Ok(()) => Step::Period,
            Err(cause) => {
                self.stopped = Some(cause);
                Step::Stop(cause)
            }
        }
    }
}
