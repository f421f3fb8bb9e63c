//! Controls by time and by the clock end periods: not the one that begins where they act, but the one before.
#![tactic(auto)]

ghost use Rattle.std.specs.Prelude.{ℕ, ◌≤◌};
ghost use Rattle.hyd_spec.specs.ProgramTypes.{Open, Closed};
ghost use Rattle.hyd_spec.specs.PeriodLength.{EndsByClock, HasItsLength};
ghost use Rattle.hyd_spec.specs.History.{IsHistory};
ghost use Rattle.hyd_cases_of_histories.specs.OneLink.{network_of};
ghost use Rattle.hyd_cases_of_histories.specs.Timed.{timed_spur, still, periods};

/// The control at 1000 s ends a period that begins before then, and none that begins then.
pub fn by_time()
    ensures ends { EndsByClock (network_of timed_spur) 999 1000 }
    ensures not_at_start { EndsByClock (network_of timed_spur) 1000 1000 → ⊥ }
    ensures lasts { HasItsLength (network_of timed_spur) 1 (still 0 1000 Open) }
{}

/// The control at 2:00 ends a period that begins before then, on the next day too, and none that begins then.
pub fn by_clock()
    ensures ends { EndsByClock (network_of timed_spur) 1199 1200 }
    ensures next_day { EndsByClock (network_of timed_spur) 1200 87600 }
    ensures not_at_start { EndsByClock (network_of timed_spur) 1200 1200 → ⊥ }
    ensures lasts { HasItsLength (network_of timed_spur) 1 (still 1000 200 Closed) }
{}

/// Neither ends a period that begins at 1200 s before the end of the run.
pub fn after_both()
    ensures no_sooner { (e : ℕ) → EndsByClock (network_of timed_spur) 1200 e → 4000 ≤ e }
    ensures lasts { HasItsLength (network_of timed_spur) 1 (still 1200 2800 Open) }
{}

/// The history of the whole run.
pub fn history()
    ensures { IsHistory (network_of timed_spur) 1 periods }
{}
