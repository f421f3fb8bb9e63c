//! How a run ends.
#![tactic(auto)]

ghost use Rattle.std.specs.Prelude.{◌≡◌};
ghost use Rattle.hyd_spec_reports.specs.PromisesOfRunsAndChecks.{is_finished};
ghost use Rattle.hyd_run.specs.Runs.{outcome_of};

use hyd_spec_certificates::StopCause;

/// How a run ended.
#[derive(Clone, Copy, Drop)]
pub enum RunEnd {
    /// The period at the end of the run was done.
    Finished,
    /// The run can't go on.
    Stopped(StopCause),
}

/// Whether a run has finished.
pub fn is_finished(end: RunEnd) -> bool
    ensures { result ≡ is_finished (outcome_of end) }
{
    match end {
        RunEnd::Finished => true,
        RunEnd::Stopped(_) => false,
    }
}
