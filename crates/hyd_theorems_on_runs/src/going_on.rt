//! Each record that leads on has a report, and a run that is not finished goes on or stops.
#![tactic(auto)]

ghost use Rattle.std.specs.Prelude.{◌⊎◌, false, ◌≡◌, ℕ, List};
ghost use Rattle.hyd_net.specs.Sound.{IsSound};
ghost use Rattle.hyd_spec.specs.ProgramTypes.{Project};
ghost use Rattle.hyd_spec_certificates.specs.PeriodNetwork.{Grid};
ghost use Rattle.hyd_spec_certificates.specs.RecordAndStanding.{Record, Standing};
ghost use Rattle.hyd_spec_certificates.specs.Valid.{IsGridAt, LeadsOn};
ghost use Rattle.hyd_spec_reports.specs.ReportLine.{ReportLine};
ghost use Rattle.hyd_spec_reports.specs.Report.{IsReport};
ghost use Rattle.hyd_spec_reports.specs.PromisesOfRunsAndChecks.{Found, IsRun};
ghost use Rattle.hyd_theorems_on_histories.specs.Agreement.{IsKept};
ghost use Rattle.hyd_theorems_on_nesting.specs.StandingsOfRuns.{IsTidy};
ghost use Rattle.hyd_theorems_on_nesting.specs.GoingOnOrStopped.{IsStopped};
ghost use Rattle.hyd_theorems_on_runs.specs.LongerRuns.{IsLonger};

/// Each record that leads on has a report.
pub fn reports()
    ensures { (project : Project) → IsSound project → (grid : Grid) (standing : Standing) (row : Record)
        (next : Standing)
        → IsKept project standing → IsTidy project standing → IsGridAt project standing grid
        → LeadsOn project grid standing row next
        → (lines : List ReportLine) × IsReport project grid standing row lines }
{}

/// Every standing that a run leaves keeps what standings keep. A run that isn't finished goes on by one more period,
/// or a cause of a stop holds at the standing that it leaves, whatever the number of rounds.
pub fn runs()
    ensures keep { (project : Project) → IsSound project → (founds : List Found) (last : Standing)
        → IsRun project founds last
        → IsKept project last × IsTidy project last }
    ensures go_on { (project : Project) → IsSound project → (founds : List Found) (last : Standing)
        → IsRun project founds last
        → last.finished ≡ false → (rounds : ℕ) → IsLonger project founds ⊎ IsStopped project last rounds }
{}
