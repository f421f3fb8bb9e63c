//! A record has one report, and a tight run that the relations accept is the only tight one of as many periods.
#![tactic(auto)]

ghost use Rattle.std.specs.Prelude.{◌≡◌, List, length};
ghost use Rattle.std.specs.List.{AllByRecursion};
ghost use Rattle.hyd_spec.specs.ProgramTypes.{Project};
ghost use Rattle.hyd_spec_certificates.specs.PeriodNetwork.{Grid};
ghost use Rattle.hyd_spec_certificates.specs.RecordAndStanding.{Record, Standing};
ghost use Rattle.hyd_spec_reports.specs.ReportLine.{ReportLine};
ghost use Rattle.hyd_spec_reports.specs.Report.{IsReport};
ghost use Rattle.hyd_spec_reports.specs.PromisesOfRunsAndChecks.{Found, IsRun, IsTightThroughout};

/// A record has one report.
pub fn reports()
    ensures { (project : Project) (grid : Grid) (standing : Standing) (row : Record) (a b : List ReportLine)
        → IsReport project grid standing row a → IsReport project grid standing row b → a ≡ b }
{}

/// Two tight runs of as many periods are the same, and leave the same standing.
pub fn runs()
    ensures { (project : Project) → (a b : List Found) (last other : Standing)
        → IsRun project a last → IsRun project b other → AllByRecursion (IsTightThroughout project) a
        → AllByRecursion (IsTightThroughout project) b → length a ≡ length b → (a ≡ b) × (last ≡ other) }
{}
