//! Every history of a sound network agrees with every run of valid records: heads, lengths, states of tanks and links, and
//! every line of every report, at every scale.
#![tactic(auto)]

ghost use Rattle.std.specs.Prelude.{◌≡◌, ℕ, List};
ghost use Rattle.std.specs.List.{AllZip, AllByRecursion};
ghost use Rattle.hyd_net.specs.Sound.{IsSound};
ghost use Rattle.hyd_spec.specs.ProgramTypes.{Project, LinkState};
ghost use Rattle.hyd_spec.specs.PeriodLength.{Period};
ghost use Rattle.hyd_spec_certificates.specs.PeriodNetwork.{Grid};
ghost use Rattle.hyd_spec_certificates.specs.RecordAndStanding.{Record, Standing};
ghost use Rattle.hyd_spec_certificates.specs.Decided.{links_at};
ghost use Rattle.hyd_spec_reports.specs.ReportLine.{ReportLine};
ghost use Rattle.hyd_spec_reports.specs.Report.{AreEndLines};
ghost use Rattle.hyd_spec_reports.specs.Claims.{LineHolds};
ghost use Rattle.hyd_spec_reports.specs.PromisesOfRunsAndChecks.{Found, IsRun, EveryHistoryAgrees};
ghost use Rattle.hyd_theorems_on_histories.specs.Agreement.{IsUnder, IsOwnState, IsKept};

/// Each line that a record's end brings holds of the period.
pub fn end_lines()
    ensures { (project : Project) → IsSound project → (S : ℕ) (commanded : List LinkState) (period : Period)
        (grid : Grid)
        (standing : Standing) (row : Record) → IsUnder project S period grid standing row → IsKept project standing
        → AllZip (IsOwnState project) project.links.list (links_at project standing) → commanded ≡ standing.commanded
        → period.length ≡ row.length → (lines : List ReportLine) → AreEndLines project grid standing row lines
        → AllByRecursion (LineHolds project S commanded period) lines }
{}

/// Every history of a sound network agrees with every run of valid records.
pub fn induction()
    ensures { (project : Project) → IsSound project → (founds : List Found) (last : Standing)
        → IsRun project founds last
        → EveryHistoryAgrees project founds }
{}
