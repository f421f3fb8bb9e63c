//! Reports of runs whose ends of periods may be open by some seconds: every line holds of every history that keeps what
//! it reaches, and where nothing is open, a line has the bytes and the claim that it has without open ends. Each
//! statement is the contract of a small function.
#![tactic(auto)]

ghost use Rattle.std.specs.Prelude.{◌≡◌, ℕ, List, map, length};
ghost use Rattle.hyd_net.specs.Sound.{IsSound};
ghost use Rattle.hyd_spec.specs.ProgramTypes.{Project, LinkState};
ghost use Rattle.hyd_spec.specs.PeriodLength.{Period};
ghost use Rattle.hyd_spec_reports.specs.ReportLine.{ReportLine, line_text, report_text};
ghost use Rattle.hyd_spec_reports.specs.Claims.{LineHolds};
ghost use Rattle.hyd_spec_reports.specs.PromisesOfRunsAndChecks.{Sharpness, Outcome, accepted_line};
ghost use Rattle.hyd_spec_certificates.specs.PeriodNetwork.{Grid};
ghost use Rattle.hyd_spec_open_ends.specs.OpenStandings.{OpenStanding, OpenRecord};
ghost use Rattle.hyd_spec_open_ends.specs.OpenRuns.{IsOpenRun};
ghost use Rattle.hyd_spec_open_reports.specs.OpenReportLine.{OpenLine, known_line, open_line_text};
ghost use Rattle.hyd_spec_open_reports.specs.OpenReportLine.{open_report_text};
ghost use Rattle.hyd_spec_open_reports.specs.OpenReport.{IsOpenReport};
ghost use Rattle.hyd_spec_open_reports.specs.ClaimsOfOpenLines.{OpenLineHolds};
ghost use Rattle.hyd_spec_open_reports.specs.PromisesOfOpenReports.{Reported, AreReports, periods_of, open_lines_of};
ghost use Rattle.hyd_spec_open_reports.specs.PromisesOfOpenReports.{EveryLineHolds, RunTellsOpenly, CheckTellsOpenly};

/// A line whose time is known has the bytes that it has in a run without open ends, and so has a report of such lines.
pub fn words()
    ensures line { (project : Project) (told : ReportLine)
        → open_line_text project (known_line told) ≡ line_text project told }
    ensures report { (project : Project) (lines : List ReportLine) (last : List ℕ)
        → open_report_text project (map known_line lines) last ≡ report_text project lines last }
{}

/// It claims what it claims there, and no less.
pub fn claims()
    ensures as_known { (project : Project) (S : ℕ) (commanded : List LinkState) (period : Period) (told : ReportLine)
        → OpenLineHolds project S commanded period (known_line told) → LineHolds project S commanded period told }
    ensures as_open { (project : Project) (S : ℕ) (commanded : List LinkState) (period : Period) (told : ReportLine)
        → LineHolds project S commanded period told → OpenLineHolds project S commanded period (known_line told) }
{}

/// A record has one report.
pub fn reports()
    ensures { (project : Project) (grid : Grid) (standing : OpenStanding) (found : OpenRecord) (a b : List OpenLine)
        → IsOpenReport project grid standing found a → IsOpenReport project grid standing found b → a ≡ b }
{}

/// Each line of the reports of a run holds of every history that keeps what it reaches, of the period that it is told
/// of.
pub fn runs()
    ensures { (project : Project) → IsSound project → (slack : ℕ) (reports : List Reported) (last : OpenStanding)
        → IsOpenRun project slack (periods_of reports) last → AreReports project reports
        → EveryLineHolds project reports }
{}

/// A check accepts the certificate that a run wrote, and prints its report, with `PARTIAL` in place of the line of a
/// stop.
pub fn acceptance()
    ensures { (project : Project) (slack rounds : ℕ) (sharpness : Sharpness) (outcome : Outcome)
        (written printed : List ℕ) (run : RunTellsOpenly project slack rounds sharpness outcome written printed)
        → CheckTellsOpenly project written (open_report_text project (open_lines_of run.reports)
        (accepted_line (length run.reports) run.left.known.finished)) }
{}
