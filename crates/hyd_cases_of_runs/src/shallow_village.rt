//! A village whose tank fills within a second, empties in the next five, and leaves the farm without a source: an
//! independent calculation stops there. Its records, lines and texts up to then, and the stop, hold by the definitions.
#![tactic(auto)]

ghost use Rattle.std.specs.Prelude.{◌≡◌, false};
ghost use Rattle.hyd_spec_certificates.specs.declared.Problem.TheVariants.{Main};
ghost use Rattle.hyd_spec_certificates.specs.declared.Side.TheVariants.{Lower};
ghost use Rattle.hyd_spec.specs.History.{IsHistory, initial_links};
ghost use Rattle.hyd_spec_certificates.specs.CertificateText.{IsCertificateText};
ghost use Rattle.hyd_spec_certificates.specs.declared.StopCause.TheVariants.{NoCertificate};
ghost use Rattle.hyd_spec_reports.specs.ReportLine.{report_text};
ghost use Rattle.hyd_spec_reports.specs.PromisesOfRunsAndChecks.{IsRun, AllAgree, rows_of, lines_of, last_line, EndsSo};
ghost use Rattle.hyd_spec_reports.specs.PromisesOfRunsAndChecks.{Stopped};
ghost use Rattle.hyd_cases_of_runs.specs.Village.{village_with};
ghost use Rattle.hyd_cases_of_runs.specs.ShallowVillage.{shallow, left, founds, periods, written, printed};

/// The two periods are a run.
pub fn run()
    ensures { IsRun (village_with shallow) founds left }
{}

/// The run stops there.
pub fn stop()
    ensures { EndsSo (village_with shallow) left 200 (Stopped (NoCertificate 2 Main Lower 1)) }
{}

/// What was written is the certificate of the records, what was printed the report of the lines and of the stop.
pub fn texts()
    ensures certificate { IsCertificateText written 1 2 1 (rows_of founds) 2 false }
    ensures report { printed ≡ report_text (village_with shallow) (lines_of founds)
        (last_line (village_with shallow) left 2 (Stopped (NoCertificate 2 Main Lower 1))) }
{}

/// Heads and flows that may occur, over both periods.
pub fn history()
    ensures { IsHistory (village_with shallow) 1000 periods }
{}

/// The history agrees with the run.
pub fn agreement()
    ensures { AllAgree (village_with shallow) 1000 (initial_links (village_with shallow)) periods founds }
{}
