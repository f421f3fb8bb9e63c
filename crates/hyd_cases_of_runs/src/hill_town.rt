//! A hill town with a pump, a pipe, a check valve, an emitter and a pressure-driven demand, beside a pool with a volume
//! curve that overflows, a level control and a rule, over four periods: what an independent calculation gives for it is
//! what the definitions ask for, and it has a history.
#![tactic(auto)]

ghost use Rattle.std.specs.Prelude.{◌≡◌, true};
ghost use Rattle.hyd_net.specs.Sound.{IsSound};
ghost use Rattle.hyd_spec_certificates.specs.RecordAndStanding.{initial_standing};
ghost use Rattle.hyd_spec.specs.History.{IsHistory};
ghost use Rattle.hyd_spec_reports.specs.ReportLine.{report_text, done_line};
ghost use Rattle.hyd_spec_certificates.specs.CertificateText.{IsCertificateText};
ghost use Rattle.hyd_spec_reports.specs.PromisesOfRunsAndChecks.{IsRun, EveryHistoryAgrees, rows_of, lines_of};
ghost use Rattle.hyd_cases_of_runs.specs.HillTown.{hill_town, standing_0, left, founds, periods, written, printed};

/// The hill town is a network that a file can stand for.
pub fn network()
    ensures { IsSound hill_town }
{}

/// Its level and volume at the start of the run.
pub fn start()
    ensures { initial_standing hill_town ≡ standing_0 }
{}

/// The four periods are a run to the end: the pool fills, spills, feeds the town through both pipes, and is filled
/// again.
pub fn run()
    ensures { IsRun hill_town founds left }
{}

/// What was written is the certificate of the records, what was printed the report of the lines.
pub fn texts()
    ensures certificate { IsCertificateText written 2 1 1 (rows_of founds) 4 true }
    ensures report { printed ≡ report_text hill_town (lines_of founds) (done_line 4) }
{}

/// Heads, levels, volumes and flows that may occur, over all four periods.
pub fn history()
    ensures { IsHistory hill_town 1000 periods }
{}

/// Every history agrees with the run.
pub fn agreement()
    ensures { EveryHistoryAgrees hill_town founds }
{}
