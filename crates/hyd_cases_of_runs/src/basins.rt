//! A lake that fills one tank, of two kinds: one with a volume curve, over two hours, and a cylinder that overflows,
//! over one. What an independent calculation gives for their three periods is what the definitions ask for, and they
//! have histories.
#![tactic(auto)]

ghost use Rattle.std.specs.Prelude.{◌≡◌, true};
ghost use Rattle.hyd_net.specs.Sound.{IsSound};
ghost use Rattle.hyd_spec_certificates.specs.RecordAndStanding.{initial_standing};
ghost use Rattle.hyd_spec.specs.History.{IsHistory, initial_links};
ghost use Rattle.hyd_spec_reports.specs.ReportLine.{report_text, done_line};
ghost use Rattle.hyd_spec_certificates.specs.CertificateText.{IsCertificateText, version_of};
ghost use Rattle.hyd_spec_reports.specs.PromisesOfRunsAndChecks.{IsRun, AllAgree, EveryHistoryAgrees, rows_of};
ghost use Rattle.hyd_spec_reports.specs.PromisesOfRunsAndChecks.{lines_of};
ghost use Rattle.hyd_cases_of_runs.specs.Basin.{basin_network, curved, curved_0, curved_founds, curved_left};
ghost use Rattle.hyd_cases_of_runs.specs.Basin.{curved_periods, curved_written, curved_printed};
ghost use Rattle.hyd_cases_of_runs.specs.Basin.{spilling, spilling_0, spilling_founds, spilling_left, spilling_periods};
ghost use Rattle.hyd_cases_of_runs.specs.Basin.{spilling_written, spilling_printed};

/// The basins are networks that a file can stand for.
pub fn networks()
    ensures curved { IsSound (basin_network curved) }
    ensures spilling { IsSound (basin_network spilling) }
{}

/// Levels and volumes at the start of the run.
pub fn starts()
    ensures curved { initial_standing (basin_network curved) ≡ curved_0 }
    ensures spilling { initial_standing (basin_network spilling) ≡ spilling_0 }
{}

/// The three periods of each are a run to the end.
pub fn runs()
    ensures curved { IsRun (basin_network curved) curved_founds curved_left }
    ensures spilling { IsRun (basin_network spilling) spilling_founds spilling_left }
{}

/// What was written are certificates of version 2, what was printed are the reports of the lines.
pub fn texts()
    ensures curved_version { version_of (basin_network curved) ≡ 2 }
    ensures curved_certificate { IsCertificateText curved_written 2 0 1 (rows_of curved_founds) 3 true }
    ensures curved_report { curved_printed ≡ report_text (basin_network curved) (lines_of curved_founds) (done_line 3) }
    ensures spilling_version { version_of (basin_network spilling) ≡ 2 }
    ensures spilling_certificate { IsCertificateText spilling_written 2 0 1 (rows_of spilling_founds) 3 true }
    ensures spilling_report { spilling_printed ≡ report_text (basin_network spilling) (lines_of spilling_founds)
        (done_line 3) }
{}

/// Levels, volumes and flows that may occur, over all three periods.
pub fn histories()
    ensures curved { IsHistory (basin_network curved) 1000 curved_periods }
    ensures spilling { IsHistory (basin_network spilling) 1000 spilling_periods }
{}

/// The histories agree with the runs, by their numbers, and every other history does by the theorem.
pub fn agreement()
    ensures curved { AllAgree (basin_network curved) 1000 (initial_links (basin_network curved)) curved_periods
        curved_founds }
    ensures spilling { AllAgree (basin_network spilling) 1000 (initial_links (basin_network spilling))
        spilling_periods spilling_founds }
    ensures curved_every { EveryHistoryAgrees (basin_network curved) curved_founds }
    ensures spilling_every { EveryHistoryAgrees (basin_network spilling) spilling_founds }
{}
