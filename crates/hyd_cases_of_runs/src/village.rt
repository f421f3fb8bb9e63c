//! A village of two junctions and a tank over five periods: the relations that are not computed hold of what an
//! independent calculation gives for it.
#![tactic(auto)]

ghost use Rattle.std.specs.Prelude.{◌≡◌, true, List, [], ◌∷◌, length};
ghost use Rattle.std.specs.List.{AllByRecursion};
ghost use Rattle.hyd_net.specs.Sound.{IsSound};
ghost use Rattle.hyd_spec_certificates.specs.RecordAndStanding.{Standing, initial_standing};
ghost use Rattle.hyd_spec_certificates.specs.Decided.{EndsBy, WithoutRules, ByRules};
ghost use Rattle.hyd_spec.specs.History.{IsHistory, initial_links};
ghost use Rattle.hyd_spec_reports.specs.Report.{IsReport};
ghost use Rattle.hyd_spec_reports.specs.ReportLine.{report_text, done_line};
ghost use Rattle.hyd_spec_certificates.specs.CertificateText.{IsCertificateText};
ghost use Rattle.hyd_spec_reports.specs.PromisesOfRunsAndChecks.{Found, IsTightThroughout, IsRun, AllAgree};
ghost use Rattle.hyd_spec_reports.specs.PromisesOfRunsAndChecks.{EveryHistoryAgrees};
ghost use Rattle.hyd_spec_reports.specs.PromisesOfRunsAndChecks.{rows_of, lines_of};
ghost use Rattle.hyd_spec_certificates.specs.Valid.{IsGridAt, AreCertificates, IsValid, AreValid};
ghost use Rattle.hyd_cases_of_runs.specs.Village.{village};
ghost use Rattle.hyd_cases_of_runs.specs.VillageHistory.{periods};
ghost use Rattle.hyd_cases_of_runs.specs.VillageRun.{standing_0, standing_1, standing_2, standing_3, standing_4, left};
ghost use Rattle.hyd_cases_of_runs.specs.VillageRun.{grid_0, grid_1, grid_2, grid_3, grid_4, row_0, row_1, row_2};
ghost use Rattle.hyd_cases_of_runs.specs.VillageRun.{row_3};
ghost use Rattle.hyd_cases_of_runs.specs.VillageRun.{row_4, lines_0, lines_1, lines_2, lines_3, lines_4, found_0};
ghost use Rattle.hyd_cases_of_runs.specs.VillageRun.{found_1};
ghost use Rattle.hyd_cases_of_runs.specs.VillageRun.{found_2, found_3, found_4, founds};
ghost use Rattle.hyd_cases_of_runs.specs.VillageTexts.{written, printed};

/// The village is a network that a file can stand for.
pub fn network()
    ensures { IsSound village }
{}

/// The standing at the start of the run, and the grid of each period.
pub fn grids()
    ensures start { initial_standing village ≡ standing_0 }
    ensures first { IsGridAt village standing_0 grid_0 }
    ensures second { IsGridAt village standing_1 grid_1 }
    ensures third { IsGridAt village standing_2 grid_2 }
    ensures fourth { IsGridAt village standing_3 grid_3 }
    ensures fifth { IsGridAt village standing_4 grid_4 }
{}

/// All vectors of each record are certificates.
pub fn certificates()
    ensures first { AreCertificates village grid_0 row_0 }
    ensures second { AreCertificates village grid_1 row_1 }
    ensures third { AreCertificates village grid_2 row_2 }
    ensures fourth { AreCertificates village grid_3 row_3 }
    ensures fifth { AreCertificates village grid_4 row_4 }
{}

/// How each period but the last ends: without rules after 8 s and 3 s, by a rule after 3 s, without rules after 2 s.
pub fn ends()
    ensures first { EndsBy village grid_0 standing_0 row_0 (WithoutRules 8) }
    ensures second { EndsBy village grid_1 standing_1 row_1 (WithoutRules 3) }
    ensures third { EndsBy village grid_2 standing_2 row_2 (ByRules 3) }
    ensures fourth { EndsBy village grid_3 standing_3 row_3 (WithoutRules 2) }
{}

/// Each record is valid and leads on to the next standing, and so does the whole list.
pub fn records()
    ensures first { IsValid village standing_0 grid_0 row_0 standing_1 }
    ensures second { IsValid village standing_1 grid_1 row_1 standing_2 }
    ensures third { IsValid village standing_2 grid_2 row_2 standing_3 }
    ensures fourth { IsValid village standing_3 grid_3 row_3 standing_4 }
    ensures fifth { IsValid village standing_4 grid_4 row_4 left }
    ensures all { AreValid village (row_0 ∷ row_1 ∷ row_2 ∷ row_3 ∷ row_4 ∷ []) left }
{}

/// Each vector of each record is the tight one.
pub fn tight()
    ensures first { IsTightThroughout village found_0 }
    ensures second { IsTightThroughout village found_1 }
    ensures third { IsTightThroughout village found_2 }
    ensures fourth { IsTightThroughout village found_3 }
    ensures fifth { IsTightThroughout village found_4 }
{}

/// Heads and flows that may occur, over all five periods.
pub fn history()
    ensures { IsHistory village 1000 periods }
{}

/// The lines of each period are its report.
pub fn reports()
    ensures first { IsReport village grid_0 standing_0 row_0 lines_0 }
    ensures second { IsReport village grid_1 standing_1 row_1 lines_1 }
    ensures third { IsReport village grid_2 standing_2 row_2 lines_2 }
    ensures fourth { IsReport village grid_3 standing_3 row_3 lines_3 }
    ensures fifth { IsReport village grid_4 standing_4 row_4 lines_4 }
{}

/// The five periods together are a run to the end.
pub fn run()
    ensures { IsRun village founds left }
{}

/// No other tight run of the village has five periods.
pub fn only_run()
    ensures { (others : List Found) (last : Standing) → IsRun village others last
        → AllByRecursion (IsTightThroughout village) others
        → length others ≡ 5 → others ≡ founds }
{}

/// What was written is the certificate of the records, what was printed the report of the lines.
pub fn texts()
    ensures certificate { IsCertificateText written 1 2 1 (rows_of founds) 5 true }
    ensures report { printed ≡ report_text village (lines_of founds) (done_line 5) }
{}

/// The history agrees with the run: its heads lie strictly between the vectors, and each line holds of it. This follows
/// from the numbers; that every other history agrees too, at every scale, from the theorem.
pub fn agreement()
    ensures this { AllAgree village 1000 (initial_links village) periods founds }
    ensures every { EveryHistoryAgrees village founds }
{}
