//! A check never refuses the certificate of a run with a slack, version 4, and where it comes to its end it prints the
//! report of that run. A text of that version has one answer and one report. The statements on the way stand before these, each the contract of a small function.
#![tactic(auto)]

ghost use Rattle.std.specs.Prelude.{◌≡◌, ℕ, List, ◌∷◌, ◌++◌, length};
ghost use Rattle.hyd_net.specs.Sound.{IsSound};
ghost use Rattle.hyd_spec.specs.ProgramTypes.{Project};
ghost use Rattle.hyd_spec.specs.NodeNumbers.{junction_count, tank_count};
ghost use Rattle.hyd_spec_certificates.specs.PeriodNetwork.{Grid};
ghost use Rattle.hyd_spec_reports.specs.PromisesOfRunsAndChecks.{Sharpness, Outcome, accepted_line};
ghost use Rattle.hyd_spec_open_ends.specs.OpenStandings.{OpenStanding, OpenRecord};
ghost use Rattle.hyd_spec_open_ends.specs.OpenRecords.{IsValidOpenly};
ghost use Rattle.hyd_spec_open_ends.specs.OpenRuns.{OpenFound, IsOpenRun};
ghost use Rattle.hyd_spec_open_ends.specs.OpenCertificateText.{IsOpenCertificateText};
ghost use Rattle.hyd_spec_open_ends.specs.PromisesOfOpenRuns.{open_rows_of};
ghost use Rattle.hyd_spec_open_reports.specs.OpenReportLine.{open_report_text};
ghost use Rattle.hyd_spec_open_reports.specs.PromisesOfOpenReports.{Reported, AreReports, periods_of, open_lines_of};
ghost use Rattle.hyd_spec_open_reports.specs.PromisesOfOpenReports.{RunTellsOpenly, CheckTellsOpenly};
ghost use Rattle.hyd_spec_open_checks.specs.OpenChecks.{OpenCheckRefusal, CheckEndsOpenly};
ghost use Rattle.hyd_spec_check_ends.specs.declared.CheckEnd.{CheckEnd};
ghost use Rattle.hyd_spec_check_ends.specs.declared.CheckEnd.TheVariants.{Accepted};
ghost use Rattle.hyd_theorems_on_open_checks.specs.CertificateOfReportedRun.{IsCertificateOfReportedRun};

/// Two runs with the same records are the same whatever their slacks, and leave the same standing; their periods have
/// the same reports. Where a run goes on behind the records of another one, its next record is valid at the standing
/// that the other leaves.
pub fn runs()
    ensures one { (project : Project) (slack other_slack : ℕ) (a b : List OpenFound) (last other : OpenStanding)
        → IsOpenRun project slack a last → IsOpenRun project other_slack b other → open_rows_of a ≡ open_rows_of b
        → (a ≡ b) × (last ≡ other) }
    ensures next { (project : Project) (slack other_slack : ℕ) (a b : List OpenFound) (found : OpenRecord)
        (rows : List OpenRecord) (last other : OpenStanding) → IsOpenRun project slack a last
        → IsOpenRun project other_slack b other → open_rows_of b ≡ open_rows_of a ++ (found ∷ rows)
        → (grid : Grid) × (next : OpenStanding) × IsValidOpenly project last grid found next }
    ensures reports { (project : Project) (a b : List Reported) → AreReports project a → AreReports project b
        → periods_of a ≡ periods_of b → a ≡ b }
{}

/// What a run with a slack tells is the certificate of a run with its reports, and so is what a check accepts.
pub fn certificates_of_runs()
    ensures told { (project : Project) (slack rounds : ℕ) (sharpness : Sharpness) (outcome : Outcome)
        (text printed : List ℕ) → RunTellsOpenly project slack rounds sharpness outcome text printed
        → IsCertificateOfReportedRun project text }
    ensures accepted { (project : Project) (text printed : List ℕ) → CheckTellsOpenly project text printed
        → IsCertificateOfReportedRun project text }
{}

/// A check never refuses the certificate of a run with a slack: not by its lines, not by a record, and not by its END
/// line.
pub fn refusals()
    ensures { (project : Project) (text printed : List ℕ) (slack : ℕ) (founds : List OpenFound) (left : OpenStanding)
        → IsOpenRun project slack founds left
        → IsOpenCertificateText text (junction_count project) (tank_count project) (open_rows_of founds)
        (length founds) left.known.finished → OpenCheckRefusal project text printed → ⊥ }
{}

/// A check of it that comes to its end accepts it, and what it prints is the report of that run.
pub fn checks()
    ensures accepted { (project : Project) (text printed : List ℕ) (end : CheckEnd) (slack : ℕ)
        (founds : List OpenFound) (left : OpenStanding) → IsOpenRun project slack founds left
        → IsOpenCertificateText text (junction_count project) (tank_count project) (open_rows_of founds)
        (length founds) left.known.finished → CheckEndsOpenly project text printed end → end ≡ Accepted }
    ensures report { (project : Project) (text printed : List ℕ) (end : CheckEnd)
        (is : IsCertificateOfReportedRun project text) → CheckEndsOpenly project text printed end
        → printed ≡ open_report_text project (open_lines_of is.reports)
        (accepted_line (length is.reports) is.left.known.finished) }
{}

/// Checks of one text that come to their end end in one way, and by a sound network they print one report, also where
/// they refuse it.
pub fn one_report()
    ensures end { (project : Project) (text printed other : List ℕ) (a b : CheckEnd)
        → CheckEndsOpenly project text printed a → CheckEndsOpenly project text other b → a ≡ b }
    ensures report { (project : Project) → IsSound project → (text printed other : List ℕ) (a b : CheckEnd)
        → CheckEndsOpenly project text printed a → CheckEndsOpenly project text other b → printed ≡ other }
{}
