//! Two readings of one text have the same runs with a slack: networks that differ in the spare of their lists alone
//! have the same ones, with the same reports and certificates. Each statement is the contract of a small function.
#![tactic(auto)]

ghost use Rattle.std.specs.Prelude.{◌≡◌, ℕ, Bool, List};
ghost use Rattle.hyd_spec.specs.ProgramTypes.{Project};
ghost use Rattle.hyd_spec.specs.NodeNumbers.{junction_count, tank_count};
ghost use Rattle.hyd_spec_open_ends.specs.OpenStandings.{OpenStanding, OpenRecord};
ghost use Rattle.hyd_spec_open_ends.specs.OpenRuns.{OpenFound, IsOpenRun};
ghost use Rattle.hyd_spec_open_ends.specs.OpenCertificateText.{IsOpenCertificateText};
ghost use Rattle.hyd_spec_open_reports.specs.OpenReportLine.{OpenLine, open_report_text};
ghost use Rattle.hyd_spec_open_reports.specs.PromisesOfOpenReports.{Reported, AreReports};
ghost use Rattle.hyd_theorems_on_rereading.specs.WithoutSpare.{bare_project};

/// A run with a slack of a network is one of each network that differs from it in the spare of lists alone: the same
/// periods, which leave the same standing, with the same report lines.
pub fn runs()
    ensures run { (p q : Project) → bare_project p ≡ bare_project q → (slack : ℕ) (founds : List OpenFound)
        (last : OpenStanding) → IsOpenRun p slack founds last → IsOpenRun q slack founds last }
    ensures reports { (p q : Project) → bare_project p ≡ bare_project q → (reports : List Reported)
        → AreReports p reports → AreReports q reports }
{}

/// Its report has the same text, and its certificate is one with the counts of the other network.
pub fn texts()
    ensures report { (p q : Project) → bare_project p ≡ bare_project q → (lines : List OpenLine) (last : List ℕ)
        → open_report_text p lines last ≡ open_report_text q lines last }
    ensures certificate { (p q : Project) → bare_project p ≡ bare_project q → (text : List ℕ) (rows : List OpenRecord)
        (periods : ℕ) (finished : Bool)
        → IsOpenCertificateText text (junction_count p) (tank_count p) rows periods finished
        → IsOpenCertificateText text (junction_count q) (tank_count q) rows periods finished }
{}
