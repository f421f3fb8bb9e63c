//! Two readings of one text describe one network: they differ in the spare of their lists alone, and records that are
//! valid of one are valid of the other. Each statement is the contract of a small function.
#![tactic(auto)]

ghost use Rattle.std.specs.Prelude.{◌≡◌, ℕ, List};
ghost use Rattle.hyd_spec_lines.specs.Lines.{Row};
ghost use Rattle.hyd_spec_input.specs.Project.{IsProject};
ghost use Rattle.hyd_net.specs.ProjectAsCompared.{compared_project};
ghost use Rattle.hyd_spec.specs.ProgramTypes.{Project};
ghost use Rattle.hyd_spec.specs.NodeNumbers.{junction_count, tank_count};
ghost use Rattle.hyd_spec.specs.PeriodLength.{Period};
ghost use Rattle.hyd_spec.specs.History.{IsHistory};
ghost use Rattle.hyd_spec_certificates.specs.RecordAndStanding.{Record, Standing};
ghost use Rattle.hyd_spec_certificates.specs.Valid.{AreValid};
ghost use Rattle.hyd_spec_certificates.specs.CertificateText.{version_of};
ghost use Rattle.hyd_spec_reports.specs.ReportLine.{ReportLine, report_text};
ghost use Rattle.hyd_spec_reports.specs.PromisesOfRunsAndChecks.{Found, IsRun};
ghost use Rattle.hyd_theorems_on_rereading.specs.WithoutSpare.{bare_project};

/// Rows describe one network: any two of the same rows have all their numbers in common, those of the file that
/// stand beside a rounded form too, and differ in the spare of their lists alone.
pub fn one_network()
    ensures { (rows : List Row) (p q : Project) → IsProject rows p → IsProject rows q
        → bare_project p ≡ bare_project q }
{}

/// Networks that differ in the spare of lists alone are the same as networks are compared, and the header lines of
/// their certificates say the same.
pub fn same()
    ensures compared { (p q : Project) → bare_project p ≡ bare_project q → compared_project p ≡ compared_project q }
    ensures version { (p q : Project) → bare_project p ≡ bare_project q → version_of p ≡ version_of q }
    ensures junctions { (p q : Project) → bare_project p ≡ bare_project q → junction_count p ≡ junction_count q }
    ensures tanks { (p q : Project) → bare_project p ≡ bare_project q → tank_count p ≡ tank_count q }
{}

/// Records that are valid of a network are valid of each network that differs from it in the spare of lists alone, and
/// they leave the same standing.
pub fn valid_records()
    ensures { (p q : Project) → bare_project p ≡ bare_project q → (records : List Record) (last : Standing)
        → AreValid p records last → AreValid q records last }
{}

/// A run of a network is a run of each network that differs from it in the spare of lists alone: the same periods with
/// the same report lines, which have the same text.
pub fn runs()
    ensures run { (p q : Project) → bare_project p ≡ bare_project q → (founds : List Found) (last : Standing)
        → IsRun p founds last → IsRun q founds last }
    ensures report { (p q : Project) → bare_project p ≡ bare_project q → (lines : List ReportLine) (last : List ℕ)
        → report_text p lines last ≡ report_text q lines last }
{}

/// A history of a network is one of each network that differs from it in the spare of lists alone, at every scale.
pub fn histories()
    ensures { (p q : Project) → bare_project p ≡ bare_project q → (S : ℕ) (history : List Period)
        → IsHistory p S history → IsHistory q S history }
{}

/// Records that are valid of one reading of rows are valid of each reading of them, and leave the same standing.
pub fn readings()
    ensures { (rows : List Row) (p q : Project) → IsProject rows p → IsProject rows q
        → (records : List Record) (last : Standing) → AreValid p records last → AreValid q records last }
{}
