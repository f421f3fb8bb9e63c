//! A check by one reading of a network never refuses the certificate of a run with a slack of another reading of it.
//! Where it comes to its end it prints the report of the run's periods, and all that the run printed where the run
//! finished. Each statement is the contract of a small function.
#![tactic(auto)]

ghost use Rattle.std.specs.Prelude.{◌≡◌, ℕ, List, length};
ghost use Rattle.hyd_spec_lines.specs.Lines.{Row};
ghost use Rattle.hyd_spec_input.specs.Project.{IsProject};
ghost use Rattle.hyd_spec.specs.ProgramTypes.{Project};
ghost use Rattle.hyd_spec_reports.specs.PromisesOfRunsAndChecks.{Sharpness, Outcome, Finished, accepted_line};
ghost use Rattle.hyd_spec_open_reports.specs.OpenReportLine.{open_report_text};
ghost use Rattle.hyd_spec_open_reports.specs.PromisesOfOpenReports.{open_lines_of, RunTellsOpenly};
ghost use Rattle.hyd_spec_open_checks.specs.OpenChecks.{CheckEndsOpenly};
ghost use Rattle.hyd_spec_check_ends.specs.declared.CheckEnd.{CheckEnd};
ghost use Rattle.hyd_spec_check_ends.specs.declared.CheckEnd.TheVariants.{Accepted, Refused};
ghost use Rattle.hyd_theorems_on_open_checks.specs.CertificateOfReportedRun.{IsCertificateOfReportedRun};
ghost use Rattle.hyd_theorems_on_rereading.specs.WithoutSpare.{bare_project};
ghost use Rattle.hyd_check_command.specs.OpenCertificateOfRun.{IsCertificateOfOpenRun};

/// The certificate of a run with a slack of a network is that of a run of each network that differs from it in the
/// spare of lists alone.
pub fn certificates()
    ensures { (p q : Project) → bare_project p ≡ bare_project q → (text : List ℕ) → IsCertificateOfOpenRun p text
        → IsCertificateOfOpenRun q text }
{}

/// No check by such a network refuses it: not by its lines, not by a record, and not by its END line.
pub fn refusals()
    ensures { (p q : Project) → bare_project p ≡ bare_project q → (text printed : List ℕ)
        → IsCertificateOfOpenRun p text → CheckEndsOpenly q text printed Refused → ⊥ }
{}

/// Where such a check comes to its end it accepts the certificate, and what it prints is the report of that run's
/// periods, with a last line that says whether they are all.
pub fn checks()
    ensures accepted { (p q : Project) → bare_project p ≡ bare_project q → (text printed : List ℕ) (end : CheckEnd)
        → IsCertificateOfOpenRun p text → CheckEndsOpenly q text printed end → end ≡ Accepted }
    ensures report { (p q : Project) → bare_project p ≡ bare_project q → (text printed : List ℕ) (end : CheckEnd)
        (is : IsCertificateOfReportedRun p text) → CheckEndsOpenly q text printed end
        → printed ≡ open_report_text p (open_lines_of is.reports)
        (accepted_line (length is.reports) is.left.known.finished) }
{}

/// What a run with a slack of one reading of rows wrote, a check by each reading of them accepts, if it comes to its
/// end. Where the run finished, the check prints what the run did.
pub fn readings()
    ensures accepted { (rows : List Row) (p q : Project) → IsProject rows p → IsProject rows q → (slack rounds : ℕ)
        (sharpness : Sharpness) (outcome : Outcome) (certificate report printed : List ℕ) (end : CheckEnd)
        → RunTellsOpenly p slack rounds sharpness outcome certificate report
        → CheckEndsOpenly q certificate printed end → end ≡ Accepted }
    ensures report { (rows : List Row) (p q : Project) → IsProject rows p → IsProject rows q → (slack rounds : ℕ)
        (sharpness : Sharpness) (certificate report printed : List ℕ) (end : CheckEnd)
        → RunTellsOpenly p slack rounds sharpness Finished certificate report
        → CheckEndsOpenly q certificate printed end → printed ≡ report }
{}
