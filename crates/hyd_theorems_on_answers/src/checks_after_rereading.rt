//! A check by one reading of a network never refuses the certificate of a run of another reading of it. Where it comes
//! to its end it prints the report of the run's periods, and all that the run printed where the run finished. Readings
//! differ in the spare of their lists alone. Each statement is the contract of a small function.
#![tactic(auto)]

ghost use Rattle.std.specs.Prelude.{◌≡◌, ℕ, List, length};
ghost use Rattle.hyd_net.specs.Sound.{IsSound};
ghost use Rattle.hyd_spec_lines.specs.Lines.{Row};
ghost use Rattle.hyd_spec_input.specs.Project.{IsProject};
ghost use Rattle.hyd_spec.specs.ProgramTypes.{Project};
ghost use Rattle.hyd_spec.specs.NodeNumbers.{junction_count, tank_count};
ghost use Rattle.hyd_spec_certificates.specs.RecordAndStanding.{Record, Standing};
ghost use Rattle.hyd_spec_certificates.specs.Valid.{AreValid};
ghost use Rattle.hyd_spec_certificates.specs.CertificateText.{IsCertificateText, version_of};
ghost use Rattle.hyd_spec_reports.specs.ReportLine.{report_text};
ghost use Rattle.hyd_spec_reports.specs.PromisesOfRunsAndChecks.{lines_of, Sharpness, Outcome, Finished, accepted_line};
ghost use Rattle.hyd_spec_reports.specs.PromisesOfRunsAndChecks.{RunWrites};
ghost use Rattle.hyd_spec_reports_with_flows.specs.PromisesWithFlows.{report_with_flows, RunWritesNaming};
ghost use Rattle.hyd_cert_check.specs.Checks.{CheckRefusal, CheckEnds};
ghost use Rattle.hyd_spec_check_ends.specs.declared.CheckEnd.{CheckEnd};
ghost use Rattle.hyd_spec_check_ends.specs.declared.CheckEnd.TheVariants.{Accepted, Refused};
ghost use Rattle.hyd_theorems_on_checks.specs.CertificateOfRun.{IsCertificateOfRun, IsCertificateOfRunNaming};
ghost use Rattle.hyd_theorems_on_checks.specs.CertificateOfRun.{IsCertificateOfSomeRun};
ghost use Rattle.hyd_theorems_on_rereading.specs.WithoutSpare.{bare_project};

/// The certificate of a run of a network, with flows or without, is that of a run of each network that differs from it in
/// the spare of lists alone.
pub fn certificates()
    ensures { (p q : Project) → bare_project p ≡ bare_project q → (text : List ℕ) → IsCertificateOfSomeRun p text
        → IsCertificateOfSomeRun q text }
{}

/// No check by such a network refuses it. Nor does one refuse the text of valid records of a sound network, with an END
/// line that says what is so: not by its lines, not by a record, and not by its END line.
pub fn refusals()
    ensures of_runs { (p q : Project) → bare_project p ≡ bare_project q → (text printed : List ℕ)
        → IsCertificateOfSomeRun p text → CheckEnds q text printed Refused → ⊥ }
    ensures of_records { (p q : Project) → bare_project p ≡ bare_project q → IsSound p → (text printed : List ℕ)
        (records : List Record) (last : Standing) → AreValid p records last
        → IsCertificateText text (version_of p) (junction_count p) (tank_count p) records (length records) last.finished
        → CheckRefusal q text printed → ⊥ }
{}

/// Where such a check comes to its end it accepts the certificate, and what it prints is the report of that run's
/// periods, with a last line that says whether they are all.
pub fn checks()
    ensures accepted { (p q : Project) → bare_project p ≡ bare_project q → (text printed : List ℕ) (end : CheckEnd)
        → IsCertificateOfSomeRun p text → CheckEnds q text printed end → end ≡ Accepted }
    ensures report { (p q : Project) → bare_project p ≡ bare_project q → (text printed : List ℕ) (end : CheckEnd)
        (is : IsCertificateOfRun p text) → CheckEnds q text printed end
        → printed ≡ report_text p (lines_of is.founds) (accepted_line (length is.founds) is.left.finished) }
    ensures report_with_flows { (p q : Project) → bare_project p ≡ bare_project q → (text printed : List ℕ)
        (end : CheckEnd) (is : IsCertificateOfRunNaming p text) → CheckEnds q text printed end
        → printed ≡ report_with_flows p is.namings (accepted_line (length is.namings) is.left.finished) }
{}

/// What a run of one reading of rows wrote, a check by each reading of them accepts, if it comes to its end. Where the
/// run finished, the check prints what the run did.
pub fn readings()
    ensures accepted { (rows : List Row) (p q : Project) → IsProject rows p → IsProject rows q → (rounds : ℕ)
        (sharpness : Sharpness) (outcome : Outcome) (certificate report printed : List ℕ) (end : CheckEnd)
        → RunWrites p rounds sharpness outcome certificate report → CheckEnds q certificate printed end
        → end ≡ Accepted }
    ensures report { (rows : List Row) (p q : Project) → IsProject rows p → IsProject rows q → (rounds : ℕ)
        (sharpness : Sharpness) (certificate report printed : List ℕ) (end : CheckEnd)
        → RunWrites p rounds sharpness Finished certificate report → CheckEnds q certificate printed end
        → printed ≡ report }
{}

/// The same of a run that names links.
pub fn readings_naming()
    ensures accepted { (rows : List Row) (p q : Project) → IsProject rows p → IsProject rows q → (named : List ℕ)
        (rounds : ℕ) (sharpness : Sharpness) (outcome : Outcome) (certificate report printed : List ℕ) (end : CheckEnd)
        → RunWritesNaming p named rounds sharpness outcome certificate report → CheckEnds q certificate printed end
        → end ≡ Accepted }
    ensures report { (rows : List Row) (p q : Project) → IsProject rows p → IsProject rows q → (named : List ℕ)
        (rounds : ℕ) (sharpness : Sharpness) (certificate report printed : List ℕ) (end : CheckEnd)
        → RunWritesNaming p named rounds sharpness Finished certificate report → CheckEnds q certificate printed end
        → printed ≡ report }
{}
