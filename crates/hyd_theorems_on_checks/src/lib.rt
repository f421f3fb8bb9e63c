//! A check never refuses the certificate of a run, with the flows of named links or without, and records that are valid
//! one after another are those of a run. The statements on the way stand before these, each the contract of a small
//! function. That a text has one answer and one report is proved in `hyd_theorems_on_reports_of_checks`.
#![tactic(auto)]

ghost use Rattle.std.specs.Prelude.{◌≡◌, ℕ, Bool, true, false, List, ◌∷◌, ◌++◌, length, map, All};
ghost use Rattle.std.specs.List.{AllByRecursion};
ghost use Rattle.hyd_net.specs.Sound.{IsSound};
ghost use Rattle.hyd_spec.specs.ProgramTypes.{Project};
ghost use Rattle.hyd_spec.specs.Lists.{joined};
ghost use Rattle.hyd_spec.specs.NodeNumbers.{junction_count, tank_count};
ghost use Rattle.hyd_spec_certificates.specs.PeriodNetwork.{Grid};
ghost use Rattle.hyd_spec_certificates.specs.RecordAndStanding.{Record, Standing};
ghost use Rattle.hyd_spec_certificates.specs.Valid.{IsValid, AreValid};
ghost use Rattle.hyd_spec_certificates.specs.CertificateText.{IsCertificateText, IsRow, version_of, header_line};
ghost use Rattle.hyd_spec_certificates.specs.CertificateText.{record_text};
ghost use Rattle.hyd_spec_reports.specs.ReportLine.{report_text};
ghost use Rattle.hyd_spec_certificates.specs.declared.CertRefused.{CertRefused};
ghost use Rattle.hyd_spec_reports.specs.PromisesOfRunsAndChecks.{Found, IsRun, rows_of, lines_of, Sharpness, Outcome};
ghost use Rattle.hyd_spec_reports.specs.PromisesOfRunsAndChecks.{RunWrites};
ghost use Rattle.hyd_spec_reports.specs.PromisesOfRunsAndChecks.{accepted_line, CheckAccepts, CheckRefuses};
ghost use Rattle.hyd_spec_reports.specs.PromisesOfRunsAndChecks.{CheckRefusesEnd};
ghost use Rattle.hyd_spec_flows.specs.FlowTexts.{is_with_flows};
ghost use Rattle.hyd_spec_reports_with_flows.specs.PromisesWithFlows.{FoundNaming, IsFoundNaming, founds_in, entries_of};
ghost use Rattle.hyd_spec_reports_with_flows.specs.PromisesWithFlows.{report_with_flows, RunWritesNaming};
ghost use Rattle.hyd_spec_reports_with_flows.specs.PromisesWithFlows.{CheckAcceptsNaming};
ghost use Rattle.hyd_cert_check.specs.Checks.{CheckRefusal, CheckEnds};
ghost use Rattle.hyd_cert_check.specs.ChecksWithFlows.{CheckRefusalNaming};
ghost use Rattle.hyd_spec_check_ends.specs.declared.CheckEnd.{CheckEnd};
ghost use Rattle.hyd_spec_check_ends.specs.declared.CheckEnd.TheVariants.{Accepted, Refused};
ghost use Rattle.hyd_theorems_on_checks.specs.CertificateOfRun.{IsCertificateOfRun, IsCertificateOfRunNaming};
ghost use Rattle.hyd_theorems_on_checks.specs.CertificateOfRun.{IsCertificateOfSomeRun, IsRunOf};

/// The records with which the text of a certificate begins, behind its header line, are the first of its records,
/// whatever is behind them.
pub fn fronts()
    ensures { (text unread : List ℕ) (version junctions tanks periods : ℕ) (rows front : List Record) (finished : Bool)
        → IsCertificateText text version junctions tanks rows periods finished → All (IsRow junctions tanks) front
        → text ≡ header_line version junctions tanks ++ (joined (map record_text front) ++ unread)
        → (more : List Record) × (rows ≡ front ++ more) }
{}

/// Two runs with the same records are the same, and leave the same standing. Where a run goes on behind the records of
/// another one, its next record is valid at the standing that the other leaves.
pub fn runs()
    ensures one { (project : Project) (a b : List Found) (last other : Standing) → IsRun project a last
        → IsRun project b other → rows_of a ≡ rows_of b → (a ≡ b) × (last ≡ other) }
    ensures next { (project : Project) (a b : List Found) (row : Record) (rows : List Record) (last other : Standing)
        → IsRun project a last → IsRun project b other → rows_of b ≡ rows_of a ++ (row ∷ rows)
        → (grid : Grid) × (next : Standing) × IsValid project last grid row next }
{}

/// Two runs that name links, with the same records and the same parts behind them, are the same: so are their FLOW
/// lines, and the standings that they leave.
pub fn runs_naming()
    ensures { (project : Project) (a b : List FoundNaming) (last other : Standing) → IsRun project (founds_in a) last
        → IsRun project (founds_in b) other → AllByRecursion (IsFoundNaming project) a
        → AllByRecursion (IsFoundNaming project) b → entries_of a ≡ entries_of b → (a ≡ b) × (last ≡ other) }
{}

/// What a run writes is the certificate of a run, and so is what a check accepts. It has flows exactly where the run
/// named links.
pub fn certificates_of_runs()
    ensures written { (project : Project) (rounds : ℕ) (sharpness : Sharpness) (outcome : Outcome)
        (text printed : List ℕ) → RunWrites project rounds sharpness outcome text printed
        → IsCertificateOfRun project text }
    ensures accepted { (project : Project) (text printed : List ℕ) → CheckAccepts project text printed
        → IsCertificateOfRun project text }
    ensures without_flows { (project : Project) (text : List ℕ) → IsCertificateOfRun project text
        → is_with_flows text ≡ false }
    ensures written_naming { (project : Project) (named : List ℕ) (rounds : ℕ) (sharpness : Sharpness)
        (outcome : Outcome) (text printed : List ℕ)
        → RunWritesNaming project named rounds sharpness outcome text printed → IsCertificateOfRunNaming project text }
    ensures accepted_naming { (project : Project) (text printed : List ℕ) → CheckAcceptsNaming project text printed
        → IsCertificateOfRunNaming project text }
    ensures with_flows { (project : Project) (text : List ℕ) → IsCertificateOfRunNaming project text
        → is_with_flows text ≡ true }
{}

/// What a run that names links writes is accepted, with the report of that run.
pub fn acceptance_naming()
    ensures { (project : Project) (named : List ℕ) (rounds : ℕ) (sharpness : Sharpness) (outcome : Outcome)
        (text printed : List ℕ) (run : RunWritesNaming project named rounds sharpness outcome text printed)
        → CheckAcceptsNaming project text (report_with_flows project run.namings
        (accepted_line (length run.namings) run.left.finished)) }
{}

/// No record of the certificate of a run is refused.
pub fn refused_records()
    ensures { (project : Project) (text printed : List ℕ) (cause : CertRefused) → IsCertificateOfRun project text
        → CheckRefuses project text printed cause → ⊥ }
{}

/// Nor is its END line.
pub fn refused_ends()
    ensures { (project : Project) (text printed : List ℕ) → IsCertificateOfRun project text
        → CheckRefusesEnd project text printed → ⊥ }
{}

// ---- checks

/// A check never refuses the certificate of a run: not by its lines, not by a record, not by the part behind one, and
/// not by its END line.
pub fn refusals()
    ensures without_flows { (project : Project) (text printed : List ℕ) → IsCertificateOfRun project text
        → CheckRefusal project text printed → ⊥ }
    ensures with_flows { (project : Project) (text printed : List ℕ) → IsCertificateOfRunNaming project text
        → CheckRefusalNaming project text printed → ⊥ }
    ensures of_all { (project : Project) (text printed : List ℕ) → IsCertificateOfSomeRun project text
        → CheckEnds project text printed Refused → ⊥ }
{}

/// A check of the certificate of a run that comes to its end accepts it, and what it prints is the report of that run,
/// with its FLOW lines where it named links.
pub fn checks()
    ensures accepted { (project : Project) (text printed : List ℕ) (end : CheckEnd)
        → IsCertificateOfSomeRun project text → CheckEnds project text printed end → end ≡ Accepted }
    ensures report { (project : Project) (text printed : List ℕ) (end : CheckEnd) (is : IsCertificateOfRun project text)
        → CheckEnds project text printed end
        → printed ≡ report_text project (lines_of is.founds) (accepted_line (length is.founds) is.left.finished) }
    ensures report_with_flows { (project : Project) (text printed : List ℕ) (end : CheckEnd)
        (is : IsCertificateOfRunNaming project text) → CheckEnds project text printed end
        → printed ≡ report_with_flows project is.namings (accepted_line (length is.namings) is.left.finished) }
{}

// ---- valid records

/// Records of a sound network that are valid one after another are those of a run, each with a report. So the text of
/// such records, with an END line that says what is so, is the certificate of a run, which no check refuses.
pub fn valid_records()
    ensures run { (project : Project) → IsSound project → (rows : List Record) (last : Standing)
        → AreValid project rows last → IsRunOf project rows last }
    ensures certificate { (project : Project) → IsSound project → (text : List ℕ) (rows : List Record) (last : Standing)
        → AreValid project rows last
        → IsCertificateText text (version_of project) (junction_count project) (tank_count project) rows (length rows)
        last.finished
        → IsCertificateOfRun project text }
    ensures never_refused { (project : Project) → IsSound project → (text printed : List ℕ) (rows : List Record)
        (last : Standing) → AreValid project rows last
        → IsCertificateText text (version_of project) (junction_count project) (tank_count project) rows (length rows)
        last.finished
        → CheckRefusal project text printed → ⊥ }
{}
