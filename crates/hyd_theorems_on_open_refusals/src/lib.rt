//! Refusals of certificates of version 4: a record is refused by one cause, exactly where it isn't valid, and no record
//! and no end line of the certificate of a run with a slack is refused. Each statement is the contract of a small
//! function.
#![tactic(auto)]

ghost use Rattle.std.specs.Prelude.{◌≡◌, ◌⊎◌, ℕ, ◌≤◌, Bool, List, ◌++◌, map, All, Option};
ghost use Rattle.hyd_net.specs.Sound.{IsSound};
ghost use Rattle.hyd_spec.specs.ProgramTypes.{Project};
ghost use Rattle.hyd_spec.specs.Lists.{joined};
ghost use Rattle.hyd_spec.specs.NodeNumbers.{junction_count, tank_count};
ghost use Rattle.hyd_spec_certificates.specs.PeriodNetwork.{Grid};
ghost use Rattle.hyd_spec_certificates.specs.Decided.{End};
ghost use Rattle.hyd_spec_certificates.specs.CertificateText.{header_line};
ghost use Rattle.hyd_spec_certificates.specs.declared.CertRefused.{CertRefused};
ghost use Rattle.hyd_spec_certificates.specs.declared.StopCause.{StopCause};
ghost use Rattle.hyd_spec_reports.specs.PromisesOfRunsAndChecks.{Sharpness, Outcome};
ghost use Rattle.hyd_spec_open_ends.specs.InstantsOfClock.{AreSecondsToInstant};
ghost use Rattle.hyd_spec_open_ends.specs.OpenStandings.{OpenStanding, OpenRecord};
ghost use Rattle.hyd_spec_open_ends.specs.OpenEnds.{Way, EndsIn, IsFirstOpen};
ghost use Rattle.hyd_spec_open_ends.specs.OpenRecords.{IsValidOpenly};
ghost use Rattle.hyd_spec_open_ends.specs.OpenCertificateText.{open_version, open_record_text, IsOpenRow};
ghost use Rattle.hyd_spec_open_ends.specs.OpenCertificateText.{IsOpenCertificateText};
ghost use Rattle.hyd_spec_open_ends.specs.PromisesOfOpenRuns.{RunWritesOpenly, CheckAcceptsOpenly};
ghost use Rattle.hyd_spec_open_reports.specs.PromisesOfOpenReports.{RunTellsOpenly};
ghost use Rattle.hyd_spec_open_refusals.specs.RefusedOpenRecords.{IsRefusedOpenly};
ghost use Rattle.hyd_spec_open_refusals.specs.RefusalsOfOpenChecks.{CheckRefusesOpenly, CheckRefusesOpenEnd};
ghost use Rattle.hyd_theorems_on_open_standings.specs.FirmStandings.{IsFirm};

// ---- records

/// A record is refused at a standing by one cause, and one that is refused isn't valid there.
pub fn refusals()
    ensures one { (project : Project) (standing : OpenStanding) (found : OpenRecord) (a b : CertRefused)
        → IsRefusedOpenly project standing found a → IsRefusedOpenly project standing found b → a ≡ b }
    ensures invalid { (project : Project) (standing : OpenStanding) (found : OpenRecord) (cause : CertRefused)
        → IsRefusedOpenly project standing found cause → (grid : Grid) (next : OpenStanding)
        → IsValidOpenly project standing grid found next → ⊥ }
{}

/// At each standing of a run a record with the network's counts is valid, or it is refused.
pub fn every_record()
    ensures { (project : Project) → IsSound project → (standing : OpenStanding) → IsFirm project standing
        → (found : OpenRecord) → IsOpenRow (junction_count project) (tank_count project) found
        → ((grid : Grid) × (next : OpenStanding) × IsValidOpenly project standing grid found next)
        ⊎ ((cause : CertRefused) × IsRefusedOpenly project standing found cause) }
{}

/// What is open first, where an end may be open by as many seconds as there are to the next instant of the clock,
/// leaves no way in which the period ends.
pub fn open_ends()
    ensures { (project : Project) (grid : Grid) (standing : OpenStanding) (found : OpenRecord) (cap slack : ℕ)
        → AreSecondsToInstant project standing.known.time cap → cap ≤ slack → (end : End)
        → IsFirstOpen project grid standing found.row slack end → (way : Way)
        → EndsIn project grid standing found.row way → ⊥ }
{}

// ---- texts

/// A certificate text of version 4 has one reading, and the records with which it begins are the first of its records.
pub fn readings()
    ensures one { (text : List ℕ) (junctions tanks periods other : ℕ) (rows others : List OpenRecord)
        (finished ended : Bool) → IsOpenCertificateText text junctions tanks rows periods finished
        → IsOpenCertificateText text junctions tanks others other ended
        → (rows ≡ others) × ((periods ≡ other) × (finished ≡ ended)) }
    ensures front { (text unread : List ℕ) (junctions tanks periods : ℕ) (rows front : List OpenRecord)
        (finished : Bool) → IsOpenCertificateText text junctions tanks rows periods finished
        → All (IsOpenRow junctions tanks) front
        → text ≡ header_line open_version junctions tanks ++ (joined (map open_record_text front) ++ unread)
        → (more : List OpenRecord) × (rows ≡ front ++ more) }
{}

/// No record of the certificate of a run with a slack is refused, nor is its end line: not of what was accepted, not of
/// what a run wrote, and not where it told its report.
pub fn checks()
    ensures accepted { (project : Project) (text printed : List ℕ) (cause : CertRefused)
        → CheckAcceptsOpenly project text → CheckRefusesOpenly project text printed cause → ⊥ }
    ensures written { (project : Project) (slack rounds : ℕ) (stop : Option StopCause) (text printed : List ℕ)
        (cause : CertRefused) → RunWritesOpenly project slack rounds stop text
        → CheckRefusesOpenly project text printed cause → ⊥ }
    ensures told { (project : Project) (slack rounds : ℕ) (sharpness : Sharpness) (outcome : Outcome)
        (text report printed : List ℕ) (cause : CertRefused)
        → RunTellsOpenly project slack rounds sharpness outcome text report
        → CheckRefusesOpenly project text printed cause → ⊥ }
    ensures accepted_end { (project : Project) (text printed : List ℕ) → CheckAcceptsOpenly project text
        → CheckRefusesOpenEnd project text printed → ⊥ }
    ensures written_end { (project : Project) (slack rounds : ℕ) (stop : Option StopCause) (text printed : List ℕ)
        → RunWritesOpenly project slack rounds stop text → CheckRefusesOpenEnd project text printed → ⊥ }
    ensures told_end { (project : Project) (slack rounds : ℕ) (sharpness : Sharpness) (outcome : Outcome)
        (text report printed : List ℕ) → RunTellsOpenly project slack rounds sharpness outcome text report
        → CheckRefusesOpenEnd project text printed → ⊥ }
{}

/// Two checks of one text that refuse a record refuse it by one cause.
pub fn one_answer()
    ensures { (project : Project) (text printed other : List ℕ) (a b : CertRefused)
        → CheckRefusesOpenly project text printed a → CheckRefusesOpenly project text other b
        → (a ≡ b) × (printed ≡ other) }
{}
