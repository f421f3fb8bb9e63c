//! What a tight run writes and prints is decided by the network: whatever the width and the number of rounds, two tight
//! runs go the same way as far as both go, those that finish write one certificate and print one report, and what was
//! written and printed of one that was broken off begins these. Each statement is the contract of a small function.
#![tactic(auto)]

ghost use Rattle.std.specs.Prelude.{◌≡◌, ◌⊎◌, ℕ, false, List, None};
ghost use Rattle.hyd_net.specs.Sound.{IsSound};
ghost use Rattle.hyd_spec.specs.ProgramTypes.{Project};
ghost use Rattle.hyd_spec.specs.Lists.{IsFrontOf};
ghost use Rattle.hyd_spec_certificates.specs.RecordAndStanding.{Standing};
ghost use Rattle.hyd_spec_certificates.specs.declared.StopCause.{StopCause};
ghost use Rattle.hyd_spec_certificates.specs.Stops.{Stops};
ghost use Rattle.hyd_spec_reports.specs.PromisesOfRunsAndChecks.{Found, rows_of, certificate_so_far, report_so_far};
ghost use Rattle.hyd_theorems_on_nesting.specs.GoingOnOrStopped.{IsReason};
ghost use Rattle.hyd_theorems_on_tight_runs.specs.TightRuns.{IsTightRun, FinishesTight, BreaksOffTight};

// ---- two runs

/// Of two tight runs of a network the periods of one are the first of the other, and so are its records.
pub fn fronts()
    ensures periods { (project : Project) (a b : List Found) (last other : Standing) → IsTightRun project a last
        → IsTightRun project b other → IsFrontOf a b ⊎ IsFrontOf b a }
    ensures records { (project : Project) (a b : List Found) (last other : Standing) → IsTightRun project a last
        → IsTightRun project b other → IsFrontOf (rows_of a) (rows_of b) ⊎ IsFrontOf (rows_of b) (rows_of a) }
{}

/// Tight runs of a network that finish write one certificate and print one report, whatever the width and the number of
/// rounds that were asked of each.
pub fn one_text()
    ensures certificate { (project : Project) (written printed text report : List ℕ)
        → FinishesTight project written printed → FinishesTight project text report → written ≡ text }
    ensures report { (project : Project) (written printed text report : List ℕ)
        → FinishesTight project written printed → FinishesTight project text report → printed ≡ report }
{}

/// Where a tight run of a sound network finishes, no cause of a stop but spent rounds holds where another tight run has
/// come to and isn't finished.
pub fn stops()
    ensures { (project : Project) → IsSound project → (text report : List ℕ) → FinishesTight project text report
        → (founds : List Found) (left : Standing) → IsTightRun project founds left → left.finished ≡ false
        → (rounds : ℕ) (cause : StopCause) → IsReason cause → Stops project left rounds cause → ⊥ }
{}

// ---- fronts of a finished run

/// The header, the records and the report lines of a tight run as far as it went, its last lines aside, begin the
/// certificate and the report of each tight run that finishes.
pub fn so_far()
    ensures certificate { (project : Project) (text report : List ℕ) → FinishesTight project text report
        → (founds : List Found) (left : Standing) → IsTightRun project founds left
        → IsFrontOf (certificate_so_far project founds None) text }
    ensures report { (project : Project) (text report : List ℕ) → FinishesTight project text report
        → (founds : List Found) (left : Standing) → IsTightRun project founds left
        → IsFrontOf (report_so_far project left founds None) report }
{}

/// What was written and printed of a tight run that a fault broke off begins the certificate and the report of each
/// tight run of the sound network that finishes. Nothing is claimed of the last lines of one that had spent its rounds:
/// with more rounds another run goes on there.
pub fn broken_off()
    ensures certificate { (project : Project) → IsSound project → (text report written printed : List ℕ)
        → FinishesTight project text report → BreaksOffTight project written printed → IsFrontOf written text }
    ensures report { (project : Project) → IsSound project → (text report written printed : List ℕ)
        → FinishesTight project text report → BreaksOffTight project written printed → IsFrontOf printed report }
{}
