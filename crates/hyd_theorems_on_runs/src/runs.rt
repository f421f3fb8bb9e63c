//! What a run is made of, what is left of one that breaks off, and what a check accepts.
#![tactic(auto)]

ghost use Rattle.std.specs.Prelude.{◌≡◌, ◌≢◌, ℕ, ◌<◌, ◌≤◌, List, [], ◌∷◌, ◌++◌, length};
ghost use Rattle.hyd_spec.specs.ProgramTypes.{Project};
ghost use Rattle.hyd_spec.specs.PeriodLength.{Period, EndsByClock, HasItsLength};
ghost use Rattle.hyd_spec.specs.History.{IsPeriod, ComesAfter, IsHistory};
ghost use Rattle.hyd_spec_certificates.specs.PeriodNetwork.{Grid};
ghost use Rattle.hyd_spec_certificates.specs.RecordAndStanding.{Record, Standing};
ghost use Rattle.hyd_spec_certificates.specs.Valid.{IsValid, AreValid};
ghost use Rattle.hyd_spec_reports.specs.ReportLine.{report_text};
ghost use Rattle.hyd_spec_reports.specs.PromisesOfRunsAndChecks.{Found, IsFound, IsRun, rows_of, lines_of, Sharpness};
ghost use Rattle.hyd_spec_reports.specs.PromisesOfRunsAndChecks.{Outcome, RunWrites, RunBreaksOff, CheckAccepts};
ghost use Rattle.hyd_spec_reports.specs.PromisesOfRunsAndChecks.{accepted_line};

/// The records of a run are valid one after another, from its start to the standing that it leaves.
pub fn records()
    ensures { (project : Project) (founds : List Found) (last : Standing) → IsRun project founds last
        → AreValid project (rows_of founds) last }
{}

/// Fronts of what a whole run writes and prints are what one that breaks off may leave.
pub fn fronts()
    ensures { (project : Project) (rounds : ℕ) (sharpness : Sharpness) (outcome : Outcome)
        (certificate report written unwritten printed unprinted : List ℕ)
        → RunWrites project rounds sharpness outcome certificate report
        → written ++ unwritten ≡ certificate → printed ++ unprinted ≡ report
        → RunBreaksOff project rounds sharpness written printed }
{}

/// A check accepts the certificate that a run wrote, and prints its report, with `PARTIAL` in place of the line of a
/// stop.
pub fn acceptance()
    ensures { (project : Project) (rounds : ℕ) (sharpness : Sharpness) (outcome : Outcome) (certificate report : List ℕ)
        (run : RunWrites project rounds sharpness outcome certificate report)
        → CheckAccepts project certificate
        (report_text project (lines_of run.founds) (accepted_line (length run.founds) run.left.finished)) }
{}

/// A period that comes after the last one of a history makes it longer by one, and a front of a history is one.
pub fn histories()
    ensures longer { (project : Project) (S : ℕ) (periods : List Period) (last period : Period)
        → IsHistory project S (periods ++ (last ∷ [])) → ComesAfter project S last period → IsPeriod project S period
        → IsHistory project S (periods ++ (last ∷ (period ∷ []))) }
    ensures front { (project : Project) (S : ℕ) (front rest : List Period) → IsHistory project S (front ++ rest)
        → IsHistory project S front }
{}

/// What is found at the standing that a run leaves makes the run longer by one, and so does a record that is valid
/// there with the records of a run.
pub fn longer_runs()
    ensures runs { (project : Project) (founds : List Found) (last : Standing) (found : Found)
        → IsRun project founds last
        → found.standing ≡ last → IsFound project found → IsRun project (founds ++ (found ∷ [])) found.next }
    ensures records { (project : Project) (rows : List Record) (last next : Standing) (grid : Grid) (row : Record)
        → AreValid project rows last → IsValid project last grid row next → AreValid project (rows ++ (row ∷ [])) next }
{}

/// The clock ends a period after its start, and every period but that at the end of the run lasts a second at least.
pub fn lengths()
    ensures clock { (project : Project) (time e : ℕ) → EndsByClock project time e → time < e }
    ensures period { (project : Project) (S : ℕ) (period : Period) → HasItsLength project S period
        → period.time ≢ project.times.duration → 1 ≤ period.length }
{}
