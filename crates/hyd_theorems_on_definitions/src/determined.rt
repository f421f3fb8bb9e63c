//! What a record decides is one, in every network: the grid of a standing and its tight vectors, the end of the
//! period, the standing that it leads on to, and the lines of its report. So a tight run that the relations accept is
//! the only tight one of as many periods.
#![tactic(auto)]

ghost use Rattle.std.specs.Prelude.{◌≡◌, ℕ, ℤ, List, length};
ghost use Rattle.hyd_num.specs.CapacityPairs.{IsMade};
ghost use Rattle.hyd_spec.specs.ProgramTypes.{Project, Capacity};
ghost use Rattle.hyd_spec_certificates.specs.declared.Problem.{Problem};
ghost use Rattle.hyd_spec_certificates.specs.declared.Side.{Side};
ghost use Rattle.hyd_spec_certificates.specs.PeriodNetwork.{Grid};
ghost use Rattle.hyd_spec_certificates.specs.Certificate.{IsTight};
ghost use Rattle.hyd_spec_certificates.specs.RecordAndStanding.{Record, Standing};
ghost use Rattle.hyd_spec_certificates.specs.Decided.{End, EndsBy};
ghost use Rattle.hyd_spec_certificates.specs.Valid.{LeadsOn, IsGridAt, IsValid};
ghost use Rattle.hyd_spec_certificates.specs.declared.CertRefused.{CertRefused};
ghost use Rattle.hyd_spec_certificates.specs.RefusedRecords.{IsRefused};

/// A period ends in one way.
pub fn ends()
    ensures { (project : Project) (grid : Grid) (standing : Standing) (row : Record) (a b : End)
        → EndsBy project grid standing row a → EndsBy project grid standing row b → a ≡ b }
{}

/// A record leads on to one standing.
pub fn standings()
    ensures { (project : Project) (grid : Grid) (standing : Standing) (row : Record) (a b : Standing)
        → LeadsOn project grid standing row a → LeadsOn project grid standing row b → a ≡ b }
{}

/// A grid has one tight vector of a problem and side.
pub fn vectors()
    ensures { (grid : Grid) (problem : Problem) (side : Side) (u v : List ℤ)
        → IsTight grid problem side u → IsTight grid problem side v → u ≡ v }
{}

/// A record is refused at a standing by one cause, and one that is refused isn't valid there.
pub fn refusals()
    ensures one { (project : Project) (standing : Standing) (row : Record) (a b : CertRefused)
        → IsRefused project standing row a → IsRefused project standing row b → a ≡ b }
    ensures invalid { (project : Project) (standing : Standing) (row : Record) (cause : CertRefused)
        → IsRefused project standing row cause → (grid : Grid) (next : Standing)
        → IsValid project standing grid row next → ⊥ }
{}

/// A record that leads on has one length.
pub fn lengths()
    ensures { (project : Project) (grid : Grid) (standing : Standing) (row : Record) (other : ℕ) (a b : Standing)
        → LeadsOn project grid standing row a → LeadsOn project grid standing (record row { length = other }) b
        → row.length ≡ other }
{}

/// Given numbers have one capacity.
pub fn capacities()
    ensures { (a b : Capacity) → a.origin ≡ b.origin → IsMade a → IsMade b → a ≡ b }
{}

/// A standing has one grid.
pub fn grids()
    ensures { (project : Project) (standing : Standing) (a b : Grid) → IsGridAt project standing a
        → IsGridAt project standing b → a ≡ b }
{}
