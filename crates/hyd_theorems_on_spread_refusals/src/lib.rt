//! Refusals of records in a check for a spread: a record is refused by one cause, and one that is refused isn't valid
//! for the spread, since a period has one outermost grid a side. Each statement is the contract of a small function.
#![tactic(auto)]

ghost use Rattle.std.specs.Prelude.{◌≡◌, ℕ, List};
ghost use Rattle.hyd_spec.specs.ProgramTypes.{Project, LinkState};
ghost use Rattle.hyd_spec.specs.declared.TankState.{TankState};
ghost use Rattle.hyd_spec_certificates.specs.declared.CertRefused.{CertRefused};
ghost use Rattle.hyd_spec_certificates.specs.declared.Side.{Side};
ghost use Rattle.hyd_spec_certificates.specs.Interval.{Interval};
ghost use Rattle.hyd_spec_certificates.specs.PeriodNetwork.{Grid};
ghost use Rattle.hyd_spec_certificates.specs.RecordAndStanding.{Standing};
ghost use Rattle.hyd_spec_open_ends.specs.OpenStandings.{OpenStanding, OpenRecord};
ghost use Rattle.hyd_spec_open_spreads.specs.OpenRunsForSpreads.{IsValidOpenlyOver};
ghost use Rattle.hyd_spec_spread.specs.OutermostGrids.{IsOutermostGrid};
ghost use Rattle.hyd_spec_spread.specs.Spreads.{Spread};
ghost use Rattle.hyd_spec_spread_refusals.specs.RefusedSpreadRecords.{IsRefusedOver};
ghost use Rattle.hyd_spec_spread_runs.specs.OutermostPairs.{Pair};
ghost use Rattle.hyd_spec_spread_runs.specs.RunsForSpreads.{ArePairAt};

/// A period has one outermost grid a side, so a standing has one pair of them.
pub fn outermost_grids()
    ensures grid { (project : Project) (spread : Spread) (side : Side) (time : ℕ) (levels : List Interval)
        (tanks : List TankState) (links : List LinkState) (a b : Grid)
        → IsOutermostGrid project spread side time levels tanks links a
        → IsOutermostGrid project spread side time levels tanks links b → a ≡ b }
    ensures pair { (project : Project) (spread : Spread) (standing : Standing) (a b : Pair)
        → ArePairAt project spread standing a → ArePairAt project spread standing b → a ≡ b }
{}

/// A record is refused at a standing for a spread by one cause, and one that is refused isn't valid for it there.
pub fn refusals()
    ensures one { (project : Project) (spread : Spread) (standing : OpenStanding) (found : OpenRecord)
        (a b : CertRefused) → IsRefusedOver project spread standing found a
        → IsRefusedOver project spread standing found b → a ≡ b }
    ensures invalid { (project : Project) (spread : Spread) (standing : OpenStanding) (found : OpenRecord)
        (cause : CertRefused) → IsRefusedOver project spread standing found cause → (pair : Pair)
        (next : OpenStanding) → IsValidOpenlyOver project spread standing pair found next → ⊥ }
{}
