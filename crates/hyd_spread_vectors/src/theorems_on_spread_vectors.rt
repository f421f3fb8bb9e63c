//! What found vectors make of a record for a spread.
#![tactic(auto)]

ghost use Rattle.std.specs.Prelude.{◌≡◌, ℕ, ℤ, Bool, List, true};
ghost use Rattle.hyd_spec.specs.ProgramTypes.{Project};
ghost use Rattle.hyd_spec.specs.NodeNumbers.{tank_count};
ghost use Rattle.hyd_spec_certificates.specs.declared.Problem.{Problem};
ghost use Rattle.hyd_spec_certificates.specs.declared.Side.{Side};
ghost use Rattle.hyd_spec_certificates.specs.Certificate.{IsTight};
ghost use Rattle.hyd_spec_certificates.specs.Interval.{Interval};
ghost use Rattle.hyd_spec_certificates.specs.RecordAndStanding.{Record as Vectors, vector_of};
ghost use Rattle.hyd_spec_certificates.specs.Valid.{IsProblem};
ghost use Rattle.hyd_spec_spread_runs.specs.OutermostPairs.{Pair, grid_on};
ghost use Rattle.hyd_spec_spread_runs.specs.RunsForSpreads.{AreCertificatesOver};
ghost use Rattle.hyd_spec_spread_promises.specs.SharpOverSpreads.{IsNarrowOver};
ghost use Rattle.hyd_cert.specs.RecordView.{row_of};
ghost use Rattle.hyd_cert.specs.declared.record.Record.{Record};
ghost use Rattle.hyd_period_vectors.specs.SoughtVectors.{OfEach};
ghost use Rattle.hyd_spread_vectors.specs.VectorsOfBothNetworks.{Told, Held, held_on, AreFoundOn};
ghost use Rattle.hyd_spread_vectors.specs.VectorsOfBothNetworks.{IsHeldIn, IsSoughtOver};
ghost use Rattle.hyd_spread_vectors.specs.NarrowForSpreads.{HoldsClose};

/// A record with found vectors, each on the network of its side, has certificates for a spread of which these are the
/// outermost networks.
pub fn certificates_over()
    ensures { (project : Project) (tight : Bool) (told : Told) (pair : Pair) (tanks : ℕ) (row : Record)
        → tanks ≡ tank_count project → row.tanks ≡ tanks
        → OfEach (IsSoughtOver tight told pair tanks) tanks (row_of row)
        → AreCertificatesOver project pair (row_of row) }
{}

/// And where tight ones were asked for, each is the tight one there.
pub fn tight_over()
    ensures { (project : Project) (told : Told) (pair : Pair) (tanks : ℕ) (row : Record)
        → tanks ≡ tank_count project
        → OfEach (IsSoughtOver true told pair tanks) tanks (row_of row)
        → (problem : Problem) (side : Side) → IsProblem project problem
        → IsTight (grid_on side pair) problem side (vector_of (row_of row) problem side) }
{}

/// What was found on both networks and is close there makes a record narrow for the spread.
pub fn narrow_over()
    ensures { (W : ℤ) (levels : List Interval) (tight : Bool) (told : Told) (pair : Pair) (tanks rounds : ℕ)
        (held : Held) (row : Vectors)
        → ((network : Side) → AreFoundOn tight told pair tanks rounds network (held_on network held))
        → OfEach (IsHeldIn held) tanks row → HoldsClose W levels held → IsNarrowOver W levels pair row }
{}
