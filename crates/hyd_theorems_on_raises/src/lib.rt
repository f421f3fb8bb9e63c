//! Raises, rounds and leaps lead to the tight vectors, on both sides, with or without a junction held, and whatever
//! the laws of links are, as long as each is a law. Each statement is the contract of a small function.
#![tactic(auto)]

ghost use Rattle.std.specs.Prelude.{◌≡◌, ◌<◌, ℕ, List, ℤ, length, Option, Some, slice_get, ◌⊎◌, ◌≤ℤ◌, slice_set};
ghost use Rattle.std.specs.List.{AllByRecursion};
ghost use Rattle.hyd_spec.specs.Lists.{Each};
ghost use Rattle.hyd_spec.specs.Assignment.{head_at};
ghost use Rattle.hyd_spec_certificates.specs.declared.Problem.{Problem};
ghost use Rattle.hyd_spec_certificates.specs.declared.Problem.TheVariants.{Main};
ghost use Rattle.hyd_spec_certificates.specs.declared.Side.{Side};
ghost use Rattle.hyd_spec_certificates.specs.declared.HeldJunction.{HeldJunction};
ghost use Rattle.hyd_spec_certificates.specs.Interval.{Interval};
ghost use Rattle.hyd_spec_certificates.specs.PeriodNetwork.{Grid, GridJunction, opposite};
ghost use Rattle.hyd_spec_certificates.specs.Certificate.{Suits, FailsFirst, IsCandidateHolding, IsRaisedHolding};
ghost use Rattle.hyd_spec_certificates.specs.Certificate.{AreRoundsHolding, IsCertificate, IsCertificateHolding};
ghost use Rattle.hyd_spec_certificates.specs.Certificate.{IsTightHolding, IsRoundHolding, IsInBox, IsBeyond};
ghost use Rattle.hyd_spec_certificates.specs.StartsRaisesAndLeaps.{LiesBeyond, IsStart, IsLeap, Climbs, HasParts};
ghost use Rattle.hyd_spec_certificates.specs.StartsRaisesAndLeaps.{HasRounds};
ghost use Rattle.hyd_spec_certificates.specs.StartsRaisesAndLeaps.{IsOrderedHolding, JoinsNone};
ghost use Rattle.hyd_spec_certificates.specs.TurnsOfProblems.{beginning};
ghost use Rattle.hyd_theorems_on_definitions.specs.SoundLawsAndGrids.{IsSteady};

/// A vector with a head for each junction is a certificate, or fails first at a junction; not both, and at one
/// junction.
pub fn failures()
    ensures found { (held : Option HeldJunction) (grid : Grid) (problem : Problem) (side : Side) (u : List ℤ)
        → length u ≡ length grid.junctions → IsCertificateHolding held grid problem side u
        ⊎ ((i : ℕ) × ((i < length grid.junctions) × FailsFirst held grid problem side u i)) }
    ensures none { (held : Option HeldJunction) (grid : Grid) (problem : Problem) (side : Side) (u : List ℤ) (i : ℕ)
        → FailsFirst held grid problem side u i → IsCertificateHolding held grid problem side u → ⊥ }
    ensures one { (held : Option HeldJunction) (grid : Grid) (problem : Problem) (side : Side) (u : List ℤ) (i j : ℕ)
        → FailsFirst held grid problem side u i → FailsFirst held grid problem side u j → i ≡ j }
{}

/// A raise exists, or there is no candidate; there is one at most. From a start it leads to a start, and where there is
/// no candidate at some junction of a start there is no certificate. A start at which every junction suits is the
/// tight vector.
pub fn raises()
    ensures found { (held : Option HeldJunction) (grid : Grid) → IsSteady grid → (problem : Problem) (side : Side)
        (u : List ℤ) (i : ℕ) (junction : GridJunction)
        → ((x : ℤ) × IsRaisedHolding held grid problem side u i junction x)
        ⊎ ((x : ℤ) → IsCandidateHolding held grid problem side u i junction x → ⊥) }
    ensures one { (held : Option HeldJunction) (grid : Grid) → IsSteady grid → (problem : Problem) (side : Side)
        (u : List ℤ) (i : ℕ) (junction : GridJunction) (x y : ℤ)
        → IsRaisedHolding held grid problem side u i junction x → IsRaisedHolding held grid problem side u i junction y
        → x ≡ y }
    ensures start { (held : Option HeldJunction) (grid : Grid) → IsSteady grid → (problem : Problem) (side : Side)
        (u : List ℤ) (i : ℕ) (junction : GridJunction) (x : ℤ) → IsStart held grid problem side u
        → slice_get grid.junctions i ≡ Some junction → IsRaisedHolding held grid problem side u i junction x
        → IsStart held grid problem side (slice_set u i x) }
    ensures none { (held : Option HeldJunction) (grid : Grid) → IsSteady grid → (problem : Problem) (side : Side)
        (u : List ℤ) (i : ℕ) (junction : GridJunction) → IsStart held grid problem side u
        → slice_get grid.junctions i ≡ Some junction
        → ((x : ℤ) → IsCandidateHolding held grid problem side u i junction x → ⊥)
        → (w : List ℤ) → IsCertificateHolding held grid problem side w → ⊥ }
    ensures tight { (held : Option HeldJunction) (grid : Grid) → IsSteady grid → (problem : Problem) (side : Side)
        (u : List ℤ) → IsStart held grid problem side u → Each grid.junctions (Suits held grid problem side u)
        → IsTightHolding held grid problem side u }
{}

/// From any start: the tight vector exists, or there is no certificate. And the nearer of two certificates, at each
/// junction, is one.
pub fn tight()
    ensures found { (held : Option HeldJunction) (grid : Grid) → IsSteady grid → (problem : Problem) (side : Side)
        (u : List ℤ) → IsStart held grid problem side u
        → ((v : List ℤ) × IsTightHolding held grid problem side v)
        ⊎ ((w : List ℤ) → IsCertificateHolding held grid problem side w → ⊥) }
    ensures nearer { (held : Option HeldJunction) (grid : Grid) → IsSteady grid → (problem : Problem) (side : Side)
        (u w v : List ℤ) → IsCertificateHolding held grid problem side u → IsCertificateHolding held grid problem side w
        → length v ≡ length u
        → ((m : ℕ) → m < length v → ((head_at v m ≡ head_at u m) × IsBeyond side (head_at v m) (head_at w m))
        ⊎ ((head_at v m ≡ head_at w m) × IsBeyond side (head_at v m) (head_at u m)))
        → IsCertificateHolding held grid problem side v }
{}

/// A leap leads from a start to a start.
pub fn leaps()
    ensures { (held : Option HeldJunction) (grid : Grid) → IsSteady grid → (problem : Problem) (side : Side)
        (u v : List ℤ) → IsStart held grid problem side u → IsLeap held grid problem side u v
        → IsStart held grid problem side v }
{}

/// Raises in any order, with leaps between them, lead from a start to a start; n parts of the order that each name
/// every junction lead as far as n rounds, or farther; and where that is no certificate, the result of those rounds
/// is none.
pub fn orders()
    ensures start { (held : Option HeldJunction) (grid : Grid) → IsSteady grid → (problem : Problem) (side : Side)
        (order : List ℕ) (u w : List ℤ) → Climbs held grid problem side order u w → IsStart held grid problem side u
        → IsStart held grid problem side w }
    ensures rounds { (held : Option HeldJunction) (grid : Grid) → IsSteady grid → (problem : Problem) (side : Side)
        (n : ℕ) (order : List ℕ) (u w : List ℤ) → length u ≡ length grid.junctions
        → HasParts (length grid.junctions) n order → Climbs held grid problem side order u w
        → HasRounds held grid problem side n u w }
    ensures spent { (held : Option HeldJunction) (grid : Grid) → IsSteady grid → (problem : Problem) (side : Side)
        (n : ℕ) (first u : List ℤ) (rounds : HasRounds held grid problem side n first u)
        → IsStart held grid problem side u → (IsCertificateHolding held grid problem side u → ⊥)
        → IsCertificateHolding held grid problem side rounds.reached → ⊥ }
{}

/// Rounds lead to one vector. And where n rounds from a start lead to no certificate, n rounds from each vector that it
/// lies beyond exist, and lead to none either.
pub fn rounds()
    ensures reached { (held : Option HeldJunction) (grid : Grid) → IsSteady grid → (problem : Problem) (side : Side)
        (n : ℕ) (u v w : List ℤ) → length u ≡ length grid.junctions → AreRoundsHolding held grid problem side n u v
        → AreRoundsHolding held grid problem side n u w → v ≡ w }
    ensures nearer { (held : Option HeldJunction) (grid : Grid) → IsSteady grid → (problem : Problem) (side : Side)
        (n : ℕ) (first u w : List ℤ) → length first ≡ length grid.junctions → LiesBeyond side first u
        → IsStart held grid problem side u → AreRoundsHolding held grid problem side n u w
        → (IsCertificateHolding held grid problem side w → ⊥)
        → (v : List ℤ) × (AreRoundsHolding held grid problem side n first v
        × (IsCertificateHolding held grid problem side v → ⊥)) }
{}

/// Where a search may begin: at the end of the box; at a certificate of the other side with all tanks alike, where
/// each tank's interval is in order; and with a held junction put to its head. A certificate with one head drawn
/// nearer is one with that junction held there.
pub fn starts()
    ensures at_end { (held : Option HeldJunction) (grid : Grid) (problem : Problem) (side : Side)
        → IsStart held grid problem side (beginning side (length grid.junctions)) }
    ensures other { (grid : Grid) → IsSteady grid → (side : Side) (held : Option HeldJunction) (problem : Problem)
        → ((k : ℕ) (x : Interval) → slice_get grid.tanks k ≡ Some x → x.lo ≤ℤ x.hi)
        → (v : List ℤ) → IsCertificate grid Main (opposite side) v → IsOrderedHolding held side v
        → IsStart held grid problem side v }
    ensures at_held { (grid : Grid) (problem : Problem) (side : Side) (held : HeldJunction) (u : List ℤ)
        → IsStart (Some held) grid problem side u → held.junction < length u → IsInBox held.head
        → IsStart (Some held) grid problem side (slice_set u held.junction held.head) }
    ensures drawn { (grid : Grid) → IsSteady grid → (problem : Problem) (side : Side) (held : HeldJunction) (u : List ℤ)
        → IsCertificate grid problem side u → held.junction < length u → IsInBox held.head
        → IsBeyond side held.head (head_at u held.junction)
        → IsCertificateHolding (Some held) grid problem side (slice_set u held.junction held.head) }
{}

/// Where no link joins two junctions one round leads to a certificate.
pub fn alone()
    ensures { (held : Option HeldJunction) (grid : Grid) (problem : Problem) (side : Side)
        → AllByRecursion (JoinsNone (length grid.junctions)) grid.links
        → (u v : List ℤ) → length u ≡ length grid.junctions → IsRoundHolding held grid problem side u v
        → IsCertificateHolding held grid problem side v }
{}
