//! Witnesses: at each scale the enclosing functions of that scale enclose the exact flow, so periods that are met are a
//! history of the network, with which every run agrees; a moment that isn't met fails by one clause first; and a
//! witness is read in one way. Each statement is the contract of a small function.
#![tactic(auto)]

ghost use Rattle.std.specs.Prelude.{◌≡◌, ◌<◌, ◌^◌, ℕ, ℤ, List, length, All};
ghost use Rattle.hyd_net.specs.Sound.{IsSound};
ghost use Rattle.hyd_spec.specs.ProgramTypes.{Project, Junction};
ghost use Rattle.hyd_spec.specs.DemandsHeadsAndPumpLifts.{demand_of};
ghost use Rattle.hyd_spec.specs.Law.{Law, Follows, flow_at_least, flow_at_most};
ghost use Rattle.hyd_spec.specs.Outflow.{FollowsDemand};
ghost use Rattle.hyd_spec.specs.History.{IsHistory, initial_links};
ghost use Rattle.hyd_spec_certificates.specs.EnclosingFunctions.{DemandLaw, low, high};
ghost use Rattle.hyd_spec_certificates.specs.PeriodNetwork.{IsDemandLaw};
ghost use Rattle.hyd_spec_reports.specs.PromisesOfRunsAndChecks.{Found, EveryHistoryAgrees, AllAgree};
ghost use Rattle.hyd_spec_witnesses.specs.EnclosingFunctionsAtScale.{low_at, high_at};
ghost use Rattle.hyd_spec_witnesses.specs.MetFlows.{IsMetBy, IsDemandMetBy};
ghost use Rattle.hyd_spec_witnesses.specs.MetPeriods.{Moment, HasItsLists, Reached, IsMet, AreMet, periods_of};
ghost use Rattle.hyd_spec_witnesses.specs.FirstUnmetClause.{IsUnmet};
ghost use Rattle.hyd_spec_witnesses.specs.WitnessText.{Counts, IsWitnessText};
ghost use Rattle.hyd_spec_witnesses.specs.FaultyLine.{IsWitness, IsFaultyLine};
ghost use Rattle.hyd_spec_witnesses.specs.declared.Unmet.{Unmet};
ghost use Rattle.hyd_theorems_on_definitions.specs.SoundLawsAndGrids.{IsSoundLaw};

// ---- flows

/// At each scale the enclosing functions of that scale enclose the exact flow of a sound law, and a flow that is met at
/// a head difference follows the law.
pub fn flows_at_scale()
    ensures below { (S : ℕ) (law : Law) (d : ℤ) → 0 < S → IsSoundLaw law → flow_at_least law S d (low_at S law d) }
    ensures above { (S : ℕ) (law : Law) (d : ℤ) → 0 < S → IsSoundLaw law → flow_at_most law S d (high_at S law d) }
    ensures met { (S : ℕ) (law : Law) (d q : ℤ) → 0 < S → IsSoundLaw law → IsMetBy law S d q → Follows law S d q }
{}

/// At scale 1 the enclosing functions of a scale are those of whole ticks.
pub fn flows_at_scale_one()
    ensures low_same { (law : Law) (d : ℤ) → low_at 1 law d ≡ low law d }
    ensures high_same { (law : Law) (d : ℤ) → high_at 1 law d ≡ high law d }
{}

/// A demand flow that is met at a pressure follows the demand.
pub fn demands_at_scale()
    ensures { (project : Project) (time : ℕ) (junction : Junction) (law : DemandLaw) (S : ℕ) (p q : ℤ) → 0 < S
        → IsDemandLaw project (demand_of project time junction) law → IsDemandMetBy law S p q
        → FollowsDemand project time junction S p q }
{}

// ---- histories

/// Periods of a witness that are met one after another are a history of a sound network, at the scale of the witness:
/// as many periods as there are moments. So where there is one at least, what is said of every history is said of it.
pub fn met_histories()
    ensures history { (project : Project) → IsSound project → (S : ℕ) → 0 < S → (moments : List Moment)
        → All (HasItsLists project) moments → AreMet project S moments
        → IsHistory project S (periods_of project S moments) }
    ensures as_many { (project : Project) (S : ℕ) (moments : List Moment)
        → length (periods_of project S moments) ≡ length moments }
    ensures agrees { (project : Project) → IsSound project → (S : ℕ) → 0 < S → (moments : List Moment)
        → All (HasItsLists project) moments → AreMet project S moments → (founds : List Found)
        → EveryHistoryAgrees project founds
        → AllAgree project S (initial_links project) (periods_of project S moments) founds }
{}

/// A moment that isn't met fails by one clause first, at one place, and one that is met fails by none.
pub fn first_clauses()
    ensures one { (project : Project) (S : ℕ) (reached : Reached) (moment : Moment) (a b : Unmet)
        → IsUnmet project S reached moment a → IsUnmet project S reached moment b → a ≡ b }
    ensures none { (project : Project) (S : ℕ) (reached : Reached) (moment : Moment) (unmet : Unmet)
        → IsUnmet project S reached moment unmet → IsMet project S reached moment → ⊥ }
{}

// ---- texts

/// A text is a witness of one scale and of one list of periods at most.
pub fn one_reading_of_witness()
    ensures { (counts : Counts) → counts.junctions < 2 ^ 32 → counts.links < 2 ^ 32 → counts.tanks < 2 ^ 32
        → (text : List ℕ) (scale other : ℕ) (moments others : List Moment) → IsWitnessText counts text scale moments
        → IsWitnessText counts text other others → (scale ≡ other) × (moments ≡ others) }
{}

/// A text is at fault in one line at most, and a witness in none.
pub fn faulty_lines()
    ensures one { (counts : Counts) (text : List ℕ) (a b : ℕ) → IsFaultyLine counts text a
        → IsFaultyLine counts text b → a ≡ b }
    ensures none { (counts : Counts) (text : List ℕ) (number : ℕ) → IsFaultyLine counts text number
        → IsWitness counts text → ⊥ }
{}
