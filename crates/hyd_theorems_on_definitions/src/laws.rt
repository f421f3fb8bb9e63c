//! Laws of losses and of the laws of links.
#![tactic(auto)]

ghost use Rattle.std.specs.Prelude.{◌≡◌, ◌↔◌, ℕ, ◌<◌, ℤ, pos, ◌≤ℤ◌, Bool, List, Option};
ghost use Rattle.hyd_num.specs.QuotientsAndRoots.{IsSquareRootDown, IsSquareRootUp};
ghost use Rattle.hyd_num.specs.declared.flow_units.FlowUnit.{FlowUnit};
ghost use Rattle.hyd_net.specs.ListView.{ListView};
ghost use Rattle.hyd_net.specs.NetworkRanges.{HasSizes};
ghost use Rattle.hyd_net.specs.RoundedFileNumbers.{IsKindMade};
ghost use Rattle.hyd_spec.specs.ProgramTypes.{Origin, Capacity, Pattern, HeadPoint, LinkKind, LinkState};
ghost use Rattle.hyd_spec.specs.ProgramTypes.{HazenWilliamsPipe};
ghost use Rattle.hyd_spec_certificates.specs.Interval.{Interval};
ghost use Rattle.hyd_spec_certificates.specs.StatusesOfLinks.{status_of, StatusHolds};
ghost use Rattle.hyd_spec.specs.Law.{Law, ForwardOnly, ReverseOnly, Held, loss_at_most, loss_at_least, flow_at_least};
ghost use Rattle.hyd_spec.specs.Law.{flow_at_most, pipe_loses_at_most, pipe_loses_at_least};
ghost use Rattle.hyd_spec_certificates.specs.EnclosingFunctions.{low, high, root_down, root_up, DemandLaw, demand_low};
ghost use Rattle.hyd_spec_certificates.specs.EnclosingFunctions.{demand_high, emitter_low, emitter_high};
ghost use Rattle.hyd_theorems_on_definitions.specs.SoundLawsAndGrids.{IsLossLaw, HasPositiveNumbers, IsLaw, IsSoundLaw};
ghost use Rattle.hyd_theorems_on_definitions.specs.SoundLawsAndGrids.{AreRising, HasPositivePipe};
ghost use Rattle.hyd_theorems_on_definitions.specs.SoundLawsAndGrids.{IsSoundDemand};
ghost use Rattle.hyd_theorems_on_definitions.specs.LyingInIntervals.{LiesIn};

/// What is lost in pipes, valves, pumps, emitters and by demands that depend on the pressure
/// rises with the flow: one that loses at most a head is at most one that loses at least it.
pub fn losses()
    ensures each { (origin : Origin) → HasPositiveNumbers origin
        → IsLossLaw (loss_at_most origin) (loss_at_least origin) }
    ensures pipes { (pipe : HazenWilliamsPipe) → HasPositivePipe pipe
        → IsLossLaw (pipe_loses_at_most pipe) (pipe_loses_at_least pipe) }
{}

/// Each sound law of a link is a law, and its enclosing functions enclose it.
pub fn link_laws()
    ensures each { (law : Law) → IsSoundLaw law → IsLaw (flow_at_least law) (flow_at_most law) (low law) (high law) }
{}

/// A law that is held between two flows around 0 and may pass one way only is held with 0 as the end
/// of the other way: its exact flow and its enclosing functions are the same.
pub fn held_ends()
    ensures reverse_low { (least greatest : ℤ) (law : Law) (d : ℤ) → least ≤ℤ pos 0 → pos 0 ≤ℤ greatest
        → low (ReverseOnly (Held least greatest law)) d ≡ low (Held least (pos 0) law) d }
    ensures reverse_high { (least greatest : ℤ) (law : Law) (d : ℤ) → least ≤ℤ pos 0 → pos 0 ≤ℤ greatest
        → high (ReverseOnly (Held least greatest law)) d ≡ high (Held least (pos 0) law) d }
    ensures forward_low { (least greatest : ℤ) (law : Law) (d : ℤ) → least ≤ℤ pos 0 → pos 0 ≤ℤ greatest
        → low (ForwardOnly (Held least greatest law)) d ≡ low (Held (pos 0) greatest law) d }
    ensures forward_high { (least greatest : ℤ) (law : Law) (d : ℤ) → least ≤ℤ pos 0 → pos 0 ≤ℤ greatest
        → high (ForwardOnly (Held least greatest law)) d ≡ high (Held (pos 0) greatest law) d }
    ensures reverse_at_least { (least greatest : ℤ) (law : Law) (S : ℕ) (x a : ℤ) → least ≤ℤ pos 0 → pos 0 ≤ℤ greatest
        → flow_at_least (ReverseOnly (Held least greatest law)) S x a ↔ flow_at_least (Held least (pos 0) law) S x a }
    ensures reverse_at_most { (least greatest : ℤ) (law : Law) (S : ℕ) (x a : ℤ) → least ≤ℤ pos 0 → pos 0 ≤ℤ greatest
        → flow_at_most (ReverseOnly (Held least greatest law)) S x a ↔ flow_at_most (Held least (pos 0) law) S x a }
    ensures forward_at_least { (least greatest : ℤ) (law : Law) (S : ℕ) (x a : ℤ) → least ≤ℤ pos 0 → pos 0 ≤ℤ greatest
        → flow_at_least (ForwardOnly (Held least greatest law)) S x a ↔ flow_at_least (Held (pos 0) greatest law) S x
        a }
    ensures forward_at_most { (least greatest : ℤ) (law : Law) (S : ℕ) (x a : ℤ) → least ≤ℤ pos 0 → pos 0 ≤ℤ greatest
        → flow_at_most (ForwardOnly (Held least greatest law)) S x a ↔ flow_at_most (Held (pos 0) greatest law) S x a }
{}

/// The status word of a link holds at each head difference of the interval by which it was chosen.
pub fn status_words()
    ensures each { (unit : FlowUnit) (us : Bool) (patterns : List Pattern) (bends : List (ListView HeadPoint))
        (kind : LinkKind)
        (state : LinkState) (S : ℕ) (d : Interval) (x : ℤ) → 0 < S → IsKindMade unit kind
        → HasSizes unit patterns bends kind
        → LiesIn S d x → StatusHolds us bends (status_of us bends kind state d) kind state S x }
{}

/// The whole roots of the enclosing functions are the greatest number whose square is at most a
/// fraction, and the least whose square is at least it.
pub fn roots()
    ensures down { (p q : ℕ) → 0 < q → IsSquareRootDown p q (root_down p q) }
    ensures up { (p q : ℕ) → 0 < q → IsSquareRootUp p q (root_up p q) }
{}

/// The enclosing functions of demands and emitters never fall as the pressure rises, and the lower
/// is at most the higher.
pub fn outflows()
    ensures demands { (law : DemandLaw) → IsSoundDemand law → AreRising (demand_low law) (demand_high law) }
    ensures emitters { (emitter : Option Capacity) → AreRising (emitter_low emitter) (emitter_high emitter) }
{}
