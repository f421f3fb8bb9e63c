//! The flows of named links: vectors in which a link's first node is held exist, every history's flow lies in the
//! interval that they give, its ends are in order, and what is refused is refused for one cause. Each statement is the
//! contract of a small function.
#![tactic(auto)]

ghost use Rattle.std.specs.Prelude.{◌≡◌, ◌<◌, ℕ, ℤ, List, length, slice_get, slice_set, Some, ◌≤ℤ◌};
ghost use Rattle.std.specs.List.{AllByRecursion};
ghost use Rattle.hyd_net.specs.Sound.{IsSound};
ghost use Rattle.hyd_spec.specs.ProgramTypes.{Project};
ghost use Rattle.hyd_spec.specs.Assignment.{head_at};
ghost use Rattle.hyd_spec_certificates.specs.declared.Problem.TheVariants.{Main};
ghost use Rattle.hyd_spec_certificates.specs.declared.Side.{Side};
ghost use Rattle.hyd_spec_certificates.specs.PeriodNetwork.{Grid, GridLink, opposite};
ghost use Rattle.hyd_spec_certificates.specs.Certificate.{IsCertificate, AreRoundsHolding, IsTightHolding};
ghost use Rattle.hyd_spec_certificates.specs.RecordAndStanding.{Record, Standing, vector_of};
ghost use Rattle.hyd_spec_certificates.specs.StartsRaisesAndLeaps.{IsStart};
ghost use Rattle.hyd_spec_reports.specs.PromisesOfRunsAndChecks.{IsRun};
ghost use Rattle.hyd_spec_flows.specs.FlowParts.{NamedLink, FlowPart, held_for, IsHeldVector, IsFlowPart};
ghost use Rattle.hyd_spec_flows.specs.FlowParts.{IsSharpVector};
ghost use Rattle.hyd_spec_flows.specs.FlowParts.{flow_interval, HasItsVector, IsRefusedPart};
ghost use Rattle.hyd_spec_reports_with_flows.specs.PromisesWithFlows.{FoundNaming, IsFoundNaming, founds_in};
ghost use Rattle.hyd_spec_reports_with_flows.specs.PromisesWithFlows.{EveryHistoryAgreesNaming};
ghost use Rattle.hyd_spec_flows.specs.declared.FlowFails.{FlowFails};
ghost use Rattle.hyd_theorems_on_definitions.specs.SoundLawsAndGrids.{IsSteady, TanksInOrder};
ghost use Rattle.hyd_theorems_on_flows.specs.RecordOnGrid.{IsCertified};

// ---- the vectors of a link

/// The vectors of a link exist: the record's own vector of a side with the link's first node put to its head in the
/// record's vector of the other side is one. That other vector is where a search for the nearest one may begin.
pub fn held_vectors()
    ensures drawn { (grid : Grid) (row : Record) → IsCertified grid row → (link : GridLink) (side : Side)
        → link.from < length grid.junctions
        → IsHeldVector grid row link side (slice_set (vector_of row Main side) link.from
        (head_at (vector_of row Main (opposite side)) link.from)) }
    ensures start { (grid : Grid) (row : Record) → IsCertified grid row → (link : GridLink) (side : Side)
        → IsStart (Some (held_for row link side)) grid Main side (vector_of row Main (opposite side)) }
{}

/// The nearest vector of a link lies inside the record's own vectors, so it is as near as a part's has to be. Where so
/// many plain rounds lead to none, the record's own vector with the held node at its head is as near as that too.
pub fn nearest_vectors()
    ensures tight { (rounds : ℕ) (grid : Grid) (row : Record) → IsCertified grid row → (link : GridLink) (side : Side)
        (u : List ℤ) → link.from < length grid.junctions
        → IsTightHolding (Some (held_for row link side)) grid Main side u
        → IsSharpVector rounds grid row link side u }
    ensures spent { (rounds : ℕ) (grid : Grid) (row : Record) → IsCertified grid row → (link : GridLink) (side : Side)
        → ((reached : List ℤ) → AreRoundsHolding (Some (held_for row link side)) grid Main side rounds
        (vector_of row Main (opposite side)) reached → IsHeldVector grid row link side reached → ⊥)
        → IsSharpVector rounds grid row link side (slice_set (vector_of row Main side) link.from
        (head_at (vector_of row Main (opposite side)) link.from)) }
{}

// ---- the interval

/// The ends of the interval of a named link are in order.
pub fn intervals_in_order()
    ensures { (grid : Grid) (row : Record) → IsCertified grid row → (link : GridLink) (named : NamedLink)
        → slice_get grid.links named.link ≡ Some link → link.from < length grid.junctions
        → link.to < length grid.junctions → ((side : Side) → HasItsVector grid row named side)
        → (flow_interval link named).lo ≤ℤ (flow_interval link named).hi }
{}

/// Every history of a sound network agrees with every run whose records have parts, and its flows lie in the intervals
/// of the FLOW lines, at every scale.
pub fn flows_of_histories()
    ensures { (project : Project) → IsSound project → (namings : List FoundNaming) (last : Standing)
        → IsRun project (founds_in namings) last → AllByRecursion (IsFoundNaming project) namings
        → EveryHistoryAgreesNaming project namings }
{}

// ---- refusals

/// A part is refused for one cause at most, and none that is in order is.
pub fn refusals()
    ensures one { (grid : Grid) (row : Record) (part : FlowPart) (cause other : FlowFails)
        → IsRefusedPart grid row part cause → IsRefusedPart grid row part other → cause ≡ other }
    ensures none { (grid : Grid) (row : Record) (part : FlowPart) (cause : FlowFails) → IsFlowPart grid row part
        → IsRefusedPart grid row part cause → ⊥ }
{}
