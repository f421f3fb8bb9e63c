//! Runs whose ends of periods may be open go on or stop: what an outer record decides at its end each record inside it
//! decides in the same way, so a stop is a fact about the tightest vectors. Each statement is the contract of a small
//! function.
#![tactic(auto)]

ghost use Rattle.std.specs.Prelude.{◌≡◌, ◌⊎◌, ℕ, ◌≤◌, false, List, Option, Some, slice_get};
ghost use Rattle.hyd_net.specs.Sound.{IsSound};
ghost use Rattle.hyd_spec.specs.ProgramTypes.{Project, Tank};
ghost use Rattle.hyd_spec.specs.declared.TankState.{TankState};
ghost use Rattle.hyd_spec_certificates.specs.PeriodNetwork.{Grid};
ghost use Rattle.hyd_spec_certificates.specs.RecordAndStanding.{Record, Standing};
ghost use Rattle.hyd_spec_certificates.specs.Decided.{Watch};
ghost use Rattle.hyd_spec_certificates.specs.Valid.{AreStates, ControlsAreDecided};
ghost use Rattle.hyd_spec_certificates.specs.declared.StopCause.{StopCause};
ghost use Rattle.hyd_spec_certificates.specs.Stops.{IsTightRow};
ghost use Rattle.hyd_spec_open_ends.specs.OpenStandings.{OpenStanding, OpenRecord};
ghost use Rattle.hyd_spec_open_ends.specs.OpenEnds.{Way, EndsIn, shortest_length, longest_length};
ghost use Rattle.hyd_spec_open_ends.specs.Arrivals.{Arrives};
ghost use Rattle.hyd_spec_open_ends.specs.OpenRecords.{IsValidOpenly, level_left, levels_left};
ghost use Rattle.hyd_spec_open_ends.specs.PromisesOfOpenRuns.{StopsOpenly};
ghost use Rattle.hyd_theorems_on_definitions.specs.LyingInIntervals.{IsInside};
ghost use Rattle.hyd_theorems_on_nesting.specs.Nesting.{AreNested};
ghost use Rattle.hyd_theorems_on_nesting.specs.GoingOnOrStopped.{IsReason};
ghost use Rattle.hyd_theorems_on_open_ends.specs.WaysInside.{IsWayInside};
ghost use Rattle.hyd_theorems_on_open_standings.specs.FirmStandings.{IsFirm};
ghost use Rattle.hyd_theorems_on_open_stops.specs.OnwardOpenly.{LeadsSomewhereOpenly, IsStoppedOpenly};
ghost use Rattle.hyd_theorems_on_open_stops.specs.OnwardOpenly.{LeadsOnWith};

/// At each end some level has just been reached or none, and that is one answer.
pub fn arrivals()
    ensures some { (project : Project) (grid : Grid) (standing : Standing) (row : Record) (way : Way)
        → (reached : Option Watch) × Arrives project grid standing row way reached }
    ensures one { (project : Project) (grid : Grid) (standing : Standing) (row : Record) (way : Way)
        (a b : Option Watch) → Arrives project grid standing row way a → Arrives project grid standing row way b
        → a ≡ b }
{}

/// The next levels under an inner record lie inside those under the outer one, cuts included, and the states of tanks
/// and the level controls that are decided there are so here.
pub fn levels()
    ensures inside { (project : Project) → IsSound project → (standing : OpenStanding) (grid : Grid)
        (outer inner : OpenRecord) → AreNested project standing.known grid outer.row inner.row → (way : Way)
        (reached : Option Watch) → Arrives project grid standing.known outer.row way reached
        → outer.shortest ≡ shortest_length standing.late way → outer.row.length ≡ longest_length way
        → (inside : Way) → EndsIn project grid standing inner.row inside → (reached_inside : Option Watch)
        → Arrives project grid standing.known inner.row inside reached_inside
        → inner.shortest ≡ shortest_length standing.late inside → inner.row.length ≡ longest_length inside
        → IsWayInside inside way → (k : ℕ) (tank : Tank) → slice_get project.tanks.list k ≡ Some tank
        → IsInside (level_left project grid standing.known inner reached_inside k tank)
        (level_left project grid standing.known outer reached k tank) }
    ensures states { (project : Project) → IsSound project → (standing : OpenStanding) (grid : Grid)
        (outer inner : OpenRecord) → AreNested project standing.known grid outer.row inner.row → (way : Way)
        (reached : Option Watch) → Arrives project grid standing.known outer.row way reached
        → outer.shortest ≡ shortest_length standing.late way → outer.row.length ≡ longest_length way
        → (inside : Way) → EndsIn project grid standing inner.row inside → (reached_inside : Option Watch)
        → Arrives project grid standing.known inner.row inside reached_inside
        → inner.shortest ≡ shortest_length standing.late inside → inner.row.length ≡ longest_length inside
        → IsWayInside inside way → (states : List TankState)
        → AreStates project (levels_left project grid standing.known outer reached) states
        → AreStates project (levels_left project grid standing.known inner reached_inside) states }
    ensures controls { (project : Project) → IsSound project → (standing : OpenStanding) (grid : Grid)
        (outer inner : OpenRecord) → AreNested project standing.known grid outer.row inner.row → (way : Way)
        (reached : Option Watch) → Arrives project grid standing.known outer.row way reached
        → outer.shortest ≡ shortest_length standing.late way → outer.row.length ≡ longest_length way
        → (inside : Way) → EndsIn project grid standing inner.row inside → (reached_inside : Option Watch)
        → Arrives project grid standing.known inner.row inside reached_inside
        → inner.shortest ≡ shortest_length standing.late inside → inner.row.length ≡ longest_length inside
        → IsWayInside inside way
        → ControlsAreDecided project (levels_left project grid standing.known outer reached)
        → ControlsAreDecided project (levels_left project grid standing.known inner reached_inside) }
{}

/// At each unfinished standing of a run a valid record leads on, or a cause of a stop holds, whatever the number of
/// rounds; and never both.
pub fn onward()
    ensures goes_on { (project : Project) → IsSound project → (standing : OpenStanding) → IsFirm project standing
        → (slack rounds : ℕ) → standing.known.finished ≡ false
        → LeadsSomewhereOpenly project standing slack ⊎ IsStoppedOpenly project standing slack rounds }
    ensures not_both { (project : Project) → IsSound project → (standing : OpenStanding) → IsFirm project standing
        → (slack rounds : ℕ) (grid : Grid) (found : OpenRecord) (next : OpenStanding)
        → IsValidOpenly project standing grid found next → next.late ≤ slack → (cause : StopCause) → IsReason cause
        → StopsOpenly project standing slack rounds cause → ⊥ }
{}

/// Where a valid record leads on, the tight vectors of its standing do, and their end is open by no more seconds.
pub fn tightened()
    ensures { (project : Project) → IsSound project → (standing : OpenStanding) → IsFirm project standing
        → (grid : Grid) (found : OpenRecord) (next : OpenStanding) → IsValidOpenly project standing grid found next
        → (row : Record) → IsTightRow project standing.known grid row
        → LeadsOnWith project standing grid row next.late }
{}
