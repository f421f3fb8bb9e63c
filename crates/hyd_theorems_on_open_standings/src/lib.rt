//! Standings of runs whose ends of periods may be open: what an end leaves is there and lies within the bounds, and so
//! every standing of such a run is firm. Each statement is the contract of a small function.
#![tactic(auto)]

ghost use Rattle.std.specs.Prelude.{◌≡◌, ℕ, Option, Some, slice_get, List};
ghost use Rattle.hyd_net.specs.Sound.{IsSound};
ghost use Rattle.hyd_spec.specs.ProgramTypes.{Project, Tank};
ghost use Rattle.hyd_spec_certificates.specs.PeriodNetwork.{Grid};
ghost use Rattle.hyd_spec_certificates.specs.Decided.{Watch};
ghost use Rattle.hyd_spec_open_ends.specs.OpenStandings.{OpenStanding, OpenRecord, initial_open_standing};
ghost use Rattle.hyd_spec_open_ends.specs.OpenEnds.{Way, EndsIn, shortest_length, longest_length};
ghost use Rattle.hyd_spec_open_ends.specs.Arrivals.{Arrives};
ghost use Rattle.hyd_spec_open_ends.specs.OpenRecords.{carried_left, level_left, stocks_left};
ghost use Rattle.hyd_spec_open_ends.specs.OpenRecords.{IsValidOpenly, LeadsOnOpenly};
ghost use Rattle.hyd_spec_open_ends.specs.OpenRuns.{OpenFound, IsOpenRun};
ghost use Rattle.hyd_theorems_on_definitions.specs.LyingInIntervals.{IsInside};
ghost use Rattle.hyd_theorems_on_nesting.specs.Nesting.{IsOrdered, AreNested};
ghost use Rattle.hyd_theorems_on_open_standings.specs.FirmStandings.{IsFirm, AreFlowsInOrder};

// ---- what an end leaves

/// The carried levels that an end leaves, the levels with which the next period begins, which hold them, and its
/// volumes are there: no cut by a level that has just been reached, and none by what is kept, leaves nothing.
pub fn ends()
    ensures carried { (project : Project) → IsSound project → (grid : Grid) (standing : OpenStanding)
        (found : OpenRecord) → AreNested project standing.known grid found.row found.row → (way : Way)
        → EndsIn project grid standing found.row way → (reached : Option Watch)
        → Arrives project grid standing.known found.row way reached
        → found.shortest ≡ shortest_length standing.late way → found.row.length ≡ longest_length way
        → (k : ℕ) (tank : Tank) → slice_get project.tanks.list k ≡ Some tank
        → IsOrdered (carried_left project grid standing.known found reached k tank)
        × IsInside (carried_left project grid standing.known found reached k tank)
        (level_left project grid standing.known found reached k tank) }
    ensures volume { (project : Project) → IsSound project → (grid : Grid) (standing : OpenStanding)
        (found : OpenRecord) → AreNested project standing.known grid found.row found.row → (way : Way)
        → EndsIn project grid standing found.row way → (reached : Option Watch)
        → Arrives project grid standing.known found.row way reached
        → found.shortest ≡ shortest_length standing.late way → found.row.length ≡ longest_length way
        → (k : ℕ) (tank : Tank) → slice_get project.tanks.list k ≡ Some tank
        → IsOrdered (stocks_left project grid standing.known found reached k tank).volume }
{}

/// The first standing of a run is firm, where a record is valid at one that is, so is the next, and so is every
/// standing that a run leaves. So is the one that a record leads on to on any grid, where what flows into each tank by
/// it lies between two flows in order.
pub fn standings()
    ensures start { (project : Project) → IsSound project → IsFirm project (initial_open_standing project) }
    ensures next { (project : Project) → IsSound project → (grid : Grid) (standing : OpenStanding) (found : OpenRecord)
        (next : OpenStanding) → IsFirm project standing → IsValidOpenly project standing grid found next
        → IsFirm project next }
    ensures leads { (project : Project) → IsSound project → (grid : Grid) (standing : OpenStanding)
        (found : OpenRecord) (next : OpenStanding) → IsFirm project standing
        → AreFlowsInOrder project grid found.row → LeadsOnOpenly project grid standing found next
        → IsFirm project next }
    ensures runs { (project : Project) → IsSound project → (slack : ℕ) (founds : List OpenFound) (last : OpenStanding)
        → IsOpenRun project slack founds last → IsFirm project last }
{}
