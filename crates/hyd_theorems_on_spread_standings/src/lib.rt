//! Standings of runs for spreads whose ends of periods may be open: what flows into each tank lies between two flows
//! in order, and so the standing behind one that is firm is firm. Each statement is the contract of a small function.
#![tactic(auto)]

ghost use Rattle.hyd_net.specs.Sound.{IsSound};
ghost use Rattle.hyd_spec.specs.ProgramTypes.{Project};
ghost use Rattle.hyd_spec_certificates.specs.declared.Side.{Side};
ghost use Rattle.hyd_spec_certificates.specs.RecordAndStanding.{Record, Standing};
ghost use Rattle.hyd_spec_open_ends.specs.OpenStandings.{OpenStanding, OpenRecord};
ghost use Rattle.hyd_spec_open_spreads.specs.OpenRunsForSpreads.{IsValidOpenlyOver};
ghost use Rattle.hyd_spec_spread.specs.Spreads.{Spread, IsSpread};
ghost use Rattle.hyd_spec_spread_runs.specs.OutermostPairs.{Pair, grid_on, spanned, spanning};
ghost use Rattle.hyd_spec_spread_runs.specs.RunsForSpreads.{ArePairAt, AreCertificatesOver};
ghost use Rattle.hyd_theorems_on_definitions.specs.SoundLawsAndGrids.{IsSteady};
ghost use Rattle.hyd_theorems_on_nesting.specs.StandingsOfRuns.{IsTidy};
ghost use Rattle.hyd_theorems_on_open_standings.specs.FirmStandings.{IsFirm, AreFlowsInOrder};

/// By certificates on the outermost grids of a period, each on that of its side, what flows into each tank lies
/// between two flows in order. The grids have sound laws, as nets have (`Net::junctions` says so).
pub fn flows()
    ensures { (project : Project) (spread : Spread) → IsSpread project spread → (standing : Standing)
        → IsTidy project standing → (pair : Pair) → ArePairAt project spread standing pair
        → ((side : Side) → IsSteady (grid_on side pair)) → (row : Record) → AreCertificatesOver project pair row
        → AreFlowsInOrder project (spanned pair) (spanning pair row) }
{}

/// Where a record is valid for a spread at a standing that is firm, so is the next one.
pub fn standings()
    ensures { (project : Project) → IsSound project → (spread : Spread) → IsSpread project spread
        → (standing : OpenStanding) (pair : Pair) (found : OpenRecord) (next : OpenStanding) → IsFirm project standing
        → ((side : Side) → IsSteady (grid_on side pair))
        → IsValidOpenlyOver project spread standing pair found next → IsFirm project next }
{}
