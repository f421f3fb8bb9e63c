//! That the two sides are in order, and what stands in these words for records.
#![tactic(auto)]

ghost use Rattle.std.specs.Prelude.{◌≡◌, ◌<◌, ◌++◌, ℕ, ℤ, pos, List, length};
ghost use Rattle.hyd_spec.specs.ProgramTypes.{Project};
ghost use Rattle.hyd_spec.specs.NodeNumbers.{tank_node};
ghost use Rattle.hyd_spec_certificates.specs.declared.Problem.TheVariants.{Main, Pinned};
ghost use Rattle.hyd_spec_certificates.specs.declared.Side.TheVariants.{Upper, Lower};
ghost use Rattle.hyd_spec_certificates.specs.FlowIntervals.{inflow_box};
ghost use Rattle.hyd_spec_certificates.specs.Certificate.{IsCertificate};
ghost use Rattle.hyd_spec_certificates.specs.RecordAndStanding.{Record, Standing, vector_of};
ghost use Rattle.hyd_spec_certificates.specs.Decided.{heads_below, heads_above, inflow_of_tank};
ghost use Rattle.hyd_spec_spread.specs.Spreads.{Spread, IsSpread};
ghost use Rattle.hyd_spec_spread_runs.specs.OutermostPairs.{Pair, spanned, spanning};
ghost use Rattle.hyd_spec_spread_runs.specs.RunsForSpreads.{ArePairAt};
ghost use Rattle.hyd_theorems_on_definitions.specs.SoundLawsAndGrids.{IsSteady, TanksInOrder};
ghost use Rattle.hyd_bounds.specs.VectorsInOrder.{AreInOrder, tank_width};
ghost use Rattle.hyd_spread_bounds.specs.BothSides.{IsOrderedPair, all_below, all_above};

/// The outermost grids of a spread are in order, at each standing.
pub fn outermost_in_order()
    ensures { (project : Project) (spread : Spread) → IsSpread project spread → (standing : Standing) (pair : Pair)
        → ArePairAt project spread standing pair → IsOrderedPair pair }
{}

/// Certificates of the two sides of an ordered pair, each on the grid of its side, are in order where each tank's
/// interval is: with all tanks alike, and with a tank pinned up to the width of its level interval.
pub fn heads_in_order()
    ensures main { (pair : Pair) → IsOrderedPair pair → IsSteady pair.lower → TanksInOrder pair.lower
        → (low high : List ℤ) → IsCertificate pair.lower Main Lower low → IsCertificate pair.upper Main Upper high
        → AreInOrder (pos 0) (all_below pair Main low) (all_above pair Main high) }
    ensures pinned { (pair : Pair) → IsOrderedPair pair → IsSteady pair.lower → TanksInOrder pair.lower → (tank : ℕ)
        → tank < length pair.lower.tanks → (low high : List ℤ) → IsCertificate pair.lower (Pinned tank) Lower low
        → IsCertificate pair.upper (Pinned tank) Upper high → AreInOrder (tank_width (spanned pair) tank)
        (all_below pair (Pinned tank) low) (all_above pair (Pinned tank) high) }
{}

/// What a record tells on both grids: its heads below and above are those of all nodes by its vectors of
/// `Problem::Main`, and its inflow box of a tank is that of the vectors that pin the tank.
pub fn bounds_of_records()
    ensures below { (pair : Pair) (row : Record) → heads_below (spanned pair) (spanning pair row)
        ≡ all_below pair Main row.main.lower }
    ensures above { (pair : Pair) (row : Record) → heads_above (spanned pair) (spanning pair row)
        ≡ all_above pair Main row.main.upper }
    ensures inflows { (project : Project) (pair : Pair) (row : Record) (tank : ℕ) → tank < length row.pinned
        → inflow_of_tank project (spanned pair) (spanning pair row) tank ≡ inflow_box (spanned pair) tank
        (tank_node project tank) (vector_of row (Pinned tank) Lower ++ pair.lower.reservoirs)
        (vector_of row (Pinned tank) Upper ++ pair.upper.reservoirs) }
{}
