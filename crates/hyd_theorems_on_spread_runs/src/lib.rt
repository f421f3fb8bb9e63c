//! Every history within a spread agrees with every run for it, at every scale: its heads, lengths, states of tanks and
//! links, flows, tank inflows and outflows. The statements on the way to it stand before it, each the contract of a
//! small function.
#![tactic(auto)]

ghost use Rattle.std.specs.Prelude.{◌≡◌, ◌≢◌, ◌↔◌, ◌≤◌, ◌+ℤ◌, ℕ, ℤ, List, Some, slice_get};
ghost use Rattle.hyd_net.specs.Sound.{IsSound};
ghost use Rattle.hyd_spec.specs.ProgramTypes.{Project, LinkState};
ghost use Rattle.hyd_spec.specs.declared.TankState.{TankState};
ghost use Rattle.hyd_spec.specs.NodeNumbers.{tank_node};
ghost use Rattle.hyd_spec.specs.Assignment.{Assignment, head_at, flow_at};
ghost use Rattle.hyd_spec.specs.Tank.{tank_inflow};
ghost use Rattle.hyd_spec.specs.PeriodLength.{Period, HasItsLength};
ghost use Rattle.hyd_spec.specs.History.{Begins, IsHistory, commanded_after};
ghost use Rattle.hyd_spec_certificates.specs.declared.Problem.TheVariants.{Main, Pinned};
ghost use Rattle.hyd_spec_certificates.specs.declared.Side.TheVariants.{Upper, Lower};
ghost use Rattle.hyd_spec_certificates.specs.Interval.{Interval};
ghost use Rattle.hyd_spec_certificates.specs.PeriodNetwork.{Grid, GridJunction};
ghost use Rattle.hyd_spec_certificates.specs.FlowIntervals.{inflow_box};
ghost use Rattle.hyd_spec_certificates.specs.RecordAndStanding.{Record, Standing, initial_standing};
ghost use Rattle.hyd_spec_certificates.specs.Valid.{AreCertificates, IsGridAt, LeavesLinks, IsValid};
ghost use Rattle.hyd_spec_spread.specs.Spreads.{Spread, IsSpread, IsInside, no_spread};
ghost use Rattle.hyd_spec_spread.specs.NetworksWithin.{NodeData, with_data};
ghost use Rattle.hyd_spec_spread.specs.OutermostGrids.{IsCertificateOver};
ghost use Rattle.hyd_spec_spread.specs.HistoriesWithin.{IsPeriodWithin};
ghost use Rattle.hyd_spec_spread_runs.specs.OutermostPairs.{Pair, spanned, spanning, outflow_over};
ghost use Rattle.hyd_spec_spread_runs.specs.RunsForSpreads.{FoundOver, IsValidOver, IsRunOver, StartIsDecided};
ghost use Rattle.hyd_spec_spread_runs.specs.RunsForSpreads.{standing_within, ArePairAt, AreCertificatesOver};
ghost use Rattle.hyd_spec_spread_runs.specs.AgreementWithin.{AllAgreeOver, EveryHistoryWithinAgrees};
ghost use Rattle.hyd_theorems_on_definitions.specs.LyingInIntervals.{LiesIn};
ghost use Rattle.hyd_theorems_on_histories.specs.Agreement.{AgreesWith, IsKept};
ghost use Rattle.hyd_theorems_on_spread.specs.AssignmentsWithin.{IsAssignmentWithin};
ghost use Rattle.hyd_theorems_on_spread_runs.specs.BoundedPeriods.{IsBounded};

// ---- boxes of both grids

/// The inflow of a tank under each assignment of each network within a spread lies between what the certificates of the
/// two sides with that tank pinned say, each on the outermost grid of its side.
pub fn tank_inflows()
    ensures { (project : Project) (spread : Spread) (S time : ℕ) (intervals : List Interval) (levels : List ℤ)
        (tanks : List TankState) (links : List LinkState) (nodes : NodeData) (assignment : Assignment)
        → IsAssignmentWithin project spread S time intervals levels tanks links nodes assignment
        → (k : ℕ) (below above : List ℤ)
        → (under : IsCertificateOver project spread time intervals tanks links (Pinned k) Lower below)
        → (over : IsCertificateOver project spread time intervals tanks links (Pinned k) Upper above)
        → LiesIn S (record {
          lo = (inflow_box under.grid k (tank_node project k) below above).lo;
          hi = (inflow_box over.grid k (tank_node project k) below above).hi;
        }) (tank_inflow project k assignment.flows) }
{}

/// The outflow of a junction under each such assignment lies in the box of the junctions of both grids between the
/// heads
/// of the certificates with all tanks alike.
pub fn outflows()
    ensures { (project : Project) (spread : Spread) (S time : ℕ) (intervals : List Interval) (levels : List ℤ)
        (tanks : List TankState) (links : List LinkState) (nodes : NodeData) (assignment : Assignment)
        → IsAssignmentWithin project spread S time intervals levels tanks links nodes assignment
        → (below above : List ℤ)
        → (under : IsCertificateOver project spread time intervals tanks links Main Lower below)
        → (over : IsCertificateOver project spread time intervals tanks links Main Upper above)
        → (j : ℕ) (upper lower : GridJunction) → slice_get over.grid.junctions j ≡ Some upper
        → slice_get under.grid.junctions j ≡ Some lower
        → LiesIn S (outflow_over upper lower (head_at below j) (head_at above j))
        (flow_at assignment.demands j +ℤ flow_at assignment.emitters j) }
{}

// ---- a period

/// A period within a spread of a sound network that begins where a history agrees with a standing is bounded by each
/// record that is valid for the spread there.
pub fn bounds()
    ensures { (project : Project) → IsSound project → (spread : Spread) (S : ℕ) → 1 ≤ S → (pair : Pair)
        (standing : Standing) (row : Record) (next : Standing) → IsKept project standing
        → IsValidOver project spread standing pair row next
        → (time : ℕ) (levels volumes : List ℤ) (commanded : List LinkState)
        → AgreesWith project S standing time levels volumes commanded
        → (period : Period) → Begins project S time levels volumes commanded period → (nodes : NodeData)
        → IsPeriodWithin project spread S period nodes
        → IsBounded project nodes S period (spanned pair) standing (spanning pair row) }
{}

/// A period that a grid and a record bound, and that isn't the last, lasts as long as they decide, and leaves the links
/// commanded as they decide.
pub fn lengths()
    ensures { (project : Project) → IsSound project → (nodes : NodeData) (S : ℕ) (period : Period) (grid : Grid)
        (standing : Standing) (row : Record) → IsBounded project nodes S period grid standing row
        → standing.time ≢ project.times.duration → HasItsLength (with_data project nodes) S period
        → (seconds : ℕ) (links : List LinkState) → LeavesLinks project grid standing row seconds links
        → (period.length ≡ seconds) × (commanded_after (with_data project nodes) S period ≡ links) }
{}

/// At one standing, the vectors of a record that is valid for a spread are certificates for each spread that lies
/// inside
/// it, and of the network itself.
pub fn certificates()
    ensures inner { (project : Project) → IsSound project → (inner outer : Spread) → IsInside project inner outer
        → (standing : Standing) (pair : Pair) (row : Record) (next : Standing) → IsKept project standing
        → IsValidOver project outer standing pair row next → (narrow : Pair) → ArePairAt project inner standing narrow
        → AreCertificatesOver project narrow row }
    ensures own { (project : Project) → IsSound project → (spread : Spread) → IsSpread project spread
        → (standing : Standing) (pair : Pair) (row : Record) (next : Standing) → IsKept project standing
        → IsValidOver project spread standing pair row next → (grid : Grid) → IsGridAt project standing grid
        → AreCertificates project grid row }
{}

// ---- all periods

/// Every history within a spread of a sound network agrees with every run for the spread.
pub fn induction()
    ensures { (project : Project) → IsSound project → (spread : Spread) → IsSpread project spread
        → (founds : List FoundOver) (last : Standing) → IsRunOver project spread founds last
        → EveryHistoryWithinAgrees project spread founds }
{}

/// So does every history within a spread that lies inside it, and every history of the file's own network.
pub fn inside()
    ensures inner { (project : Project) → IsSound project → (inner outer : Spread) → IsInside project inner outer
        → IsSpread project outer → (founds : List FoundOver) (last : Standing) → IsRunOver project outer founds last
        → EveryHistoryWithinAgrees project inner founds }
    ensures own { (project : Project) → IsSound project → (spread : Spread) → IsSpread project spread
        → (founds : List FoundOver) (last : Standing) → IsRunOver project spread founds last → (S : ℕ) → 1 ≤ S
        → (history : List Period) → IsHistory project S history → AllAgreeOver project S history founds }
{}

/// Without a spread what is known at the start is what is known without one, and leaves no doubt; and the records that
/// are valid for the spread, with the grid of the network on both sides, are the valid records of the network.
pub fn without_spread()
    ensures start { (project : Project) → StartIsDecided project no_spread
        × (standing_within project no_spread ≡ initial_standing project) }
    ensures records { (project : Project) → IsSound project → (standing : Standing) (grid : Grid) (row : Record)
        (next : Standing) → IsValidOver project no_spread standing (record { upper = grid; lower = grid }) row next
        ↔ IsValid project standing grid row next }
{}
