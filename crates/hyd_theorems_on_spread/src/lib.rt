//! What holds for all networks and histories within a spread at once. Each statement is the contract of a small
//! function.
#![tactic(auto)]

ghost use Rattle.std.specs.Prelude.{◌≡◌, ◌↔◌, ◌<◌, ◌≤◌, ◌*◌, ◌^◌, ◌<ℤ◌, ◌*ℤ◌, ℕ, ℤ, pos, neg_ℤ, List, None};
ghost use Rattle.std.specs.Prelude.{All, Some, slice_get};
ghost use Rattle.hyd_num.specs.Rational.{floor, ceiling};
ghost use Rattle.hyd_net.specs.Sound.{IsSound};
ghost use Rattle.hyd_spec.specs.ProgramTypes.{Project, LinkState};
ghost use Rattle.hyd_spec.specs.declared.TankState.{TankState};
ghost use Rattle.hyd_spec.specs.Lists.{Each};
ghost use Rattle.hyd_spec.specs.Scale.{at_scale};
ghost use Rattle.hyd_spec.specs.Assignment.{Assignment, head_at, flow_at, node_heads};
ghost use Rattle.hyd_spec.specs.PeriodLength.{Period};
ghost use Rattle.hyd_spec.specs.History.{IsHistory};
ghost use Rattle.hyd_spec_certificates.specs.declared.Problem.{Problem};
ghost use Rattle.hyd_spec_certificates.specs.declared.Problem.TheVariants.{Main};
ghost use Rattle.hyd_spec_certificates.specs.declared.Side.{Side};
ghost use Rattle.hyd_spec_certificates.specs.declared.Side.TheVariants.{Upper, Lower};
ghost use Rattle.hyd_spec_certificates.specs.Interval.{Interval};
ghost use Rattle.hyd_spec_certificates.specs.PeriodNetwork.{Grid, GridLink, IsGrid, all_heads, grid_links};
ghost use Rattle.hyd_spec_certificates.specs.FlowIntervals.{flow_box};
ghost use Rattle.hyd_spec_certificates.specs.Certificate.{IsCertificate};
ghost use Rattle.hyd_spec_spread.specs.Spreads.{Factors, Spread, Holds, IsSpread, IsInside, no_spread};
ghost use Rattle.hyd_spec_spread.specs.IntervalsOfData.{products};
ghost use Rattle.hyd_spec_spread.specs.NetworksWithin.{NodeData, with_data, own_data, IsWithin};
ghost use Rattle.hyd_spec_spread.specs.HistoriesWithin.{IsHistoryWithin};
ghost use Rattle.hyd_spec_spread.specs.OutermostGrids.{IsOutermostGrid, IsCertificateOver};
ghost use Rattle.hyd_theorems_on_definitions.specs.LyingInIntervals.{LevelsLie, LiesIn, LieBetween};
ghost use Rattle.hyd_theorems_on_definitions.specs.SoundLawsAndGrids.{AreCapacitiesMade, IsSoundGrid};
ghost use Rattle.hyd_theorems_on_spread.specs.GridsBeyondOthers.{IsBeyondGrid, AreNarrower};
ghost use Rattle.hyd_theorems_on_spread.specs.AssignmentsWithin.{IsAssignmentWithin};
ghost use Rattle.hyd_theorems_on_spread.specs.EndsTaken.{TakesEnds};

/// A certificate on a grid is one on each grid that it lies beyond, on their side.
pub fn inward()
    ensures { (side : Side) (problem : Problem) (outer inner : Grid) (u : List ℤ) → IsSoundGrid inner
        → IsBeyondGrid side problem outer inner → IsCertificate outer problem side u
        → IsCertificate inner problem side u }
{}

/// A certificate for a spread is one of each network within it, on the side's own grid.
pub fn within()
    ensures { (project : Project) (spread : Spread) (time : ℕ) (levels : List Interval) (tanks : List TankState)
        (links : List LinkState) (problem : Problem) (side : Side) (u : List ℤ) → AreCapacitiesMade project links
        → IsCertificateOver project spread time levels tanks links problem side u
        → (nodes : NodeData) → IsWithin project spread time nodes
        → (grid : Grid) → IsGrid (with_data project nodes) time levels tanks links grid
        → IsCertificate grid problem side u }
{}

/// At every scale a certificate for a spread, with all tanks alike, lies strictly on its side of the heads of each
/// assignment of each network within, whose tank levels lie in the intervals.
pub fn heads()
    ensures above { (project : Project) (spread : Spread) (S time : ℕ) (intervals : List Interval) (levels : List ℤ)
        (tanks : List TankState) (links : List LinkState) (nodes : NodeData) (assignment : Assignment) (u : List ℤ)
        → IsAssignmentWithin project spread S time intervals levels tanks links nodes assignment
        → IsCertificateOver project spread time intervals tanks links Main Upper u
        → Each assignment.heads (λ j h. h <ℤ at_scale S (head_at u j)) }
    ensures below { (project : Project) (spread : Spread) (S time : ℕ) (intervals : List Interval) (levels : List ℤ)
        (tanks : List TankState) (links : List LinkState) (nodes : NodeData) (assignment : Assignment) (u : List ℤ)
        → IsAssignmentWithin project spread S time intervals levels tanks links nodes assignment
        → IsCertificateOver project spread time intervals tanks links Main Lower u
        → Each assignment.heads (λ j h. at_scale S (head_at u j) <ℤ h) }
{}

/// The heads of all nodes of each such assignment, reservoirs and tanks among them, lie between the certificates of the
/// two sides, each with the fixed heads of its own grid, and the flows of links in the boxes of these heads.
pub fn boxes()
    ensures heads { (project : Project) (spread : Spread) (S time : ℕ) (intervals : List Interval) (levels : List ℤ)
        (tanks : List TankState) (links : List LinkState) (nodes : NodeData) (assignment : Assignment)
        → IsAssignmentWithin project spread S time intervals levels tanks links nodes assignment
        → (below above : List ℤ)
        → (under : IsCertificateOver project spread time intervals tanks links Main Lower below)
        → (over : IsCertificateOver project spread time intervals tanks links Main Upper above)
        → LieBetween S (all_heads under.grid Main Lower below) (all_heads over.grid Main Upper above)
        (node_heads (with_data project nodes) S time levels assignment.heads) }
    ensures flows { (project : Project) (spread : Spread) (S time : ℕ) (intervals : List Interval) (levels : List ℤ)
        (tanks : List TankState) (links : List LinkState) (nodes : NodeData) (assignment : Assignment)
        → IsAssignmentWithin project spread S time intervals levels tanks links nodes assignment
        → (below above : List ℤ)
        → LieBetween S below above (node_heads (with_data project nodes) S time levels assignment.heads)
        → (l : ℕ) (link : GridLink) → slice_get (grid_links project tanks project.links.list links) l ≡ Some link
        → LiesIn S (flow_box link below above) (flow_at assignment.flows l) }
{}

/// Every history within a spread of a sound network lies between the certificates for it, at every scale and in each
/// period of which they are.
pub fn histories()
    ensures above { (project : Project) → IsSound project → (spread : Spread) (S : ℕ) (periods : List Period)
        → IsHistoryWithin project spread S periods → Each periods (λ k period. (intervals : List Interval)
        → LevelsLie S intervals period.levels → (u : List ℤ)
        → IsCertificateOver project spread period.time intervals period.tanks period.links Main Upper u
        → Each period.assignment.heads (λ j h. h <ℤ at_scale S (head_at u j))) }
    ensures below { (project : Project) → IsSound project → (spread : Spread) (S : ℕ) (periods : List Period)
        → IsHistoryWithin project spread S periods → Each periods (λ k period. (intervals : List Interval)
        → LevelsLie S intervals period.levels → (u : List ℤ)
        → IsCertificateOver project spread period.time intervals period.tanks period.links Main Lower u
        → Each period.assignment.heads (λ j h. at_scale S (head_at u j) <ℤ h)) }
{}

/// A certificate for a spread is one for each spread inside it, on the outermost grid of that; with all tanks alike the
/// levels may be narrower too. And a history within a spread is one within each spread that it lies inside.
pub fn inside()
    ensures problems { (project : Project) (inner outer : Spread) → IsInside project inner outer → (time : ℕ)
        (levels : List Interval) (tanks : List TankState) (links : List LinkState) (problem : Problem) (side : Side)
        (u : List ℤ) → AreCapacitiesMade project links
        → IsCertificateOver project outer time levels tanks links problem side u
        → (grid : Grid) → IsOutermostGrid project inner side time levels tanks links grid
        → IsCertificate grid problem side u }
    ensures histories { (project : Project) → IsSound project → (inner outer : Spread) → IsInside project inner outer
        → (S : ℕ) (periods : List Period) → IsHistoryWithin project inner S periods
        → IsHistoryWithin project outer S periods }
    ensures levels { (project : Project) (inner outer : Spread) → IsInside project inner outer → (time : ℕ)
        (wide narrow : List Interval) → AreNarrower wide narrow → (tanks : List TankState) (links : List LinkState)
        (side : Side) (u : List ℤ) → AreCapacitiesMade project links
        → IsCertificateOver project outer time wide tanks links Main side u
        → (grid : Grid) → IsOutermostGrid project inner side time narrow tanks links grid
        → IsCertificate grid Main side u }
{}

/// The file's own network is within each spread of it, at each time, so a certificate for the spread is one of it; and
/// its histories are histories within the spread.
pub fn own_network()
    ensures within { (project : Project) → IsSound project → (spread : Spread) → IsSpread project spread → (time : ℕ)
        → IsWithin project spread time (own_data project) }
    ensures certificate { (project : Project) → IsSound project → (spread : Spread) → IsSpread project spread
        → (time : ℕ) (levels : List Interval) (tanks : List TankState) (links : List LinkState) (problem : Problem)
        (side : Side) (u : List ℤ) → AreCapacitiesMade project links
        → IsCertificateOver project spread time levels tanks links problem side u
        → (grid : Grid) → IsGrid project time levels tanks links grid → IsCertificate grid problem side u }
    ensures histories { (project : Project) → IsSound project → (spread : Spread) → IsSpread project spread → (S : ℕ)
        (periods : List Period) → IsHistory project S periods → IsHistoryWithin project spread S periods }
{}

/// No spread is a spread of each sound network, and lies inside each spread of it. Without one the outermost grid of
/// either side is the grid of the network, and the histories within are its histories.
pub fn without_spread()
    ensures spread { (project : Project) → IsSound project → IsSpread project no_spread }
    ensures inside { (project : Project) (spread : Spread) → IsSpread project spread
        → IsInside project no_spread spread }
    ensures grids { (project : Project) → IsSound project → (side : Side) (time : ℕ) (levels : List Interval)
        (tanks : List TankState) (links : List LinkState) (grid : Grid)
        → IsOutermostGrid project no_spread side time levels tanks links grid
        ↔ IsGrid project time levels tanks links grid }
    ensures histories { (project : Project) → IsSound project → (S : ℕ) (periods : List Period)
        → IsHistoryWithin project no_spread S periods → IsHistory project S periods }
{}

/// The interval of a demand or a coefficient holds its product by each factor n / d between the two, rounded either
/// way. And some network within a spread takes the ends that make the outermost grid of a side; where no junction has
/// an emitter, that grid is its own.
pub fn ends()
    ensures enclosed { (factors : Factors) (z : ℤ) (n d : ℕ) → 0 < d → factors.least * d ≤ n * 10 ^ 9
        → n * 10 ^ 9 ≤ factors.greatest * d
        → Holds (products factors z) (floor (record { num = pos n *ℤ z; den = d }))
        × Holds (products factors z) (ceiling (record { num = pos n *ℤ z; den = d })) }
    ensures taken { (project : Project) → IsSound project → (spread : Spread) → IsSpread project spread → (time : ℕ)
        (side : Side) → (nodes : NodeData)
        × (IsWithin project spread time nodes × TakesEnds project spread time side nodes) }
    ensures grids { (project : Project) → IsSound project → (spread : Spread) → IsSpread project spread
        → All (λ j. j.emitter ≡ None) project.junctions.list → (side : Side) (time : ℕ) (levels : List Interval)
        (tanks : List TankState) (links : List LinkState) (grid : Grid)
        → IsOutermostGrid project spread side time levels tanks links grid → (nodes : NodeData)
        × (IsWithin project spread time nodes × IsGrid (with_data project nodes) time levels tanks links grid) }
{}

/// The demands 15 and -15 times the factors from 0.9 to 1.1 lie from 13 to 17, and from -17 to -13.
pub fn examples()
    ensures above { products (record { least = 900000000; greatest = 1100000000 }) (pos 15)
        ≡ record { lo = pos 13; hi = pos 17 } }
    ensures below { products (record { least = 900000000; greatest = 1100000000 }) (neg_ℤ (pos 15))
        ≡ record { lo = neg_ℤ (pos 17); hi = neg_ℤ (pos 13) } }
{}
