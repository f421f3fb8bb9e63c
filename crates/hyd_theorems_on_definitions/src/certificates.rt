//! The comparison of certificates with the heads of assignments.
#![tactic(auto)]

ghost use Rattle.std.specs.Prelude.{◌≡◌, ℕ, ◌<◌, ℤ, List, length, ◌≤ℤ◌, ◌<ℤ◌, ◌+ℤ◌, Some, slice_get};
ghost use Rattle.hyd_spec.specs.ProgramTypes.{Project, LinkState};
ghost use Rattle.hyd_spec.specs.declared.TankState.{TankState};
ghost use Rattle.hyd_spec_certificates.specs.declared.Side.TheVariants.{Upper, Lower};
ghost use Rattle.hyd_spec_certificates.specs.declared.Problem.TheVariants.{Main, Pinned};
ghost use Rattle.hyd_spec.specs.Lists.{Each};
ghost use Rattle.hyd_spec_certificates.specs.Interval.{Interval};
ghost use Rattle.hyd_spec.specs.Scale.{at_scale};
ghost use Rattle.hyd_spec.specs.Assignment.{Assignment, head_at, flow_at, node_heads};
ghost use Rattle.hyd_spec_certificates.specs.PeriodNetwork.{Grid, GridLink, GridJunction, IsGrid, all_heads};
ghost use Rattle.hyd_spec.specs.NodeNumbers.{tank_node};
ghost use Rattle.hyd_spec.specs.Tank.{tank_inflow};
ghost use Rattle.hyd_spec_certificates.specs.FlowIntervals.{flow_box, out_box, inflow_box};
ghost use Rattle.hyd_spec_certificates.specs.declared.HeldJunction.{HeldJunction};
ghost use Rattle.hyd_spec_certificates.specs.Certificate.{IsCertificate, IsCertificateHolding};
ghost use Rattle.hyd_spec_certificates.specs.BoxesWithHeldJunction.{held_in, held_flow_box, passing_draw};
ghost use Rattle.hyd_theorems_on_definitions.specs.LyingInIntervals.{IsCompared, IsComparedDrawing, LiesIn, LieBetween};
ghost use Rattle.hyd_theorems_on_definitions.specs.SoundLawsAndGrids.{IsSoundGrid};
ghost use Rattle.hyd_theorems_on_definitions.specs.SoundLawsAndGrids.{AreCapacitiesMade};

/// At every scale a certificate with all tanks alike lies strictly on its side of the heads of
/// each assignment whose tank levels lie in the intervals (supersolutions and subsolutions of
/// Ortega and Rheinboldt 1970).
pub fn comparison()
    ensures above { (project : Project) (S time : ℕ) (intervals : List Interval) (levels : List ℤ)
        (tanks : List TankState) (links : List LinkState) (assignment : Assignment) (grid : Grid) (u : List ℤ)
        → IsCompared project S time intervals levels tanks links assignment grid → IsCertificate grid Main Upper u
        → Each assignment.heads (λ j h. h <ℤ at_scale S (head_at u j)) }
    ensures below { (project : Project) (S time : ℕ) (intervals : List Interval) (levels : List ℤ)
        (tanks : List TankState) (links : List LinkState) (assignment : Assignment) (grid : Grid) (u : List ℤ)
        → IsCompared project S time intervals levels tanks links assignment grid → IsCertificate grid Main Lower u
        → Each assignment.heads (λ j h. at_scale S (head_at u j) <ℤ h) }
{}

/// The grid of a period has sound laws where the capacities are made of the file's numbers.
pub fn sound_grids()
    ensures sound { (project : Project) (time : ℕ) (intervals : List Interval) (tanks : List TankState)
        (links : List LinkState) (grid : Grid) → IsGrid project time intervals tanks links grid
        → AreCapacitiesMade project links → IsSoundGrid grid }
{}

/// The heads, flows and outflows of each such assignment lie in the boxes of the certificates.
pub fn boxes()
    ensures heads { (project : Project) (S time : ℕ) (intervals : List Interval) (levels : List ℤ)
        (tanks : List TankState) (links : List LinkState) (assignment : Assignment) (grid : Grid)
        (below above : List ℤ) → IsCompared project S time intervals levels tanks links assignment grid
        → IsCertificate grid Main Lower below → IsCertificate grid Main Upper above
        → LieBetween S (all_heads grid Main Lower below) (all_heads grid Main Upper above)
        (node_heads project S time levels assignment.heads) }
    ensures flows { (project : Project) (S time : ℕ) (intervals : List Interval) (levels : List ℤ)
        (tanks : List TankState) (links : List LinkState) (assignment : Assignment) (grid : Grid)
        (below above : List ℤ) → IsCompared project S time intervals levels tanks links assignment grid
        → LieBetween S below above (node_heads project S time levels assignment.heads)
        → (l : ℕ) (link : GridLink) → slice_get grid.links l ≡ Some link
        → LiesIn S (flow_box link below above) (flow_at assignment.flows l) }
    ensures outflows { (project : Project) (S time : ℕ) (intervals : List Interval) (levels : List ℤ)
        (tanks : List TankState) (links : List LinkState) (assignment : Assignment) (grid : Grid)
        (below above : List ℤ) → IsCompared project S time intervals levels tanks links assignment grid
        → IsCertificate grid Main Lower below → IsCertificate grid Main Upper above
        → (j : ℕ) (here : GridJunction) → slice_get grid.junctions j ≡ Some here
        → LiesIn S (out_box here (head_at below j) (head_at above j)) (flow_at assignment.demands j
        +ℤ flow_at assignment.emitters j) }
{}

/// The inflow of a tank lies in the box of the certificates that pin it.
pub fn inflows()
    ensures inflow { (project : Project) (S time : ℕ) (intervals : List Interval) (levels : List ℤ)
        (tanks : List TankState) (links : List LinkState) (assignment : Assignment) (grid : Grid)
        (k : ℕ) (below above : List ℤ) → IsCompared project S time intervals levels tanks links assignment grid
        → IsCertificate grid (Pinned k) Lower below → IsCertificate grid (Pinned k) Upper above
        → LiesIn S (inflow_box grid k (tank_node project k) below above) (tank_inflow project k assignment.flows) }
{}

/// The flow of a link between two junctions lies in the box of the vectors that hold its first node: the UPPER one at
/// the LOWER head of the certificates with none held, the LOWER one at their UPPER head.
pub fn held_flows()
    ensures flow { (project : Project) (S time : ℕ) (intervals : List Interval) (levels : List ℤ)
        (tanks : List TankState) (links : List LinkState) (assignment : Assignment) (grid : Grid)
        (below above held_below held_above : List ℤ) (l : ℕ) (link : GridLink)
        → IsCompared project S time intervals levels tanks links assignment grid
        → IsCertificate grid Main Lower below → IsCertificate grid Main Upper above
        → slice_get grid.links l ≡ Some link → link.from < length grid.junctions → link.to < length grid.junctions
        → IsCertificateHolding (Some (held_in above link.from)) grid Main Lower held_below
        → IsCertificateHolding (Some (held_in below link.from)) grid Main Upper held_above
        → LiesIn S (held_flow_box link held_below held_above) (flow_at assignment.flows l) }
{}

/// Where water is drawn at a junction besides, and a vector holds that junction: with the draw with which the
/// junction of a LOWER vector would pass, or less, its head lies above the held one; with that of an UPPER vector, or
/// more, below.
pub fn draws()
    ensures enough_head { (project : Project) (S time : ℕ) (intervals : List Interval) (levels : List ℤ)
        (tanks : List TankState) (links : List LinkState) (held : HeldJunction) (q : ℤ) (assignment : Assignment)
        (grid : Grid) (u : List ℤ) (here : GridJunction)
        → IsComparedDrawing project S time intervals levels tanks links held.junction q assignment grid
        → IsCertificateHolding (Some held) grid Main Lower u → slice_get grid.junctions held.junction ≡ Some here
        → q ≤ℤ at_scale S (passing_draw grid Lower u held.junction here)
        → at_scale S held.head <ℤ head_at assignment.heads held.junction }
    ensures too_little_head { (project : Project) (S time : ℕ) (intervals : List Interval) (levels : List ℤ)
        (tanks : List TankState) (links : List LinkState) (held : HeldJunction) (q : ℤ) (assignment : Assignment)
        (grid : Grid) (u : List ℤ) (here : GridJunction)
        → IsComparedDrawing project S time intervals levels tanks links held.junction q assignment grid
        → IsCertificateHolding (Some held) grid Main Upper u → slice_get grid.junctions held.junction ≡ Some here
        → at_scale S (passing_draw grid Upper u held.junction here) ≤ℤ q
        → head_at assignment.heads held.junction <ℤ at_scale S held.head }
{}
