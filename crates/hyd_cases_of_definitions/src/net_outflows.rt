//! Net outflows and boxes of a small network.
#![tactic(auto)]

ghost use Rattle.std.specs.Prelude.{◌≡◌, pos, neg_ℤ, [], ◌∷◌, map, Some};
ghost use Rattle.hyd_spec.specs.ProgramTypes.{Capacity};
ghost use Rattle.hyd_spec_certificates.specs.declared.Problem.TheVariants.{Main, Pinned};
ghost use Rattle.hyd_spec_certificates.specs.declared.Side.TheVariants.{Upper, Lower};
ghost use Rattle.hyd_spec_certificates.specs.EnclosingFunctions.{Fixed};
ghost use Rattle.hyd_spec_certificates.specs.PeriodNetwork.{all_heads};
ghost use Rattle.hyd_spec_certificates.specs.NetOutflow.{net_low, net_high, link_ends, margin};
ghost use Rattle.hyd_spec_certificates.specs.FlowIntervals.{difference, flow_box, out_box, inflow_box};
ghost use Rattle.hyd_cases_of_definitions.specs.SmallGrid.{sample, first, second, from_reservoir, between, into_tank};
ghost use Rattle.hyd_cases_of_definitions.specs.SmallGrid.{against_tank};
ghost use Rattle.hyd_cases_of_definitions.specs.SmallGrid.{closed};

/// The heads of all nodes: the tank stands on the side of the vector, and on the other side where it is pinned.
pub fn heads()
    ensures main_upper { all_heads sample Main Upper (pos 90 ∷ pos 70 ∷ []) ≡ pos 90 ∷ pos 70 ∷ pos 100 ∷ pos 61 ∷ [] }
    ensures main_lower { all_heads sample Main Lower (pos 90 ∷ pos 70 ∷ []) ≡ pos 90 ∷ pos 70 ∷ pos 100 ∷ pos 50 ∷ [] }
    ensures pinned_upper { all_heads sample (Pinned 0) Upper (pos 90 ∷ pos 70 ∷ []) ≡ pos 90 ∷ pos 70 ∷ pos 100
        ∷ pos 50 ∷ [] }
    ensures pinned_lower { all_heads sample (Pinned 0) Lower (pos 90 ∷ pos 70 ∷ []) ≡ pos 90 ∷ pos 70 ∷ pos 100
        ∷ pos 61 ∷ [] }
{}

/// At most the net outflow of both junctions under four vectors, with all tanks alike and with the tank pinned.
pub fn low_net_outflow()
    ensures main_first { map (λ u. net_low sample Main u 0 first) ((pos 90 ∷ pos 70 ∷ []) ∷ (pos 100 ∷ pos 101 ∷ [])
        ∷ (pos 40 ∷ pos 45 ∷ [])
        ∷ (pos 10000000000000 ∷ neg_ℤ (pos 10000000000000) ∷ []) ∷ [])
        ≡ pos 140901 ∷ pos 273411 ∷ neg_ℤ (pos 521245) ∷ pos 160536453118696073 ∷ [] }
    ensures main_second { map (λ u. net_low sample Main u 1 second) ((pos 90 ∷ pos 70 ∷ []) ∷ (pos 100 ∷ pos 101 ∷ [])
        ∷ (pos 40 ∷ pos 45 ∷ [])
        ∷ (pos 10000000000000 ∷ neg_ℤ (pos 10000000000000) ∷ []) ∷ [])
        ≡ pos 52171 ∷ pos 329028 ∷ pos 40064 ∷ neg_ℤ (pos 20070) ∷ [] }
    ensures pinned_first { map (λ u. net_low sample (Pinned 0) u 0 first) ((pos 90 ∷ pos 70 ∷ [])
        ∷ (pos 100 ∷ pos 101 ∷ []) ∷ (pos 40 ∷ pos 45 ∷ [])
        ∷ (pos 10000000000000 ∷ neg_ℤ (pos 10000000000000) ∷ []) ∷ [])
        ≡ pos 229196 ∷ pos 361706 ∷ neg_ℤ (pos 521245) ∷ pos 160536453118784368 ∷ [] }
    ensures pinned_second { map (λ u. net_low sample (Pinned 0) u 1 second) ((pos 90 ∷ pos 70 ∷ [])
        ∷ (pos 100 ∷ pos 101 ∷ []) ∷ (pos 40 ∷ pos 45 ∷ [])
        ∷ (pos 10000000000000 ∷ neg_ℤ (pos 10000000000000) ∷ []) ∷ [])
        ≡ pos 140466 ∷ pos 417323 ∷ pos 40064 ∷ neg_ℤ (pos 20070) ∷ [] }
{}

/// At least the net outflow.
pub fn high_net_outflow()
    ensures main_first { map (λ u. net_high sample Main u 0 first) ((pos 90 ∷ pos 70 ∷ []) ∷ (pos 100 ∷ pos 101 ∷ [])
        ∷ (pos 40 ∷ pos 45 ∷ [])
        ∷ (pos 10000000000000 ∷ neg_ℤ (pos 10000000000000) ∷ []) ∷ [])
        ≡ pos 237225 ∷ pos 369735 ∷ neg_ℤ (pos 521243) ∷ pos 160536453118792397 ∷ [] }
    ensures main_second { map (λ u. net_high sample Main u 1 second) ((pos 90 ∷ pos 70 ∷ [])
        ∷ (pos 100 ∷ pos 101 ∷ []) ∷ (pos 40 ∷ pos 45 ∷ [])
        ∷ (pos 10000000000000 ∷ neg_ℤ (pos 10000000000000) ∷ []) ∷ [])
        ≡ pos 140467 ∷ pos 417325 ∷ pos 40065 ∷ neg_ℤ (pos 20070) ∷ [] }
    ensures pinned_first { map (λ u. net_high sample (Pinned 0) u 0 first) ((pos 90 ∷ pos 70 ∷ [])
        ∷ (pos 100 ∷ pos 101 ∷ []) ∷ (pos 40 ∷ pos 45 ∷ [])
        ∷ (pos 10000000000000 ∷ neg_ℤ (pos 10000000000000) ∷ []) ∷ [])
        ≡ pos 148930 ∷ pos 281440 ∷ neg_ℤ (pos 521243) ∷ pos 160536453118704102 ∷ [] }
    ensures pinned_second { map (λ u. net_high sample (Pinned 0) u 1 second) ((pos 90 ∷ pos 70 ∷ [])
        ∷ (pos 100 ∷ pos 101 ∷ []) ∷ (pos 40 ∷ pos 45 ∷ [])
        ∷ (pos 10000000000000 ∷ neg_ℤ (pos 10000000000000) ∷ []) ∷ [])
        ≡ pos 52172 ∷ pos 329030 ∷ pos 40065 ∷ neg_ℤ (pos 20070) ∷ [] }
{}

/// The margins of the junctions, and the link ends at each node.
pub fn margins()
    ensures margins { map (margin sample) (0 ∷ 1 ∷ []) ≡ pos 70 ∷ pos 60 ∷ [] }
    ensures ends { map (λ node. link_ends node sample.links) (0 ∷ 1 ∷ 3 ∷ 4 ∷ []) ≡ 4 ∷ 3 ∷ 2 ∷ 0 ∷ [] }
{}

/// The flow box of each link between two vectors of heads.
pub fn flow_boxes()
    ensures from_reservoir_box { flow_box from_reservoir (pos 60 ∷ pos 55 ∷ pos 100 ∷ pos 50 ∷ [])
        (pos 95 ∷ pos 90 ∷ pos 100 ∷ pos 61 ∷ [])
        ≡ record { lo = pos 40124; hi = pos 321083 } }
    ensures between_box { flow_box between (pos 60 ∷ pos 55 ∷ pos 100 ∷ pos 50 ∷ []) (pos 95 ∷ pos 90 ∷ pos 100
        ∷ pos 61 ∷ [])
        ≡ record { lo = neg_ℤ (pos 240815); hi = pos 20010 } }
    ensures into_tank_box { flow_box into_tank (pos 60 ∷ pos 55 ∷ pos 100 ∷ pos 50 ∷ []) (pos 95 ∷ pos 90 ∷ pos 100
        ∷ pos 61 ∷ [])
        ≡ record { lo = neg_ℤ (pos 10); hi = pos 321083 } }
    ensures against_tank_box { flow_box against_tank (pos 60 ∷ pos 55 ∷ pos 100 ∷ pos 50 ∷ [])
        (pos 95 ∷ pos 90 ∷ pos 100 ∷ pos 61 ∷ [])
        ≡ record { lo = neg_ℤ (pos 337137); hi = pos 10 } }
    ensures closed_box { flow_box closed (pos 60 ∷ pos 55 ∷ pos 100 ∷ pos 50 ∷ []) (pos 95 ∷ pos 90 ∷ pos 100 ∷ pos 61
        ∷ [])
        ≡ record { lo = neg_ℤ (pos 10); hi = pos 10 } }
{}

/// The head difference along a link between two vectors of heads.
pub fn differences()
    ensures between_junctions { difference between (pos 60 ∷ pos 55 ∷ pos 100 ∷ pos 50 ∷ [])
        (pos 95 ∷ pos 90 ∷ pos 100 ∷ pos 61 ∷ [])
        ≡ record { lo = neg_ℤ (pos 30); hi = pos 40 } }
    ensures to_tank { difference into_tank (pos 60 ∷ pos 55 ∷ pos 100 ∷ pos 50 ∷ []) (pos 95 ∷ pos 90 ∷ pos 100
        ∷ pos 61 ∷ [])
        ≡ record { lo = neg_ℤ (pos 6); hi = pos 40 } }
{}

/// The inflow box of the tank, with a tolerance for each of its links.
pub fn inflow_box()
    ensures { inflow_box sample 0 3 (pos 60 ∷ pos 55 ∷ []) (pos 95 ∷ pos 90 ∷ [])
        ≡ record { lo = neg_ℤ (pos 20); hi = pos 658220 } }
{}

/// The outflow box of a junction: without an emitter, and with one at pressures of both signs.
pub fn out_boxes()
    ensures plain { out_box first (pos 30) (pos 45) ≡ record { lo = pos 490; hi = pos 510 } }
    ensures forced_out { (capacity : Capacity) → capacity.lo.mant ≡ 9 → capacity.lo.exp ≡ neg_ℤ (pos 2)
        → capacity.hi.mant ≡ 5 → capacity.hi.exp ≡ neg_ℤ (pos 1)
        → out_box (record { elevation = pos 40; demand = Fixed (pos 500); emitter = Some capacity }) (pos 44) (pos 49)
        ≡ record { lo = pos 483; hi = pos 525 } }
    ensures drawn_in { (capacity : Capacity) → capacity.lo.mant ≡ 9 → capacity.lo.exp ≡ neg_ℤ (pos 2)
        → capacity.hi.mant ≡ 5 → capacity.hi.exp ≡ neg_ℤ (pos 1)
        → out_box (record { elevation = pos 40; demand = Fixed (pos 500); emitter = Some capacity }) (pos 31) (pos 36)
        ≡ record { lo = pos 475; hi = pos 517 } }
{}
