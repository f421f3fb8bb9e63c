//! What vectors with a junction held tell on the sample network, beside an independent calculation.
#![tactic(auto)]

ghost use Rattle.std.specs.Prelude.{◌≡◌, pos, neg_ℤ, [], ◌∷◌, map};
ghost use Rattle.hyd_spec_certificates.specs.declared.Side.TheVariants.{Upper, Lower};
ghost use Rattle.hyd_spec_certificates.specs.BoxesWithHeldJunction.{held_in, held_flow_box, passing_draw};
ghost use Rattle.hyd_cases_of_definitions.specs.SmallGrid.{sample, first, second, between};

/// The flow box of the link between the junctions from four pairs of a LOWER and an UPPER vector. (The ends of the last
/// are out of order: no two certificates are like these.)
pub fn flows()
    ensures { held_flow_box between (pos 95 ∷ pos 55 ∷ []) (pos 60 ∷ pos 90 ∷ [])
        ∷ held_flow_box between (pos 95 ∷ pos 88 ∷ []) (pos 60 ∷ pos 61 ∷ [])
        ∷ held_flow_box between (pos 95 ∷ pos 94 ∷ []) (pos 60 ∷ pos 59 ∷ [])
        ∷ held_flow_box between (pos 95 ∷ pos 96 ∷ []) (pos 60 ∷ pos 58 ∷ []) ∷ []
        ≡ record { lo = neg_ℤ (pos 240815); hi = pos 20010 } ∷ record { lo = neg_ℤ (pos 8037); hi = pos 20010 }
        ∷ record { lo = pos 8016; hi = pos 8037 } ∷ record { lo = pos 16043; hi = neg_ℤ (pos 8016) } ∷ [] }
{}

/// The draw with which each junction would pass besides, on both sides, under two vectors.
pub fn draws()
    ensures upper_first { map (λ u. passing_draw sample Upper u 0 first) ((pos 90 ∷ pos 70 ∷ [])
        ∷ (pos 40 ∷ pos 45 ∷ []) ∷ [])
        ≡ neg_ℤ (pos 140830) ∷ pos 521316 ∷ [] }
    ensures upper_second { map (λ u. passing_draw sample Upper u 1 second) ((pos 90 ∷ pos 70 ∷ [])
        ∷ (pos 40 ∷ pos 45 ∷ []) ∷ [])
        ≡ neg_ℤ (pos 52110) ∷ neg_ℤ (pos 40003) ∷ [] }
    ensures lower_first { map (λ u. passing_draw sample Lower u 0 first) ((pos 90 ∷ pos 70 ∷ [])
        ∷ (pos 40 ∷ pos 45 ∷ []) ∷ [])
        ≡ neg_ℤ (pos 237296) ∷ pos 521172 ∷ [] }
    ensures lower_second { map (λ u. passing_draw sample Lower u 1 second) ((pos 90 ∷ pos 70 ∷ [])
        ∷ (pos 40 ∷ pos 45 ∷ []) ∷ [])
        ≡ neg_ℤ (pos 140528) ∷ neg_ℤ (pos 40126) ∷ [] }
{}

/// A junction is held at the head that a vector has there.
pub fn heads()
    ensures { map (held_in (pos 90 ∷ pos 70 ∷ [])) (0 ∷ 1 ∷ [])
        ≡ record { junction = 0; head = pos 90 } ∷ record { junction = 1; head = pos 70 } ∷ [] }
{}
