//! The enclosing functions of links and demands.
#![tactic(auto)]

ghost use Rattle.std.specs.Prelude.{◌≡◌, pos, neg_ℤ, [], ◌∷◌, map, Some, None};
ghost use Rattle.hyd_spec.specs.ProgramTypes.{Capacity};
ghost use Rattle.hyd_spec.specs.Law.{Shut, LinearLaw, Lifted, ForwardOnly, ReverseOnly, Capped, QuadraticLaw};
ghost use Rattle.hyd_spec_certificates.specs.EnclosingFunctions.{root_down, root_up, low, high, Fixed, Driven};
ghost use Rattle.hyd_spec_certificates.specs.EnclosingFunctions.{demand_low};
ghost use Rattle.hyd_spec_certificates.specs.EnclosingFunctions.{demand_high, emitter_low, emitter_high};

/// Whole roots of whole numbers, of halves and of quarters, rounded down and up.
pub fn roots()
    ensures wholes_down { map (λ p. root_down p 1) (0 ∷ 1 ∷ 2 ∷ 3 ∷ 4 ∷ 8 ∷ 9 ∷ 15 ∷ 16 ∷ 24 ∷ 25 ∷ 26 ∷ [])
        ≡ 0 ∷ 1 ∷ 1 ∷ 1 ∷ 2 ∷ 2 ∷ 3 ∷ 3 ∷ 4 ∷ 4 ∷ 5 ∷ 5 ∷ [] }
    ensures wholes_up { map (λ p. root_up p 1) (0 ∷ 1 ∷ 2 ∷ 3 ∷ 4 ∷ 8 ∷ 9 ∷ 15 ∷ 16 ∷ 24 ∷ 25 ∷ 26 ∷ [])
        ≡ 0 ∷ 1 ∷ 2 ∷ 2 ∷ 2 ∷ 3 ∷ 3 ∷ 4 ∷ 4 ∷ 5 ∷ 5 ∷ 6 ∷ [] }
    ensures halves_down { map (λ p. root_down p 2) (0 ∷ 1 ∷ 2 ∷ 3 ∷ 4 ∷ 8 ∷ 9 ∷ 15 ∷ 16 ∷ 24 ∷ 25 ∷ 26 ∷ [])
        ≡ 0 ∷ 0 ∷ 1 ∷ 1 ∷ 1 ∷ 2 ∷ 2 ∷ 2 ∷ 2 ∷ 3 ∷ 3 ∷ 3 ∷ [] }
    ensures halves_up { map (λ p. root_up p 2) (0 ∷ 1 ∷ 2 ∷ 3 ∷ 4 ∷ 8 ∷ 9 ∷ 15 ∷ 16 ∷ 24 ∷ 25 ∷ 26 ∷ [])
        ≡ 0 ∷ 1 ∷ 1 ∷ 2 ∷ 2 ∷ 2 ∷ 3 ∷ 3 ∷ 3 ∷ 4 ∷ 4 ∷ 4 ∷ [] }
    ensures quarters_down { map (λ p. root_down p 4) (0 ∷ 1 ∷ 2 ∷ 3 ∷ 4 ∷ 8 ∷ 9 ∷ 15 ∷ 16 ∷ 24 ∷ 25 ∷ 26 ∷ [])
        ≡ 0 ∷ 0 ∷ 0 ∷ 0 ∷ 1 ∷ 1 ∷ 1 ∷ 1 ∷ 2 ∷ 2 ∷ 2 ∷ 2 ∷ [] }
    ensures quarters_up { map (λ p. root_up p 4) (0 ∷ 1 ∷ 2 ∷ 3 ∷ 4 ∷ 8 ∷ 9 ∷ 15 ∷ 16 ∷ 24 ∷ 25 ∷ 26 ∷ [])
        ≡ 0 ∷ 1 ∷ 1 ∷ 1 ∷ 1 ∷ 2 ∷ 2 ∷ 2 ∷ 2 ∷ 3 ∷ 3 ∷ 3 ∷ [] }
{}

/// A closed link passes nothing.
pub fn shut()
    ensures low { map (low Shut) (pos 0 ∷ pos 1 ∷ neg_ℤ (pos 1) ∷ pos 3 ∷ neg_ℤ (pos 3) ∷ pos 124 ∷ neg_ℤ (pos 124)
        ∷ pos 125 ∷ neg_ℤ (pos 125)
        ∷ pos 1000000 ∷ neg_ℤ (pos 1000000) ∷ [])
        ≡ pos 0 ∷ pos 0 ∷ pos 0 ∷ pos 0 ∷ pos 0 ∷ pos 0 ∷ pos 0 ∷ pos 0 ∷ pos 0 ∷ pos 0 ∷ pos 0 ∷ [] }
    ensures high { map (high Shut) (pos 0 ∷ pos 1 ∷ neg_ℤ (pos 1) ∷ pos 3 ∷ neg_ℤ (pos 3) ∷ pos 124 ∷ neg_ℤ (pos 124)
        ∷ pos 125 ∷ neg_ℤ (pos 125)
        ∷ pos 1000000 ∷ neg_ℤ (pos 1000000) ∷ [])
        ≡ pos 0 ∷ pos 0 ∷ pos 0 ∷ pos 0 ∷ pos 0 ∷ pos 0 ∷ pos 0 ∷ pos 0 ∷ pos 0 ∷ pos 0 ∷ pos 0 ∷ [] }
{}

/// A valve without loss coefficient, at small and large head differences.
pub fn straight()
    ensures low { map (low LinearLaw) (pos 0 ∷ pos 1 ∷ neg_ℤ (pos 1) ∷ pos 3 ∷ neg_ℤ (pos 3) ∷ pos 124
        ∷ neg_ℤ (pos 124) ∷ pos 125 ∷ neg_ℤ (pos 125)
        ∷ pos 1000000 ∷ neg_ℤ (pos 1000000) ∷ [])
        ≡ pos 0 ∷ pos 8026 ∷ neg_ℤ (pos 8027) ∷ pos 24080 ∷ neg_ℤ (pos 24081) ∷ pos 995326 ∷ neg_ℤ (pos 995327)
        ∷ pos 1003352
        ∷ neg_ℤ (pos 1003353) ∷ pos 8026822656 ∷ neg_ℤ (pos 8026822656) ∷ [] }
    ensures high { map (high LinearLaw) (pos 0 ∷ pos 1 ∷ neg_ℤ (pos 1) ∷ pos 3 ∷ neg_ℤ (pos 3) ∷ pos 124
        ∷ neg_ℤ (pos 124) ∷ pos 125 ∷ neg_ℤ (pos 125)
        ∷ pos 1000000 ∷ neg_ℤ (pos 1000000) ∷ [])
        ≡ pos 0 ∷ pos 8027 ∷ neg_ℤ (pos 8026) ∷ pos 24081 ∷ neg_ℤ (pos 24080) ∷ pos 995327 ∷ neg_ℤ (pos 995326)
        ∷ pos 1003353
        ∷ neg_ℤ (pos 1003352) ∷ pos 8026822656 ∷ neg_ℤ (pos 8026822656) ∷ [] }
{}

/// A valve that passes forward only.
pub fn forward()
    ensures low { map (low (ForwardOnly LinearLaw)) (pos 0 ∷ pos 1 ∷ neg_ℤ (pos 1) ∷ pos 3 ∷ neg_ℤ (pos 3) ∷ pos 124
        ∷ neg_ℤ (pos 124) ∷ pos 125
        ∷ neg_ℤ (pos 125) ∷ pos 1000000 ∷ neg_ℤ (pos 1000000) ∷ [])
        ≡ pos 0 ∷ pos 8026 ∷ pos 0 ∷ pos 24080 ∷ pos 0 ∷ pos 995326 ∷ pos 0 ∷ pos 1003352 ∷ pos 0 ∷ pos 8026822656
        ∷ pos 0 ∷ [] }
    ensures high { map (high (ForwardOnly LinearLaw)) (pos 0 ∷ pos 1 ∷ neg_ℤ (pos 1) ∷ pos 3 ∷ neg_ℤ (pos 3) ∷ pos 124
        ∷ neg_ℤ (pos 124) ∷ pos 125
        ∷ neg_ℤ (pos 125) ∷ pos 1000000 ∷ neg_ℤ (pos 1000000) ∷ [])
        ≡ pos 0 ∷ pos 8027 ∷ pos 0 ∷ pos 24081 ∷ pos 0 ∷ pos 995327 ∷ pos 0 ∷ pos 1003353 ∷ pos 0 ∷ pos 8026822656
        ∷ pos 0 ∷ [] }
{}

/// A valve that passes in reverse only.
pub fn reverse()
    ensures low { map (low (ReverseOnly LinearLaw)) (pos 0 ∷ pos 1 ∷ neg_ℤ (pos 1) ∷ pos 3 ∷ neg_ℤ (pos 3) ∷ pos 124
        ∷ neg_ℤ (pos 124) ∷ pos 125
        ∷ neg_ℤ (pos 125) ∷ pos 1000000 ∷ neg_ℤ (pos 1000000) ∷ [])
        ≡ pos 0 ∷ pos 0 ∷ neg_ℤ (pos 8027) ∷ pos 0 ∷ neg_ℤ (pos 24081) ∷ pos 0 ∷ neg_ℤ (pos 995327) ∷ pos 0
        ∷ neg_ℤ (pos 1003353)
        ∷ pos 0 ∷ neg_ℤ (pos 8026822656) ∷ [] }
    ensures high { map (high (ReverseOnly LinearLaw)) (pos 0 ∷ pos 1 ∷ neg_ℤ (pos 1) ∷ pos 3 ∷ neg_ℤ (pos 3) ∷ pos 124
        ∷ neg_ℤ (pos 124) ∷ pos 125
        ∷ neg_ℤ (pos 125) ∷ pos 1000000 ∷ neg_ℤ (pos 1000000) ∷ [])
        ≡ pos 0 ∷ pos 0 ∷ neg_ℤ (pos 8026) ∷ pos 0 ∷ neg_ℤ (pos 24080) ∷ pos 0 ∷ neg_ℤ (pos 995326) ∷ pos 0
        ∷ neg_ℤ (pos 1003352)
        ∷ pos 0 ∷ neg_ℤ (pos 8026822656) ∷ [] }
{}

/// A valve that passes at most 20000 flow ticks.
pub fn capped()
    ensures low { map (low (Capped (pos 20000) LinearLaw)) (pos 0 ∷ pos 1 ∷ neg_ℤ (pos 1) ∷ pos 3 ∷ neg_ℤ (pos 3)
        ∷ pos 124 ∷ neg_ℤ (pos 124) ∷ pos 125
        ∷ neg_ℤ (pos 125) ∷ pos 1000000 ∷ neg_ℤ (pos 1000000) ∷ [])
        ≡ pos 0 ∷ pos 8026 ∷ neg_ℤ (pos 8027) ∷ pos 20000 ∷ neg_ℤ (pos 24081) ∷ pos 20000 ∷ neg_ℤ (pos 995327)
        ∷ pos 20000
        ∷ neg_ℤ (pos 1003353) ∷ pos 20000 ∷ neg_ℤ (pos 8026822656) ∷ [] }
    ensures high { map (high (Capped (pos 20000) LinearLaw)) (pos 0 ∷ pos 1 ∷ neg_ℤ (pos 1) ∷ pos 3 ∷ neg_ℤ (pos 3)
        ∷ pos 124 ∷ neg_ℤ (pos 124) ∷ pos 125
        ∷ neg_ℤ (pos 125) ∷ pos 1000000 ∷ neg_ℤ (pos 1000000) ∷ [])
        ≡ pos 0 ∷ pos 8027 ∷ neg_ℤ (pos 8026) ∷ pos 20000 ∷ neg_ℤ (pos 24080) ∷ pos 20000 ∷ neg_ℤ (pos 995326)
        ∷ pos 20000
        ∷ neg_ℤ (pos 1003352) ∷ pos 20000 ∷ neg_ℤ (pos 8026822656) ∷ [] }
{}

/// A valve lifted by 7/2 of a head tick.
pub fn lifted()
    ensures low { map (low (Lifted (record {
      num = pos 7;
      den = 2;
    }) LinearLaw)) (pos 0 ∷ pos 1 ∷ neg_ℤ (pos 1) ∷ pos 3 ∷ neg_ℤ (pos 3) ∷ pos 124
        ∷ neg_ℤ (pos 124) ∷ pos 125 ∷ neg_ℤ (pos 125) ∷ pos 1000000 ∷ neg_ℤ (pos 1000000) ∷ [])
        ≡ pos 24080 ∷ pos 32107 ∷ pos 16053 ∷ pos 48160 ∷ pos 0 ∷ pos 1019406 ∷ neg_ℤ (pos 971246) ∷ pos 1027433
        ∷ neg_ℤ (pos 979273)
        ∷ pos 8026846736 ∷ neg_ℤ (pos 8026798576) ∷ [] }
    ensures high { map (high (Lifted (record {
      num = pos 7;
      den = 2;
    }) LinearLaw)) (pos 0 ∷ pos 1 ∷ neg_ℤ (pos 1) ∷ pos 3 ∷ neg_ℤ (pos 3) ∷ pos 124
        ∷ neg_ℤ (pos 124) ∷ pos 125 ∷ neg_ℤ (pos 125) ∷ pos 1000000 ∷ neg_ℤ (pos 1000000) ∷ [])
        ≡ pos 32108 ∷ pos 40135 ∷ pos 24081 ∷ pos 56188 ∷ pos 8027 ∷ pos 1027434 ∷ neg_ℤ (pos 963218) ∷ pos 1035461
        ∷ neg_ℤ (pos 971245) ∷ pos 8026854764 ∷ neg_ℤ (pos 8026790548) ∷ [] }
{}

/// A valve lowered by 7/2 of a head tick.
pub fn lowered()
    ensures low { map (low (Lifted (record {
      num = neg_ℤ (pos 7);
      den = 2;
    }) LinearLaw)) (pos 0 ∷ pos 1 ∷ neg_ℤ (pos 1) ∷ pos 3 ∷ neg_ℤ (pos 3) ∷ pos 124
        ∷ neg_ℤ (pos 124) ∷ pos 125 ∷ neg_ℤ (pos 125) ∷ pos 1000000 ∷ neg_ℤ (pos 1000000) ∷ [])
        ≡ neg_ℤ (pos 32108) ∷ neg_ℤ (pos 24081) ∷ neg_ℤ (pos 40135) ∷ neg_ℤ (pos 8027) ∷ neg_ℤ (pos 56188) ∷ pos 963218
        ∷ neg_ℤ (pos 1027434) ∷ pos 971245 ∷ neg_ℤ (pos 1035461) ∷ pos 8026790548 ∷ neg_ℤ (pos 8026854764) ∷ [] }
    ensures high { map (high (Lifted (record {
      num = neg_ℤ (pos 7);
      den = 2;
    }) LinearLaw)) (pos 0 ∷ pos 1 ∷ neg_ℤ (pos 1) ∷ pos 3 ∷ neg_ℤ (pos 3) ∷ pos 124
        ∷ neg_ℤ (pos 124) ∷ pos 125 ∷ neg_ℤ (pos 125) ∷ pos 1000000 ∷ neg_ℤ (pos 1000000) ∷ [])
        ≡ neg_ℤ (pos 24080) ∷ neg_ℤ (pos 16053) ∷ neg_ℤ (pos 32107) ∷ pos 0 ∷ neg_ℤ (pos 48160) ∷ pos 971246
        ∷ neg_ℤ (pos 1019406)
        ∷ pos 979273 ∷ neg_ℤ (pos 1027433) ∷ pos 8026798576 ∷ neg_ℤ (pos 8026846736) ∷ [] }
{}

/// A lifted valve that passes forward only.
pub fn pumping()
    ensures low { map (low (ForwardOnly (Lifted (record {
      num = pos 7;
      den = 2;
    }) LinearLaw))) (pos 0 ∷ pos 1 ∷ neg_ℤ (pos 1) ∷ pos 3 ∷ neg_ℤ (pos 3)
        ∷ pos 124 ∷ neg_ℤ (pos 124) ∷ pos 125 ∷ neg_ℤ (pos 125) ∷ pos 1000000 ∷ neg_ℤ (pos 1000000) ∷ [])
        ≡ pos 24080 ∷ pos 32107 ∷ pos 16053 ∷ pos 48160 ∷ pos 0 ∷ pos 1019406 ∷ pos 0 ∷ pos 1027433 ∷ pos 0
        ∷ pos 8026846736 ∷ pos 0
        ∷ [] }
    ensures high { map (high (ForwardOnly (Lifted (record {
      num = pos 7;
      den = 2;
    }) LinearLaw))) (pos 0 ∷ pos 1 ∷ neg_ℤ (pos 1) ∷ pos 3 ∷ neg_ℤ (pos 3)
        ∷ pos 124 ∷ neg_ℤ (pos 124) ∷ pos 125 ∷ neg_ℤ (pos 125) ∷ pos 1000000 ∷ neg_ℤ (pos 1000000) ∷ [])
        ≡ pos 32108 ∷ pos 40135 ∷ pos 24081 ∷ pos 56188 ∷ pos 8027 ∷ pos 1027434 ∷ pos 0 ∷ pos 1035461 ∷ pos 0
        ∷ pos 8026854764 ∷ pos 0
        ∷ [] }
{}

/// A valve that passes neither way.
pub fn both_ways_shut()
    ensures low { map (low (ForwardOnly (ReverseOnly LinearLaw))) (pos 0 ∷ pos 1 ∷ neg_ℤ (pos 1) ∷ pos 3
        ∷ neg_ℤ (pos 3) ∷ pos 124 ∷ neg_ℤ (pos 124)
        ∷ pos 125 ∷ neg_ℤ (pos 125) ∷ pos 1000000 ∷ neg_ℤ (pos 1000000) ∷ [])
        ≡ pos 0 ∷ pos 0 ∷ pos 0 ∷ pos 0 ∷ pos 0 ∷ pos 0 ∷ pos 0 ∷ pos 0 ∷ pos 0 ∷ pos 0 ∷ pos 0 ∷ [] }
    ensures high { map (high (ForwardOnly (ReverseOnly LinearLaw))) (pos 0 ∷ pos 1 ∷ neg_ℤ (pos 1) ∷ pos 3
        ∷ neg_ℤ (pos 3) ∷ pos 124 ∷ neg_ℤ (pos 124)
        ∷ pos 125 ∷ neg_ℤ (pos 125) ∷ pos 1000000 ∷ neg_ℤ (pos 1000000) ∷ [])
        ≡ pos 0 ∷ pos 0 ∷ pos 0 ∷ pos 0 ∷ pos 0 ∷ pos 0 ∷ pos 0 ∷ pos 0 ∷ pos 0 ∷ pos 0 ∷ pos 0 ∷ [] }
{}

/// A capacity between 9/4 and 5/2 squared flow ticks for a head tick, both ways.
pub fn quadratic()
    ensures low { (capacity : Capacity) → capacity.lo.mant ≡ 9 → capacity.lo.exp ≡ neg_ℤ (pos 2)
        → capacity.hi.mant ≡ 5 → capacity.hi.exp ≡ neg_ℤ (pos 1)
        → map (low (QuadraticLaw capacity)) (pos 0 ∷ pos 1 ∷ neg_ℤ (pos 1) ∷ pos 2 ∷ neg_ℤ (pos 2) ∷ pos 4
        ∷ neg_ℤ (pos 4) ∷ pos 9
        ∷ neg_ℤ (pos 9) ∷ []) ≡ pos 0 ∷ pos 1 ∷ neg_ℤ (pos 2) ∷ pos 2 ∷ neg_ℤ (pos 3) ∷ pos 3 ∷ neg_ℤ (pos 4) ∷ pos 4
        ∷ neg_ℤ (pos 5) ∷ [] }
    ensures high { (capacity : Capacity) → capacity.lo.mant ≡ 9 → capacity.lo.exp ≡ neg_ℤ (pos 2)
        → capacity.hi.mant ≡ 5 → capacity.hi.exp ≡ neg_ℤ (pos 1)
        → map (high (QuadraticLaw capacity)) (pos 0 ∷ pos 1 ∷ neg_ℤ (pos 1) ∷ pos 2 ∷ neg_ℤ (pos 2) ∷ pos 4
        ∷ neg_ℤ (pos 4) ∷ pos 9
        ∷ neg_ℤ (pos 9) ∷ []) ≡ pos 0 ∷ pos 2 ∷ neg_ℤ (pos 1) ∷ pos 3 ∷ neg_ℤ (pos 2) ∷ pos 4 ∷ neg_ℤ (pos 3) ∷ pos 5
        ∷ neg_ℤ (pos 4) ∷ [] }
{}

/// The same capacity at an emitter; without one nothing flows.
pub fn emitters()
    ensures low { (capacity : Capacity) → capacity.lo.mant ≡ 9 → capacity.lo.exp ≡ neg_ℤ (pos 2)
        → capacity.hi.mant ≡ 5 → capacity.hi.exp ≡ neg_ℤ (pos 1)
        → map (emitter_low (Some capacity)) (pos 0 ∷ pos 1 ∷ neg_ℤ (pos 1) ∷ pos 2 ∷ neg_ℤ (pos 2) ∷ pos 4
        ∷ neg_ℤ (pos 4) ∷ pos 9
        ∷ neg_ℤ (pos 9) ∷ []) ≡ pos 0 ∷ pos 1 ∷ neg_ℤ (pos 2) ∷ pos 2 ∷ neg_ℤ (pos 3) ∷ pos 3 ∷ neg_ℤ (pos 4) ∷ pos 4
        ∷ neg_ℤ (pos 5) ∷ [] }
    ensures high { (capacity : Capacity) → capacity.lo.mant ≡ 9 → capacity.lo.exp ≡ neg_ℤ (pos 2)
        → capacity.hi.mant ≡ 5 → capacity.hi.exp ≡ neg_ℤ (pos 1)
        → map (emitter_high (Some capacity)) (pos 0 ∷ pos 1 ∷ neg_ℤ (pos 1) ∷ pos 2 ∷ neg_ℤ (pos 2) ∷ pos 4
        ∷ neg_ℤ (pos 4) ∷ pos 9
        ∷ neg_ℤ (pos 9) ∷ []) ≡ pos 0 ∷ pos 2 ∷ neg_ℤ (pos 1) ∷ pos 3 ∷ neg_ℤ (pos 2) ∷ pos 4 ∷ neg_ℤ (pos 3) ∷ pos 5
        ∷ neg_ℤ (pos 4) ∷ [] }
    ensures none { map (emitter_low None) (pos 0 ∷ pos 5 ∷ []) ≡ pos 0 ∷ pos 0 ∷ [] }
{}

/// A fixed demand doesn't depend on the pressure.
pub fn fixed()
    ensures low { map (demand_low (Fixed (neg_ℤ (pos 5)))) (neg_ℤ (pos 3) ∷ pos 0 ∷ pos 9 ∷ [])
        ≡ neg_ℤ (pos 5) ∷ neg_ℤ (pos 5) ∷ neg_ℤ (pos 5) ∷ [] }
    ensures high { map (demand_high (Fixed (pos 5))) (neg_ℤ (pos 3) ∷ pos 0 ∷ pos 9 ∷ []) ≡ pos 5 ∷ pos 5 ∷ pos 5 ∷ [] }
{}

/// A demand of 4 flow ticks between a minimum pressure of 5/2 and a required one of 17/2 head ticks.
pub fn driven()
    ensures low { (capacity : Capacity) → capacity.lo.mant ≡ 9 → capacity.lo.exp ≡ neg_ℤ (pos 2)
        → capacity.hi.mant ≡ 5 → capacity.hi.exp ≡ neg_ℤ (pos 1)
        → map (demand_low (Driven (pos 4) capacity (record { num = pos 5; den = 2 }) (record {
          num = pos 17;
          den = 2;
        }))) (neg_ℤ (pos 1)
        ∷ pos 0 ∷ pos 2 ∷ pos 3 ∷ pos 4 ∷ pos 5 ∷ pos 6 ∷ pos 7 ∷ pos 8 ∷ pos 9 ∷ pos 10 ∷ []) ≡ pos 0 ∷ pos 0 ∷ pos 0
        ∷ pos 0
        ∷ pos 1 ∷ pos 2 ∷ pos 2 ∷ pos 3 ∷ pos 3 ∷ pos 4 ∷ pos 4 ∷ [] }
    ensures high { (capacity : Capacity) → capacity.lo.mant ≡ 9 → capacity.lo.exp ≡ neg_ℤ (pos 2)
        → capacity.hi.mant ≡ 5 → capacity.hi.exp ≡ neg_ℤ (pos 1)
        → map (demand_high (Driven (pos 4) capacity (record { num = pos 5; den = 2 }) (record {
          num = pos 17;
          den = 2;
        }))) (neg_ℤ (pos 1)
        ∷ pos 0 ∷ pos 2 ∷ pos 3 ∷ pos 4 ∷ pos 5 ∷ pos 6 ∷ pos 7 ∷ pos 8 ∷ pos 9 ∷ pos 10 ∷ []) ≡ pos 0 ∷ pos 0 ∷ pos 0
        ∷ pos 2
        ∷ pos 3 ∷ pos 3 ∷ pos 4 ∷ pos 4 ∷ pos 4 ∷ pos 4 ∷ pos 4 ∷ [] }
{}
