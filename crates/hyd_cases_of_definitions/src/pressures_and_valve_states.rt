//! The pressures between which demands depend on it, and what valves pass in their states.
#![tactic(auto)]

ghost use Rattle.std.specs.Prelude.{◌≡◌, pos, neg_ℤ, true, false, [], ◌∷◌, map};
ghost use Rattle.hyd_num.specs.declared.flow_units.FlowUnit.TheVariants.{Gpm, Cmd};
ghost use Rattle.hyd_num.specs.Rational.{floor, ceiling};
ghost use Rattle.hyd_spec.specs.ProgramTypes.{Project, Tcv, Fcv, Linear, Open, Closed, Throttle, Limit};
ghost use Rattle.hyd_spec.specs.DemandsHeadsAndPumpLifts.{minimum_pressure, required_pressure};
ghost use Rattle.hyd_spec.specs.Outflow.{is_pressure_driven};
ghost use Rattle.hyd_spec.specs.LinkLaw.{own_law};
ghost use Rattle.hyd_spec_certificates.specs.EnclosingFunctions.{low, high};

/// The minimum and the required pressure in pounds a square inch, rounded down and up.
pub fn pressures_pounds()
    ensures minimum { (project : Project) → project.options.unit ≡ Gpm → project.options.p0.nano ≡ pos 5000000000
        → (floor (minimum_pressure project) ∷ ceiling (minimum_pressure project) ∷ []) ≡ pos 35171936302792
        ∷ pos 35171936302793 ∷ [] }
    ensures required { (project : Project) → project.options.unit ≡ Gpm → project.options.pf.nano ≡ pos 20000000001
        → (floor (required_pressure project) ∷ ceiling (required_pressure project) ∷ []) ≡ pos 140687745218204
        ∷ pos 140687745218205
        ∷ [] }
{}

/// The minimum and the required pressure in metres, rounded down and up.
pub fn pressures_metres()
    ensures minimum { (project : Project) → project.options.unit ≡ Cmd → project.options.p0.nano ≡ pos 5000000000
        → (floor (minimum_pressure project) ∷ ceiling (minimum_pressure project) ∷ []) ≡ pos 50000000000000
        ∷ pos 50000000000000 ∷ [] }
    ensures required { (project : Project) → project.options.unit ≡ Cmd → project.options.pf.nano ≡ pos 20000000001
        → (floor (required_pressure project) ∷ ceiling (required_pressure project) ∷ []) ≡ pos 200000000010000
        ∷ pos 200000000010000
        ∷ [] }
{}

/// Which demands depend on the pressure.
pub fn driven()
    ensures by_pressure { (project : Project) → project.options.pda ≡ true
        → map (is_pressure_driven project) (neg_ℤ (pos 1) ∷ pos 0 ∷ pos 1 ∷ []) ≡ false ∷ false ∷ true ∷ [] }
    ensures by_demand { (project : Project) → project.options.pda ≡ false
        → map (is_pressure_driven project) (neg_ℤ (pos 1) ∷ pos 0 ∷ pos 1 ∷ []) ≡ false ∷ false ∷ false ∷ [] }
{}

/// What valves without loss coefficient pass in each state.
pub fn valves()
    ensures closed_low { map (low (own_law false [] (Tcv Linear) (Closed))) (neg_ℤ (pos 125) ∷ pos 0 ∷ pos 3 ∷ pos 125
        ∷ [])
        ≡ pos 0 ∷ pos 0 ∷ pos 0 ∷ pos 0 ∷ [] }
    ensures closed_high { map (high (own_law false [] (Tcv Linear) (Closed))) (neg_ℤ (pos 125) ∷ pos 0 ∷ pos 3
        ∷ pos 125 ∷ [])
        ≡ pos 0 ∷ pos 0 ∷ pos 0 ∷ pos 0 ∷ [] }
    ensures open_low { map (low (own_law false [] (Tcv Linear) (Open))) (neg_ℤ (pos 125) ∷ pos 0 ∷ pos 3 ∷ pos 125 ∷ [])
        ≡ neg_ℤ (pos 1003353) ∷ pos 0 ∷ pos 24080 ∷ pos 1003352 ∷ [] }
    ensures open_high { map (high (own_law false [] (Tcv Linear) (Open))) (neg_ℤ (pos 125) ∷ pos 0 ∷ pos 3 ∷ pos 125
        ∷ [])
        ≡ neg_ℤ (pos 1003352) ∷ pos 0 ∷ pos 24081 ∷ pos 1003353 ∷ [] }
    ensures throttled_low { map (low (own_law false [] (Tcv Linear) (Throttle (pos 0) Linear)))
        (neg_ℤ (pos 125) ∷ pos 0 ∷ pos 3 ∷ pos 125 ∷ [])
        ≡ neg_ℤ (pos 1003353) ∷ pos 0 ∷ pos 24080 ∷ pos 1003352 ∷ [] }
    ensures throttled_high { map (high (own_law false [] (Tcv Linear) (Throttle (pos 0) Linear)))
        (neg_ℤ (pos 125) ∷ pos 0 ∷ pos 3 ∷ pos 125 ∷ [])
        ≡ neg_ℤ (pos 1003352) ∷ pos 0 ∷ pos 24081 ∷ pos 1003353 ∷ [] }
    ensures limited_low { map (low (own_law false [] (Fcv Linear) (Limit (pos 2000000) (pos 20000))))
        (neg_ℤ (pos 125) ∷ pos 0 ∷ pos 3 ∷ pos 125 ∷ [])
        ≡ neg_ℤ (pos 1003353) ∷ pos 0 ∷ pos 20000 ∷ pos 20000 ∷ [] }
    ensures limited_high { map (high (own_law false [] (Fcv Linear) (Limit (pos 2000000) (pos 20000))))
        (neg_ℤ (pos 125) ∷ pos 0 ∷ pos 3 ∷ pos 125 ∷ [])
        ≡ neg_ℤ (pos 1003352) ∷ pos 0 ∷ pos 20000 ∷ pos 20000 ∷ [] }
    ensures limit_closed_low { map (low (own_law false [] (Fcv Linear) (Closed))) (neg_ℤ (pos 125) ∷ pos 0 ∷ pos 3
        ∷ pos 125 ∷ [])
        ≡ pos 0 ∷ pos 0 ∷ pos 0 ∷ pos 0 ∷ [] }
    ensures limit_closed_high { map (high (own_law false [] (Fcv Linear) (Closed))) (neg_ℤ (pos 125) ∷ pos 0 ∷ pos 3
        ∷ pos 125 ∷ [])
        ≡ pos 0 ∷ pos 0 ∷ pos 0 ∷ pos 0 ∷ [] }
{}
