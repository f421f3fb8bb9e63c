//! Curves by straight lines: values and ranges of their points, and the laws and status words of a pump and of a
//! general purpose valve.
#![tactic(auto)]

ghost use Rattle.std.specs.Prelude.{◌≡◌, pos, neg_ℤ, false, [], ◌∷◌, map, length, None};
ghost use Rattle.hyd_spec.specs.ProgramTypes.{Project, CurvePump, Gpv, Open, Closed, Speed};
ghost use Rattle.hyd_spec.specs.Law.{Bent, flow_at_least, flow_at_most};
ghost use Rattle.hyd_net.specs.Curves.{volume_at, IsVolumeCurve, IsPumpCurve, IsLossCurve};
ghost use Rattle.hyd_spec.specs.LinkLaw.{own_law, law_of};
ghost use Rattle.hyd_spec_certificates.specs.EnclosingFunctions.{low, high};
ghost use Rattle.hyd_spec_certificates.specs.declared.StatusWord.TheVariants.{Open as IsOpen, Closed as IsClosed};
ghost use Rattle.hyd_spec_certificates.specs.declared.StatusWord.TheVariants.{Unsure};
ghost use Rattle.hyd_spec_certificates.specs.StatusesOfLinks.{status_of};
ghost use Rattle.hyd_cases_of_definitions.specs.Curves.{bends, pump_points, valve_points, volume_points};
ghost use Rattle.hyd_cases_of_definitions.specs.Curves.{steps, rising_steps, last_step};
ghost use Rattle.hyd_cases_of_definitions.specs.Curves.{running, along_pump, along_slow_pump, intervals, along_valve};
ghost use Rattle.hyd_cases_of_definitions.specs.Curves.{either_way};
ghost use Rattle.hyd_cases_of_definitions.specs.LinksBetweenTanks.{between_tanks, pairs, HasTanks};

/// Values on straight lines, rounded down and up, where neighbours have one place too.
pub fn lines()
    ensures steps_low { map (low (Bent steps)) (neg_ℤ (pos 7) ∷ neg_ℤ (pos 1) ∷ pos 0 ∷ pos 1 ∷ pos 9 ∷ pos 10
        ∷ pos 11 ∷ []) ≡ pos 0 ∷ pos 0 ∷ pos 5 ∷ pos 5 ∷ pos 5 ∷ pos 20 ∷ pos 20 ∷ [] }
    ensures steps_high { map (high (Bent steps)) (neg_ℤ (pos 7) ∷ neg_ℤ (pos 1) ∷ pos 0 ∷ pos 1 ∷ pos 9
        ∷ pos 10 ∷ pos 11 ∷ []) ≡ pos 0 ∷ pos 0 ∷ pos 5 ∷ pos 5 ∷ pos 5 ∷ pos 20 ∷ pos 20 ∷ [] }
    ensures rising_low { map (low (Bent rising_steps)) (neg_ℤ (pos 9) ∷ neg_ℤ (pos 5) ∷ neg_ℤ (pos 4) ∷ pos 0
        ∷ pos 1 ∷ pos 2 ∷ pos 5 ∷ pos 9 ∷ pos 10 ∷ pos 11 ∷ pos 12 ∷ pos 15 ∷ []) ≡ neg_ℤ (pos 3) ∷ pos 1
        ∷ pos 1 ∷ pos 3 ∷ pos 3 ∷ pos 4 ∷ pos 4 ∷ pos 4 ∷ pos 12 ∷ pos 21 ∷ pos 30 ∷ pos 56 ∷ [] }
    ensures rising_high { map (high (Bent rising_steps)) (neg_ℤ (pos 9) ∷ neg_ℤ (pos 5) ∷ neg_ℤ (pos 4) ∷ pos 0
        ∷ pos 1 ∷ pos 2 ∷ pos 5 ∷ pos 9 ∷ pos 10 ∷ pos 11 ∷ pos 12 ∷ pos 15 ∷ []) ≡ neg_ℤ (pos 3) ∷ pos 1
        ∷ pos 2 ∷ pos 4 ∷ pos 4 ∷ pos 4 ∷ pos 4 ∷ pos 4 ∷ pos 13 ∷ pos 22 ∷ pos 30 ∷ pos 56 ∷ [] }
    ensures last_low { map (low (Bent last_step)) (neg_ℤ (pos 9) ∷ neg_ℤ (pos 5) ∷ neg_ℤ (pos 4) ∷ pos 0
        ∷ pos 1 ∷ pos 2 ∷ pos 5 ∷ []) ≡ neg_ℤ (pos 7) ∷ neg_ℤ (pos 3) ∷ neg_ℤ (pos 2) ∷ pos 2 ∷ pos 3 ∷ pos 9
        ∷ pos 9 ∷ [] }
    ensures last_high { map (high (Bent last_step)) (neg_ℤ (pos 9) ∷ neg_ℤ (pos 5) ∷ neg_ℤ (pos 4) ∷ pos 0
        ∷ pos 1 ∷ pos 2 ∷ pos 5 ∷ []) ≡ neg_ℤ (pos 7) ∷ neg_ℤ (pos 3) ∷ neg_ℤ (pos 2) ∷ pos 2 ∷ pos 3 ∷ pos 9
        ∷ pos 9 ∷ [] }
{}

/// The volume of a tank at some levels, cut to volume ticks.
pub fn volumes()
    ensures { map (volume_at volume_points) (pos 0 ∷ pos 1 ∷ pos 40000000000000 ∷ pos 40000000000001
        ∷ pos 50000000000000 ∷ pos 73000000000000 ∷ pos 100000000000000 ∷ []) ≡ pos 0 ∷ pos 0
        ∷ pos 400000000000 ∷ pos 400000000000 ∷ pos 500000000000 ∷ pos 1190000000000 ∷ pos 2000000000000 ∷ [] }
{}

/// A pump's curve is none of a valve, nor the other way round, and one of three points is too short for a pump.
pub fn ranges()
    ensures pump { IsPumpCurve pump_points }
    ensures valve { IsLossCurve valve_points }
    ensures tank { IsVolumeCurve volume_points }
    ensures no_pump { IsPumpCurve valve_points → ⊥ }
    ensures no_valve { IsLossCurve pump_points → ⊥ }
{}

/// A pump whose curve has four points, at its speed, at half of it and at a third of it, where its knots are cut to
/// whole ticks, and one that is closed.
pub fn pumps()
    ensures full_low { map (low (running (pos 1000000000))) along_pump ≡ pos 0 ∷ pos 0 ∷ pos 5000000000
        ∷ pos 23333333333 ∷ pos 23333333333 ∷ pos 30000000000 ∷ pos 33333333333 ∷ pos 66696666666666 ∷ [] }
    ensures full_high { map (high (running (pos 1000000000))) along_pump ≡ pos 0 ∷ pos 0 ∷ pos 5000000000
        ∷ pos 23333333334 ∷ pos 23333333334 ∷ pos 30000000000 ∷ pos 33333333334 ∷ pos 66696666666667 ∷ [] }
    ensures half_low { map (low (running (pos 500000000))) along_pump ≡ pos 0 ∷ pos 0 ∷ pos 0 ∷ pos 0 ∷ pos 0
        ∷ pos 15000000000 ∷ pos 21666666666 ∷ pos 133348333333333 ∷ [] }
    ensures half_high { map (high (running (pos 500000000))) along_pump ≡ pos 0 ∷ pos 0 ∷ pos 0 ∷ pos 0 ∷ pos 1
        ∷ pos 15000000000 ∷ pos 21666666667 ∷ pos 133348333333334 ∷ [] }
    ensures third_low { map (low (running (pos 333333333))) along_slow_pump ≡ pos 0 ∷ pos 0 ∷ pos 0 ∷ pos 0
        ∷ pos 7999999987 ∷ pos 9999999990 ∷ pos 9999999990 ∷ [] }
    ensures third_high { map (high (running (pos 333333333))) along_slow_pump ≡ pos 0 ∷ pos 0 ∷ pos 0 ∷ pos 1
        ∷ pos 7999999988 ∷ pos 9999999990 ∷ pos 9999999991 ∷ [] }
    ensures closed_low { map (low (own_law false bends (CurvePump 0 None) Closed)) along_pump ≡ pos 0 ∷ pos 0
        ∷ pos 0 ∷ pos 0 ∷ pos 0 ∷ pos 0 ∷ pos 0 ∷ pos 0 ∷ [] }
    ensures closed_high { map (high (own_law false bends (CurvePump 0 None) Closed)) along_pump ≡ pos 0 ∷ pos 0
        ∷ pos 0 ∷ pos 0 ∷ pos 0 ∷ pos 0 ∷ pos 0 ∷ pos 0 ∷ [] }
{}

/// At a head of 10 m the pump passes 7000 / 3 cubic metres a day, exactly and at a finer scale.
pub fn pump_flows()
    ensures at_least { flow_at_least (running (pos 1000000000)) 3 (neg_ℤ (pos 300000000000000)) (pos 70000000000) }
    ensures at_most { flow_at_most (running (pos 1000000000)) 3 (neg_ℤ (pos 300000000000000)) (pos 70000000000) }
    ensures no_more { flow_at_least (running (pos 1000000000)) 3 (neg_ℤ (pos 300000000000000)) (pos 70000000001) → ⊥ }
    ensures no_less { flow_at_most (running (pos 1000000000)) 3 (neg_ℤ (pos 300000000000000)) (pos 69999999999) → ⊥ }
    ensures none { flow_at_most (running (pos 500000000)) 1 (neg_ℤ (pos 100000000000000)) (pos 0) }
{}

/// Status words of the pump, at its speed and at half of it.
pub fn pump_statuses()
    ensures full { map (status_of false bends (CurvePump 0 None) (Speed (pos 1000000000))) intervals ≡ IsOpen
        ∷ IsOpen ∷ IsOpen ∷ IsClosed ∷ Unsure ∷ IsClosed ∷ [] }
    ensures half { map (status_of false bends (CurvePump 0 None) (Speed (pos 500000000))) intervals
        ≡ IsClosed ∷ Unsure ∷ IsOpen ∷ IsClosed ∷ Unsure ∷ IsClosed ∷ [] }
    ensures closed { map (status_of false bends (CurvePump 0 None) Closed) intervals
        ≡ IsClosed ∷ IsClosed ∷ IsClosed ∷ IsClosed ∷ IsClosed ∷ IsClosed ∷ [] }
{}

/// A general purpose valve whose curve has three points, open and closed.
pub fn valves()
    ensures open_low { map (low (own_law false bends (Gpv 1) Open)) along_valve ≡ neg_ℤ (pos 3666666667)
        ∷ neg_ℤ (pos 2000000000) ∷ neg_ℤ (pos 1000000001) ∷ neg_ℤ (pos 1) ∷ pos 0 ∷ pos 0 ∷ pos 1000000000
        ∷ pos 1333333333 ∷ pos 2000000000 ∷ pos 2333333333 ∷ [] }
    ensures open_high { map (high (own_law false bends (Gpv 1) Open)) along_valve ≡ neg_ℤ (pos 3666666666)
        ∷ neg_ℤ (pos 2000000000) ∷ neg_ℤ (pos 1000000000) ∷ pos 0 ∷ pos 0 ∷ pos 1 ∷ pos 1000000000
        ∷ pos 1333333334 ∷ pos 2000000000 ∷ pos 2333333334 ∷ [] }
    ensures closed_low { map (low (own_law false bends (Gpv 1) Closed)) along_valve ≡ pos 0 ∷ pos 0 ∷ pos 0
        ∷ pos 0 ∷ pos 0 ∷ pos 0 ∷ pos 0 ∷ pos 0 ∷ pos 0 ∷ pos 0 ∷ [] }
    ensures closed_high { map (high (own_law false bends (Gpv 1) Closed)) along_valve ≡ pos 0 ∷ pos 0 ∷ pos 0
        ∷ pos 0 ∷ pos 0 ∷ pos 0 ∷ pos 0 ∷ pos 0 ∷ pos 0 ∷ pos 0 ∷ [] }
    ensures statuses { map (λ state. map (status_of false bends (Gpv 1) state) intervals) (Open ∷ Closed ∷ [])
        ≡ (IsOpen ∷ IsOpen ∷ IsOpen ∷ IsOpen ∷ IsOpen ∷ IsOpen ∷ []) ∷ (IsClosed ∷ IsClosed ∷ IsClosed
        ∷ IsClosed ∷ IsClosed ∷ IsClosed ∷ []) ∷ [] }
{}

/// Both from one tank to another.
pub fn at_tanks()
    ensures pump_low { (project : Project) → project.bends.list ≡ bends
        → length project.junctions.list ≡ 1 → length project.reservoirs.list ≡ 0
        → HasTanks project false false
        → map (λ tanks. map (low (law_of project tanks (between_tanks (CurvePump 0 None)) (Speed (pos 1000000000))))
        either_way) pairs
        ≡ (pos 0 ∷ pos 0 ∷ []) ∷ (pos 31333333333 ∷ pos 23333333333 ∷ []) ∷ (pos 31333333333 ∷ pos 23333333333
        ∷ []) ∷ (pos 0 ∷ pos 0 ∷ []) ∷ (pos 31333333333 ∷ pos 23333333333 ∷ []) ∷ (pos 31333333333
        ∷ pos 23333333333 ∷ []) ∷ (pos 0 ∷ pos 0 ∷ []) ∷ (pos 0 ∷ pos 0 ∷ []) ∷ (pos 0 ∷ pos 0 ∷ []) ∷ [] }
    ensures pump_high { (project : Project) → project.bends.list ≡ bends
        → length project.junctions.list ≡ 1 → length project.reservoirs.list ≡ 0
        → HasTanks project false false
        → map (λ tanks. map (high (law_of project tanks (between_tanks (CurvePump 0 None)) (Speed (pos 1000000000))))
        either_way) pairs
        ≡ (pos 0 ∷ pos 0 ∷ []) ∷ (pos 31333333334 ∷ pos 23333333334 ∷ []) ∷ (pos 31333333334 ∷ pos 23333333334
        ∷ []) ∷ (pos 0 ∷ pos 0 ∷ []) ∷ (pos 31333333334 ∷ pos 23333333334 ∷ []) ∷ (pos 31333333334
        ∷ pos 23333333334 ∷ []) ∷ (pos 0 ∷ pos 0 ∷ []) ∷ (pos 0 ∷ pos 0 ∷ []) ∷ (pos 0 ∷ pos 0 ∷ []) ∷ [] }
    ensures valve_low { (project : Project) → project.bends.list ≡ bends
        → length project.junctions.list ≡ 1 → length project.reservoirs.list ≡ 0
        → HasTanks project false false
        → map (λ tanks. map (low (law_of project tanks (between_tanks (Gpv 1)) Open)) either_way) pairs
        ≡ (pos 0 ∷ pos 0 ∷ []) ∷ (pos 1333333333 ∷ pos 0 ∷ []) ∷ (pos 1333333333 ∷ pos 0 ∷ []) ∷ (pos 0
        ∷ neg_ℤ (pos 4000000000) ∷ []) ∷ (pos 1333333333 ∷ neg_ℤ (pos 4000000000) ∷ []) ∷ (pos 1333333333
        ∷ pos 0 ∷ []) ∷ (pos 0 ∷ neg_ℤ (pos 4000000000) ∷ []) ∷ (pos 0 ∷ neg_ℤ (pos 4000000000) ∷ []) ∷ (pos 0
        ∷ pos 0 ∷ []) ∷ [] }
    ensures valve_high { (project : Project) → project.bends.list ≡ bends
        → length project.junctions.list ≡ 1 → length project.reservoirs.list ≡ 0
        → HasTanks project false false
        → map (λ tanks. map (high (law_of project tanks (between_tanks (Gpv 1)) Open)) either_way) pairs
        ≡ (pos 0 ∷ pos 0 ∷ []) ∷ (pos 1333333334 ∷ pos 0 ∷ []) ∷ (pos 1333333334 ∷ pos 0 ∷ []) ∷ (pos 0
        ∷ neg_ℤ (pos 4000000000) ∷ []) ∷ (pos 1333333334 ∷ neg_ℤ (pos 4000000000) ∷ []) ∷ (pos 1333333334
        ∷ pos 0 ∷ []) ∷ (pos 0 ∷ neg_ℤ (pos 4000000000) ∷ []) ∷ (pos 0 ∷ neg_ℤ (pos 4000000000) ∷ []) ∷ (pos 0
        ∷ pos 0 ∷ []) ∷ [] }
{}
