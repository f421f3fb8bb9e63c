//! The end of periods of the town: what is watched, which events come, and the levels that the next period begins with.
#![tactic(auto)]

ghost use Rattle.std.specs.Prelude.{◌≡◌, pos, neg_ℤ, true, false, [], ◌∷◌, map, codes, Some, None};
ghost use Rattle.hyd_spec.specs.ProgramTypes.{Project};
ghost use Rattle.hyd_spec_certificates.specs.declared.Side.TheVariants.{Upper, Lower};
ghost use Rattle.hyd_spec.specs.DemandsHeadsAndPumpLifts.{demand_of, reservoir_head};
ghost use Rattle.hyd_spec_certificates.specs.PeriodNetwork.{grid_links, tank_intervals};
ghost use Rattle.hyd_spec_certificates.specs.Decided.{links_at, flow_boxes, inflow_boxes, watch_of, tank_watches};
ghost use Rattle.hyd_spec_certificates.specs.Decided.{watches, carried_at};
ghost use Rattle.hyd_spec_certificates.specs.Valid.{levels_next, demand_limit};
ghost use Rattle.hyd_spec_certificates.specs.Stops.{open_states, is_open_control};
ghost use Rattle.hyd_spec_certificates.specs.TurnsOfProblems.{beginning};
ghost use Rattle.hyd_spec_certificates.specs.EndsOfPeriods.{tank_events, events_of};
ghost use Rattle.hyd_spec_reports.specs.Report.{event_line};
ghost use Rattle.hyd_spec_certificates.specs.declared.EventKind.TheVariants.{Full as BecomesFull};
ghost use Rattle.hyd_spec_certificates.specs.declared.EventKind.TheVariants.{Empty as BecomesEmpty};
ghost use Rattle.hyd_spec_reports.specs.ReportLine.{FilledLine, EmptiedLine, ReachedLine, line_text};
ghost use Rattle.hyd_cases_of_runs.specs.TwoTankTown.{IsTown};
ghost use Rattle.hyd_cases_of_runs.specs.TwoTankTownPeriods.{standing_at_start, standing_at_two, standing_when_full};
ghost use Rattle.hyd_cases_of_runs.specs.TwoTankTownPeriods.{grid_at_two};
ghost use Rattle.hyd_cases_of_runs.specs.TwoTankTownPeriods.{grid_when_full, row_at_two, row_when_full};

/// The grids are those of the town: links in their states, heads of the reservoir and the tanks, and the demands.
pub fn grids()
    ensures links_at_two { (project : Project) → IsTown project
        → grid_links project standing_at_two.tanks project.links.list (links_at project standing_at_two)
        ≡ grid_at_two.links }
    ensures tanks_at_two { (project : Project) → IsTown project
        → tank_intervals project.tanks.list standing_at_two.levels ≡ grid_at_two.tanks }
    ensures reservoirs_at_two { (project : Project) → IsTown project
        → map (reservoir_head project 7200) project.reservoirs.list ≡ grid_at_two.reservoirs }
    ensures demands_at_two { (project : Project) → IsTown project
        → map (demand_of project 7200) project.junctions.list ≡ pos 3000000000 ∷ pos 8640000000 ∷ [] }
    ensures links_when_full { (project : Project) → IsTown project
        → grid_links project standing_when_full.tanks project.links.list (links_at project standing_when_full)
        ≡ grid_when_full.links }
    ensures tanks_when_full { (project : Project) → IsTown project
        → tank_intervals project.tanks.list standing_when_full.levels ≡ grid_when_full.tanks }
    ensures reservoirs_when_full { (project : Project) → IsTown project
        → map (reservoir_head project 7313) project.reservoirs.list ≡ grid_when_full.reservoirs }
    ensures demands_when_full { (project : Project) → IsTown project
        → map (demand_of project 7313) project.junctions.list ≡ pos 3000000000 ∷ pos 8640000000 ∷ [] }
{}

/// The flow boxes of the links and the inflow boxes of the tanks.
pub fn boxes()
    ensures flows_at_two { flow_boxes grid_at_two row_at_two
        ≡ record { lo = neg_ℤ (pos 10); hi = pos 10 } ∷ record { lo = pos 11639999990; hi = pos 11640000010 }
        ∷ record { lo = neg_ℤ (pos 61713262782); hi = pos 75713269598 }
        ∷ record { lo = pos 3999999990; hi = pos 4000000010 }
        ∷ record { lo = neg_ℤ (pos 63902923815); hi = pos 73182918105 } ∷ [] }
    ensures inflows_at_two { (project : Project) → IsTown project
        → inflow_boxes project grid_at_two row_at_two
        ≡ record { lo = pos 4639992558; hi = pos 4640000626 }
        ∷ record { lo = neg_ℤ (pos 4640001169); hi = neg_ℤ (pos 4639993121) } ∷ [] }
    ensures flows_when_full { flow_boxes grid_when_full row_when_full
        ≡ record { lo = neg_ℤ (pos 10); hi = pos 10 } ∷ record { lo = neg_ℤ (pos 10); hi = pos 10 }
        ∷ record { lo = pos 11999995512; hi = pos 12000003559 } ∷ record { lo = pos 8999999990; hi = pos 9000000010 }
        ∷ record { lo = neg_ℤ (pos 360003007); hi = neg_ℤ (pos 359994959) } ∷ [] }
    ensures inflows_when_full { (project : Project) → IsTown project
        → inflow_boxes project grid_when_full row_when_full
        ≡ record { lo = neg_ℤ (pos 12000003569); hi = neg_ℤ (pos 11999995502) }
        ∷ record { lo = pos 359994959; hi = pos 360003007 } ∷ [] }
{}

/// Tanks are watched for the bounds at which they don't stand.
pub fn tank_watched()
    ensures at_start { (project : Project) → IsTown project
        → tank_watches 0 project.tanks.list standing_at_start.tanks
        ≡ record { tank = 0; target = pos 50000000000000; rising = true }
        ∷ record { tank = 0; target = pos 10000000000000; rising = false }
        ∷ record { tank = 1; target = pos 40000000000000; rising = true }
        ∷ record { tank = 1; target = pos 15000000000000; rising = false } ∷ [] }
    ensures at_two { (project : Project) → IsTown project
        → tank_watches 0 project.tanks.list standing_at_two.tanks
        ≡ record { tank = 0; target = pos 50000000000000; rising = true }
        ∷ record { tank = 0; target = pos 10000000000000; rising = false }
        ∷ record { tank = 1; target = pos 40000000000000; rising = true }
        ∷ record { tank = 1; target = pos 15000000000000; rising = false } ∷ [] }
    ensures when_full { (project : Project) → IsTown project
        → tank_watches 0 project.tanks.list standing_when_full.tanks
        ≡ record { tank = 0; target = pos 10000000000000; rising = false }
        ∷ record { tank = 1; target = pos 40000000000000; rising = true } ∷ [] }
{}

/// Level controls are watched for their levels where they don't hold.
pub fn control_watched()
    ensures at_start { (project : Project) → IsTown project
        → map (watch_of standing_at_start.levels) project.controls.list
        ≡ None ∷ None ∷ Some (record { tank = 1; target = pos 15000000000000; rising = false })
        ∷ Some (record { tank = 0; target = pos 50000000000000; rising = true }) ∷ None ∷ [] }
    ensures at_two { (project : Project) → IsTown project
        → map (watch_of standing_at_two.levels) project.controls.list
        ≡ None ∷ None ∷ Some (record { tank = 1; target = pos 15000000000000; rising = false })
        ∷ Some (record { tank = 0; target = pos 50000000000000; rising = true }) ∷ None ∷ [] }
    ensures when_full { (project : Project) → IsTown project
        → map (watch_of standing_when_full.levels) project.controls.list ≡ None ∷ None ∷ None ∷ None ∷ None ∷ [] }
{}

/// All that is watched in a period.
pub fn watched()
    ensures at_start { (project : Project) → IsTown project
        → watches project standing_at_start
        ≡ record { tank = 0; target = pos 50000000000000; rising = true }
        ∷ record { tank = 0; target = pos 10000000000000; rising = false }
        ∷ record { tank = 1; target = pos 40000000000000; rising = true }
        ∷ record { tank = 1; target = pos 15000000000000; rising = false }
        ∷ record { tank = 1; target = pos 15000000000000; rising = false }
        ∷ record { tank = 0; target = pos 50000000000000; rising = true } ∷ [] }
    ensures at_two { (project : Project) → IsTown project
        → watches project standing_at_two
        ≡ record { tank = 0; target = pos 50000000000000; rising = true }
        ∷ record { tank = 0; target = pos 10000000000000; rising = false }
        ∷ record { tank = 1; target = pos 40000000000000; rising = true }
        ∷ record { tank = 1; target = pos 15000000000000; rising = false }
        ∷ record { tank = 1; target = pos 15000000000000; rising = false }
        ∷ record { tank = 0; target = pos 50000000000000; rising = true } ∷ [] }
    ensures when_full { (project : Project) → IsTown project
        → watches project standing_when_full
        ≡ record { tank = 0; target = pos 10000000000000; rising = false }
        ∷ record { tank = 1; target = pos 40000000000000; rising = true } ∷ [] }
{}

/// The carried level intervals some seconds after the start.
pub fn carried()
    ensures at_two_60 { (project : Project) → IsTown project
        → carried_at project grid_at_two standing_at_two row_at_two 60
        ≡ record { lo = pos 49964211551183; hi = pos 49964220182977 }
        ∷ record { lo = pos 15035779236082; hi = pos 15035787846477 } ∷ [] }
    ensures at_two_112 { (project : Project) → IsTown project
        → carried_at project grid_at_two standing_at_two row_at_two 112
        ≡ record { lo = pos 49999767887362; hi = pos 49999776580981 }
        ∷ record { lo = pos 15000222833916; hi = pos 15000231505983 } ∷ [] }
    ensures at_two_113 { (project : Project) → IsTown project
        → carried_at project grid_at_two standing_at_two row_at_two 113
        ≡ record { lo = pos 50000000000000; hi = pos 50000000000000 }
        ∷ record { lo = pos 15000000000000; hi = pos 15000000000000 } ∷ [] }
    ensures when_full_247 { (project : Project) → IsTown project
        → carried_at project grid_when_full standing_when_full row_when_full 247
        ≡ record { lo = pos 49563207970773; hi = pos 49563208264407 }
        ∷ record { lo = pos 15013103573490; hi = pos 15013103866433 } ∷ [] }
    ensures when_full_1327 { (project : Project) → IsTown project
        → carried_at project grid_when_full standing_when_full row_when_full 1327
        ≡ record { lo = pos 47653348085896; hi = pos 47653349663433 }
        ∷ record { lo = pos 15070398550696; hi = pos 15070400124517 } ∷ [] }
{}

/// The tanks that became full or empty, at the carried levels.
pub fn tanks()
    ensures at_two_112 { (project : Project) → IsTown project
        → tank_events 0 project.tanks.list standing_at_two.tanks (carried_at project grid_at_two standing_at_two
        row_at_two 112)
        ≡ [] }
    ensures at_two_113 { (project : Project) → IsTown project
        → tank_events 0 project.tanks.list standing_at_two.tanks (carried_at project grid_at_two standing_at_two
        row_at_two 113)
        ≡ record { tank = 0; what = BecomesFull } ∷ record { tank = 1; what = BecomesEmpty } ∷ [] }
    ensures when_full_1327 { (project : Project) → IsTown project
        → tank_events 0 project.tanks.list standing_when_full.tanks
        (carried_at project grid_when_full standing_when_full row_when_full 1327)
        ≡ [] }
{}

/// The lines of the events at the end of a period, and their texts.
pub fn lines()
    ensures at_two { (project : Project) → IsTown project
        → map (event_line 7313) (events_of project grid_at_two standing_at_two row_at_two)
        ≡ FilledLine 7313 0 ∷ EmptiedLine 7313 1 ∷ ReachedLine 7313 1 2 ∷ ReachedLine 7313 0 3 ∷ [] }
    ensures when_full { (project : Project) → IsTown project
        → map (event_line 8640) (events_of project grid_when_full standing_when_full row_when_full) ≡ [] }
    ensures before { (project : Project) → IsTown project
        → map (event_line 7312) (events_of project grid_at_two standing_at_two (record row_at_two { length = 112 }))
        ≡ [] }
    ensures text_at_two { (project : Project) → IsTown project
        → map (line_text project) (map (event_line 7313) (events_of project grid_at_two standing_at_two row_at_two))
        ≡ codes "EVENT 2:01:53 TANK NORTH FULL\n" ∷ codes "EVENT 2:01:53 TANK SOUTH EMPTY\n"
        ∷ codes "EVENT 2:01:53 TANK SOUTH CONTROL 3\n" ∷ codes "EVENT 2:01:53 TANK NORTH CONTROL 4\n" ∷ [] }
{}

/// The level intervals of the next period.
pub fn next()
    ensures at_two_60 { (project : Project) → IsTown project
        → levels_next project grid_at_two standing_at_two row_at_two 60
        ≡ record { lo = pos 49964211551173; hi = pos 49964220182987 }
        ∷ record { lo = pos 15035779236072; hi = pos 15035787846487 } ∷ [] }
    ensures at_two_113 { (project : Project) → IsTown project
        → levels_next project grid_at_two standing_at_two row_at_two 113
        ≡ record { lo = pos 50000000000000; hi = pos 50000000000000 }
        ∷ record { lo = pos 15000000000000; hi = pos 15000000000000 } ∷ [] }
    ensures when_full_1327 { (project : Project) → IsTown project
        → levels_next project grid_when_full standing_when_full row_when_full 1327
        ≡ record { lo = pos 47653348085886; hi = pos 47653349663443 }
        ∷ record { lo = pos 15070398550686; hi = pos 15070400124527 } ∷ [] }
{}

/// Which tanks have an open state at some level intervals.
pub fn open_tanks()
    ensures decided { (project : Project) → IsTown project
        → open_states project (record { lo = pos 50000000000000; hi = pos 50000000000000 }
        ∷ record { lo = pos 15000000000000; hi = pos 15000000000000 } ∷ [])
        ≡ false ∷ false ∷ [] }
    ensures both { (project : Project) → IsTown project
        → open_states project (record { lo = pos 49998475999999; hi = pos 49998476000000 }
        ∷ record { lo = pos 15001524000000; hi = pos 15001524000001 } ∷ [])
        ≡ true ∷ true ∷ [] }
    ensures upper { (project : Project) → IsTown project
        → open_states project (record { lo = pos 49998475999999; hi = pos 50000000000000 }
        ∷ record { lo = pos 15000000000000; hi = pos 15001524000000 } ∷ [])
        ≡ true ∷ false ∷ [] }
    ensures lower { (project : Project) → IsTown project
        → open_states project (record { lo = pos 49998476000000; hi = pos 50000000000000 }
        ∷ record { lo = pos 15000000000000; hi = pos 15001524000001 } ∷ [])
        ≡ false ∷ true ∷ [] }
{}

/// Which controls are open at some level intervals.
pub fn open_controls()
    ensures decided { (project : Project) → IsTown project
        → map (is_open_control (record { lo = pos 50000000000000; hi = pos 50000000000000 }
        ∷ record { lo = pos 15000000000000; hi = pos 15000000000000 } ∷ [])) project.controls.list
        ≡ false ∷ false ∷ false ∷ false ∷ false ∷ [] }
    ensures both { (project : Project) → IsTown project
        → map (is_open_control (record { lo = pos 49999999999999; hi = pos 50000000000000 }
        ∷ record { lo = pos 15000000000000; hi = pos 15000000000001 } ∷ [])) project.controls.list
        ≡ false ∷ false ∷ true ∷ true ∷ false ∷ [] }
    ensures upper { (project : Project) → IsTown project
        → map (is_open_control (record { lo = pos 49999999999990; hi = pos 50000000000000 }
        ∷ record { lo = pos 15000000000000; hi = pos 15000000000000 } ∷ [])) project.controls.list
        ≡ false ∷ false ∷ false ∷ true ∷ false ∷ [] }
    ensures lower { (project : Project) → IsTown project
        → map (is_open_control (record { lo = pos 49999999999990; hi = pos 49999999999999 }
        ∷ record { lo = pos 15000000000000; hi = pos 15000000000010 } ∷ [])) project.controls.list
        ≡ false ∷ false ∷ true ∷ false ∷ false ∷ [] }
{}

/// The vectors from which rounds begin.
pub fn beginnings()
    ensures upper { beginning Upper 2 ≡ neg_ℤ (pos 1000000000000000000) ∷ neg_ℤ (pos 1000000000000000000) ∷ [] }
    ensures lower { beginning Lower 2 ≡ pos 1000000000000000000 ∷ pos 1000000000000000000 ∷ [] }
{}

/// The greatest magnitude of a demand.
pub fn limit()
    ensures { demand_limit ≡ 1000000000000000 }
{}
