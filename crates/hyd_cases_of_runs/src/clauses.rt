//! Clauses of rules, where all that they look at is known as intervals: true, false or open.
#![tactic(auto)]

ghost use Rattle.std.specs.Prelude.{◌≡◌, pos, neg_ℤ, [], ◌∷◌, map};
ghost use Rattle.hyd_spec.specs.ProgramTypes.{Project, Less, NotMore, More, NotLess, Equal, Unequal, Pressure, Setting};
ghost use Rattle.hyd_spec.specs.ProgramTypes.{Status, Time, Clock, ValueOpen, ValueClosed, ValueActive};
ghost use Rattle.hyd_spec_certificates.specs.declared.Verdict.TheVariants.{Yes, No, Unknown};
ghost use Rattle.hyd_spec_certificates.specs.PeriodNetwork.{grid_links};
ghost use Rattle.hyd_spec_certificates.specs.Decided.{links_at, flow_boxes, inflow_boxes, rule_truths};
ghost use Rattle.hyd_cases_of_runs.specs.TwoTankTown.{IsTown, numbers, amount};
ghost use Rattle.hyd_cases_of_runs.specs.TwoTankTownPeriods.{standing_at_start, standing_at_two, standing_when_full};
ghost use Rattle.hyd_cases_of_runs.specs.TwoTankTownPeriods.{standing_at_three, row_at_two};
ghost use Rattle.hyd_cases_of_runs.specs.Hamlet.{IsHamlet, hamlet, pounds_12_9, pounds_4_3, pounds_4_333};
ghost use Rattle.hyd_cases_of_runs.specs.Hamlet.{pounds_12_999};
ghost use Rattle.hyd_cases_of_runs.specs.Hamlet.{grid_at_start, row_at_start};
ghost use Rattle.hyd_cases_of_runs.specs.Hamlet.{standing_at_start as hamlet_start};
ghost use Rattle.hyd_cases_of_runs.specs.Clauses.{hamlet_truth, truth_at_two, town_truth, town_row, town_standing};
ghost use Rattle.hyd_cases_of_runs.specs.Clauses.{hamlet_row, hamlet_standing, metres_34_9923185, metres_4_9965};
ghost use Rattle.hyd_cases_of_runs.specs.Clauses.{heads_about_12_9, heads_about_12_999, levels_about_4_3};
ghost use Rattle.hyd_cases_of_runs.specs.Clauses.{levels_about_4_333, heads_about_34_9923185, levels_about_4_9965};

/// There is such a hamlet.
pub fn hamlets()
    ensures { IsHamlet hamlet }
{}

/// The boxes of the hamlet.
pub fn boxes()
    ensures links { (project : Project) → IsHamlet project
        → grid_links project hamlet_start.tanks project.links.list (links_at project hamlet_start)
        ≡ grid_at_start.links }
    ensures flows { flow_boxes grid_at_start row_at_start
        ≡ record { lo = pos 5450992958; hi = pos 5450992978 } ∷ record {
          lo = pos 3270593095;
          hi = pos 3270601143;
        } ∷ [] }
    ensures inflow { (project : Project) → IsHamlet project
        → inflow_boxes project grid_at_start row_at_start ≡ record { lo = pos 2180391815; hi = pos 2180399883 } ∷ [] }
{}

/// A pressure of a junction about 12.9 pounds a square inch, which lies between two ticks.
pub fn pounds()
    ensures less { (project : Project) → IsHamlet project
        → map (λ heads. hamlet_truth project hamlet_start (hamlet_row heads) (Pressure 0) Less pounds_12_9)
        heads_about_12_9
        ≡ Yes ∷ Yes ∷ Unknown ∷ No ∷ No ∷ [] }
    ensures at_most { (project : Project) → IsHamlet project
        → map (λ heads. hamlet_truth project hamlet_start (hamlet_row heads) (Pressure 0) NotMore pounds_12_9)
        heads_about_12_9
        ≡ Yes ∷ Yes ∷ Unknown ∷ No ∷ No ∷ [] }
    ensures more { (project : Project) → IsHamlet project
        → map (λ heads. hamlet_truth project hamlet_start (hamlet_row heads) (Pressure 0) More pounds_12_9)
        heads_about_12_9
        ≡ No ∷ No ∷ Unknown ∷ Yes ∷ Yes ∷ [] }
    ensures at_least { (project : Project) → IsHamlet project
        → map (λ heads. hamlet_truth project hamlet_start (hamlet_row heads) (Pressure 0) NotLess pounds_12_9)
        heads_about_12_9
        ≡ No ∷ No ∷ Unknown ∷ Yes ∷ Yes ∷ [] }
{}

/// A pressure of a junction about 12.999 pounds a square inch, which is a whole number of ticks.
pub fn whole_pounds()
    ensures less { (project : Project) → IsHamlet project
        → map (λ heads. hamlet_truth project hamlet_start (hamlet_row heads) (Pressure 0) Less pounds_12_999)
        heads_about_12_999
        ≡ Yes ∷ Unknown ∷ No ∷ No ∷ Unknown ∷ No ∷ [] }
    ensures at_most { (project : Project) → IsHamlet project
        → map (λ heads. hamlet_truth project hamlet_start (hamlet_row heads) (Pressure 0) NotMore pounds_12_999)
        heads_about_12_999
        ≡ Yes ∷ Yes ∷ Yes ∷ Unknown ∷ Unknown ∷ No ∷ [] }
    ensures more { (project : Project) → IsHamlet project
        → map (λ heads. hamlet_truth project hamlet_start (hamlet_row heads) (Pressure 0) More pounds_12_999)
        heads_about_12_999
        ≡ No ∷ No ∷ No ∷ Unknown ∷ Unknown ∷ Yes ∷ [] }
    ensures at_least { (project : Project) → IsHamlet project
        → map (λ heads. hamlet_truth project hamlet_start (hamlet_row heads) (Pressure 0) NotLess pounds_12_999)
        heads_about_12_999
        ≡ No ∷ Unknown ∷ Yes ∷ Yes ∷ Unknown ∷ Yes ∷ [] }
{}

/// A pressure of a tank about 4.3 pounds a square inch, which lies between two ticks.
pub fn tank_pounds()
    ensures less { (project : Project) → IsHamlet project
        → map (λ level. hamlet_truth project (hamlet_standing level) row_at_start (Pressure 2) Less pounds_4_3)
        levels_about_4_3
        ≡ Yes ∷ Yes ∷ Unknown ∷ Unknown ∷ No ∷ No ∷ Unknown ∷ [] }
    ensures at_most { (project : Project) → IsHamlet project
        → map (λ level. hamlet_truth project (hamlet_standing level) row_at_start (Pressure 2) NotMore pounds_4_3)
        levels_about_4_3
        ≡ Yes ∷ Yes ∷ Unknown ∷ Unknown ∷ No ∷ No ∷ Unknown ∷ [] }
    ensures more { (project : Project) → IsHamlet project
        → map (λ level. hamlet_truth project (hamlet_standing level) row_at_start (Pressure 2) More pounds_4_3)
        levels_about_4_3
        ≡ No ∷ No ∷ Unknown ∷ Unknown ∷ Yes ∷ Yes ∷ Unknown ∷ [] }
    ensures at_least { (project : Project) → IsHamlet project
        → map (λ level. hamlet_truth project (hamlet_standing level) row_at_start (Pressure 2) NotLess pounds_4_3)
        levels_about_4_3
        ≡ No ∷ No ∷ Unknown ∷ Unknown ∷ Yes ∷ Yes ∷ Unknown ∷ [] }
{}

/// A pressure of a tank about 4.333 pounds a square inch, which is a whole number of ticks.
pub fn tank_whole_pounds()
    ensures less { (project : Project) → IsHamlet project
        → map (λ level. hamlet_truth project (hamlet_standing level) row_at_start (Pressure 2) Less pounds_4_333)
        levels_about_4_333
        ≡ Yes ∷ Unknown ∷ Unknown ∷ No ∷ No ∷ [] }
    ensures at_most { (project : Project) → IsHamlet project
        → map (λ level. hamlet_truth project (hamlet_standing level) row_at_start (Pressure 2) NotMore pounds_4_333)
        levels_about_4_333
        ≡ Yes ∷ Yes ∷ Unknown ∷ Unknown ∷ No ∷ [] }
    ensures more { (project : Project) → IsHamlet project
        → map (λ level. hamlet_truth project (hamlet_standing level) row_at_start (Pressure 2) More pounds_4_333)
        levels_about_4_333
        ≡ No ∷ No ∷ Unknown ∷ Unknown ∷ Yes ∷ [] }
    ensures at_least { (project : Project) → IsHamlet project
        → map (λ level. hamlet_truth project (hamlet_standing level) row_at_start (Pressure 2) NotLess pounds_4_333)
        levels_about_4_333
        ≡ No ∷ Unknown ∷ Unknown ∷ Yes ∷ Yes ∷ [] }
{}

/// A pressure of a junction about a number of metres.
pub fn metres()
    ensures less { (project : Project) → IsTown project
        → map (λ heads. truth_at_two project standing_at_two (town_row heads) (Pressure 0) Less metres_34_9923185)
        heads_about_34_9923185
        ≡ Yes ∷ Unknown ∷ No ∷ No ∷ Unknown ∷ No ∷ [] }
    ensures at_most { (project : Project) → IsTown project
        → map (λ heads. truth_at_two project standing_at_two (town_row heads) (Pressure 0) NotMore metres_34_9923185)
        heads_about_34_9923185
        ≡ Yes ∷ Yes ∷ Yes ∷ Unknown ∷ Unknown ∷ No ∷ [] }
    ensures more { (project : Project) → IsTown project
        → map (λ heads. truth_at_two project standing_at_two (town_row heads) (Pressure 0) More metres_34_9923185)
        heads_about_34_9923185
        ≡ No ∷ No ∷ No ∷ Unknown ∷ Unknown ∷ Yes ∷ [] }
    ensures at_least { (project : Project) → IsTown project
        → map (λ heads. truth_at_two project standing_at_two (town_row heads) (Pressure 0) NotLess metres_34_9923185)
        heads_about_34_9923185
        ≡ No ∷ Unknown ∷ Yes ∷ Yes ∷ Unknown ∷ Yes ∷ [] }
{}

/// A pressure of a tank about a number of metres.
pub fn tank_metres()
    ensures less { (project : Project) → IsTown project
        → map (λ level. truth_at_two project (town_standing level) row_at_two (Pressure 3) Less metres_4_9965)
        levels_about_4_9965
        ≡ Yes ∷ Unknown ∷ Unknown ∷ No ∷ No ∷ [] }
    ensures at_most { (project : Project) → IsTown project
        → map (λ level. truth_at_two project (town_standing level) row_at_two (Pressure 3) NotMore metres_4_9965)
        levels_about_4_9965
        ≡ Yes ∷ Yes ∷ Unknown ∷ Unknown ∷ No ∷ [] }
    ensures more { (project : Project) → IsTown project
        → map (λ level. truth_at_two project (town_standing level) row_at_two (Pressure 3) More metres_4_9965)
        levels_about_4_9965
        ≡ No ∷ No ∷ Unknown ∷ Unknown ∷ Yes ∷ [] }
    ensures at_least { (project : Project) → IsTown project
        → map (λ level. truth_at_two project (town_standing level) row_at_two (Pressure 3) NotLess metres_4_9965)
        levels_about_4_9965
        ≡ No ∷ Unknown ∷ Unknown ∷ Yes ∷ Yes ∷ [] }
{}

/// The rule of the hamlet at some heads of the junction and levels of the tank.
pub fn rules()
    ensures high { (project : Project) → IsHamlet project
        → map (λ level. rule_truths project grid_at_start (hamlet_standing level) (hamlet_row
        (record { lo = pos 396240000000001; hi = pos 396240000000002 })) 360)
        (record { lo = pos 30402181382335; hi = pos 30402182094386 }
        ∷ record { lo = pos 30222181382334; hi = pos 30222182094385 }
        ∷ record { lo = pos 30170045602735; hi = pos 30170046314786 }
        ∷ record { lo = pos 30170045602735; hi = pos 30170046314787 } ∷ [])
        ≡ (Yes ∷ []) ∷ (No ∷ []) ∷ (Yes ∷ []) ∷ (Unknown ∷ []) ∷ [] }
    ensures edge { (project : Project) → IsHamlet project
        → map (λ level. rule_truths project grid_at_start (hamlet_standing level) (hamlet_row
        (record { lo = pos 396240000000000; hi = pos 396240000000001 })) 360)
        (record { lo = pos 30402181382335; hi = pos 30402182094386 }
        ∷ record { lo = pos 30222181382334; hi = pos 30222182094385 }
        ∷ record { lo = pos 30170045602735; hi = pos 30170046314786 }
        ∷ record { lo = pos 30170045602735; hi = pos 30170046314787 } ∷ [])
        ≡ (Unknown ∷ []) ∷ (No ∷ []) ∷ (Unknown ∷ []) ∷ (Unknown ∷ []) ∷ [] }
    ensures low { (project : Project) → IsHamlet project
        → map (λ level. rule_truths project grid_at_start (hamlet_standing level) (hamlet_row
        (record { lo = pos 395543595661204; hi = pos 395543595661204 })) 360)
        (record { lo = pos 30402181382335; hi = pos 30402182094386 }
        ∷ record { lo = pos 30222181382334; hi = pos 30222182094385 }
        ∷ record { lo = pos 30170045602735; hi = pos 30170046314786 }
        ∷ record { lo = pos 30170045602735; hi = pos 30170046314787 } ∷ [])
        ≡ (No ∷ []) ∷ (No ∷ []) ∷ (No ∷ []) ∷ (No ∷ []) ∷ [] }
{}

/// Settings of a running pump, of a valve with a setting, of an open valve and of a throttle valve.
pub fn settings()
    ensures pump_less { (project : Project) → IsTown project
        → map (λ nano. town_truth project standing_at_three 0 (Setting 0) Less (amount nano))
        (pos 899999999 ∷ pos 900000000
        ∷ pos 900000001 ∷ [])
        ≡ No ∷ No ∷ Yes ∷ [] }
    ensures pump_at_most { (project : Project) → IsTown project
        → map (λ nano. town_truth project standing_at_three 0 (Setting 0) NotMore (amount nano))
        (pos 899999999 ∷ pos 900000000
        ∷ pos 900000001 ∷ [])
        ≡ No ∷ Yes ∷ Yes ∷ [] }
    ensures pump_more { (project : Project) → IsTown project
        → map (λ nano. town_truth project standing_at_three 0 (Setting 0) More (amount nano))
        (pos 899999999 ∷ pos 900000000
        ∷ pos 900000001 ∷ [])
        ≡ Yes ∷ No ∷ No ∷ [] }
    ensures pump_at_least { (project : Project) → IsTown project
        → map (λ nano. town_truth project standing_at_three 0 (Setting 0) NotLess (amount nano))
        (pos 899999999 ∷ pos 900000000
        ∷ pos 900000001 ∷ [])
        ≡ Yes ∷ Yes ∷ No ∷ [] }
    ensures valve_less { (project : Project) → IsTown project
        → map (λ nano. town_truth project standing_at_three 0 (Setting 1) Less (amount nano)) (pos 1399999999999
        ∷ pos 1400000000000 ∷ pos 1400000000001 ∷ [])
        ≡ No ∷ No ∷ Yes ∷ [] }
    ensures valve_at_most { (project : Project) → IsTown project
        → map (λ nano. town_truth project standing_at_three 0 (Setting 1) NotMore (amount nano)) (pos 1399999999999
        ∷ pos 1400000000000 ∷ pos 1400000000001 ∷ [])
        ≡ No ∷ Yes ∷ Yes ∷ [] }
    ensures valve_more { (project : Project) → IsTown project
        → map (λ nano. town_truth project standing_at_three 0 (Setting 1) More (amount nano)) (pos 1399999999999
        ∷ pos 1400000000000 ∷ pos 1400000000001 ∷ [])
        ≡ Yes ∷ No ∷ No ∷ [] }
    ensures valve_at_least { (project : Project) → IsTown project
        → map (λ nano. town_truth project standing_at_three 0 (Setting 1) NotLess (amount nano)) (pos 1399999999999
        ∷ pos 1400000000000 ∷ pos 1400000000001 ∷ [])
        ≡ Yes ∷ Yes ∷ No ∷ [] }
    ensures opened_less { (project : Project) → IsTown project
        → map (λ nano. town_truth project standing_at_three 0 (Setting 2) Less (amount nano))
        (neg_ℤ (pos 1) ∷ pos 0 ∷ pos 1
        ∷ [])
        ≡ No ∷ No ∷ Yes ∷ [] }
    ensures opened_at_most { (project : Project) → IsTown project
        → map (λ nano. town_truth project standing_at_three 0 (Setting 2) NotMore (amount nano))
        (neg_ℤ (pos 1) ∷ pos 0 ∷ pos 1
        ∷ [])
        ≡ No ∷ Yes ∷ Yes ∷ [] }
    ensures opened_more { (project : Project) → IsTown project
        → map (λ nano. town_truth project standing_at_three 0 (Setting 2) More (amount nano))
        (neg_ℤ (pos 1) ∷ pos 0 ∷ pos 1
        ∷ [])
        ≡ Yes ∷ No ∷ No ∷ [] }
    ensures opened_at_least { (project : Project) → IsTown project
        → map (λ nano. town_truth project standing_at_three 0 (Setting 2) NotLess (amount nano))
        (neg_ℤ (pos 1) ∷ pos 0 ∷ pos 1
        ∷ [])
        ≡ Yes ∷ Yes ∷ No ∷ [] }
    ensures unthrottled { (project : Project) → IsTown project
        → map (λ nano. town_truth project standing_when_full 0 (Setting 4) NotMore (amount nano)) (neg_ℤ (pos 1) ∷ pos 0
        ∷ pos 1 ∷ [])
        ≡ No ∷ Yes ∷ Yes ∷ [] }
{}

/// Statuses of a running pump, valves with a setting and an open valve, and of a closed pump, a closed and a throttled
/// valve.
pub fn statuses()
    ensures at_three_equal_open { (project : Project) → IsTown project
        → map (λ link. town_truth project standing_at_three 0 (Status link) Equal ValueOpen) numbers
        ≡ Yes ∷ No ∷ Yes ∷ No ∷ Yes ∷ [] }
    ensures at_three_unequal_open { (project : Project) → IsTown project
        → map (λ link. town_truth project standing_at_three 0 (Status link) Unequal ValueOpen) numbers
        ≡ No ∷ Yes ∷ No ∷ Yes ∷ No ∷ [] }
    ensures at_three_equal_closed { (project : Project) → IsTown project
        → map (λ link. town_truth project standing_at_three 0 (Status link) Equal ValueClosed) numbers
        ≡ No ∷ No ∷ No ∷ No ∷ No ∷ [] }
    ensures at_three_unequal_closed { (project : Project) → IsTown project
        → map (λ link. town_truth project standing_at_three 0 (Status link) Unequal ValueClosed) numbers
        ≡ Yes ∷ Yes ∷ Yes ∷ Yes ∷ Yes ∷ [] }
    ensures at_three_equal_active { (project : Project) → IsTown project
        → map (λ link. town_truth project standing_at_three 0 (Status link) Equal ValueActive) numbers
        ≡ No ∷ Yes ∷ No ∷ Yes ∷ No ∷ [] }
    ensures at_three_unequal_active { (project : Project) → IsTown project
        → map (λ link. town_truth project standing_at_three 0 (Status link) Unequal ValueActive) numbers
        ≡ Yes ∷ No ∷ Yes ∷ No ∷ Yes ∷ [] }
    ensures when_full_equal_open { (project : Project) → IsTown project
        → map (λ link. town_truth project standing_when_full 0 (Status link) Equal ValueOpen) numbers
        ≡ No ∷ No ∷ Yes ∷ No ∷ No ∷ [] }
    ensures when_full_equal_closed { (project : Project) → IsTown project
        → map (λ link. town_truth project standing_when_full 0 (Status link) Equal ValueClosed) numbers
        ≡ Yes ∷ Yes ∷ No ∷ No ∷ No ∷ [] }
    ensures when_full_equal_active { (project : Project) → IsTown project
        → map (λ link. town_truth project standing_when_full 0 (Status link) Equal ValueActive) numbers
        ≡ No ∷ No ∷ No ∷ Yes ∷ Yes ∷ [] }
{}

/// The time about 2:00, with a rule step of six minutes.
pub fn times()
    ensures less { (project : Project) → IsTown project
        → map (λ seconds. town_truth project standing_at_start seconds Time Less (amount (pos 7200)))
        (7199 ∷ 7200 ∷ 7201
        ∷ 7559 ∷ 7560 ∷ [])
        ≡ Yes ∷ No ∷ No ∷ No ∷ No ∷ [] }
    ensures at_most { (project : Project) → IsTown project
        → map (λ seconds. town_truth project standing_at_start seconds Time NotMore (amount (pos 7200)))
        (7199 ∷ 7200 ∷ 7201
        ∷ 7559 ∷ 7560 ∷ [])
        ≡ Yes ∷ Yes ∷ No ∷ No ∷ No ∷ [] }
    ensures more { (project : Project) → IsTown project
        → map (λ seconds. town_truth project standing_at_start seconds Time More (amount (pos 7200)))
        (7199 ∷ 7200 ∷ 7201
        ∷ 7559 ∷ 7560 ∷ [])
        ≡ No ∷ No ∷ Yes ∷ Yes ∷ Yes ∷ [] }
    ensures at_least { (project : Project) → IsTown project
        → map (λ seconds. town_truth project standing_at_start seconds Time NotLess (amount (pos 7200)))
        (7199 ∷ 7200 ∷ 7201
        ∷ 7559 ∷ 7560 ∷ [])
        ≡ No ∷ Yes ∷ Yes ∷ Yes ∷ Yes ∷ [] }
    ensures equal { (project : Project) → IsTown project
        → map (λ seconds. town_truth project standing_at_start seconds Time Equal (amount (pos 7200)))
        (7199 ∷ 7200 ∷ 7201
        ∷ 7559 ∷ 7560 ∷ [])
        ≡ No ∷ Yes ∷ Yes ∷ Yes ∷ No ∷ [] }
    ensures unequal { (project : Project) → IsTown project
        → map (λ seconds. town_truth project standing_at_start seconds Time Unequal (amount (pos 7200)))
        (7199 ∷ 7200 ∷ 7201
        ∷ 7559 ∷ 7560 ∷ [])
        ≡ Yes ∷ No ∷ No ∷ No ∷ Yes ∷ [] }
    ensures equal_start { (project : Project) → IsTown project
        → map (λ seconds. town_truth project standing_at_start seconds Time Equal (amount (pos 0)))
        (0 ∷ 1 ∷ 359 ∷ 360 ∷ [])
        ≡ Yes ∷ Yes ∷ Yes ∷ No ∷ [] }
    ensures unequal_start { (project : Project) → IsTown project
        → map (λ seconds. town_truth project standing_at_start seconds Time Unequal (amount (pos 0)))
        (0 ∷ 1 ∷ 359 ∷ 360 ∷ [])
        ≡ No ∷ No ∷ No ∷ Yes ∷ [] }
{}

/// The clock, which shows midnight at 1:00, about 0:00:10.
pub fn clock_after()
    ensures less { (project : Project) → IsTown project
        → map (λ seconds. town_truth project standing_at_start seconds Clock Less (amount (pos 10)))
        (3599 ∷ 3600 ∷ 3609 ∷ 3610
        ∷ 3969 ∷ 3970 ∷ [])
        ≡ No ∷ Yes ∷ Yes ∷ No ∷ No ∷ No ∷ [] }
    ensures at_most { (project : Project) → IsTown project
        → map (λ seconds. town_truth project standing_at_start seconds Clock NotMore (amount (pos 10)))
        (3599 ∷ 3600 ∷ 3609
        ∷ 3610 ∷ 3969 ∷ 3970 ∷ [])
        ≡ No ∷ Yes ∷ Yes ∷ Yes ∷ No ∷ No ∷ [] }
    ensures more { (project : Project) → IsTown project
        → map (λ seconds. town_truth project standing_at_start seconds Clock More (amount (pos 10)))
        (3599 ∷ 3600 ∷ 3609 ∷ 3610
        ∷ 3969 ∷ 3970 ∷ [])
        ≡ Yes ∷ No ∷ No ∷ No ∷ Yes ∷ Yes ∷ [] }
    ensures at_least { (project : Project) → IsTown project
        → map (λ seconds. town_truth project standing_at_start seconds Clock NotLess (amount (pos 10)))
        (3599 ∷ 3600 ∷ 3609
        ∷ 3610 ∷ 3969 ∷ 3970 ∷ [])
        ≡ Yes ∷ No ∷ No ∷ Yes ∷ Yes ∷ Yes ∷ [] }
    ensures equal { (project : Project) → IsTown project
        → map (λ seconds. town_truth project standing_at_start seconds Clock Equal (amount (pos 10)))
        (3599 ∷ 3600 ∷ 3609
        ∷ 3610 ∷ 3969 ∷ 3970 ∷ [])
        ≡ No ∷ No ∷ No ∷ Yes ∷ Yes ∷ No ∷ [] }
    ensures unequal { (project : Project) → IsTown project
        → map (λ seconds. town_truth project standing_at_start seconds Clock Unequal (amount (pos 10)))
        (3599 ∷ 3600 ∷ 3609
        ∷ 3610 ∷ 3969 ∷ 3970 ∷ [])
        ≡ Yes ∷ Yes ∷ Yes ∷ No ∷ No ∷ Yes ∷ [] }
{}

/// The same about 23:59:50: a clause that is equal then is so across midnight.
pub fn clock_across()
    ensures less { (project : Project) → IsTown project
        → map (λ seconds. town_truth project standing_at_start seconds Clock Less (amount (pos 86390)))
        (3589 ∷ 3590 ∷ 3599
        ∷ 3600 ∷ 3949 ∷ 3950 ∷ [])
        ≡ Yes ∷ No ∷ No ∷ Yes ∷ Yes ∷ Yes ∷ [] }
    ensures at_most { (project : Project) → IsTown project
        → map (λ seconds. town_truth project standing_at_start seconds Clock NotMore (amount (pos 86390)))
        (3589 ∷ 3590 ∷ 3599
        ∷ 3600 ∷ 3949 ∷ 3950 ∷ [])
        ≡ Yes ∷ Yes ∷ No ∷ Yes ∷ Yes ∷ Yes ∷ [] }
    ensures more { (project : Project) → IsTown project
        → map (λ seconds. town_truth project standing_at_start seconds Clock More (amount (pos 86390)))
        (3589 ∷ 3590 ∷ 3599
        ∷ 3600 ∷ 3949 ∷ 3950 ∷ [])
        ≡ No ∷ No ∷ Yes ∷ No ∷ No ∷ No ∷ [] }
    ensures at_least { (project : Project) → IsTown project
        → map (λ seconds. town_truth project standing_at_start seconds Clock NotLess (amount (pos 86390)))
        (3589 ∷ 3590 ∷ 3599
        ∷ 3600 ∷ 3949 ∷ 3950 ∷ [])
        ≡ No ∷ Yes ∷ Yes ∷ No ∷ No ∷ No ∷ [] }
    ensures equal { (project : Project) → IsTown project
        → map (λ seconds. town_truth project standing_at_start seconds Clock Equal (amount (pos 86390)))
        (3589 ∷ 3590 ∷ 3599
        ∷ 3600 ∷ 3949 ∷ 3950 ∷ [])
        ≡ No ∷ Yes ∷ Yes ∷ Yes ∷ Yes ∷ No ∷ [] }
    ensures unequal { (project : Project) → IsTown project
        → map (λ seconds. town_truth project standing_at_start seconds Clock Unequal (amount (pos 86390)))
        (3589 ∷ 3590 ∷ 3599
        ∷ 3600 ∷ 3949 ∷ 3950 ∷ [])
        ≡ Yes ∷ No ∷ No ∷ No ∷ No ∷ Yes ∷ [] }
{}

/// The same at midnight, and a day later.
pub fn clock_midnight()
    ensures less { (project : Project) → IsTown project
        → map (λ seconds. town_truth project standing_at_start seconds Clock Less (amount (pos 0)))
        (3599 ∷ 3600 ∷ 3959 ∷ 3960
        ∷ 90000 ∷ 90360 ∷ [])
        ≡ No ∷ No ∷ No ∷ No ∷ No ∷ No ∷ [] }
    ensures at_most { (project : Project) → IsTown project
        → map (λ seconds. town_truth project standing_at_start seconds Clock NotMore (amount (pos 0)))
        (3599 ∷ 3600 ∷ 3959
        ∷ 3960 ∷ 90000 ∷ 90360 ∷ [])
        ≡ No ∷ Yes ∷ No ∷ No ∷ Yes ∷ No ∷ [] }
    ensures equal { (project : Project) → IsTown project
        → map (λ seconds. town_truth project standing_at_start seconds Clock Equal (amount (pos 0)))
        (3599 ∷ 3600 ∷ 3959 ∷ 3960
        ∷ 90000 ∷ 90360 ∷ [])
        ≡ No ∷ Yes ∷ Yes ∷ No ∷ Yes ∷ No ∷ [] }
    ensures unequal { (project : Project) → IsTown project
        → map (λ seconds. town_truth project standing_at_start seconds Clock Unequal (amount (pos 0)))
        (3599 ∷ 3600 ∷ 3959
        ∷ 3960 ∷ 90000 ∷ 90360 ∷ [])
        ≡ Yes ∷ No ∷ No ∷ Yes ∷ No ∷ Yes ∷ [] }
{}
