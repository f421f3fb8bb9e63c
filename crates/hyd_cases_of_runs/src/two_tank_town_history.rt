//! Periods of a history of the town, at a scale of a thousandth of a tick: levels, what the rules look at, and what
//! they say.
#![tactic(auto)]

ghost use Rattle.std.specs.Prelude.{◌≡◌, pos, neg_ℤ, true, false, [], ◌∷◌, map};
ghost use Rattle.hyd_num.specs.Rational.{whole};
ghost use Rattle.hyd_spec.specs.ProgramTypes.{Project, Open, Closed};
ghost use Rattle.hyd_spec.specs.declared.TankState.TheVariants.{Empty, Between, Full};
ghost use Rattle.hyd_spec.specs.Tank.{tank_inflow};
ghost use Rattle.hyd_spec.specs.PumpPatternsAndSimpleControls.{started, acts_at};
ghost use Rattle.hyd_spec.specs.PeriodLength.{level_at_start, exact_after, readings_after, values_at};
ghost use Rattle.hyd_spec.specs.History.{tank_states, commanded_after};
ghost use Rattle.hyd_cases_of_runs.specs.TwoTankTown.{IsTown, north, south, filling, fast_filling, narrow_main};
ghost use Rattle.hyd_cases_of_runs.specs.TwoTankTown.{night_main};
ghost use Rattle.hyd_cases_of_runs.specs.TwoTankTown.{wide_main, unthrottled};
ghost use Rattle.hyd_cases_of_runs.specs.TwoTankTownPeriods.{standing_at_two, standing_when_full};
ghost use Rattle.hyd_cases_of_runs.specs.TwoTankTownHistory.{period_at_two, period_when_full};

/// The states of tanks and links in a period.
pub fn states()
    ensures tanks_at_two { (project : Project) → IsTown project
        → tank_states 1000 project.tanks.list period_at_two.levels ≡ Between ∷ Between ∷ [] }
    ensures links_at_two { (project : Project) → IsTown project
        → started project 7200 (acts_at 1000 period_at_two.levels) standing_at_two.commanded
        ≡ Closed ∷ filling ∷ Open ∷ narrow_main ∷ unthrottled ∷ [] }
    ensures tanks_when_full { (project : Project) → IsTown project
        → tank_states 1000 project.tanks.list period_when_full.levels ≡ Full ∷ Empty ∷ [] }
    ensures links_when_full { (project : Project) → IsTown project
        → started project 7313 (acts_at 1000 period_when_full.levels) standing_when_full.commanded
        ≡ Closed ∷ Closed ∷ Open ∷ wide_main ∷ unthrottled ∷ [] }
{}

/// The inflows of the tanks, and their levels at the start.
pub fn inflows()
    ensures inflows_at_two { (project : Project) → IsTown project
        → map (λ tank. tank_inflow project tank period_at_two.assignment.flows) (0 ∷ 1 ∷ [])
        ≡ pos 4640000000000 ∷ neg_ℤ (pos 4640000000000) ∷ [] }
    ensures levels_at_two { map (level_at_start period_at_two) (0 ∷ 1 ∷ [])
        ≡ pos 49923192905666460 ∷ pos 15076807094333538 ∷ [] }
    ensures inflows_when_full { (project : Project) → IsTown project
        → map (λ tank. tank_inflow project tank period_when_full.assignment.flows) (0 ∷ 1 ∷ [])
        ≡ neg_ℤ (pos 12000000000000) ∷ pos 360000000000 ∷ [] }
    ensures levels_when_full { map (level_at_start period_when_full) (0 ∷ 1 ∷ [])
        ≡ pos 50000000000000000 ∷ pos 15000000000000000 ∷ [] }
{}

/// The exact levels after some seconds.
pub fn exact()
    ensures at_two_112 { (project : Project) → IsTown project
        → exact_after project period_at_two 0 north 112 ∷ exact_after project period_at_two 1 south 112 ∷ []
        ≡ record { num = pos 339290485968799997933999254400000; den = 6785840132640000 }
        ∷ record { num = pos 101789122652799988494320480320000; den = 6785840132640000 } ∷ [] }
    ensures at_two_113 { (project : Project) → IsTown project
        → exact_after project period_at_two 0 north 113 ∷ exact_after project period_at_two 1 south 113 ∷ []
        ≡ record { num = pos 339295125968799997933999254400000; den = 6785840132640000 }
        ∷ record { num = pos 101784482652799988494320480320000; den = 6785840132640000 } ∷ [] }
    ensures when_full_247 { (project : Project) → IsTown project
        → exact_after project period_when_full 0 north 247 ∷ exact_after project period_when_full 1 south 247 ∷ []
        ≡ record { num = pos 336328006632000000000000000000000; den = 6785840132640000 }
        ∷ record { num = pos 101876521989600000000000000000000; den = 6785840132640000 } ∷ [] }
    ensures when_full_1327 { (project : Project) → IsTown project
        → exact_after project period_when_full 0 north 1327 ∷ exact_after project period_when_full 1 south 1327 ∷ []
        ≡ record { num = pos 323368006632000000000000000000000; den = 6785840132640000 }
        ∷ record { num = pos 102265321989600000000000000000000; den = 6785840132640000 } ∷ [] }
{}

/// What the rules look at after some seconds.
pub fn readings()
    ensures at_two_60 { (project : Project) → IsTown project
        → readings_after project 1000 period_at_two 60
        ≡ record {
          heads = pos 449923192033590385 ∷ pos 215076806516271682 ∷ pos 600000000000000000 ∷ pos 449923192905666460
              ∷ pos 215076807094333538
              ∷ [];
          levels = record { num = pos 339049205968799997933999254400000; den = 6785840132640000 }
              ∷ record { num = pos 102030402652799988494320480320000; den = 6785840132640000 } ∷ [];
          flows = 0 ∷ 11640000000000
              ∷ 7000000000000 ∷ 4000000000000 ∷ 4640000000000 ∷ [];
          links = Closed ∷ filling ∷ Open ∷ narrow_main ∷ unthrottled
              ∷ [];
        } }
    ensures at_two_113 { (project : Project) → IsTown project
        → readings_after project 1000 period_at_two 113
        ≡ record {
          heads = pos 449923192033590385 ∷ pos 215076806516271682 ∷ pos 600000000000000000 ∷ pos 449923192905666460
              ∷ pos 215076807094333538 ∷ [];
          levels = whole (pos 50000000000000000) ∷ whole (pos 15000000000000000)
              ∷ [];
          flows = 0 ∷ 11640000000000 ∷ 7000000000000 ∷ 4000000000000 ∷ 4640000000000 ∷ [];
          links = Closed ∷ filling
              ∷ Open ∷ narrow_main ∷ unthrottled ∷ [];
        } }
    ensures when_full_247 { (project : Project) → IsTown project
        → readings_after project 1000 period_when_full 247
        ≡ record {
          heads = pos 449999998505012442 ∷ pos 215000000044849627 ∷ pos 600000000000000000 ∷ pos 450000000000000000
              ∷ pos 215000000000000000
              ∷ [];
          levels = record { num = pos 336328006632000000000000000000000; den = 6785840132640000 }
              ∷ record { num = pos 101876521989600000000000000000000; den = 6785840132640000 } ∷ [];
          flows = 0 ∷ 0
              ∷ 12000000000000 ∷ 9000000000000 ∷ 360000000000 ∷ [];
          links = Closed ∷ Closed ∷ Open ∷ wide_main ∷ unthrottled
              ∷ [];
        } }
{}

/// The values of the rules at instants.
pub fn values()
    ensures at_two { (project : Project) → IsTown project
        → map (values_at project 1000 period_at_two) (7200 ∷ 7260 ∷ 7313 ∷ [])
        ≡ (false ∷ false ∷ true ∷ false ∷ []) ∷ (false ∷ false ∷ true ∷ false ∷ [])
        ∷ (false ∷ false ∷ true ∷ false ∷ []) ∷ [] }
    ensures when_full { (project : Project) → IsTown project
        → map (values_at project 1000 period_when_full) (7560 ∷ 8280 ∷ 8640 ∷ 9000 ∷ [])
        ≡ (false ∷ false ∷ true ∷ false ∷ []) ∷ (false ∷ false ∷ true ∷ false ∷ []) ∷ (true ∷ true ∷ false ∷ false ∷ [])
        ∷ (true ∷ true ∷ false ∷ false ∷ []) ∷ [] }
{}

/// The states of the links at the end of a period.
pub fn ends()
    ensures at_two { (project : Project) → IsTown project
        → commanded_after project 1000 period_at_two ≡ Closed ∷ filling ∷ Open ∷ narrow_main ∷ unthrottled ∷ [] }
    ensures when_full { (project : Project) → IsTown project
        → commanded_after project 1000 period_when_full ≡ Closed ∷ fast_filling ∷ Open ∷ night_main ∷ Open ∷ [] }
{}
