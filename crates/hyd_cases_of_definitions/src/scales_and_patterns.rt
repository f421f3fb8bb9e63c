//! Quantities at a scale, lifts of pumps, demands and heads under patterns.
#![tactic(auto)]

ghost use Rattle.std.specs.Prelude.{◌≡◌, pos, neg_ℤ, true, false, [], ◌∷◌, map, Some, None};
ghost use Rattle.hyd_num.specs.Rational.{floor, ceiling};
ghost use Rattle.hyd_spec.specs.ProgramTypes.{Project, Decimal, FourThirds, Given, Demand, Junction, Reservoir};
ghost use Rattle.hyd_spec.specs.Scale.{at_scale, tolerance};
ghost use Rattle.hyd_spec.specs.WholeNumbers.{cut};
ghost use Rattle.hyd_spec.specs.Lists.{total};
ghost use Rattle.hyd_spec.specs.DemandsHeadsAndPumpLifts.{lift_of, multipliers_of, multiplier_at};
ghost use Rattle.hyd_spec.specs.DemandsHeadsAndPumpLifts.{category_demand, demand_of};
ghost use Rattle.hyd_spec.specs.DemandsHeadsAndPumpLifts.{reservoir_head};

/// Quotients cut toward zero.
pub fn cuts()
    ensures { (cut (pos 7) 2 ∷ cut (neg_ℤ (pos 7)) 2 ∷ cut (pos 6) 3 ∷ cut (neg_ℤ (pos 6)) 3 ∷ cut (pos 1) 1000000000
        ∷ cut (neg_ℤ (pos 1)) 1000000000 ∷ cut (neg_ℤ (pos 1000000001)) 1000000000 ∷ [])
        ≡ pos 3 ∷ neg_ℤ (pos 3) ∷ pos 2 ∷ neg_ℤ (pos 2) ∷ pos 0 ∷ pos 0 ∷ neg_ℤ (pos 1) ∷ [] }
{}

/// Ticks and the tolerance in thirds of a tick, and a sum.
pub fn scales()
    ensures ticks { map (at_scale 3) (pos 0 ∷ pos 7 ∷ neg_ℤ (pos 7) ∷ []) ≡ pos 0 ∷ pos 21 ∷ neg_ℤ (pos 21) ∷ [] }
    ensures tolerance { tolerance 3 ≡ pos 30 }
    ensures total { total (pos 5 ∷ neg_ℤ (pos 8) ∷ pos 0 ∷ pos 1 ∷ []) ≡ neg_ℤ (pos 2) }
{}

/// The lift of a pump whose curve gives a head of 50, at four speeds, rounded down and up: a curve of one
/// point gives 4/3 of its head, and a speed counts squared.
pub fn lifts()
    ensures feet_one_point_down { (head : Decimal) → head.nano ≡ pos 50000000000
        → map (λ speed. floor (lift_of true (FourThirds head) speed)) (pos 1000000000 ∷ pos 1100000000 ∷ pos 500000000
        ∷ pos 333333333
        ∷ [])
        ≡ pos 203200000000000 ∷ pos 245872000000000 ∷ pos 50800000000000 ∷ pos 22577777732622 ∷ [] }
    ensures feet_one_point_up { (head : Decimal) → head.nano ≡ pos 50000000000
        → map (λ speed. ceiling (lift_of true (FourThirds head) speed)) (pos 1000000000 ∷ pos 1100000000 ∷ pos 500000000
        ∷ pos 333333333 ∷ [])
        ≡ pos 203200000000000 ∷ pos 245872000000000 ∷ pos 50800000000000 ∷ pos 22577777732623 ∷ [] }
    ensures feet_three_points_down { (head : Decimal) → head.nano ≡ pos 50000000000
        → map (λ speed. floor (lift_of true (Given head) speed)) (pos 1000000000 ∷ pos 1100000000 ∷ pos 500000000
        ∷ pos 333333333 ∷ [])
        ≡ pos 152400000000000 ∷ pos 184404000000000 ∷ pos 38100000000000 ∷ pos 16933333299466 ∷ [] }
    ensures feet_three_points_up { (head : Decimal) → head.nano ≡ pos 50000000000
        → map (λ speed. ceiling (lift_of true (Given head) speed)) (pos 1000000000 ∷ pos 1100000000 ∷ pos 500000000
        ∷ pos 333333333
        ∷ [])
        ≡ pos 152400000000000 ∷ pos 184404000000000 ∷ pos 38100000000000 ∷ pos 16933333299467 ∷ [] }
    ensures metres_one_point_down { (head : Decimal) → head.nano ≡ pos 50000000000
        → map (λ speed. floor (lift_of false (FourThirds head) speed)) (pos 1000000000 ∷ pos 1100000000
        ∷ pos 500000000 ∷ pos 333333333
        ∷ [])
        ≡ pos 666666666666666 ∷ pos 806666666666666 ∷ pos 166666666666666 ∷ pos 74074073925925 ∷ [] }
    ensures metres_one_point_up { (head : Decimal) → head.nano ≡ pos 50000000000
        → map (λ speed. ceiling (lift_of false (FourThirds head) speed)) (pos 1000000000 ∷ pos 1100000000
        ∷ pos 500000000
        ∷ pos 333333333 ∷ [])
        ≡ pos 666666666666667 ∷ pos 806666666666667 ∷ pos 166666666666667 ∷ pos 74074073925926 ∷ [] }
    ensures metres_three_points_down { (head : Decimal) → head.nano ≡ pos 50000000000
        → map (λ speed. floor (lift_of false (Given head) speed)) (pos 1000000000 ∷ pos 1100000000 ∷ pos 500000000
        ∷ pos 333333333
        ∷ [])
        ≡ pos 500000000000000 ∷ pos 605000000000000 ∷ pos 125000000000000 ∷ pos 55555555444444 ∷ [] }
    ensures metres_three_points_up { (head : Decimal) → head.nano ≡ pos 50000000000
        → map (λ speed. ceiling (lift_of false (Given head) speed)) (pos 1000000000 ∷ pos 1100000000 ∷ pos 500000000
        ∷ pos 333333333
        ∷ [])
        ≡ pos 500000000000000 ∷ pos 605000000000000 ∷ pos 125000000000000 ∷ pos 55555555444445 ∷ [] }
{}

/// The multiplier of a pattern of four hourly steps that starts half an hour in.
pub fn multipliers()
    ensures { (project : Project) → multipliers_of project 0 ≡ pos 1000000000 ∷ pos 2000000000 ∷ pos 0
        ∷ neg_ℤ (pos 500000000) ∷ []
        → project.times.pattern ≡ 3600 → project.times.pattern_start ≡ 1800
        → map (multiplier_at project 0) (0 ∷ 1799 ∷ 1800 ∷ 5400 ∷ 9000 ∷ 12600 ∷ 86399 ∷ [])
        ≡ pos 1000000000 ∷ pos 1000000000 ∷ pos 2000000000 ∷ pos 0 ∷ neg_ℤ (pos 500000000) ∷ pos 1000000000
        ∷ pos 1000000000 ∷ [] }
{}

/// The demand of a category under a demand multiplier: with a pattern of its own, with the default pattern, and
/// without one.
pub fn demands()
    ensures own { (project : Project) (category : Demand) → multipliers_of project 0 ≡ pos 1000000000 ∷ pos 2000000000
        ∷ pos 0 ∷ neg_ℤ (pos 500000000)
        ∷ []
        → project.times.pattern ≡ 3600 → project.times.pattern_start ≡ 1800 → project.options.multiplier.nano
        ≡ pos 1234567891
        → category.base ≡ pos 1000000007 → category.pattern ≡ Some 0 → project.options.default_pattern ≡ None
        → map (λ time. category_demand project time category) (0 ∷ 1799 ∷ 1800 ∷ 5400 ∷ 9000 ∷ 12600 ∷ 86399 ∷ [])
        ≡ pos 1234567899 ∷ pos 1234567899 ∷ pos 2469135799 ∷ pos 0 ∷ neg_ℤ (pos 617283949) ∷ pos 1234567899
        ∷ pos 1234567899 ∷ [] }
    ensures default { (project : Project) (category : Demand) → multipliers_of project 0 ≡ pos 1000000000
        ∷ pos 2000000000 ∷ pos 0 ∷ neg_ℤ (pos 500000000)
        ∷ []
        → project.times.pattern ≡ 3600 → project.times.pattern_start ≡ 1800 → project.options.multiplier.nano
        ≡ pos 1234567891
        → category.base ≡ neg_ℤ (pos 1000000007) → category.pattern ≡ None → project.options.default_pattern ≡ Some 0
        → map (λ time. category_demand project time category) (0 ∷ 1799 ∷ 1800 ∷ 5400 ∷ 9000 ∷ 12600 ∷ 86399 ∷ [])
        ≡ neg_ℤ (pos 1234567899) ∷ neg_ℤ (pos 1234567899) ∷ neg_ℤ (pos 2469135799) ∷ pos 0 ∷ pos 617283949
        ∷ neg_ℤ (pos 1234567899)
        ∷ neg_ℤ (pos 1234567899) ∷ [] }
    ensures none { (project : Project) (category : Demand) → multipliers_of project 0 ≡ pos 1000000000
        ∷ pos 2000000000 ∷ pos 0 ∷ neg_ℤ (pos 500000000)
        ∷ []
        → project.times.pattern ≡ 3600 → project.times.pattern_start ≡ 1800 → project.options.multiplier.nano
        ≡ pos 1234567891
        → category.base ≡ pos 1000000007 → category.pattern ≡ None → project.options.default_pattern ≡ None
        → map (λ time. category_demand project time category) (0 ∷ 1799 ∷ 1800 ∷ 5400 ∷ 9000 ∷ 12600 ∷ 86399 ∷ [])
        ≡ pos 1234567899 ∷ pos 1234567899 ∷ pos 1234567899 ∷ pos 1234567899 ∷ pos 1234567899 ∷ pos 1234567899
        ∷ pos 1234567899 ∷ [] }
{}

/// The demand of a junction of three categories, each cut for itself.
pub fn sums()
    ensures { (project : Project) (junction : Junction) → multipliers_of project 0 ≡ pos 1000000000 ∷ pos 2000000000
        ∷ pos 0 ∷ neg_ℤ (pos 500000000)
        ∷ []
        → project.times.pattern ≡ 3600 → project.times.pattern_start ≡ 1800 → project.options.multiplier.nano
        ≡ pos 1234567891
        → project.options.default_pattern ≡ None
        → junction.demands.list ≡ (record { base = pos 1000000001; pattern = Some 0 })
        ∷ (record { base = neg_ℤ (pos 7); pattern = None }) ∷ (record { base = pos 333333333; pattern = Some 0 }) ∷ []
        → map (λ time. demand_of project time junction) (0 ∷ 1799 ∷ 1800 ∷ 5400 ∷ 9000 ∷ 12600 ∷ 86399 ∷ [])
        ≡ pos 1646090513 ∷ pos 1646090513 ∷ pos 3292181035 ∷ neg_ℤ (pos 8) ∷ neg_ℤ (pos 823045267) ∷ pos 1646090513
        ∷ pos 1646090513
        ∷ [] }
{}

/// The head of a reservoir under a pattern, cut toward zero, and without one.
pub fn reservoirs()
    ensures patterned { (project : Project) (reservoir : Reservoir) → multipliers_of project 0 ≡ pos 1000000000
        ∷ pos 2000000000 ∷ pos 0
        ∷ neg_ℤ (pos 500000000) ∷ []
        → project.times.pattern ≡ 3600 → project.times.pattern_start ≡ 1800
        → reservoir.head ≡ pos 100000000000007 → reservoir.pattern ≡ Some 0
        → map (λ time. reservoir_head project time reservoir) (0 ∷ 1799 ∷ 1800 ∷ 5400 ∷ 9000 ∷ 12600 ∷ 86399 ∷ [])
        ≡ pos 100000000000007 ∷ pos 100000000000007 ∷ pos 200000000000014 ∷ pos 0 ∷ neg_ℤ (pos 50000000000003)
        ∷ pos 100000000000007
        ∷ pos 100000000000007 ∷ [] }
    ensures constant { (project : Project) (reservoir : Reservoir) → reservoir.head ≡ pos 100000000000007
        → reservoir.pattern ≡ None
        → reservoir_head project 7 reservoir ≡ pos 100000000000007 }
{}
