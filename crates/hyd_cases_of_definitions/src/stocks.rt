//! Tanks with a volume curve: levels and volumes, stocks after some seconds, and when they reach a target.
#![tactic(auto)]

ghost use Rattle.std.specs.Prelude.{◌≡◌, ℤ, pos, neg_ℤ, true, false, [], ◌∷◌, map};
ghost use Rattle.hyd_net.specs.Curves.{volume_at};
ghost use Rattle.hyd_num.specs.Rational.{floor, ceiling, whole};
ghost use Rattle.hyd_spec.specs.ProgramTypes.{Decimal};
ghost use Rattle.hyd_spec.specs.Tank.{content_bounds};
ghost use Rattle.hyd_spec.specs.Tank.{level_at_volume};
ghost use Rattle.hyd_spec_certificates.specs.Stocks.{next_stocks, carried_stocks, carried_levels, may_reach};
ghost use Rattle.hyd_spec_certificates.specs.Stocks.{must_reach};
ghost use Rattle.hyd_cases_of_definitions.specs.TankWithVolumeCurve.{flask, flask_points, flask_walls, stocks, between};

/// The volume at a level, on each line, at each point and beyond both ends, and the volumes at the bounds.
pub fn volumes()
    ensures at_levels { map (volume_at flask_points) (pos 1000000000000 ∷ pos 3000000000001 ∷ pos 20000000000002
        ∷ pos 20000000000003 ∷ pos 20000000000004
        ∷ pos 49999999999999 ∷ pos 50000000000000 ∷ pos 80000000000009 ∷ pos 90000000000007 ∷ pos 90000000000008 ∷ [])
        ≡ pos 7 ∷ pos 31578947374 ∷ pos 300000000000 ∷ pos 300000000001 ∷ pos 300000000001
        ∷ pos 800000000010 ∷ pos 800000000011 ∷ pos 1700000000005 ∷ pos 2000000000003 ∷ pos 2000000000003 ∷ [] }
    ensures below { volume_at flask_points (pos 0) ≡ neg_ℤ (pos 15789473677) }
    ensures bounds { (diameter : Decimal) → content_bounds flask_walls (flask diameter)
        ≡ record { least = pos 31578947374; most = pos 1700000000005 } }
{}

/// The level at a volume, rounded down and up: held between minimum and maximum.
pub fn levels()
    ensures down { (diameter : Decimal)
        → map (λ (v : ℤ). floor (level_at_volume 1 flask_points (flask diameter) (whole v))) (pos 0 ∷ pos 31578947373
        ∷ pos 31578947374 ∷ pos 31578947375 ∷ pos 300000000000
        ∷ pos 300000000001 ∷ pos 300000000002 ∷ pos 800000000010 ∷ pos 800000000011 ∷ pos 800000000012
        ∷ pos 1700000000004 ∷ pos 1700000000005 ∷ pos 1700000000006 ∷ [])
        ≡ pos 3000000000001 ∷ pos 3000000000001 ∷ pos 3000000000001 ∷ pos 3000000000013 ∷ pos 19999999999939
        ∷ pos 20000000000003 ∷ pos 20000000000062 ∷ pos 49999999999940 ∷ pos 50000000000000 ∷ pos 50000000000033
        ∷ pos 79999999999971 ∷ pos 80000000000005 ∷ pos 80000000000009 ∷ [] }
    ensures up { (diameter : Decimal)
        → map (λ (v : ℤ). ceiling (level_at_volume 1 flask_points (flask diameter) (whole v)))
        (pos 0 ∷ pos 31578947373 ∷ pos 31578947374 ∷ pos 31578947375 ∷ pos 300000000000
        ∷ pos 300000000001 ∷ pos 300000000002 ∷ pos 800000000010 ∷ pos 800000000011 ∷ pos 800000000012
        ∷ pos 1700000000004 ∷ pos 1700000000005 ∷ pos 1700000000006 ∷ [])
        ≡ pos 3000000000001 ∷ pos 3000000000001 ∷ pos 3000000000001 ∷ pos 3000000000014 ∷ pos 19999999999940
        ∷ pos 20000000000003 ∷ pos 20000000000063 ∷ pos 49999999999941 ∷ pos 50000000000000 ∷ pos 50000000000034
        ∷ pos 79999999999972 ∷ pos 80000000000006 ∷ pos 80000000000009 ∷ [] }
{}

/// Stocks with which the next period begins, inside the bounds, at both bounds, emptying, filling, and from a single
/// stock.
pub fn next()
    ensures inside { (diameter : Decimal)
        → next_stocks flask_walls (flask diameter) (stocks (pos 40000000000000) (pos 40000000000100)
        (pos 633333333344) (pos 633333333345))
        (between (pos 50000000000) (pos 50000000009)) 3600
        ≡ stocks (pos 51388888888532) (pos 51388888890520) (pos 841666666667) (pos 841666666726) }
    ensures emptying { (diameter : Decimal)
        → next_stocks flask_walls (flask diameter) (stocks (pos 4000000000000) (pos 5000000000000) (pos 47368421059)
        (pos 63157894743))
        (between (neg_ℤ (pos 5000000000)) (pos 1000)) 6000
        ≡ stocks (pos 3000000000001) (pos 5000000440521) (pos 31578947374) (pos 63157901698) }
    ensures at_maximum { (diameter : Decimal)
        → next_stocks flask_walls (flask diameter) (stocks (pos 79999999999990) (pos 80000000000009)
        (pos 1700000000004) (pos 1700000000005))
        (between (neg_ℤ (pos 3)) (pos 3)) 60
        ≡ stocks (pos 79999999999595) (pos 80000000000009) (pos 1699999999993) (pos 1700000000005) }
    ensures filling { (diameter : Decimal)
        → next_stocks flask_walls (flask diameter) (stocks (pos 79000000000000) (pos 79900000000000)
        (pos 1670000000000) (pos 1697000000000))
        (between (pos 100) (pos 20000000000)) 3600
        ≡ stocks (pos 79000000013355) (pos 80000000000009) (pos 1670000000406) (pos 1700000000005) }
    ensures at_minimum { (diameter : Decimal)
        → next_stocks flask_walls (flask diameter) (stocks (pos 3000000000001) (pos 3000000000030) (pos 31578947374)
        (pos 31578947375))
        (between (neg_ℤ (pos 3)) (pos 3)) 60
        ≡ stocks (pos 3000000000001) (pos 3000000000721) (pos 31578947374) (pos 31578947386) }
    ensures single { (diameter : Decimal)
        → next_stocks flask_walls (flask diameter) (stocks (pos 20000000000000) (pos 20000000000000)
        (pos 300000000001) (pos 300000000001))
        (between (pos 1) (pos 1)) 1
        ≡ stocks (pos 19999999999359) (pos 20000000000673) (pos 299999999991) (pos 300000000012) }
{}

/// The carried stocks of the same.
pub fn carried()
    ensures inside { (diameter : Decimal)
        → carried_stocks flask_walls (flask diameter) (stocks (pos 40000000000000) (pos 40000000000100)
        (pos 633333333344) (pos 633333333345))
        (between (pos 50000000000) (pos 50000000009)) 3600
        ≡ stocks (pos 51388888888887) (pos 51388888890171) (pos 841666666677) (pos 841666666716) }
    ensures emptying { (diameter : Decimal)
        → carried_stocks flask_walls (flask diameter) (stocks (pos 4000000000000) (pos 5000000000000)
        (pos 47368421059) (pos 63157894743))
        (between (neg_ℤ (pos 5000000000)) (pos 1000)) 6000
        ≡ stocks (pos 3000000000001) (pos 5000000439843) (pos 31578947374) (pos 63157901688) }
    ensures at_maximum { (diameter : Decimal)
        → carried_stocks flask_walls (flask diameter) (stocks (pos 79999999999990) (pos 80000000000009)
        (pos 1700000000004) (pos 1700000000005))
        (between (neg_ℤ (pos 3)) (pos 3)) 60
        ≡ stocks (pos 79999999999964) (pos 80000000000009) (pos 1700000000003) (pos 1700000000005) }
    ensures filling { (diameter : Decimal)
        → carried_stocks flask_walls (flask diameter) (stocks (pos 79000000000000) (pos 79900000000000)
        (pos 1670000000000) (pos 1697000000000))
        (between (pos 100) (pos 20000000000)) 3600
        ≡ stocks (pos 79000000013720) (pos 80000000000009) (pos 1670000000416) (pos 1700000000005) }
    ensures at_minimum { (diameter : Decimal)
        → carried_stocks flask_walls (flask diameter) (stocks (pos 3000000000001) (pos 3000000000030)
        (pos 31578947374) (pos 31578947375))
        (between (neg_ℤ (pos 3)) (pos 3)) 60
        ≡ stocks (pos 3000000000001) (pos 3000000000027) (pos 31578947374) (pos 31578947376) }
    ensures single { (diameter : Decimal)
        → carried_stocks flask_walls (flask diameter) (stocks (pos 20000000000000) (pos 20000000000000)
        (pos 300000000001) (pos 300000000001))
        (between (pos 1) (pos 1)) 1
        ≡ stocks (pos 20000000000003) (pos 20000000000004) (pos 300000000001) (pos 300000000002) }
{}

/// The last second before and the first second at which a tank may, and must, have reached its target.
pub fn reached()
    ensures rising_may { (diameter : Decimal)
        → map (may_reach flask_walls (flask diameter) (stocks (pos 40000000000000) (pos 40000000000100)
        (pos 633333333344) (pos 633333333345))
        (between (pos 50000000000) (pos 50000000009)) (pos 60000000000000) true) (8063 ∷ 8064 ∷ [])
        ≡ false ∷ true ∷ [] }
    ensures rising_must { (diameter : Decimal)
        → map (must_reach flask_walls (flask diameter) (stocks (pos 40000000000000) (pos 40000000000100)
        (pos 633333333344) (pos 633333333345))
        (between (pos 50000000000) (pos 50000000009)) (pos 60000000000000) true) (8063 ∷ 8064 ∷ [])
        ≡ false ∷ true ∷ [] }
    ensures to_maximum_may { (diameter : Decimal)
        → map (may_reach flask_walls (flask diameter) (stocks (pos 79000000000000) (pos 79900000000000)
        (pos 1670000000000) (pos 1697000000000))
        (between (pos 90000000) (pos 100000000)) (pos 80000000000009) true) (25920 ∷ 25921 ∷ [])
        ≡ false ∷ true ∷ [] }
    ensures to_maximum_must { (diameter : Decimal)
        → map (must_reach flask_walls (flask diameter) (stocks (pos 79000000000000) (pos 79900000000000)
        (pos 1670000000000) (pos 1697000000000))
        (between (pos 90000000) (pos 100000000)) (pos 80000000000009) true) (288000 ∷ 288001 ∷ [])
        ≡ false ∷ true ∷ [] }
    ensures to_minimum_may { (diameter : Decimal)
        → map (may_reach flask_walls (flask diameter) (stocks (pos 4000000000000) (pos 5000000000000)
        (pos 47368421059) (pos 63157894743))
        (between (neg_ℤ (pos 5000000000)) (neg_ℤ (pos 4000000000))) (pos 3000000000001) false) (2728 ∷ 2729 ∷ [])
        ≡ false ∷ true ∷ [] }
    ensures to_minimum_must { (diameter : Decimal)
        → map (must_reach flask_walls (flask diameter) (stocks (pos 4000000000000) (pos 5000000000000)
        (pos 47368421059) (pos 63157894743))
        (between (neg_ℤ (pos 5000000000)) (neg_ℤ (pos 4000000000))) (pos 3000000000001) false) (6821 ∷ 6822 ∷ [])
        ≡ false ∷ true ∷ [] }
    ensures falling_may { (diameter : Decimal)
        → map (may_reach flask_walls (flask diameter) (stocks (pos 50000000000000) (pos 50000000000000)
        (pos 800000000011) (pos 800000000011))
        (between (neg_ℤ (pos 864000000)) (neg_ℤ (pos 864000000))) (pos 20000000000003) false) (500000 ∷ 500001 ∷ [])
        ≡ false ∷ true ∷ [] }
    ensures falling_must { (diameter : Decimal)
        → map (must_reach flask_walls (flask diameter) (stocks (pos 50000000000000) (pos 50000000000000)
        (pos 800000000011) (pos 800000000011))
        (between (neg_ℤ (pos 864000000)) (neg_ℤ (pos 864000000))) (pos 20000000000003) false) (500000 ∷ 500001 ∷ [])
        ≡ false ∷ true ∷ [] }
    ensures above_maximum { (diameter : Decimal)
        → may_reach flask_walls (flask diameter) (stocks (pos 79000000000000) (pos 79900000000000) (pos 1670000000000)
        (pos 1697000000000))
        (between (pos 90000000) (pos 100000000)) (pos 80000000000010) true 1000000 ≡ false }
{}

/// A tank with a curve has reached a bound at the volume of that bound: its carried level stands at the minimum before,
/// since the volume there is cut. Any other target is one of its carried level.
pub fn bounds()
    ensures minimum { (diameter : Decimal)
        → map (may_reach flask_walls (flask diameter) (stocks (pos 3000000000013) (pos 3000000000014)
        (pos 31578947375) (pos 31578947375))
        (between (neg_ℤ (pos 1)) (neg_ℤ (pos 1))) (pos 3000000000001) false) (863 ∷ 864 ∷ [])
        ≡ false ∷ true ∷ [] }
    ensures above_minimum { (diameter : Decimal)
        → map (may_reach flask_walls (flask diameter) (stocks (pos 3000000000013) (pos 3000000000014)
        (pos 31578947375) (pos 31578947375))
        (between (neg_ℤ (pos 1)) (neg_ℤ (pos 1))) (pos 3000000000002) false) (158 ∷ 159 ∷ [])
        ≡ false ∷ true ∷ [] }
    ensures carried_before { (diameter : Decimal)
        → map (carried_levels flask_walls (flask diameter) (stocks (pos 3000000000013) (pos 3000000000014)
        (pos 31578947375) (pos 31578947375))
        (between (neg_ℤ (pos 1)) (neg_ℤ (pos 1)))) (172 ∷ 173 ∷ 863 ∷ [])
        ≡ between (pos 3000000000001) (pos 3000000000002) ∷ between (pos 3000000000001) (pos 3000000000001)
        ∷ between (pos 3000000000001) (pos 3000000000001) ∷ [] }
    ensures maximum { (diameter : Decimal)
        → map (may_reach flask_walls (flask diameter) (stocks (pos 79999999999971) (pos 79999999999972)
        (pos 1700000000004) (pos 1700000000004))
        (between (pos 1) (pos 1)) (pos 80000000000009) true) (863 ∷ 864 ∷ [])
        ≡ false ∷ true ∷ [] }
    ensures below_maximum { (diameter : Decimal)
        → map (may_reach flask_walls (flask diameter) (stocks (pos 79999999999971) (pos 79999999999972)
        (pos 1700000000004) (pos 1700000000004))
        (between (pos 1) (pos 1)) (pos 80000000000005) true) (857 ∷ 858 ∷ [])
        ≡ false ∷ true ∷ [] }
    ensures carried_below { (diameter : Decimal)
        → carried_levels flask_walls (flask diameter) (stocks (pos 79999999999971) (pos 79999999999972)
        (pos 1700000000004) (pos 1700000000004))
        (between (pos 1) (pos 1)) 863
        ≡ between (pos 80000000000005) (pos 80000000000006) }
{}
