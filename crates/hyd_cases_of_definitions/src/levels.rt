//! Levels of tanks.
#![tactic(auto)]

ghost use Rattle.std.specs.Prelude.{◌≡◌, pos, neg_ℤ, true, false, [], ◌∷◌, map, Some, None};
ghost use Rattle.hyd_num.specs.Rational.{floor, ceiling};
ghost use Rattle.hyd_spec.specs.ProgramTypes.{Tank};
ghost use Rattle.hyd_spec.specs.declared.TankState.TheVariants.{Empty, Between, Full};
ghost use Rattle.hyd_spec.specs.Tank.{Cylinder, level_bounds, exact_content, carried_level, tank_state};
ghost use Rattle.hyd_spec_certificates.specs.Stocks.{end_of, lower_end, upper_end, carried_levels, next_stocks};
ghost use Rattle.hyd_spec_certificates.specs.Stocks.{state_of, may_reach, must_reach};
ghost use Rattle.hyd_cases_of_definitions.specs.Cylinders.{at_level, at_levels};

/// The state of a tank at the edges of the bands, in whole ticks and in thirds of a tick.
pub fn states()
    ensures ticks { (tank : Tank) → tank.minimum ≡ pos 1000000000000 → tank.maximum ≡ pos 50000000000000
        → map (tank_state 1 tank) (pos 999999999999 ∷ pos 1000000000000 ∷ pos 1001524000000 ∷ pos 1001524000001
        ∷ pos 20000000000000
        ∷ pos 49998475999999 ∷ pos 49998476000000 ∷ pos 50000000000000 ∷ pos 50000000000001 ∷ [])
        ≡ Empty ∷ Empty ∷ Empty ∷ Between ∷ Between ∷ Between ∷ Full ∷ Full ∷ Full ∷ [] }
    ensures thirds { (tank : Tank) → tank.minimum ≡ pos 1000000000000 → tank.maximum ≡ pos 50000000000000
        → map (tank_state 3 tank) (pos 3004572000000 ∷ pos 3004572000001 ∷ pos 149995427999999 ∷ pos 149995428000000
        ∷ [])
        ≡ Empty ∷ Between ∷ Between ∷ Full ∷ [] }
{}

/// In a tank whose bands overlap, full comes before empty.
pub fn narrow()
    ensures { (tank : Tank) → tank.minimum ≡ pos 0 → tank.maximum ≡ pos 1524000000
        → map (tank_state 1 tank) (neg_ℤ (pos 1) ∷ pos 0 ∷ pos 1524000000 ∷ [])
        ≡ Empty ∷ Full ∷ Full ∷ [] }
{}

/// The exact level after some seconds, filling and draining.
pub fn exact()
    ensures filling { map (exact_content (Cylinder 314159265400) (at_level (pos 0)) (pos 50000000000))
        (0 ∷ 1 ∷ 3600 ∷ 27143 ∷ 27144 ∷ [])
        ≡ (record { num = pos 0; den = 27143360530560000 })
        ∷ (record { num = pos 50000000000000000000000000; den = 27143360530560000 })
        ∷ (record { num = pos 180000000000000000000000000000; den = 27143360530560000 })
        ∷ (record { num = pos 1357150000000000000000000000000; den = 27143360530560000 })
        ∷ (record { num = pos 1357200000000000000000000000000; den = 27143360530560000 }) ∷ [] }
    ensures draining { map (exact_content (Cylinder 314159265400) (at_level (pos 30000000000000))
        (neg_ℤ (pos 7000000000))) (0 ∷ 1 ∷ 3600
        ∷ 27143 ∷ 27144 ∷ [])
        ≡ (record { num = pos 814300815916800000000000000000; den = 27143360530560000 })
        ∷ (record { num = pos 814293815916800000000000000000; den = 27143360530560000 })
        ∷ (record { num = pos 789100815916800000000000000000; den = 27143360530560000 })
        ∷ (record { num = pos 624299815916800000000000000000; den = 27143360530560000 })
        ∷ (record { num = pos 624292815916800000000000000000; den = 27143360530560000 }) ∷ [] }
{}

/// The carried level, rounded down and up: held at the bounds.
pub fn carried()
    ensures down { (tank : Tank) → tank.minimum ≡ pos 1000000000000 → tank.maximum ≡ pos 50000000000000
        → (floor (carried_level 1 (Cylinder 314159265400) tank (at_level (pos 1000000000003)) (pos 7) 1)
        ∷ floor (carried_level 1 (Cylinder 314159265400) tank (at_level (pos 1000000000003)) (neg_ℤ (pos 7)) 1)
        ∷ floor (carried_level 1 (Cylinder 314159265400) tank (at_level (pos 40000000000000)) (pos 50000000000) 5000)
        ∷ floor (carried_level 1 (Cylinder 314159265400) tank (at_level (pos 40000000000000)) (pos 50000000000) 60000)
        ∷ floor (carried_level 1 (Cylinder 314159265400) tank (at_level (pos 2000000000000)) (neg_ℤ (pos 50000000000))
        5000)
        ∷ floor (carried_level 1 (Cylinder 314159265400) tank (at_level (pos 2000000000000)) (neg_ℤ (pos 50000000000))
        6000)
        ∷ floor (carried_level 1 (Cylinder 314159265400) tank (at_level (pos 50000000000000)) (neg_ℤ (pos 1)) 3600)
        ∷ [])
        ≡ pos 1000000000003 ∷ pos 1000000000002 ∷ pos 49210355501800 ∷ pos 50000000000000 ∷ pos 1000000000000
        ∷ pos 1000000000000
        ∷ pos 49999999999867 ∷ [] }
    ensures up { (tank : Tank) → tank.minimum ≡ pos 1000000000000 → tank.maximum ≡ pos 50000000000000
        → (ceiling (carried_level 1 (Cylinder 314159265400) tank (at_level (pos 1000000000003)) (pos 7) 1)
        ∷ ceiling (carried_level 1 (Cylinder 314159265400) tank (at_level (pos 1000000000003)) (neg_ℤ (pos 7)) 1)
        ∷ ceiling (carried_level 1 (Cylinder 314159265400) tank (at_level (pos 40000000000000)) (pos 50000000000) 5000)
        ∷ ceiling (carried_level 1 (Cylinder 314159265400) tank (at_level (pos 40000000000000)) (pos 50000000000) 60000)
        ∷ ceiling (carried_level 1 (Cylinder 314159265400) tank (at_level (pos 2000000000000))
        (neg_ℤ (pos 50000000000)) 5000)
        ∷ ceiling (carried_level 1 (Cylinder 314159265400) tank (at_level (pos 2000000000000))
        (neg_ℤ (pos 50000000000)) 6000)
        ∷ ceiling (carried_level 1 (Cylinder 314159265400) tank (at_level (pos 50000000000000)) (neg_ℤ (pos 1)) 3600)
        ∷ [])
        ≡ pos 1000000000004 ∷ pos 1000000000003 ∷ pos 49210355501801 ∷ pos 50000000000000 ∷ pos 1000000000000
        ∷ pos 1000000000000
        ∷ pos 49999999999868 ∷ [] }
{}

/// The lower and the upper end of a level interval with a room of ten ticks, near both bounds.
pub fn ends()
    ensures lower { (tank : Tank) → tank.minimum ≡ pos 100 → tank.maximum ≡ pos 200
        → map (λ x. lower_end (level_bounds tank) (level_bounds tank) x x (pos 10)) ((record {
          num = pos 199;
          den = 2;
        }) ∷ (record { num = pos 201; den = 2 })
        ∷ (record { num = pos 220; den = 2 }) ∷ (record { num = pos 221; den = 2 }) ∷ (record {
          num = pos 301;
          den = 2;
        })
        ∷ (record { num = pos 379; den = 2 }) ∷ (record { num = pos 380; den = 2 }) ∷ (record {
          num = pos 399;
          den = 2;
        })
        ∷ (record { num = pos 400; den = 2 }) ∷ (record { num = pos 500; den = 2 }) ∷ [])
        ≡ pos 100 ∷ pos 100 ∷ pos 100 ∷ pos 100 ∷ pos 140 ∷ pos 179 ∷ pos 180 ∷ pos 189 ∷ pos 200 ∷ pos 200 ∷ [] }
    ensures upper { (tank : Tank) → tank.minimum ≡ pos 100 → tank.maximum ≡ pos 200
        → map (λ x. upper_end (level_bounds tank) (level_bounds tank) x x (pos 10)) ((record {
          num = pos 199;
          den = 2;
        }) ∷ (record { num = pos 201; den = 2 })
        ∷ (record { num = pos 220; den = 2 }) ∷ (record { num = pos 221; den = 2 }) ∷ (record {
          num = pos 301;
          den = 2;
        })
        ∷ (record { num = pos 379; den = 2 }) ∷ (record { num = pos 380; den = 2 }) ∷ (record {
          num = pos 399;
          den = 2;
        })
        ∷ (record { num = pos 400; den = 2 }) ∷ (record { num = pos 500; den = 2 }) ∷ [])
        ≡ pos 100 ∷ pos 111 ∷ pos 120 ∷ pos 121 ∷ pos 161 ∷ pos 200 ∷ pos 200 ∷ pos 200 ∷ pos 200 ∷ pos 200 ∷ [] }
    ensures bounds { (tank : Tank) → tank.minimum ≡ pos 100 → tank.maximum ≡ pos 200
        → map (λ x. end_of (level_bounds tank) (level_bounds tank) x (pos 7)) ((record {
          num = pos 199;
          den = 2;
        }) ∷ (record { num = pos 201; den = 2 })
        ∷ (record { num = pos 220; den = 2 }) ∷ (record { num = pos 221; den = 2 }) ∷ (record {
          num = pos 301;
          den = 2;
        })
        ∷ (record { num = pos 379; den = 2 }) ∷ (record { num = pos 380; den = 2 }) ∷ (record {
          num = pos 399;
          den = 2;
        })
        ∷ (record { num = pos 400; den = 2 }) ∷ (record { num = pos 500; den = 2 }) ∷ [])
        ≡ pos 100 ∷ pos 7 ∷ pos 7 ∷ pos 7 ∷ pos 7 ∷ pos 7 ∷ pos 7 ∷ pos 7 ∷ pos 200 ∷ pos 200 ∷ [] }
{}

/// The carried levels and the levels of the next period, inside the bounds, emptying and at the maximum.
pub fn intervals()
    ensures carried_inside { (tank : Tank) → tank.minimum ≡ pos 1000000000000 → tank.maximum ≡ pos 50000000000000
        → carried_levels (Cylinder 314159265400) tank (at_levels (record {
          lo = pos 40000000000000;
          hi = pos 40000000000100;
        })) (record { lo = pos 50000000000; hi = pos 50000000009 }) 5000
        ≡ record { lo = pos 49210355501800; hi = pos 49210355503559 } }
    ensures carried_emptying { (tank : Tank) → tank.minimum ≡ pos 1000000000000 → tank.maximum ≡ pos 50000000000000
        → carried_levels (Cylinder 314159265400) tank (at_levels (record {
          lo = pos 2000000000000;
          hi = pos 3000000000000;
        })) (record { lo = neg_ℤ (pos 50000000000); hi = pos 1000000 }) 6000
        ≡ record { lo = pos 1000000000000; hi = pos 3000221048533 } }
    ensures carried_at_maximum { (tank : Tank) → tank.minimum ≡ pos 1000000000000 → tank.maximum ≡ pos 50000000000000
        → carried_levels (Cylinder 314159265400) tank (at_levels (record {
          lo = pos 49999999999995;
          hi = pos 50000000000000;
        })) (record { lo = neg_ℤ (pos 3); hi = pos 3 }) 60
        ≡ record { lo = pos 49999999999988; hi = pos 50000000000000 } }
    ensures next_inside { (tank : Tank) → tank.minimum ≡ pos 1000000000000 → tank.maximum ≡ pos 50000000000000
        → next_stocks (Cylinder 314159265400) tank (at_levels (record {
          lo = pos 40000000000000;
          hi = pos 40000000000100;
        })) (record { lo = pos 50000000000; hi = pos 50000000009 }) 5000
        ≡ at_levels (record { lo = pos 49210355501790; hi = pos 49210355503569 }) }
    ensures next_emptying { (tank : Tank) → tank.minimum ≡ pos 1000000000000 → tank.maximum ≡ pos 50000000000000
        → next_stocks (Cylinder 314159265400) tank (at_levels (record {
          lo = pos 2000000000000;
          hi = pos 3000000000000;
        })) (record { lo = neg_ℤ (pos 50000000000); hi = pos 1000000 }) 6000
        ≡ at_levels (record { lo = pos 1000000000000; hi = pos 3000221048543 }) }
    ensures next_at_maximum { (tank : Tank) → tank.minimum ≡ pos 1000000000000 → tank.maximum ≡ pos 50000000000000
        → next_stocks (Cylinder 314159265400) tank (at_levels (record {
          lo = pos 49999999999995;
          hi = pos 50000000000000;
        })) (record { lo = neg_ℤ (pos 3); hi = pos 3 }) 60
        ≡ at_levels (record { lo = pos 49999999999978; hi = pos 50000000000000 }) }
{}

/// The state of a level interval, where both ends have the same.
pub fn shared()
    ensures { (tank : Tank) → tank.minimum ≡ pos 1000000000000 → tank.maximum ≡ pos 50000000000000
        → map (state_of tank) ((record { lo = pos 1000000000000; hi = pos 1001524000000 })
        ∷ (record { lo = pos 1001524000000; hi = pos 1001524000001 })
        ∷ (record { lo = pos 20000000000000; hi = pos 30000000000000 })
        ∷ (record { lo = pos 49998475999999; hi = pos 49998476000000 })
        ∷ (record { lo = pos 49998476000000; hi = pos 50000000000000 })
        ∷ (record { lo = pos 1000000000000; hi = pos 50000000000000 }) ∷ [])
        ≡ Some Empty ∷ None ∷ Some Between ∷ None ∷ Some Full ∷ None ∷ [] }
{}

/// The last second before and the first second at which a level may, and must, have reached its target.
pub fn reached()
    ensures rising_may { (tank : Tank) → map (may_reach (Cylinder 314159265400) tank (at_levels (record {
      lo = pos 0;
      hi = pos 100000000000;
    })) (record { lo = pos 50000000000; hi = pos 50100000000 }) (pos 50000000000000) true)
        (27035
        ∷ 27036 ∷ [])
        ≡ false ∷ true ∷ [] }
    ensures rising_must { (tank : Tank) → map (must_reach (Cylinder 314159265400) tank (at_levels (record {
      lo = pos 0;
      hi = pos 100000000000;
    })) (record { lo = pos 50000000000; hi = pos 50100000000 })
        (pos 50000000000000) true) (27143
        ∷ 27144 ∷ [])
        ≡ false ∷ true ∷ [] }
    ensures falling_may { (tank : Tank) → map (may_reach (Cylinder 314159265400) tank (at_levels (record {
      lo = pos 40000000000000;
      hi = pos 40100000000000;
    }))
        (record { lo = neg_ℤ (pos 50100000000); hi = neg_ℤ (pos 50000000000) }) (pos 1000000000000) false) (21129
        ∷ 21130 ∷ [])
        ≡ false ∷ true ∷ [] }
    ensures falling_must { (tank : Tank) → map (must_reach (Cylinder 314159265400) tank (at_levels (record {
      lo = pos 40000000000000;
      hi = pos 40100000000000;
    }))
        (record { lo = neg_ℤ (pos 50100000000); hi = neg_ℤ (pos 50000000000) }) (pos 1000000000000) false) (21226
        ∷ 21227 ∷ [])
        ≡ false ∷ true ∷ [] }
{}
