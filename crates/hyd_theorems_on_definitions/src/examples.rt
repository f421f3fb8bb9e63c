//! Worked examples of the definitions.
#![tactic(auto)]

ghost use Rattle.std.specs.Prelude.{◌≡◌, ◌^◌, ◌*◌, ℕ, ℤ, pos, IsTrue, true, false, [], ◌∷◌, Some, unsigned_abs};
ghost use Rattle.hyd_spec.specs.ProgramTypes.{Project, Decimal, Tank, Clause, And, Or, Demand};
ghost use Rattle.hyd_spec.specs.Scale.{at_scale};
ghost use Rattle.hyd_spec.specs.DemandsHeadsAndPumpLifts.{category_demand, multipliers_of};
ghost use Rattle.hyd_spec.specs.Loss.{PipeLossAtMost, PipeLossAtLeast, ValveLossAtMost, ValveLossAtLeast};
ghost use Rattle.hyd_spec.specs.Law.{Law, Capped, flow_at_least, flow_at_most};
ghost use Rattle.hyd_spec.specs.Tank.{Cylinder, exact_content, reaches};
ghost use Rattle.hyd_spec.specs.PeriodLength.{IsLeast};
ghost use Rattle.hyd_spec.specs.Rules.{parts_of, groups_in};

/// A valve of 304.8 mm with the loss coefficient 100 loses between 0.12816835 and 0.12816845 m at
/// 1000 cubic metres a day.
pub fn valve()
    ensures at_least { (diameter k : Decimal) → diameter.nano ≡ pos (3048 * 10 ^ 8) → k.nano ≡ pos (100 * 10 ^ 9)
        → ValveLossAtLeast false diameter k 1 (10 ^ 10) (12816835 * 10 ^ 5) }
    ensures at_most { (diameter k : Decimal) → diameter.nano ≡ pos (3048 * 10 ^ 8) → k.nano ≡ pos (100 * 10 ^ 9)
        → ValveLossAtMost false diameter k 1 (10 ^ 10) (12816845 * 10 ^ 5) }
{}

/// A pipe of 1000 feet, one foot across, of roughness 0.01 and without minor losses loses 0.466
/// feet at one cubic foot a second. At scale 125 that flow is a whole number.
pub fn pipe()
    ensures at_most { (length diameter roughness minor : Decimal) → length.nano ≡ pos (1000 * 10 ^ 9)
        → diameter.nano ≡ pos (12 * 10 ^ 9)
        → roughness.nano ≡ pos (10 ^ 7) → minor.nano ≡ pos 0
        → PipeLossAtMost true length diameter roughness minor 125 3058219431936 (466 * 3048 * 125 * 10 ^ 6) }
    ensures at_least { (length diameter roughness minor : Decimal) → length.nano ≡ pos (1000 * 10 ^ 9)
        → diameter.nano ≡ pos (12 * 10 ^ 9)
        → roughness.nano ≡ pos (10 ^ 7) → minor.nano ≡ pos 0
        → PipeLossAtLeast true length diameter roughness minor 125 3058219431936 (466 * 3048 * 125 * 10 ^ 6) }
{}

/// A tank of 20 m diameter that 5000 cubic metres a day flow into fills 5 m in 27143.36 seconds:
/// the first whole second at which it has is 27144.
pub fn filling()
    ensures { (tank : Tank) → tank.area ≡ pos 314159265400
        → IsLeast (λ s. IsTrue (reaches 1 true (pos (5 * 10 ^ 13))
        (exact_content (Cylinder (unsigned_abs tank.area)) (record {
          level = pos 0;
          volume = pos 0;
        }) (pos (5 * 10 ^ 10)) s))) 27144 }
{}

/// A premise `a OR b AND c` is (a or b) and c.
pub fn premise()
    ensures { (a b c : Clause) → groups_in (parts_of (record { joined = And; clause = a } ∷ (record {
      joined = Or;
      clause = b;
    } ∷ (record { joined = And; clause = c } ∷ []))))
        ≡ (a ∷ (b ∷ [])) ∷ ((c ∷ []) ∷ []) }
{}

/// Where the open valve passes at least the setting, a flow control valve passes the setting.
pub fn control_valve()
    ensures at_least { (setting : ℤ) (valve : Law) (S : ℕ) (x : ℤ) → flow_at_least valve S x (at_scale S setting)
        → flow_at_least (Capped setting valve) S x (at_scale S setting) }
    ensures at_most { (setting : ℤ) (valve : Law) (S : ℕ) (x : ℤ)
        → flow_at_most (Capped setting valve) S x (at_scale S setting) }
{}

/// A base demand of 10 cubic metres a day under a demand multiplier of 0.5 and a pattern of the
/// multipliers 1, 2 and 0 is 5, 10 and 0 cubic metres a day at the start of the first three hours,
/// and 5 again at that of the fourth.
pub fn demands()
    ensures { (project : Project) (category : Demand) → category.base ≡ pos (10 ^ 8) → category.pattern ≡ Some 0
        → project.options.multiplier.nano ≡ pos (5 * 10 ^ 8) → project.times.pattern ≡ 3600
        → project.times.pattern_start ≡ 0
        → multipliers_of project 0 ≡ pos (10 ^ 9) ∷ (pos (2 * 10 ^ 9) ∷ (pos 0 ∷ []))
        → (category_demand project 0 category ≡ pos 50000000) × ((category_demand project 3600 category ≡ pos 100000000)
        × ((category_demand project 7200 category ≡ pos 0) × (category_demand project 10800 category ≡ pos 50000000))) }
{}
