//! Fractions in order, negated and added.
#![tactic(auto)]

ghost use Rattle.std.specs.Prelude.{◌≡◌, pos, neg_ℤ, true, false, [], ◌∷◌, map};
ghost use Rattle.hyd_num.specs.Rational.{negated, total_of, is_less, is_at_most, floor};

/// Fractions compared with 1/2.
pub fn order()
    ensures less { map (λ x. is_less x (record { num = pos 1; den = 2 })) ((record {
      num = pos 1;
      den = 2;
    }) ∷ (record { num = neg_ℤ (pos 1); den = 2 })
        ∷ (record { num = pos 2; den = 4 }) ∷ (record { num = pos 3; den = 2 }) ∷ (record {
          num = neg_ℤ (pos 5);
          den = 3;
        }) ∷ [])
        ≡ false ∷ true ∷ false ∷ false ∷ true ∷ [] }
    ensures at_most { map (λ x. is_at_most x (record { num = pos 1; den = 2 })) ((record { num = pos 1; den = 2 })
        ∷ (record { num = neg_ℤ (pos 1); den = 2 }) ∷ (record { num = pos 2; den = 4 }) ∷ (record {
          num = pos 3;
          den = 2;
        })
        ∷ (record { num = neg_ℤ (pos 5); den = 3 }) ∷ [])
        ≡ true ∷ true ∷ true ∷ false ∷ true ∷ [] }
    ensures negated { map (λ x. floor (negated x)) ((record { num = pos 1; den = 2 }) ∷ (record {
      num = neg_ℤ (pos 1);
      den = 2;
    })
        ∷ (record { num = pos 2; den = 4 }) ∷ (record { num = pos 3; den = 2 }) ∷ (record {
          num = neg_ℤ (pos 5);
          den = 3;
        }) ∷ [])
        ≡ neg_ℤ (pos 1) ∷ pos 0 ∷ neg_ℤ (pos 1) ∷ neg_ℤ (pos 2) ∷ pos 1 ∷ [] }
    ensures total { map (λ x. floor (total_of x (record { num = pos 4; den = 3 }))) ((record { num = pos 1; den = 2 })
        ∷ (record { num = neg_ℤ (pos 1); den = 2 }) ∷ (record { num = pos 2; den = 4 }) ∷ (record {
          num = pos 3;
          den = 2;
        })
        ∷ (record { num = neg_ℤ (pos 5); den = 3 }) ∷ [])
        ≡ pos 1 ∷ pos 0 ∷ pos 1 ∷ pos 2 ∷ neg_ℤ (pos 1) ∷ [] }
{}
