//! What leaves a junction, at the places where one rule gives way to another: histories go up to the tolerance above
//! and below the exact outflow, and none goes farther.
#![tactic(auto)]

ghost use Rattle.std.specs.Prelude.{pos, neg_ℤ, [], ◌∷◌};
ghost use Rattle.hyd_spec.specs.History.{IsHistory};
ghost use Rattle.hyd_cases_of_histories.specs.OneLink.{network_of, period_of};
ghost use Rattle.hyd_cases_of_histories.specs.Spurs.{demand_spur, minimum_spur, low_spur, required_spur, high_spur};
ghost use Rattle.hyd_cases_of_histories.specs.Spurs.{dry_spur};

/// A demand that isn't driven by pressure.
pub fn demand()
    ensures most { IsHistory (network_of demand_spur) 1
        (period_of demand_spur (pos 999999999000000) (pos 8026822656) (pos 8026822666) (pos 0) ∷ []) }
    ensures least { IsHistory (network_of demand_spur) 1
        (period_of demand_spur (pos 999999999000000) (pos 8026822656) (pos 8026822646) (pos 0) ∷ []) }
    ensures no_more { IsHistory (network_of demand_spur) 1
        (period_of demand_spur (pos 999999999000000) (pos 8026822661) (pos 8026822667) (pos 0) ∷ []) → ⊥ }
    ensures no_less { IsHistory (network_of demand_spur) 1
        (period_of demand_spur (pos 999999999000000) (pos 8026822651) (pos 8026822645) (pos 0) ∷ []) → ⊥ }
{}

/// Inflow and outflow of a junction.
pub fn balance()
    ensures most { IsHistory (network_of demand_spur) 1
        (period_of demand_spur (pos 999999999000000) (pos 8026822661) (pos 8026822651) (pos 0) ∷ []) }
    ensures least { IsHistory (network_of demand_spur) 1
        (period_of demand_spur (pos 999999999000000) (pos 8026822651) (pos 8026822661) (pos 0) ∷ []) }
    ensures no_more { IsHistory (network_of demand_spur) 1
        (period_of demand_spur (pos 999999999000000) (pos 8026822661) (pos 8026822650) (pos 0) ∷ []) → ⊥ }
    ensures no_less { IsHistory (network_of demand_spur) 1
        (period_of demand_spur (pos 999999999000000) (pos 8026822651) (pos 8026822662) (pos 0) ∷ []) → ⊥ }
    ensures no_emitter { IsHistory (network_of demand_spur) 1
        (period_of demand_spur (pos 999999999000000) (pos 8026822656) (pos 8026822655) (pos 1) ∷ []) → ⊥ }
{}

/// A demand that is driven by pressure gets nothing at the minimum pressure.
pub fn at_minimum()
    ensures most { IsHistory (network_of minimum_spur) 1
        (period_of minimum_spur (pos 1000000000000000) (pos 0) (pos 10) (pos 0) ∷ []) }
    ensures least { IsHistory (network_of minimum_spur) 1
        (period_of minimum_spur (pos 1000000000000000) (pos 0) (neg_ℤ (pos 10)) (pos 0) ∷ []) }
    ensures no_more { IsHistory (network_of minimum_spur) 1
        (period_of minimum_spur (pos 1000000000000000) (pos 5) (pos 11) (pos 0) ∷ []) → ⊥ }
    ensures no_less { IsHistory (network_of minimum_spur) 1
        (period_of minimum_spur (pos 1000000000000000) (neg_ℤ (pos 5)) (neg_ℤ (pos 11)) (pos 0) ∷ []) → ⊥ }
{}

/// It gets nothing below it.
pub fn below_minimum()
    ensures most { IsHistory (network_of low_spur) 1
        (period_of low_spur (pos 1000000000000000) (pos 0) (pos 10) (pos 0) ∷ []) }
    ensures least { IsHistory (network_of low_spur) 1
        (period_of low_spur (pos 1000000000000000) (pos 0) (neg_ℤ (pos 10)) (pos 0) ∷ []) }
    ensures no_more { IsHistory (network_of low_spur) 1
        (period_of low_spur (pos 1000000000000000) (pos 5) (pos 11) (pos 0) ∷ []) → ⊥ }
    ensures no_less { IsHistory (network_of low_spur) 1
        (period_of low_spur (pos 1000000000000000) (neg_ℤ (pos 5)) (neg_ℤ (pos 11)) (pos 0) ∷ []) → ⊥ }
{}

/// It gets all of itself at the required pressure.
pub fn at_required()
    ensures most { IsHistory (network_of required_spur) 1
        (period_of required_spur (pos 999999999000000) (pos 8026822656) (pos 8026822666) (pos 0) ∷ []) }
    ensures least { IsHistory (network_of required_spur) 1
        (period_of required_spur (pos 999999999000000) (pos 8026822656) (pos 8026822646) (pos 0) ∷ []) }
    ensures no_more { IsHistory (network_of required_spur) 1
        (period_of required_spur (pos 999999999000000) (pos 8026822661) (pos 8026822667) (pos 0) ∷ []) → ⊥ }
    ensures no_less { IsHistory (network_of required_spur) 1
        (period_of required_spur (pos 999999999000000) (pos 8026822651) (pos 8026822645) (pos 0) ∷ []) → ⊥ }
{}

/// It gets no more above it.
pub fn above_required()
    ensures most { IsHistory (network_of high_spur) 1
        (period_of high_spur (pos 999999999000000) (pos 8026822656) (pos 8026822666) (pos 0) ∷ []) }
    ensures least { IsHistory (network_of high_spur) 1
        (period_of high_spur (pos 999999999000000) (pos 8026822656) (pos 8026822646) (pos 0) ∷ []) }
    ensures no_more { IsHistory (network_of high_spur) 1
        (period_of high_spur (pos 999999999000000) (pos 8026822661) (pos 8026822667) (pos 0) ∷ []) → ⊥ }
    ensures no_less { IsHistory (network_of high_spur) 1
        (period_of high_spur (pos 999999999000000) (pos 8026822651) (pos 8026822645) (pos 0) ∷ []) → ⊥ }
{}

/// An emitter lets 200 cubic metres a day in at a pressure of 4 m below 0.
pub fn dry_emitter()
    ensures most { IsHistory (network_of dry_spur) 1
        (period_of dry_spur (pos 999999999000000) (pos 8026822656) (pos 10026822656) (neg_ℤ (pos 1999999990)) ∷ []) }
    ensures least { IsHistory (network_of dry_spur) 1
        (period_of dry_spur (pos 999999999000000) (pos 8026822656) (pos 10026822656) (neg_ℤ (pos 2000000010)) ∷ []) }
    ensures no_more { IsHistory (network_of dry_spur) 1
        (period_of dry_spur (pos 999999999000000) (pos 8026822656)
        (pos 10026822655) (neg_ℤ (pos 1999999989)) ∷ []) → ⊥ }
    ensures no_less { IsHistory (network_of dry_spur) 1
        (period_of dry_spur (pos 999999999000000) (pos 8026822656)
        (pos 10026822657) (neg_ℤ (pos 2000000011)) ∷ []) → ⊥ }
{}
