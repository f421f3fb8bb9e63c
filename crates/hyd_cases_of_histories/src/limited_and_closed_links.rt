//! Links that pass less than they could: a valve below its setting, a pump that can't lift so far, a closed valve.
//! Histories go up to the tolerance above and below the exact flow, and none goes farther.
#![tactic(auto)]

ghost use Rattle.std.specs.Prelude.{pos, neg_ℤ, [], ◌∷◌};
ghost use Rattle.hyd_spec.specs.History.{IsHistory};
ghost use Rattle.hyd_cases_of_histories.specs.OneLink.{network_of, period_of};
ghost use Rattle.hyd_cases_of_histories.specs.Spurs.{half_spur, idle_pump, shut_spur};

/// A flow-control valve below its setting passes what it would pass open.
pub fn below_setting()
    ensures most { IsHistory (network_of half_spur) 1
        (period_of half_spur (pos 999999999500000) (pos 4013411338) (pos 4013411328) (pos 0) ∷ []) }
    ensures least { IsHistory (network_of half_spur) 1
        (period_of half_spur (pos 999999999500000) (pos 4013411318) (pos 4013411328) (pos 0) ∷ []) }
    ensures no_more { IsHistory (network_of half_spur) 1
        (period_of half_spur (pos 999999999500000) (pos 4013411339) (pos 4013411333) (pos 0) ∷ []) → ⊥ }
    ensures no_less { IsHistory (network_of half_spur) 1
        (period_of half_spur (pos 999999999500000) (pos 4013411317) (pos 4013411323) (pos 0) ∷ []) → ⊥ }
{}

/// A pump lets nothing back where it would have to lift by 50 m, 10 m more than it can.
pub fn too_high()
    ensures most { IsHistory (network_of idle_pump) 1
        (period_of idle_pump (pos 1500000000000000) (pos 10) (pos 10) (pos 0) ∷ []) }
    ensures least { IsHistory (network_of idle_pump) 1
        (period_of idle_pump (pos 1500000000000000) (neg_ℤ (pos 10)) (neg_ℤ (pos 10)) (pos 0) ∷ []) }
    ensures no_more { IsHistory (network_of idle_pump) 1
        (period_of idle_pump (pos 1500000000000000) (pos 11) (pos 5) (pos 0) ∷ []) → ⊥ }
    ensures no_less { IsHistory (network_of idle_pump) 1
        (period_of idle_pump (pos 1500000000000000) (neg_ℤ (pos 11)) (neg_ℤ (pos 5)) (pos 0) ∷ []) → ⊥ }
{}

/// A closed valve passes nothing at a head difference of 100 m.
pub fn shut()
    ensures most { IsHistory (network_of shut_spur) 1
        (period_of shut_spur (pos 0) (pos 10) (pos 10) (pos 0) ∷ []) }
    ensures least { IsHistory (network_of shut_spur) 1
        (period_of shut_spur (pos 0) (neg_ℤ (pos 10)) (neg_ℤ (pos 10)) (pos 0) ∷ []) }
    ensures no_more { IsHistory (network_of shut_spur) 1
        (period_of shut_spur (pos 0) (pos 11) (pos 5) (pos 0) ∷ []) → ⊥ }
    ensures no_less { IsHistory (network_of shut_spur) 1
        (period_of shut_spur (pos 0) (neg_ℤ (pos 11)) (neg_ℤ (pos 5)) (pos 0) ∷ []) → ⊥ }
{}
