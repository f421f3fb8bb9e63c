//! Histories of one period of a pipe of 1000 feet that loses 0.466 feet at one cubic foot a second, at 125 parts a
//! tick, at which that flow is whole. They go up to the tolerance above and below the exact flow, and none goes
//! farther.
#![tactic(auto)]

ghost use Rattle.std.specs.Prelude.{pos, neg_ℤ, [], ◌∷◌};
ghost use Rattle.hyd_spec.specs.History.{IsHistory};
ghost use Rattle.hyd_cases_of_histories.specs.OneLink.{network_of, period_of};
ghost use Rattle.hyd_cases_of_histories.specs.Spurs.{pipe_spur, check_spur, idle_spur};

/// The pipe passes one cubic foot a second.
pub fn pipe()
    ensures most { IsHistory (network_of pipe_spur) 125
        (period_of pipe_spur (pos 37922454000000000) (pos 3058219433186) (pos 3058219431936) (pos 0) ∷ []) }
    ensures least { IsHistory (network_of pipe_spur) 125
        (period_of pipe_spur (pos 37922454000000000) (pos 3058219430686) (pos 3058219430625) (pos 0) ∷ []) }
    ensures no_more { IsHistory (network_of pipe_spur) 125
        (period_of pipe_spur (pos 37922454000000000) (pos 3058219433187) (pos 3058219431937) (pos 0) ∷ []) → ⊥ }
    ensures no_less { IsHistory (network_of pipe_spur) 125
        (period_of pipe_spur (pos 37922454000000000) (pos 3058219430685) (pos 3058219430625) (pos 0) ∷ []) → ⊥ }
{}

/// So it does with a check valve, which lets the water pass.
pub fn check_valve()
    ensures most { IsHistory (network_of check_spur) 125
        (period_of check_spur (pos 37922454000000000) (pos 3058219433186) (pos 3058219431936) (pos 0) ∷ []) }
    ensures least { IsHistory (network_of check_spur) 125
        (period_of check_spur (pos 37922454000000000) (pos 3058219430686) (pos 3058219430625) (pos 0) ∷ []) }
    ensures no_more { IsHistory (network_of check_spur) 125
        (period_of check_spur (pos 37922454000000000) (pos 3058219433187) (pos 3058219431937) (pos 0) ∷ []) → ⊥ }
    ensures no_less { IsHistory (network_of check_spur) 125
        (period_of check_spur (pos 37922454000000000) (pos 3058219430685) (pos 3058219430625) (pos 0) ∷ []) → ⊥ }
{}

/// The check valve lets nothing back where the junction stands 20 feet higher than the reservoir: without it 6.5 cubic
/// feet a second would flow back.
pub fn held_back()
    ensures most { IsHistory (network_of idle_spur) 125
        (period_of idle_spur (pos 45720000000000000) (pos 1250) (pos 1250) (pos 0) ∷ []) }
    ensures least { IsHistory (network_of idle_spur) 125
        (period_of idle_spur (pos 45720000000000000) (neg_ℤ (pos 1250)) (neg_ℤ (pos 1250)) (pos 0) ∷ []) }
    ensures no_more { IsHistory (network_of idle_spur) 125
        (period_of idle_spur (pos 45720000000000000) (pos 1251) (pos 1250) (pos 0) ∷ []) → ⊥ }
    ensures no_less { IsHistory (network_of idle_spur) 125
        (period_of idle_spur (pos 45720000000000000) (neg_ℤ (pos 1251)) (neg_ℤ (pos 1250)) (pos 0) ∷ []) → ⊥ }
{}
