//! Rules don't look at the heads of tanks.
#![tactic(auto)]

ghost use Rattle.std.specs.Prelude.{◌≡◌, ◌++◌, ℕ, ℤ, List, length};
ghost use Rattle.hyd_spec.specs.ProgramTypes.{Project, Rule, LinkState};
ghost use Rattle.hyd_spec.specs.NodeNumbers.{nodes_before_tanks};
ghost use Rattle.hyd_spec.specs.Rules.{Readings};
ghost use Rattle.hyd_spec_certificates.specs.declared.Truth.{Truth};
ghost use Rattle.hyd_spec_certificates.specs.Interval.{Interval};
ghost use Rattle.hyd_spec_certificates.specs.Decided.{IsTruthBetween};
ghost use Rattle.hyd_theorems_on_histories.specs.Agreement.{AreBetween};
ghost use Rattle.hyd_controls_and_rules.specs.AlikeButTankHeads.{AreAlike};
ghost use Rattle.hyd_controls_and_rules.specs.RuleReadings.{lower_readings, upper_readings};

/// No clause looks at the place of a tank among the heads: a tank's head follows from its carried level. So what is
/// known of a rule is the same with and without heads of tanks behind those of junctions and reservoirs, and so is what
/// lies between.
pub fn heads_of_tanks()
    ensures truths { (project : Project) (time : ℕ) (below above other_below other_above : Readings) (rule : Rule)
        (truth : Truth) → AreAlike project below other_below → AreAlike project above other_above
        → IsTruthBetween project time below above rule truth
        → IsTruthBetween project time other_below other_above rule truth }
    ensures between { (project : Project) (S : ℕ) (below x above other_below other_above : Readings)
        → AreAlike project below other_below → AreAlike project above other_above
        → AreBetween project S below x above → AreBetween project S other_below x other_above }
    ensures below { (project : Project) (low tanks : List ℤ) (flows levels : List Interval) (links : List LinkState)
        → length low ≡ nodes_before_tanks project
        → AreAlike project (lower_readings low flows levels links) (lower_readings (low ++ tanks) flows levels links) }
    ensures above { (project : Project) (high tanks : List ℤ) (flows levels : List Interval) (links : List LinkState)
        → length high ≡ nodes_before_tanks project
        → AreAlike project (upper_readings high flows levels links)
        (upper_readings (high ++ tanks) flows levels links) }
{}
