//! The values of rules at an instant.
#![tactic(auto)]

ghost use Rattle.std.specs.Prelude.{◌≡◌, List, ◌∷◌, [], length, Bool};
ghost use Rattle.hyd_num.specs.Rational.{Rational};
ghost use Rattle.hyd_spec.specs.ProgramTypes as types;
ghost use Rattle.hyd_net.specs.ControlsAndRules.{IsRule};
ghost use Rattle.hyd_spec.specs.Rules.{rule_holds, rule_values};
ghost use Rattle.hyd_laws_at_scale.specs.Scales.{parts_of};
ghost use Rattle.hyd_rules_at_scale.specs.Instants.{IsInstant, AreLevels, readings_at};
ghost use Rattle.hyd_rules_at_scale.specs.Premises.{premise_of};

use crate::clauses::clause_holds;
use crate::instant::Instant;
use hyd_net::{Joined, Rule};

// A premise up to some clause: whether its groups before the last one hold, and whether the last one does.
#[derive(Clone, Copy, Drop)]
struct Premise {
    groups: bool,
    group: Option<bool>,
}

// One clause more. OR goes on with the last group, and AND begins one; so does the first clause, however it is joined.
fn with_clause(premise: Premise, joined: Joined, clause: bool) -> Premise
    ensures { (holds : types.Clause → Bool) (row : types.RuleClause) (rows : List types.RuleClause)
        → row.joined ≡ joined → holds row.clause ≡ clause
        → premise_of holds result rows ≡ premise_of holds premise (row ∷ rows) }
{
    match (joined, premise.group) {
        (Joined::Or, Some(group)) => Premise {
            groups: premise.groups,
            group: Some(group || clause),
        },
        (Joined::And, Some(group)) => Premise {
            groups: premise.groups && group,
            group: Some(clause),
        },
        (_, None) => Premise {
            groups: premise.groups,
            group: Some(clause),
        },
    }
}

// Whether a whole premise holds.
fn whole(premise: Premise) -> bool
    ensures { (holds : types.Clause → Bool) → result ≡ premise_of holds premise [] }
{
    match premise.group {
        Some(group) => premise.groups && group,
        None => premise.groups,
    }
}

// A rule is true.
fn rule_holds(instant: &Instant<'_>, rule: &Rule) -> bool
    requires instant { IsInstant instant.now }
    requires rule { IsRule instant.now.project.now rule.now }
    ensures { (levels : List Rational) → AreLevels instant.now.levels.now levels
        → result ≡ rule_holds instant.now.project.now (parts_of instant.now.scale) instant.now.time
        (readings_at instant.now levels) rule.now }
{
    let clauses = rule.clauses.as_slice();
    let mut premise = Premise {
        groups: true,
        group: None,
    };
    for row in clauses {
        let clause = clause_holds(instant, &row.clause);
        premise = with_clause(premise, row.joined, clause);
    }
    whole(premise)
}

/// Puts for each rule whether it is true at an instant of a period (EPANET 2.2 User Manual, chapter 3, rule-based
/// controls), for all exact levels that those of the instant stand for. A rule is true where each of its groups of
/// clauses, joined by OR, has a clause that holds; OR binds tighter than AND. It takes no memory.
pub fn put_values(instant: &Instant<'_>, values: &mut [bool])
    requires instant { IsInstant instant.now }
    requires each_value { length values.old ≡ length instant.now.project.now.rules.list }
    ensures { (levels : List Rational) → AreLevels instant.now.levels.now levels
        → values.new ≡ rule_values instant.now.project.now (parts_of instant.now.scale) instant.now.time
        (readings_at instant.now levels) }
{
    let rules = instant.project.rules.as_slice();
    for (number, rule) in rules.iter().enumerate() {
        values[number] = rule_holds(instant, rule);
    }
}
