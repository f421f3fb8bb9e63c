//! What is known of rules at an instant.
#![tactic(auto)]

ghost use Rattle.std.specs.Prelude.{◌≡◌, ◌<◌, ℕ, List, [], ◌∷◌, length, map, position, slice_get};
ghost use Rattle.std.specs.List.{All};
ghost use Rattle.hyd_net.specs.Sound.{IsSound};
ghost use Rattle.hyd_spec.specs.ProgramTypes as types;
ghost use Rattle.hyd_spec.specs.NodeNumbers.{nodes_before_tanks, tank_count};
ghost use Rattle.hyd_spec_certificates.specs.declared.Verdict as verdict;
ghost use Rattle.hyd_spec_certificates.specs.declared.Verdict.TheVariants as verdicts;
ghost use Rattle.hyd_spec.specs.Rules.{Readings, rule_holds};
ghost use Rattle.hyd_spec_certificates.specs.SpansAsIntervals.{levels_of, flows_of};
ghost use Rattle.hyd_spec_certificates.specs.Decided.{rule_between, IsTruthBetween};
ghost use Rattle.hyd_theorems_on_histories.specs.Agreement.{AreBetween};
ghost use Rattle.hyd_controls_and_rules.specs.TruthOfRule.{IsTruthOf, IsKnownAs};
ghost use Rattle.hyd_controls_and_rules.specs.RuleReadings.{IsInstant, IsBounded};
ghost use Rattle.hyd_controls_and_rules.specs.RuleReadings.{lower_readings};
ghost use Rattle.hyd_controls_and_rules.specs.RuleReadings.{upper_readings};
ghost use Rattle.hyd_controls_and_rules.specs.KnownOfRules.{IsSoundRule, is_open, rule_there, IsTruthThere, premise_of};

use crate::clauses::{Instant, clause_verdict, ends_of};
use crate::logic::{both, either, is_unknown};
use hyd_net::{Joined, LinkState, Project, Rule};
use hyd_num::Span;
use hyd_spec_certificates::{LevelSpan, Truth, Verdict};

// What is known of a premise up to some clause: of its groups before the last one, and of the last one.
#[derive(Clone, Copy, Drop)]
struct Premise {
    groups: Verdict,
    group: Option<Verdict>,
}

// One clause more. OR goes on with the last group, and AND begins one; so does the first clause, however it is joined.
fn with_clause(premise: Premise, joined: Joined, clause: Verdict) -> Premise
    ensures { (truth : types.Clause → verdict.Verdict) (row : types.RuleClause) (rows : List types.RuleClause)
        → row.joined ≡ joined → truth row.clause ≡ clause
        → premise_of truth result rows ≡ premise_of truth premise (row ∷ rows) }
{
    match (joined, premise.group) {
        (Joined::Or, Some(group)) => Premise {
            groups: premise.groups,
            group: Some(either(group, clause)),
        },
        (Joined::And, Some(group)) => Premise {
            groups: both(premise.groups, group),
            group: Some(clause),
        },
        (_, None) => Premise {
            groups: premise.groups,
            group: Some(clause),
        },
    }
}

// What is known of a whole premise.
fn whole(premise: Premise) -> Verdict
    ensures { (truth : types.Clause → verdict.Verdict) → result ≡ premise_of truth premise [] }
{
    match premise.group {
        Some(group) => both(premise.groups, group),
        None => premise.groups,
    }
}

fn rule_verdict(instant: &Instant<'_>, rule: &Rule) -> Verdict
    requires instant { IsInstant instant.now }
    requires rule { IsSoundRule instant.now.project.now rule.now }
    ensures { result ≡ rule_there instant.now rule.now }
{
    let clauses = rule.clauses.as_slice();
    let mut premise = Premise {
        groups: Verdict::Yes,
        group: None,
    };
    for row in clauses {
        let clause = clause_verdict(instant, &row.clause);
        premise = with_clause(premise, row.joined, clause);
    }
    whole(premise)
}

// The first clause that is open by itself.
fn first_open(instant: &Instant<'_>, rule: &Rule) -> Option<usize>
    requires instant { IsInstant instant.now }
    requires rule { IsSoundRule instant.now.project.now rule.now }
    ensures { result ≡ position (is_open instant.now) rule.now.clauses.list }
{
    let clauses = rule.clauses.as_slice();
    for (number, row) in clauses.iter().enumerate() {
        if is_unknown(clause_verdict(instant, &row.clause)) {
            return Some(number);
        }
    }
    None
}

// A rule that is open, by the first clause that is open by itself and the ends of what that clause measures.
fn open_truth(instant: &Instant<'_>, rule: &Rule) -> Truth
    requires instant { IsInstant instant.now }
    requires rule { IsSoundRule instant.now.project.now rule.now }
    requires open { rule_there instant.now rule.now ≡ verdicts.Unknown }
    ensures { IsTruthThere instant.now rule.now result }
{
    let clause = first_open(instant, rule).unwrap();
    let ends = ends_of(instant, rule.clauses.as_slice()[clause].clause.what);
    Truth::Open {
        clause: clause as u32,
        lo: ends.lo,
        hi: ends.hi,
    }
}

// What is known of a rule, with the clause by which it is open.
fn rule_truth(instant: &Instant<'_>, rule: &Rule) -> Truth
    requires instant { IsInstant instant.now }
    requires rule { IsSoundRule instant.now.project.now rule.now }
    ensures { IsTruthThere instant.now rule.now result }
{
    match rule_verdict(instant, rule) {
        Verdict::Yes => Truth::True,
        Verdict::No => Truth::False,
        Verdict::Unknown => open_truth(instant, rule),
    }
}

/// What is known of a rule at an instant of a period (EPANET 2.2 User Manual, [RULES]): that it is true, that it is
/// false, whatever the exact values are, or that it is open, with the first of its clauses that is open by itself.
/// Rules are counted from 0.
///
/// `low` and `high` are the heads of junctions and then of reservoirs from below and from above, `flows` the flows of
/// links, `levels` the levels of tanks carried to the instant, `links` the states that links were commanded to be in,
/// and `time` the instant in seconds. OR binds tighter than AND.
pub fn decide(
    project: &Project,
    rule: u32,
    low: &[i64],
    high: &[i64],
    flows: &[Span],
    levels: &[LevelSpan],
    links: &[LinkState],
    time: u32,
) -> Truth
    requires sound { IsSound project.now }
    requires in_range { rule < length project.now.rules.list }
    requires each_low { length low.now ≡ nodes_before_tanks project.now }
    requires each_high { length high.now ≡ nodes_before_tanks project.now }
    requires each_flow { length flows.now ≡ length project.now.links.list }
    requires bounded { All IsBounded flows.now }
    requires each_level { length levels.now ≡ tank_count project.now }
    requires each_link { length links.now ≡ length project.now.links.list }
    ensures truth { (each : types.Rule) → slice_get project.now.rules.list rule ≡ Some each
        → IsTruthBetween project.now time
        (lower_readings low.now (map flows_of flows.now) (map levels_of levels.now) links.now)
        (upper_readings high.now (map flows_of flows.now) (map levels_of levels.now) links.now) each result }

    // What is decided is so of the rule at whatever lies between, at every scale.
    ensures holds { (each : types.Rule) → slice_get project.now.rules.list rule ≡ Some each
        → (S : ℕ) (x : Readings) → 0 < S → AreBetween project.now S
        (lower_readings low.now (map flows_of flows.now) (map levels_of levels.now) links.now) x
        (upper_readings high.now (map flows_of flows.now) (map levels_of levels.now) links.now)
        → IsTruthOf result (rule_holds project.now S time x each) }

    // And it is decided so by each two readings between.
    ensures nests { (each : types.Rule) → slice_get project.now.rules.list rule ≡ Some each
        → (lower upper : Readings) → AreBetween project.now 1
        (lower_readings low.now (map flows_of flows.now) (map levels_of levels.now) links.now) lower
        (upper_readings high.now (map flows_of flows.now) (map levels_of levels.now) links.now)
        → AreBetween project.now 1
        (lower_readings low.now (map flows_of flows.now) (map levels_of levels.now) links.now) upper
        (upper_readings high.now (map flows_of flows.now) (map levels_of levels.now) links.now)
        → IsKnownAs result (rule_between project.now time lower upper each) }
{
    let instant = Instant {
        project,
        time,
        low,
        high,
        flows,
        levels,
        links,
    };
    let rule = &project.rules.as_slice()[rule as usize];
    rule_truth(&instant, rule)
}
