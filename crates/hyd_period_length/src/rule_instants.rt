//! The instants of a period at which the rules are tried.
#![tactic(auto)]

ghost use Rattle.std.specs.Prelude.{◌≡◌, ◌≢◌, ℕ, ◌+◌, ◌<◌, ◌≤◌, ◌^◌, ◌++◌, [], true, false, length, IfNone, IfSome};
ghost use Rattle.std.specs.List.{All};
ghost use Rattle.hyd_net.specs.Sound.{IsSound};
ghost use Rattle.hyd_spec.specs.NodeNumbers.{nodes_before_tanks, tank_count};
ghost use Rattle.hyd_spec.specs.Rules.{acted, rule_changes};
ghost use Rattle.hyd_spec_certificates.specs.Decided.{RulesMatter};
ghost use Rattle.hyd_controls_and_rules.specs.RuleReadings.{IsBounded};
ghost use Rattle.hyd_period_facts.specs.FactsBeforeEnd.{HaveTanks};
ghost use Rattle.hyd_period_length.specs.Endings.{ForPeriod, IfDecided, UnlessByRules, IsBrought, IsFirstBrought};

use crate::end_kinds::Ending;
use crate::tried_rules::try_rules;
use hyd_controls_and_rules::{Changes, act};
use hyd_net::{LinkState, List, Project};
use hyd_num::Span;
use hyd_period_facts::Facts;
use hyd_spec_certificates::LevelSpan;

// Carries out what rules with these values change, and tells whether that is anything.
fn changes_any(
    project: &Project,
    values: &[bool],
    links: &mut [LinkState],
    changes: &mut Changes,
) -> bool
    requires sound { IsSound project.now }
    requires each_value { length values.now ≡ length project.now.rules.list }
    requires each_link { length links.old ≡ length project.now.links.list }
    requires room { length project.now.links.list ≤ changes.old.spare }
    ensures none { result ≡ false → rule_changes project.now values.now links.old ≡ [] }
    ensures some { result ≡ true → rule_changes project.now values.now links.old ≢ [] }
    ensures links { links.new ≡ acted project.now values.now links.old }
    ensures rows { changes.new.list ≡ changes.old.list ++ rule_changes project.now values.now links.old }
    ensures room { changes.new.spare + length changes.new.list ≡ changes.old.spare + length changes.old.list }
    ensures links_stay { result ≡ false → links.new ≡ links.old }
    ensures changes_stay { result ≡ false → changes.new ≡ changes.old }
{
    let before = changes.rows().len();
    act(project, values, links, changes);
    changes.rows().len() > before
}

// The end that the rules bring about so many seconds after the start, where they matter there: what they change is
// carried out, or one of them is open.
fn end_at(
    project: &Project,
    facts: &mut Facts,
    low: &[i64],
    high: &[i64],
    flows: &[Span],
    seconds: u32,
    levels: &mut List<LevelSpan>,
    values: &mut [bool],
    links: &mut [LinkState],
) -> Option<Ending>
    requires sound { IsSound project.now }
    requires tanks { HaveTanks project.now facts.old }
    requires time { facts.old.time + seconds ≤ 10 ^ 8 }
    requires later { 0 < seconds }
    requires each_low { length low.now ≡ nodes_before_tanks project.now }
    requires each_high { length high.now ≡ nodes_before_tanks project.now }
    requires each_flow { length flows.now ≡ length project.now.links.list }
    requires bounded { All IsBounded flows.now }
    requires each_link { length links.old ≡ length project.now.links.list }
    requires links { links.old ≡ facts.old.links.list }
    requires each_value { length values.old ≡ length project.now.rules.list }
    requires levels { tank_count project.now ≤ length levels.old.list + levels.old.spare }
    requires changes { length project.now.links.list ≤ facts.old.changes.spare }
    ensures none { IfNone result (ForPeriod project.now facts.old low.now high.now flows.now
        (λ grid standing row. RulesMatter project.now grid standing row seconds → ⊥)) }
    ensures some { IfSome result (λ ending. ForPeriod project.now facts.old low.now high.now flows.now
        (λ grid standing row. IsBrought project.now grid standing row seconds facts.old.changes.list
        facts.new.changes.list links.new ending)) }
    ensures within { IfSome result (λ ending. IfDecided ending (λ s. (0 < s) × (s ≤ seconds))) }
    ensures keeps { facts.new ≡ record facts.old { changes = facts.new.changes } }
    ensures facts_stay { IfNone result (facts.new ≡ facts.old) }
    ensures links_stay { IfNone result (links.new ≡ links.old) }
    ensures open_facts { IfSome result (λ ending. UnlessByRules ending (facts.new ≡ facts.old)) }
    ensures open_links { IfSome result (λ ending. UnlessByRules ending (links.new ≡ links.old)) }
    ensures room { facts.new.changes.spare + length facts.new.changes.list
        ≡ facts.old.changes.spare + length facts.old.changes.list }
    ensures levels { length levels.old.list + levels.old.spare ≤ length levels.new.list + levels.new.spare }
{
    if let Err(found) = try_rules(project, facts, low, high, flows, seconds, levels, values) {
        return Some(Ending::RuleOpen(found));
    }
    if changes_any(project, values, links, &mut facts.changes) {
        return Some(Ending::ByRules(seconds));
    }
    None
}

/// The end that the rules bring about at the first instant at which they matter, up to so many seconds after the start:
/// what they change is carried out, or one of them is open. They are tried at each multiple of the rule step (EPANET
/// 2.2 User Manual, chapter 3, rule-based controls).
pub(crate) fn end_by_rules(
    project: &Project,
    facts: &mut Facts,
    low: &[i64],
    high: &[i64],
    flows: &[Span],
    last: u32,
    levels: &mut List<LevelSpan>,
    values: &mut [bool],
    links: &mut [LinkState],
) -> Option<Ending>
    requires sound { IsSound project.now }
    requires tanks { HaveTanks project.now facts.old }
    requires time { facts.old.time + last ≤ 10 ^ 8 }
    requires each_low { length low.now ≡ nodes_before_tanks project.now }
    requires each_high { length high.now ≡ nodes_before_tanks project.now }
    requires each_flow { length flows.now ≡ length project.now.links.list }
    requires bounded { All IsBounded flows.now }
    requires each_link { length links.old ≡ length project.now.links.list }
    requires links { links.old ≡ facts.old.links.list }
    requires each_value { length values.old ≡ length project.now.rules.list }
    requires levels { tank_count project.now ≤ length levels.old.list + levels.old.spare }
    requires changes { length project.now.links.list ≤ facts.old.changes.spare }
    ensures none { IfNone result (ForPeriod project.now facts.old low.now high.now flows.now
        (λ grid standing row. (s : ℕ) → RulesMatter project.now grid standing row s → last < s)) }
    ensures some { IfSome result (λ ending. ForPeriod project.now facts.old low.now high.now flows.now
        (λ grid standing row. IsFirstBrought project.now grid standing row last facts.old.changes.list
        facts.new.changes.list links.new ending)) }
    ensures within { IfSome result (λ ending. IfDecided ending (λ s. (0 < s) × (s ≤ last))) }
    ensures keeps { facts.new ≡ record facts.old { changes = facts.new.changes } }
    ensures facts_stay { IfNone result (facts.new ≡ facts.old) }
    ensures links_stay { IfNone result (links.new ≡ links.old) }
    ensures open_facts { IfSome result (λ ending. UnlessByRules ending (facts.new ≡ facts.old)) }
    ensures open_links { IfSome result (λ ending. UnlessByRules ending (links.new ≡ links.old)) }
    ensures room { facts.new.changes.spare + length facts.new.changes.list
        ≡ facts.old.changes.spare + length facts.old.changes.list }
    ensures levels { length levels.old.list + levels.old.spare ≤ length levels.new.list + levels.new.spare }
{
    let step = project.times.rule;
    let mut seconds = step - facts.time % step;
    while seconds <= last {
        if let Some(ending) = end_at(
            project, facts, low, high, flows, seconds, levels, values, links,
        ) {
            return Some(ending);
        }
        seconds += step;
    }
    None
}
