//! The instants of a period at which the rules are tried, and the first at which they matter.
#![tactic(auto)]

ghost use Rattle.std.specs.Prelude.{◌≡◌, ◌≢◌, ◌+◌, ◌<◌, ◌≤◌, ◌^◌, ◌++◌, [], true, false, length, IfNone, IfSome};
ghost use Rattle.std.specs.List.{All};
ghost use Rattle.hyd_net.specs.Sound.{IsSound};
ghost use Rattle.hyd_spec.specs.NodeNumbers.{nodes_before_tanks, tank_count};
ghost use Rattle.hyd_spec.specs.Rules.{acted, rule_changes};
ghost use Rattle.hyd_spec_open_ends.specs.RulesOverLengths.{RulesMatterOver, NoRuleMattersUpTo};
ghost use Rattle.hyd_controls_and_rules.specs.RuleReadings.{IsBounded};
ghost use Rattle.hyd_period_facts.specs.FactsBeforeEnd.{HaveTanks};
ghost use Rattle.hyd_open_rules.specs.OpenReadings.{ForOpenPeriod};
ghost use Rattle.hyd_open_rules.specs.Matters.{IsBroughtOver, IsFirstMatter, seconds_of};

use crate::matters::Matter;
use crate::tried_rules::try_over;
use hyd_controls_and_rules::{Changes, act};
use hyd_net::{LinkState, List, Project};
use hyd_period_facts::Facts;
use hyd_period_length::Readings;
use hyd_spec_certificates::LevelSpan;

// Carries out what rules with these values change, and tells whether that is anything.
fn changes_any(
    project: &Project,
    values: &[bool],
    links: &mut [LinkState],
    changes: &mut Changes,
) -> bool
    requires sound { IsSound project.now }
    requires each_value { length values.now ≡ length project.now.rules.list }
    requires each_link { length links.old ≡ length project.now.links.list }
    requires room { length project.now.links.list ≤ changes.old.spare }
    ensures none { result ≡ false → rule_changes project.now values.now links.old ≡ [] }
    ensures some { result ≡ true → rule_changes project.now values.now links.old ≢ [] }
    ensures links { links.new ≡ acted project.now values.now links.old }
    ensures rows { changes.new.list ≡ changes.old.list ++ rule_changes project.now values.now links.old }
    ensures room { changes.new.spare + length changes.new.list ≡ changes.old.spare + length changes.old.list }
    ensures links_stay { result ≡ false → links.new ≡ links.old }
    ensures changes_stay { result ≡ false → changes.new ≡ changes.old }
{
    let before = changes.rows().len();
    act(project, values, links, changes);
    changes.rows().len() > before
}

// What the rules bring about so many seconds after the first start, where they matter there.
fn matter_at(
    project: &Project,
    facts: &mut Facts,
    late: u32,
    readings: &Readings,
    seconds: u32,
    levels: &mut List<LevelSpan>,
    values: &mut [bool],
    links: &mut [LinkState],
) -> Option<Matter>
    requires sound { IsSound project.now }
    requires tanks { HaveTanks project.now facts.old }
    requires time { facts.old.time + seconds ≤ 10 ^ 8 }
    requires each_low { length readings.now.low.list ≡ nodes_before_tanks project.now }
    requires each_high { length readings.now.high.list ≡ nodes_before_tanks project.now }
    requires each_flow { length readings.now.flows.list ≡ length project.now.links.list }
    requires bounded { All IsBounded readings.now.flows.list }
    requires each_link { length links.old ≡ length project.now.links.list }
    requires links { links.old ≡ facts.old.links.list }
    requires each_value { length values.old ≡ length project.now.rules.list }
    requires levels { tank_count project.now ≤ length levels.old.list + levels.old.spare }
    requires changes { length project.now.links.list ≤ facts.old.changes.spare }
    ensures none { IfNone result (ForOpenPeriod project.now facts.old late readings.now
        (λ grid standing row. RulesMatterOver project.now grid standing row seconds → ⊥)) }
    ensures some { IfSome result (λ matter. ForOpenPeriod project.now facts.old late readings.now
        (λ grid standing row. IsBroughtOver project.now grid standing row seconds facts.old.changes.list
        facts.new.changes.list links.new matter)) }
    ensures seconds { IfSome result (λ matter. seconds_of matter ≡ seconds) }
    ensures keeps { facts.new ≡ record facts.old { changes = facts.new.changes } }
    ensures facts_stay { IfNone result (facts.new ≡ facts.old) }
    ensures links_stay { IfNone result (links.new ≡ links.old) }
    ensures room { facts.new.changes.spare + length facts.new.changes.list
        ≡ facts.old.changes.spare + length facts.old.changes.list }
    ensures levels { length levels.old.list + levels.old.spare ≤ length levels.new.list + levels.new.spare }
{
    if let Err(found) = try_over(project, facts, late, readings, seconds, levels, values) {
        return Some(Matter::Open { seconds, found });
    }
    if changes_any(project, values, links, &mut facts.changes) {
        return Some(Matter::Acts(seconds));
    }
    None
}

/// What the rules bring about at the first instant at which they matter, up to so many seconds after the first second
/// in which a period may begin, which is open by `late` seconds: they change a link there, which is carried out, or one
/// of them is open. They are tried at each multiple of the rule step (EPANET 2.2 User Manual, chapter 3, rule-based
/// controls).
///
/// The facts hold what is known at the start of the period, with what flows into its tanks, the readings what the rules
/// look at in it. `links` holds the states of links of the period. Where the rules act they are left with those that
/// the rules command, and what the rules change is appended to the changes of the facts; where they matter at no
/// instant, both stay. `levels` and `values` are room for the carried levels and for the values of rules, so no memory
/// is taken.
pub fn first_matter(
    project: &Project,
    facts: &mut Facts,
    late: u32,
    readings: &Readings,
    last: u32,
    levels: &mut List<LevelSpan>,
    values: &mut [bool],
    links: &mut [LinkState],
) -> Option<Matter>
    requires sound { IsSound project.now }
    requires tanks { HaveTanks project.now facts.old }
    requires time { facts.old.time + last ≤ 10 ^ 8 }
    requires each_low { length readings.now.low.list ≡ nodes_before_tanks project.now }
    requires each_high { length readings.now.high.list ≡ nodes_before_tanks project.now }
    requires each_flow { length readings.now.flows.list ≡ length project.now.links.list }
    requires bounded { All IsBounded readings.now.flows.list }
    requires each_link { length links.old ≡ length project.now.links.list }
    requires links { links.old ≡ facts.old.links.list }
    requires each_value { length values.old ≡ length project.now.rules.list }
    requires levels { tank_count project.now ≤ length levels.old.list + levels.old.spare }
    requires changes { length project.now.links.list ≤ facts.old.changes.spare }
    ensures none { IfNone result (ForOpenPeriod project.now facts.old late readings.now
        (λ grid standing row. NoRuleMattersUpTo project.now grid standing row last)) }
    ensures some { IfSome result (λ matter. ForOpenPeriod project.now facts.old late readings.now
        (λ grid standing row. IsFirstMatter project.now grid standing row last facts.old.changes.list
        facts.new.changes.list links.new matter)) }
    ensures later { IfSome result (λ matter. 0 < seconds_of matter) }
    ensures in_time { IfSome result (λ matter. seconds_of matter ≤ last) }
    ensures keeps { facts.new ≡ record facts.old { changes = facts.new.changes } }
    ensures facts_stay { IfNone result (facts.new ≡ facts.old) }
    ensures links_stay { IfNone result (links.new ≡ links.old) }
    ensures room { facts.new.changes.spare + length facts.new.changes.list
        ≡ facts.old.changes.spare + length facts.old.changes.list }
    ensures levels { length levels.old.list + levels.old.spare ≤ length levels.new.list + levels.new.spare }
{
    let step = project.times.rule;
    let mut seconds = step - facts.time % step;
    while seconds <= last {
        if let Some(matter) = matter_at(
            project, facts, late, readings, seconds, levels, values, links,
        ) {
            return Some(matter);
        }
        seconds += step;
    }
    None
}
