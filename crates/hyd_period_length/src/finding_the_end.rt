//! When a period ends, by the clock, by levels and by rules.
#![tactic(auto)]

ghost use Rattle.std.specs.Prelude.{◌≡◌, ◌≢◌, ◌+◌, ◌<◌, ◌≤◌, ◌++◌, length};
ghost use Rattle.std.specs.List.{All};
ghost use Rattle.hyd_net.specs.Sound.{IsSound};
ghost use Rattle.hyd_spec.specs.NodeNumbers.{nodes_before_tanks, tank_count};
ghost use Rattle.hyd_spec_certificates.specs.PeriodNetwork.{Grid};
ghost use Rattle.hyd_spec_certificates.specs.RecordAndStanding.{Record, Standing};
ghost use Rattle.hyd_spec_certificates.specs.Decided.{IsEarliestEnd, IsLatestEnd, EndsBy};
ghost use Rattle.hyd_spec_certificates.specs.Valid.{LeavesLinks};
ghost use Rattle.hyd_controls_and_rules.specs.RuleReadings.{IsBounded};
ghost use Rattle.hyd_period_facts.specs.FactsBeforeEnd.{HaveTanks, AreStarted};
ghost use Rattle.hyd_period_length.specs.Endings.{ForPeriod, IfDecided, UnlessByRules, end_of, changes_by};

use crate::end_kinds::Ending;
use crate::length::clock_length;
use crate::rule_instants::end_by_rules;
use hyd_net::{LinkState, List, Project};
use hyd_num::Span;
use hyd_period_facts::{Ends, Facts, level_ends};
use hyd_spec_certificates::LevelSpan;

// The earliest and the latest end by the clock and by levels.
fn ends_of(project: &Project, facts: &Facts) -> Ends
    requires sound { IsSound project.now }
    requires tanks { HaveTanks project.now facts.now }
    requires before_end { facts.now.time < project.now.times.duration }
    ensures earliest { (grid : Grid) (standing : Standing) (row : Record)
        → AreStarted project.now grid standing row facts.now
        → IsEarliestEnd project.now grid standing row result.earliest }
    ensures latest { (grid : Grid) (standing : Standing) (row : Record)
        → AreStarted project.now grid standing row facts.now
        → IsLatestEnd project.now grid standing row result.latest }
    ensures some { 0 < result.earliest }
    ensures within { facts.now.time + result.earliest ≤ project.now.times.duration }
{
    let cap = clock_length(project, facts.time);
    level_ends(project, facts, cap)
}

// The end where the rules don't matter up to the earliest one.
fn end_without_rules(ends: Ends) -> Ending
    ensures decided { ends.earliest ≡ ends.latest → result ≡ Ending.WithoutRules ends.earliest }
    ensures open { ends.earliest ≢ ends.latest → result ≡ Ending.EventOpen ends.earliest ends.latest }
{
    if ends.earliest == ends.latest {
        return Ending::WithoutRules(ends.earliest);
    }
    Ending::EventOpen {
        earliest: ends.earliest,
        latest: ends.latest,
    }
}

/// Finds how a period ends that begins before the end of the run. Up to its earliest end by the clock or a level, the
/// rules are tried at each multiple of the rule step (EPANET 2.2 User Manual, chapter 3, rule-based controls). At the
/// first of these instants at which one is open or they change a link, the end is open by it or lies there. Where there
/// is none, it is decided exactly where the latest end is the same as the earliest.
///
/// The facts hold what is known at the start of the period, with what flows into its tanks; `low` and `high` are the
/// heads of junctions and then of reservoirs from below and from above, `flows` the flows of links. `links` holds the
/// states of links of the period and is left with those that its end commands. What the rules change is appended to the
/// changes of the facts. Where the end is open, links and facts stay. `levels` and `values` are room for the carried
/// levels and for the values of rules, so no memory is taken.
pub fn find_end(
    project: &Project,
    facts: &mut Facts,
    low: &[i64],
    high: &[i64],
    flows: &[Span],
    levels: &mut List<LevelSpan>,
    values: &mut [bool],
    links: &mut [LinkState],
) -> Ending
    requires sound { IsSound project.now }
    requires tanks { HaveTanks project.now facts.old }
    requires before_end { facts.old.time < project.now.times.duration }
    requires each_low { length low.now ≡ nodes_before_tanks project.now }
    requires each_high { length high.now ≡ nodes_before_tanks project.now }
    requires each_flow { length flows.now ≡ length project.now.links.list }
    requires bounded { All IsBounded flows.now }
    requires each_link { length links.old ≡ length project.now.links.list }
    requires links { links.old ≡ facts.old.links.list }
    requires each_value { length values.old ≡ length project.now.rules.list }
    requires levels { tank_count project.now ≤ length levels.old.list + levels.old.spare }
    requires changes { length project.now.links.list ≤ facts.old.changes.spare }
    ensures ends { ForPeriod project.now facts.old low.now high.now flows.now
        (λ grid standing row. EndsBy project.now grid standing row (end_of result)) }
    ensures leaves { ForPeriod project.now facts.old low.now high.now flows.now
        (λ grid standing row. IfDecided result
        (λ seconds. LeavesLinks project.now grid standing row seconds links.new)) }
    ensures changes { ForPeriod project.now facts.old low.now high.now flows.now
        (λ grid standing row. facts.new.changes.list
        ≡ facts.old.changes.list ++ changes_by project.now grid standing row result) }
    ensures some { IfDecided result (λ seconds. 0 < seconds) }
    ensures within { IfDecided result (λ seconds. facts.old.time + seconds ≤ project.now.times.duration) }
    ensures keeps { facts.new ≡ record facts.old { changes = facts.new.changes } }
    ensures facts_stay { UnlessByRules result (facts.new ≡ facts.old) }
    ensures links_stay { UnlessByRules result (links.new ≡ links.old) }
    ensures room { facts.new.changes.spare + length facts.new.changes.list
        ≡ facts.old.changes.spare + length facts.old.changes.list }
    ensures levels { length levels.old.list + levels.old.spare ≤ length levels.new.list + levels.new.spare }
{
    let ends = ends_of(project, facts);
    let last = ends.earliest;
    if let Some(ending) = end_by_rules(
        project, facts, low, high, flows, last, levels, values, links,
    ) {
        return ending;
    }
    end_without_rules(ends)
}
