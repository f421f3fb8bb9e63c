//! How a period ends whose start lies between two seconds.
#![tactic(auto)]

ghost use Rattle.std.specs.Prelude.{ℕ, ◌≡◌, ◌+◌, ◌<◌, ◌≤◌, ◌^◌, length, IfOk, IfErr};
ghost use Rattle.std.specs.List.{All};
ghost use Rattle.hyd_net.specs.Sound.{IsSound};
ghost use Rattle.hyd_spec.specs.NodeNumbers.{nodes_before_tanks, tank_count};
ghost use Rattle.hyd_spec_open_ends.specs.OpenEnds as ends;
ghost use Rattle.hyd_spec_open_ends.specs.OpenRecords.{links_left};
ghost use Rattle.hyd_theorems_on_definitions.specs.LyingInIntervals.{HasStock};
ghost use Rattle.hyd_controls_and_rules.specs.RuleReadings.{IsBounded};
ghost use Rattle.hyd_period_facts.specs.FactsBeforeEnd.{HaveTanks, stocks_in};
ghost use Rattle.hyd_open_rules.specs.OpenReadings.{ForOpenPeriod};
ghost use Rattle.hyd_open_ends.specs.Ways.{way_of, end_of, changes_left};

use crate::seconds_tried::last_tried;
use crate::ways::{Open, Way};
use crate::with_rules::with_rules;
use crate::without_rules::without_rules;
use hyd_net::{LinkState, List, Project};
use hyd_open_rules::first_matter;
use hyd_open_watches::find_seconds;
use hyd_period_facts::Facts;
use hyd_period_length::Readings;
use hyd_spec_certificates::LevelSpan;

/// How a period ends whose start is open by `late` seconds, where its end may be open by at most `slack`: by the rules,
/// at the next instant of the clock, or by what is watched, between two lengths (EPANET 2.2 User Manual, chapter 3).
/// Fails with [`Open`], what is open first, exactly where it ends in none of these ways.
///
/// The facts hold what is known at the start of the period, with what flows into its tanks, the readings what the rules
/// look at in it; some stock lies between the ends of each interval. `links` holds the states of links of the period.
/// Where it ends, they are left with those that are commanded there, and what the rules change is appended to the
/// changes of the facts. `levels` and `values` are room for the carried levels and for the values of rules, so no
/// memory is taken.
pub fn find_way(
    project: &Project,
    facts: &mut Facts,
    late: u32,
    slack: u32,
    readings: &Readings,
    levels: &mut List<LevelSpan>,
    values: &mut [bool],
    links: &mut [LinkState],
) -> Result<Way, Open>
    requires sound { IsSound project.now }
    requires tanks { HaveTanks project.now facts.old }
    requires there { (k : ℕ) → HasStock (stocks_in facts.old k) }
    requires before_end { facts.old.time < project.now.times.duration }
    requires late { late ≤ 10 ^ 8 }
    requires each_low { length readings.now.low.list ≡ nodes_before_tanks project.now }
    requires each_high { length readings.now.high.list ≡ nodes_before_tanks project.now }
    requires each_flow { length readings.now.flows.list ≡ length project.now.links.list }
    requires bounded { All IsBounded readings.now.flows.list }
    requires each_link { length links.old ≡ length project.now.links.list }
    requires links { links.old ≡ facts.old.links.list }
    requires each_value { length values.old ≡ length project.now.rules.list }
    requires levels { tank_count project.now ≤ length levels.old.list + levels.old.spare }
    requires changes { length project.now.links.list ≤ facts.old.changes.spare }
    ensures ends { IfOk result (λ way. ForOpenPeriod project.now facts.old late readings.now
        (λ grid standing row. ends.EndsIn project.now grid standing row (way_of way))) }
    ensures within { IfOk result (λ way. ends.late_at_end late (way_of way) ≤ slack) }
    ensures longest { IfOk result (λ way. facts.old.time + ends.longest_length (way_of way)
        ≤ project.now.times.duration) }
    ensures links { IfOk result (λ way. ForOpenPeriod project.now facts.old late readings.now
        (λ grid standing row. links.new ≡ links_left project.now grid standing row (way_of way))) }
    ensures changes { IfOk result (λ way. ForOpenPeriod project.now facts.old late readings.now
        (λ grid standing row. facts.new.changes.list
        ≡ changes_left project.now grid standing row facts.old.changes.list (way_of way))) }
    ensures open { IfErr result (λ found. ForOpenPeriod project.now facts.old late readings.now
        (λ grid standing row. ends.IsFirstOpen project.now grid standing row slack (end_of found))) }
    ensures keeps { facts.new ≡ record facts.old { changes = facts.new.changes } }
    ensures room { facts.new.changes.spare + length facts.new.changes.list
        ≡ facts.old.changes.spare + length facts.old.changes.list }
    ensures levels { length levels.old.list + levels.old.spare ≤ length levels.new.list + levels.new.spare }
{
    let seconds = find_seconds(project, facts);
    let last = last_tried(late, slack, seconds);
    match first_matter(project, facts, late, readings, last, levels, values, links) {
        None => without_rules(late, slack, seconds),
        Some(matter) => with_rules(late, seconds, matter),
    }
}
