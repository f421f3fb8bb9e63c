//! How a period ends by what rules look at.
#![tactic(auto)]

ghost use Rattle.std.specs.Prelude.{ℕ, ◌≡◌, ◌+◌, ◌<◌, ◌≤◌, ◌^◌, length, IfOk, IfErr};
ghost use Rattle.std.specs.List.{All};
ghost use Rattle.hyd_net.specs.Sound.{IsSound};
ghost use Rattle.hyd_spec.specs.NodeNumbers.{nodes_before_tanks, tank_count};
ghost use Rattle.hyd_spec_open_ends.specs.OpenEnds as ends;
ghost use Rattle.hyd_spec_open_ends.specs.OpenRecords.{links_left};
ghost use Rattle.hyd_theorems_on_definitions.specs.LyingInIntervals.{HasStock};
ghost use Rattle.hyd_controls_and_rules.specs.RuleReadings.{IsBounded};
ghost use Rattle.hyd_period_facts.specs.FactsBeforeEnd.{HaveTanks, stocks_in};
ghost use Rattle.hyd_open_rules.specs.OpenReadings.{ForOpenPeriod};
ghost use Rattle.hyd_open_ends.specs.Ways.{way_of, end_of, changes_left};

use hyd_net::{LinkState, List, Project};
use hyd_open_ends::{Open, Way, find_way};
use hyd_period_facts::Facts;
use hyd_period_length::Readings;
use hyd_spec_certificates::LevelSpan;

/// How a period ends by what the rules look at; the links are left as its end commands, and what its rules change stands
/// behind the changes of its start. Fails with the rule or the end that is open.
pub(crate) fn decide_end(
    project: &Project,
    facts: &mut Facts,
    late: u32,
    slack: u32,
    readings: &Readings,
    carried: &mut List<LevelSpan>,
    values: &mut Vec<bool>,
    commanded: &mut Vec<LinkState>,
) -> Result<Way, Open>
    requires sound { IsSound project.now }
    requires tanks { HaveTanks project.now facts.old }
    requires there { (k : ℕ) → HasStock (stocks_in facts.old k) }
    requires before_end { facts.old.time < project.now.times.duration }
    requires late { late ≤ 10 ^ 8 }
    requires each_low { length readings.now.low.list ≡ nodes_before_tanks project.now }
    requires each_high { length readings.now.high.list ≡ nodes_before_tanks project.now }
    requires each_flow { length readings.now.flows.list ≡ length project.now.links.list }
    requires bounded { All IsBounded readings.now.flows.list }
    requires each_link { length commanded.old.items ≡ length project.now.links.list }
    requires links { length facts.old.links.list ≡ length project.now.links.list }
    requires each_value { length values.old.items ≡ length project.now.rules.list }
    requires levels { tank_count project.now ≤ length carried.old.list + carried.old.spare }
    requires changes { length project.now.links.list ≤ facts.old.changes.spare }
    ensures ends { IfOk result (λ way. ForOpenPeriod project.now facts.old late readings.now
        (λ grid standing row. ends.EndsIn project.now grid standing row (way_of way))) }
    ensures within { IfOk result (λ way. ends.late_at_end late (way_of way) ≤ slack) }
    ensures longest { IfOk result (λ way. facts.old.time + ends.longest_length (way_of way)
        ≤ project.now.times.duration) }
    ensures links { IfOk result (λ way. ForOpenPeriod project.now facts.old late readings.now
        (λ grid standing row. commanded.new.items ≡ links_left project.now grid standing row (way_of way))) }
    ensures changes { IfOk result (λ way. ForOpenPeriod project.now facts.old late readings.now
        (λ grid standing row. facts.new.changes.list
        ≡ changes_left project.now grid standing row facts.old.changes.list (way_of way))) }
    ensures open { IfErr result (λ found. ForOpenPeriod project.now facts.old late readings.now
        (λ grid standing row. ends.IsFirstOpen project.now grid standing row slack (end_of found))) }
    ensures keeps { facts.new ≡ record facts.old { changes = facts.new.changes } }
    ensures room { facts.new.changes.spare + length facts.new.changes.list
        ≡ facts.old.changes.spare + length facts.old.changes.list }
    ensures levels { length carried.old.list + carried.old.spare ≤ length carried.new.list + carried.new.spare }
    ensures same_values { length values.new.items ≡ length values.old.items }
    ensures same_links { length commanded.new.items ≡ length commanded.old.items }
{
    commanded.copy_from_slice(facts.links.as_slice());
    find_way(
        project, facts, late, slack, readings, carried, values, commanded,
    )
}
