//! When a period ends and what follows it, or what is open.
#![tactic(auto)]

ghost use Rattle.std.specs.Prelude.{◌≡◌, ◌<◌, ◌≤◌, ◌+◌, ◌^◌, List as ListOf, length, map, IfOk, IfErr, OnOk};
ghost use Rattle.std.specs.List.{All};
ghost use Rattle.hyd_net.specs.Sound.{IsSound};
ghost use Rattle.hyd_spec.specs.ProgramTypes.{LinkState};
ghost use Rattle.hyd_spec.specs.NodeNumbers.{nodes_before_tanks, tank_count};
ghost use Rattle.hyd_spec_certificates.specs.SpansAsIntervals.{levels_of};
ghost use Rattle.hyd_spec_certificates.specs.PeriodNetwork.{Grid};
ghost use Rattle.hyd_spec_certificates.specs.RecordAndStanding.{Record, Standing};
ghost use Rattle.hyd_spec_certificates.specs.Valid.{LeavesLinks, AreStates, ControlsAreDecided, levels_next};
ghost use Rattle.hyd_spec_certificates.specs.Valid.{volumes_next};
ghost use Rattle.hyd_period_facts.specs.PassedOn.{IsBounded};
ghost use Rattle.hyd_tank.specs.StockIntervals.{volumes_of};
ghost use Rattle.hyd_period_facts.specs.FactsBeforeEnd.{HaveTanks, AreStarted};
ghost use Rattle.hyd_period_facts.specs.RoomForStocks.{HasRoom};
ghost use Rattle.hyd_period_length.specs.Endings.{ForPeriod};
ghost use Rattle.hyd_period_end.specs.EndOfPeriod.{Decides, AreKeptIn};
ghost use Rattle.hyd_period_end.specs.OpenMatters.{IsOpenAt};

use crate::undecided::Open;
use hyd_net::{LinkState, List, Project};
use hyd_num::Span;
use hyd_period_facts::{Facts, TankStart, Unsettled};
use hyd_period_length::{Ending, Readings, find_end};
use hyd_spec_certificates::LevelSpan;

// After how many seconds a period ends; the links are left as its end commands, and what its rules change stands behind
// the changes of its start. Fails with the rule or the end that is open.
fn decide(
    project: &Project,
    facts: &mut Facts,
    low: &[i64],
    high: &[i64],
    flows: &[Span],
    carried: &mut List<LevelSpan>,
    values: &mut [bool],
    links: &mut [LinkState],
) -> Result<u32, Open>
    requires sound { IsSound project.now }
    requires tanks { HaveTanks project.now facts.old }
    requires before_end { facts.old.time < project.now.times.duration }
    requires each_low { length low.now ≡ nodes_before_tanks project.now }
    requires each_high { length high.now ≡ nodes_before_tanks project.now }
    requires each_flow { length flows.now ≡ length project.now.links.list }
    requires bounded { All IsBounded flows.now }
    requires each_link { length links.old ≡ length project.now.links.list }
    requires links { links.old ≡ facts.old.links.list }
    requires each_value { length values.old ≡ length project.now.rules.list }
    requires levels { tank_count project.now ≤ length carried.old.list + carried.old.spare }
    requires changes { length project.now.links.list ≤ facts.old.changes.spare }
    ensures decides { IfOk result (λ seconds. ForPeriod project.now facts.old low.now high.now flows.now
        (λ grid standing row. Decides project.now grid standing row seconds links.new facts.old.changes.list
        facts.new.changes.list)) }
    ensures some { IfOk result (λ seconds. 0 < seconds) }
    ensures within { IfOk result (λ seconds. facts.old.time + seconds ≤ project.now.times.duration) }
    ensures open { IfErr result (λ found. ForPeriod project.now facts.old low.now high.now flows.now
        (λ grid standing row. IsOpenAt project.now grid standing row found)) }
    ensures keeps { facts.new ≡ record facts.old { changes = facts.new.changes } }
    ensures room { facts.new.changes.spare + length facts.new.changes.list
        ≡ facts.old.changes.spare + length facts.old.changes.list }
    ensures levels { length carried.old.list + carried.old.spare ≤ length carried.new.list + carried.new.spare }
    ensures same_values { length values.new ≡ length values.old }
    ensures same_links { length links.new ≡ length links.old }
{
    match find_end(project, facts, low, high, flows, carried, values, links) {
        Ending::ByRules(seconds) => Ok(seconds),
        Ending::WithoutRules(seconds) => Ok(seconds),
        Ending::RuleOpen(found) => Err(Open::Rule(found)),
        Ending::EventOpen { earliest, latest } => Err(Open::Event { earliest, latest }),
    }
}

/// After how many seconds a period ends, by what the rules look at; the links are left as its end commands, and what
/// its rules change stands behind the changes of its start. Fails with the rule or the end that is open.
pub(crate) fn decide_end(
    project: &Project,
    facts: &mut Facts,
    readings: &Readings,
    carried: &mut List<LevelSpan>,
    values: &mut Vec<bool>,
    commanded: &mut Vec<LinkState>,
) -> Result<u32, Open>
    requires sound { IsSound project.now }
    requires tanks { HaveTanks project.now facts.old }
    requires before_end { facts.old.time < project.now.times.duration }
    requires each_low { length readings.now.low.list ≡ nodes_before_tanks project.now }
    requires each_high { length readings.now.high.list ≡ nodes_before_tanks project.now }
    requires each_flow { length readings.now.flows.list ≡ length project.now.links.list }
    requires bounded { All IsBounded readings.now.flows.list }
    requires each_link { length commanded.old.items ≡ length project.now.links.list }
    requires links { length facts.old.links.list ≡ length project.now.links.list }
    requires each_value { length values.old.items ≡ length project.now.rules.list }
    requires levels { tank_count project.now ≤ length carried.old.list + carried.old.spare }
    requires changes { length project.now.links.list ≤ facts.old.changes.spare }
    ensures decides { IfOk result (λ seconds. ForPeriod project.now facts.old readings.now.low.list
        readings.now.high.list readings.now.flows.list
        (λ grid standing row. Decides project.now grid standing row seconds commanded.new.items
        facts.old.changes.list facts.new.changes.list)) }
    ensures some { IfOk result (λ seconds. 0 < seconds) }
    ensures within { IfOk result (λ seconds. facts.old.time + seconds ≤ project.now.times.duration) }
    ensures open { IfErr result (λ found. ForPeriod project.now facts.old readings.now.low.list
        readings.now.high.list readings.now.flows.list
        (λ grid standing row. IsOpenAt project.now grid standing row found)) }
    ensures keeps { facts.new ≡ record facts.old { changes = facts.new.changes } }
    ensures room { facts.new.changes.spare + length facts.new.changes.list
        ≡ facts.old.changes.spare + length facts.old.changes.list }
    ensures levels { length carried.old.list + carried.old.spare ≤ length carried.new.list + carried.new.spare }
    ensures same_values { length values.new.items ≡ length values.old.items }
    ensures same_links { length commanded.new.items ≡ length commanded.old.items }
{
    commanded.copy_from_slice(facts.links.as_slice());
    decide(
        project,
        facts,
        readings.low.as_slice(),
        readings.high.as_slice(),
        readings.flows.as_slice(),
        carried,
        values,
        commanded,
    )
}

/// What follows a period that ends after so many seconds. Fails with the tank or the level control that is open there.
pub(crate) fn follow(
    project: &Project,
    facts: &Facts,
    seconds: u32,
    next: &mut TankStart,
) -> Result<(), Open>
    requires sound { IsSound project.now }
    requires tanks { HaveTanks project.now facts.now }
    requires seconds { seconds ≤ 10 ^ 8 }
    requires room { HasRoom project.now next.old }
    ensures levels { (grid : Grid) (standing : Standing) (row : Record)
        → AreStarted project.now grid standing row facts.now
        → map levels_of next.new.levels.list ≡ levels_next project.now grid standing row seconds }
    ensures volumes { (grid : Grid) (standing : Standing) (row : Record)
        → AreStarted project.now grid standing row facts.now
        → map volumes_of next.new.volumes.list ≡ volumes_next project.now grid standing row seconds }
    ensures held { AreKeptIn project.now next.new }
    ensures states { OnOk result (AreStates project.now (map levels_of next.new.levels.list) next.new.tanks.list) }
    ensures controls { OnOk result (ControlsAreDecided project.now (map levels_of next.new.levels.list)) }
    ensures open { IfErr result (λ found. (grid : Grid) (standing : Standing) (row : Record) (links : ListOf LinkState)
        → AreStarted project.now grid standing row facts.now → LeavesLinks project.now grid standing row seconds links
        → IsOpenAt project.now grid standing row found) }
    ensures room { HasRoom project.now next.new }
{
    match next.follow(project, facts, seconds) {
        Ok(()) => Ok(()),
        Err(Unsettled::Tank(found)) => Err(Open::Tank(found)),
        Err(Unsettled::Control(found)) => Err(Open::Control(found)),
    }
}
