//! The facts and the states of links at the start of a period.
#![tactic(auto)]

ghost use Rattle.std.specs.Prelude.{◌≡◌, ◌≤◌, ◌+◌, length, map};
ghost use Rattle.hyd_net.specs.Sound.{IsSound};
ghost use Rattle.hyd_spec.specs.PumpPatternsAndSimpleControls.{started};
ghost use Rattle.hyd_spec.specs.NodeNumbers.{tank_count};
ghost use Rattle.hyd_spec_certificates.specs.SpansAsIntervals.{levels_of};
ghost use Rattle.hyd_spec_certificates.specs.Decided.{acts_on};
ghost use Rattle.hyd_spec_certificates.specs.Valid.{ControlsAreDecided};
ghost use Rattle.hyd_spec_certificates.specs.ChangesAtStart.{start_changes};
ghost use Rattle.hyd_period_facts.specs.ReservedMemory.{HasRoom};
ghost use Rattle.hyd_period_network.specs.LawsInSettings.{AreStates};
ghost use Rattle.hyd_period_end.specs.FactsBeforeVectors.{AreBegun, AreReady};
ghost use Rattle.hyd_open_sim_start.specs.StandingsOfOpenRuns.{IsStanding, known_for};

use crate::standing::Standing;
use hyd_controls_and_rules::{Changes, settle};
use hyd_net::{LinkState, List, Project};
use hyd_period_facts::{Facts, TankStart};
use hyd_spec_certificates::LevelSpan;

// Makes a list these items, for which it has room.
fn refill<T: Copy + Drop>(list: &mut List<T>, items: &[T])
    requires room { length items.now ≤ length list.old.list + list.old.spare }
    ensures items { list.new.list ≡ items.now }
    ensures room { length list.old.list + list.old.spare ≤ length list.new.list + list.new.spare }
{
    list.clear();
    for place in 0..items.len() {
        list.push(items[place]).unwrap();
    }
}

// Puts the stocks and the states of tanks into facts. All else of them stays.
fn put_tanks(stocks: &TankStart, facts: &mut Facts)
    requires levels { length stocks.now.levels.list ≤ length facts.old.levels.list + facts.old.levels.spare }
    requires volumes { length stocks.now.volumes.list ≤ length facts.old.volumes.list + facts.old.volumes.spare }
    requires tanks { length stocks.now.tanks.list ≤ length facts.old.tanks.list + facts.old.tanks.spare }
    ensures levels { facts.new.levels.list ≡ stocks.now.levels.list }
    ensures volumes { facts.new.volumes.list ≡ stocks.now.volumes.list }
    ensures tanks { facts.new.tanks.list ≡ stocks.now.tanks.list }
    ensures levels_room { length facts.old.levels.list + facts.old.levels.spare
        ≤ length facts.new.levels.list + facts.new.levels.spare }
    ensures volumes_room { length facts.old.volumes.list + facts.old.volumes.spare
        ≤ length facts.new.volumes.list + facts.new.volumes.spare }
    ensures tanks_room { length facts.old.tanks.list + facts.old.tanks.spare
        ≤ length facts.new.tanks.list + facts.new.tanks.spare }
    ensures keeps { facts.new ≡ record facts.old {
      levels = facts.new.levels;
      volumes = facts.new.volumes;
      tanks = facts.new.tanks;
    } }
{
    refill(&mut facts.levels, stocks.levels.as_slice());
    refill(&mut facts.volumes, stocks.volumes.as_slice());
    refill(&mut facts.tanks, stocks.tanks.as_slice());
}

// Puts links, from the states that they were commanded to be in, to those at the start of a period, with what changed
// them there. The room of the changes stays.
fn start_links(
    project: &Project,
    time: u32,
    levels: &[LevelSpan],
    commanded: &[LinkState],
    links: &mut [LinkState],
    changes: &mut Changes,
)
    requires sound { IsSound project.now }
    requires each_level { length levels.now ≡ tank_count project.now }
    requires decided { ControlsAreDecided project.now (map levels_of levels.now) }
    requires each_state { length commanded.now ≡ length project.now.links.list }
    requires each_link { length links.old ≡ length project.now.links.list }
    requires room { length project.now.controls.list ≤ length changes.old.list + changes.old.spare }
    ensures links { links.new ≡ started project.now time (acts_on (map levels_of levels.now)) commanded.now }
    ensures changes { changes.new.list
        ≡ start_changes project.now time (acts_on (map levels_of levels.now)) commanded.now }
    ensures few { length changes.new.list ≤ length project.now.controls.list }
    ensures room { length changes.new.list + changes.new.spare ≡ length changes.old.list + changes.old.spare }
    ensures each { length links.new ≡ length links.old }
{
    links.copy_from_slice(commanded);
    changes.clear();
    if settle(project, time, levels, links, changes).is_err() {
        unreachable!()
    }
}

/// Makes facts those of a period that begins at a standing, and links those of it, with the controls of the start
/// carried out. What follows of the period isn't in the facts yet; their room stays.
pub fn begin(project: &Project, standing: &Standing, links: &mut [LinkState], facts: &mut Facts)
    requires sound { IsSound project.now }
    requires standing { IsStanding project.now standing.now }
    requires each { length links.old ≡ length project.now.links.list }
    requires room { HasRoom project.now facts.old }
    ensures begun { AreBegun project.now (known_for standing.now) facts.new }
    ensures ready { AreReady project.now facts.new }
    ensures links { facts.new.links.list ≡ links.new }
    ensures states { AreStates project.now links.new }
    ensures each { length links.new ≡ length links.old }
{
    facts.time = standing.time;
    put_tanks(&standing.stocks, facts);
    start_links(
        project,
        standing.time,
        standing.stocks.levels.as_slice(),
        &standing.commanded,
        links,
        &mut facts.changes,
    );
    refill(&mut facts.links, links);
}
