//! The opening of a run.
#![tactic(auto)]

ghost use Rattle.std.specs.Prelude.{◌≡◌, false, length, map, None, IfOk};
ghost use Rattle.hyd_net.specs.Sound.{IsSound};
ghost use Rattle.hyd_spec_certificates.specs.RecordAndStanding.{initial_standing};
ghost use Rattle.hyd_spec_certificates.specs.SpansAsIntervals.{levels_of};
ghost use Rattle.hyd_tank.specs.StockIntervals.{volumes_of};
ghost use Rattle.hyd_cert.specs.RecordView.{header_of};
ghost use Rattle.hyd_period_end.specs.EndOfPeriod.{HasRoom as HasCloseRoom, AreKeptIn};
ghost use Rattle.hyd_period_facts.specs.ReservedMemory.{HasRoom};
ghost use Rattle.hyd_period_facts.specs.RoomForStocks.{HasRoom as HasNextRoom};
ghost use Rattle.hyd_period_network.specs.NetsSetToPeriods.{IsNetOf};
ghost use Rattle.hyd_sim.specs.RunView.{IsStanding, header_for, standing_for, standing_of};

use crate::settings::Settings;
use crate::sim::Sim;
use crate::standing_between_periods::Standing;
use hyd_cert::{Record, version_of};
use hyd_net::{LinkState, OutOfMemory, Project};
use hyd_period_end::PeriodEnd;
use hyd_period_facts::{Facts, TankStart};
use hyd_period_network::Net;
use hyd_period_vectors::Search;
use std::alloc::Global;

// The states in which links start.
fn starts(alloc: Global, project: &Project) -> Result<Vec<LinkState>, OutOfMemory>
    ensures { IfOk result (λ v. v.items ≡ map (λ link. link.start) project.now.links.list) }
{
    let links = project.links.as_slice();
    let mut states = Vec::with_capacity(alloc, links.len())?;
    for place in 0..links.len() {
        states.push(links[place].start)?;
    }
    Ok(states)
}

// Puts the states in which links start.
fn put_starts(project: &Project, states: &mut [LinkState])
    requires { length states.old ≡ length project.now.links.list }
    ensures { states.new ≡ map (λ link. link.start) project.now.links.list }
{
    let links = project.links.as_slice();
    for place in 0..states.len() {
        states[place] = links[place].start;
    }
}

// Puts a network's start into a standing that has room for it.
fn put_start(project: &Project, standing: &mut Standing)
    requires sound { IsSound project.now }
    requires room { HasNextRoom project.now standing.old.stocks }
    requires each { length standing.old.commanded.items ≡ length project.now.links.list }
    ensures number { standing.new.number ≡ 0 }
    ensures time { standing.new.time ≡ 0 }
    ensures levels { map levels_of standing.new.stocks.levels.list ≡ (initial_standing project.now).levels }
    ensures volumes { map volumes_of standing.new.stocks.volumes.list ≡ (initial_standing project.now).volumes }
    ensures tanks { standing.new.stocks.tanks.list ≡ (initial_standing project.now).tanks }
    ensures commanded { standing.new.commanded.items ≡ (initial_standing project.now).commanded }
    ensures finished { standing.new.finished ≡ false }
    ensures held { AreKeptIn project.now standing.new.stocks }
    ensures room { HasNextRoom project.now standing.new.stocks }
{
    standing.stocks.begin(project);
    put_starts(project, &mut standing.commanded);
    standing.number = 0;
    standing.time = 0;
    standing.finished = false;
}

// Makes a standing of a run the one at which it begins.
fn begin(project: &Project, standing: &mut Standing)
    requires sound { IsSound project.now }
    requires standing { IsStanding project.now standing.old }
    ensures initial { standing_for standing.new ≡ initial_standing project.now }
    ensures standing { IsStanding project.now standing.new }
{
    put_start(project, standing);
}

// The standing at which a run begins.
fn first_standing(alloc: Global, project: &Project) -> Result<Standing, OutOfMemory>
    requires { IsSound project.now }
    ensures initial { IfOk result (λ standing. standing_for standing ≡ initial_standing project.now) }
    ensures standing { IfOk result (IsStanding project.now) }
{
    let mut stocks = TankStart::open(alloc, project)?;
    stocks.begin(project);
    let commanded = starts(alloc, project)?;
    Ok(Standing {
        number: 0,
        time: 0,
        stocks,
        commanded,
        finished: false,
    })
}

// What finds and keeps the vectors of a period.
#[derive(Drop)]
struct VectorParts {
    row: Record,
    search: Search,
    net: Net,
}

// What a run knows of a period besides, and of its end.
#[derive(Drop)]
struct PeriodParts {
    standing: Standing,
    facts: Facts,
    close: PeriodEnd,
}

// All that a run holds beside its network and what it is asked for.
#[derive(Drop)]
struct Parts {
    period: PeriodParts,
    vectors: VectorParts,
}

fn open_vector_parts(
    alloc: Global,
    project: &Project,
    rounds: u32,
) -> Result<VectorParts, OutOfMemory>
    requires { IsSound project.now }
    ensures net { IfOk result (λ parts. IsNetOf project.now parts.net) }
    ensures search { IfOk result (λ parts. parts.search
        ≡ record { junctions = length project.now.junctions.list; rounds = rounds }) }
    ensures header { IfOk result (λ parts. header_of parts.row ≡ header_for project.now) }
{
    let junctions = project.junctions.len() as u32;
    let tanks = project.tanks.len() as u32;
    Ok(VectorParts {
        row: Record::open(alloc, version_of(project), junctions, tanks)?,
        search: Search::open(alloc, junctions, rounds)?,
        net: Net::open(alloc, project)?,
    })
}

fn open_period_parts(alloc: Global, project: &Project) -> Result<PeriodParts, OutOfMemory>
    requires { IsSound project.now }
    ensures facts { IfOk result (λ parts. HasRoom project.now parts.facts) }
    ensures initial { IfOk result (λ parts. standing_for parts.standing ≡ initial_standing project.now) }
    ensures standing { IfOk result (λ parts. IsStanding project.now parts.standing) }
    ensures close { IfOk result (λ parts. HasCloseRoom project.now parts.close) }
{
    Ok(PeriodParts {
        standing: first_standing(alloc, project)?,
        facts: Facts::open(alloc, project)?,
        close: PeriodEnd::open(alloc, project)?,
    })
}

// The parts of a run at its start, in two steps: a function that takes memory often and owns much is slow to prove.
fn open_parts(alloc: Global, project: &Project, rounds: u32) -> Result<Parts, OutOfMemory>
    requires { IsSound project.now }
    ensures net { IfOk result (λ parts. IsNetOf project.now parts.vectors.net) }
    ensures search { IfOk result (λ parts. parts.vectors.search
        ≡ record { junctions = length project.now.junctions.list; rounds = rounds }) }
    ensures header { IfOk result (λ parts. header_of parts.vectors.row ≡ header_for project.now) }
    ensures facts { IfOk result (λ parts. HasRoom project.now parts.period.facts) }
    ensures initial { IfOk result (λ parts. standing_for parts.period.standing ≡ initial_standing project.now) }
    ensures standing { IfOk result (λ parts. IsStanding project.now parts.period.standing) }
    ensures close { IfOk result (λ parts. HasCloseRoom project.now parts.period.close) }
{
    Ok(Parts {
        period: open_period_parts(alloc, project)?,
        vectors: open_vector_parts(alloc, project, rounds)?,
    })
}

impl Sim {
    /// A run at its start, with all the memory that it will need.
    pub fn open(alloc: Global, project: Project, settings: Settings) -> Result<Sim, OutOfMemory>
        requires sound { IsSound project }
        ensures standing { IfOk result (λ sim. standing_of sim ≡ initial_standing project) }
        ensures running { IfOk result (λ sim. sim.stopped ≡ None) }
        ensures project { IfOk result (λ sim. sim.project ≡ project) }
        ensures settings { IfOk result (λ sim. sim.settings ≡ settings) }
    {
        let parts = open_parts(alloc, &project, settings.rounds)?;
        Ok(Sim {
            project,
            settings,
            net: parts.vectors.net,
            search: parts.vectors.search,
            row: parts.vectors.row,
            facts: parts.period.facts,
            standing: parts.period.standing,
            close: parts.period.close,
            stopped: None,
        })
    }

    /// Stands at its start again. It takes no memory.
    pub fn begin(&mut self)
        ensures standing { standing_of self.new ≡ initial_standing self.old.project }
        ensures running { self.new.stopped ≡ None }
        ensures project { self.new.project ≡ self.old.project }
        ensures settings { self.new.settings ≡ self.old.settings }
    {
        begin(&self.project, &mut self.standing);
        self.stopped = None;
    }
}
