//! The opening of a run for a spread.
#![tactic(auto)]

ghost use Rattle.std.specs.Prelude.{◌≡◌, length, None, IfOk, IfErr};
ghost use Rattle.hyd_net.specs.Sound.{IsSound};
ghost use Rattle.hyd_spec.specs.NodeNumbers.{tank_count};
ghost use Rattle.hyd_spec_open_spreads.specs.OpenRunsForSpreads.{open_standing_within};
ghost use Rattle.hyd_open_certificates.specs.OpenRowView.{open_header_of};
ghost use Rattle.hyd_period_facts.specs.ReservedMemory.{HasRoom};
ghost use Rattle.hyd_open_period_end.specs.EndOfOpenPeriod.{HasRoom as HasCloseRoom};
ghost use Rattle.hyd_open_sim.specs.RunView.{header_for};
ghost use Rattle.hyd_spread_rows.specs.SpreadsRead.{AreInRange, spread_of};
ghost use Rattle.hyd_spread_networks.specs.NetsOfSpreads.{AreNetsOf};
ghost use Rattle.hyd_spread_networks.specs.RefusedSpreads.{IsRefusedFor};
ghost use Rattle.hyd_spread_networks.specs.declared.fault.SpreadNetsRefused.TheVariants.{OutOfMemory as NoMemory};
ghost use Rattle.hyd_spread_start.specs.StartsOfRuns.{BeginsRun};
ghost use Rattle.hyd_spread_sim.specs.DuePeriods.{IsSearchFor};
ghost use Rattle.hyd_spread_sim.specs.SpreadRunView.{standing_of};

use crate::spread_sim::SpreadSim;
use hyd_net::{OutOfMemory, Project};
use hyd_open_certificates::OpenRow;
use hyd_open_period_end::OpenPeriodEnd;
use hyd_open_sim::OpenSettings;
use hyd_period_facts::Facts;
use hyd_spread_networks::{SpreadNets, SpreadNetsRefused};
use hyd_spread_rows::SpreadRows;
use hyd_spread_start::{SpreadStart, begin_run};
use hyd_spread_vectors::SpreadSearch;
use std::alloc::Global;

// What finds and keeps the vectors of a period.
#[derive(Drop)]
struct VectorParts {
    found: OpenRow,
    search: SpreadSearch,
}

// What a run knows of a period besides, and of its end.
#[derive(Drop)]
struct PeriodParts {
    facts: Facts,
    close: OpenPeriodEnd,
}

// All that a run holds beside its network, what it is asked for and its standing.
#[derive(Drop)]
struct Parts {
    period: PeriodParts,
    vectors: VectorParts,
    nets: SpreadNets,
}

fn open_vector_parts(
    alloc: Global,
    project: &Project,
    rounds: u32,
) -> Result<VectorParts, OutOfMemory>
    requires { IsSound project.now }
    ensures search { IfOk result (λ parts. IsSearchFor project.now rounds parts.search) }
    ensures header { IfOk result (λ parts. open_header_of parts.found ≡ header_for project.now) }
{
    let junctions = project.junctions.len() as u32;
    let tanks = project.tanks.len() as u32;
    Ok(VectorParts {
        found: OpenRow::open(alloc, junctions, tanks)?,
        search: SpreadSearch::open(alloc, junctions, tanks, rounds)?,
    })
}

fn open_period_parts(alloc: Global, project: &Project) -> Result<PeriodParts, OutOfMemory>
    requires { IsSound project.now }
    ensures facts { IfOk result (λ parts. HasRoom project.now parts.facts) }
    ensures close { IfOk result (λ parts. HasCloseRoom project.now parts.close) }
{
    Ok(PeriodParts {
        facts: Facts::open(alloc, project)?,
        close: OpenPeriodEnd::open(alloc, project)?,
    })
}

// The parts of a run at its start, in steps: a function that takes memory often and owns much is slow to prove. The
// nets come first, which may be refused.
fn open_parts(
    alloc: Global,
    project: &Project,
    rows: SpreadRows,
    rounds: u32,
) -> Result<Parts, SpreadNetsRefused>
    requires sound { IsSound project.now }
    requires range { AreInRange rows }
    ensures spread { IfOk result (λ parts. parts.nets.spread ≡ spread_of rows) }
    ensures nets { IfOk result (λ parts. AreNetsOf project.now parts.nets) }
    ensures search { IfOk result (λ parts. IsSearchFor project.now rounds parts.vectors.search) }
    ensures header { IfOk result (λ parts. open_header_of parts.vectors.found ≡ header_for project.now) }
    ensures facts { IfOk result (λ parts. HasRoom project.now parts.period.facts) }
    ensures close { IfOk result (λ parts. HasCloseRoom project.now parts.period.close) }
    ensures refused { IfErr result (IsRefusedFor project.now (spread_of rows)) }
{
    let nets = SpreadNets::open(alloc, project, rows)?;
    let period = open_period_parts(alloc, project)?;
    let vectors = open_vector_parts(alloc, project, rounds)?;
    Ok(Parts {
        period,
        vectors,
        nets,
    })
}

/// Why a run couldn't be opened, and its network.
#[derive(Drop)]
pub struct Unopened {
    pub project: Project,
    pub refused: SpreadNetsRefused,
}

impl SpreadSim {
    /// A run at its start, with all the memory that it will need. Fails where the network has no nets for the spread,
    /// or for want of memory.
    pub fn open(
        alloc: Global,
        project: Project,
        start: SpreadStart,
        settings: OpenSettings,
    ) -> Result<SpreadSim, Unopened>
        requires sound { IsSound project }
        requires start { BeginsRun project start }
        ensures standing { IfOk result (λ sim. standing_of sim ≡ open_standing_within project (spread_of start.rows)) }
        ensures spread { IfOk result (λ sim. sim.nets.spread ≡ spread_of start.rows) }
        ensures running { IfOk result (λ sim. sim.stopped ≡ None) }
        ensures project { IfOk result (λ sim. sim.project ≡ project) }
        ensures settings { IfOk result (λ sim. sim.settings ≡ settings) }
        ensures refused { IfErr result (λ fault. IsRefusedFor project (spread_of start.rows) fault.refused) }
        ensures kept { IfErr result (λ fault. fault.project ≡ project) }
    {
        let standing = start.standing;
        match open_parts(alloc, &project, start.rows, settings.search.rounds) {
            Ok(parts) => Ok(SpreadSim {
                project,
                settings,
                nets: parts.nets,
                search: parts.vectors.search,
                found: parts.vectors.found,
                facts: parts.period.facts,
                standing,
                close: parts.period.close,
                stopped: None,
            }),
            Err(refused) => Err(Unopened { project, refused }),
        }
    }

    /// Stands at its start again. It takes no memory.
    pub fn begin(&mut self)
        ensures standing { standing_of self.new ≡ open_standing_within self.old.project self.old.nets.spread }
        ensures running { self.new.stopped ≡ None }
        ensures project { self.new.project ≡ self.old.project }
        ensures settings { self.new.settings ≡ self.old.settings }
        ensures spread { self.new.nets.spread ≡ self.old.nets.spread }
    {
        begin_run(&self.project, self.nets.spread(), &mut self.standing);
        self.stopped = None;
    }
}
