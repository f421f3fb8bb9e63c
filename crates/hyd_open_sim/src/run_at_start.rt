//! The opening of a run.
#![tactic(auto)]

ghost use Rattle.std.specs.Prelude.{◌≡◌, length, None, IfOk};
ghost use Rattle.hyd_net.specs.Sound.{IsSound};
ghost use Rattle.hyd_spec_open_ends.specs.OpenStandings.{initial_open_standing};
ghost use Rattle.hyd_open_certificates.specs.OpenRowView.{open_header_of};
ghost use Rattle.hyd_period_facts.specs.ReservedMemory.{HasRoom};
ghost use Rattle.hyd_period_network.specs.NetsSetToPeriods.{IsNetOf};
ghost use Rattle.hyd_open_period_end.specs.EndOfOpenPeriod.{HasRoom as HasCloseRoom};
ghost use Rattle.hyd_open_sim_start.specs.StandingsOfOpenRuns.{IsStanding, standing_for};
ghost use Rattle.hyd_open_sim.specs.RunView.{header_for, standing_of};

use crate::open_settings::OpenSettings;
use crate::open_sim::OpenSim;
use hyd_net::{OutOfMemory, Project};
use hyd_open_certificates::OpenRow;
use hyd_open_period_end::OpenPeriodEnd;
use hyd_open_sim_start::{Standing, begin_run, first_standing};
use hyd_period_facts::Facts;
use hyd_period_network::Net;
use hyd_period_vectors::Search;
use std::alloc::Global;

// What finds and keeps the vectors of a period.
#[derive(Drop)]
struct VectorParts {
    found: OpenRow,
    search: Search,
    net: Net,
}

// What a run knows of a period besides, and of its end.
#[derive(Drop)]
struct PeriodParts {
    standing: Standing,
    facts: Facts,
    close: OpenPeriodEnd,
}

// All that a run holds beside its network and what it is asked for.
#[derive(Drop)]
struct Parts {
    period: PeriodParts,
    vectors: VectorParts,
}

fn open_vector_parts(
    alloc: Global,
    project: &Project,
    rounds: u32,
) -> Result<VectorParts, OutOfMemory>
    requires { IsSound project.now }
    ensures net { IfOk result (λ parts. IsNetOf project.now parts.net) }
    ensures search { IfOk result (λ parts. parts.search
        ≡ record { junctions = length project.now.junctions.list; rounds = rounds }) }
    ensures header { IfOk result (λ parts. open_header_of parts.found ≡ header_for project.now) }
{
    let junctions = project.junctions.len() as u32;
    let tanks = project.tanks.len() as u32;
    Ok(VectorParts {
        found: OpenRow::open(alloc, junctions, tanks)?,
        search: Search::open(alloc, junctions, rounds)?,
        net: Net::open(alloc, project)?,
    })
}

fn open_period_parts(alloc: Global, project: &Project) -> Result<PeriodParts, OutOfMemory>
    requires { IsSound project.now }
    ensures facts { IfOk result (λ parts. HasRoom project.now parts.facts) }
    ensures initial { IfOk result (λ parts. standing_for parts.standing ≡ initial_open_standing project.now) }
    ensures standing { IfOk result (λ parts. IsStanding project.now parts.standing) }
    ensures close { IfOk result (λ parts. HasCloseRoom project.now parts.close) }
{
    Ok(PeriodParts {
        standing: first_standing(alloc, project)?,
        facts: Facts::open(alloc, project)?,
        close: OpenPeriodEnd::open(alloc, project)?,
    })
}

// The parts of a run at its start, in two steps: a function that takes memory often and owns much is slow to prove.
fn open_parts(alloc: Global, project: &Project, rounds: u32) -> Result<Parts, OutOfMemory>
    requires { IsSound project.now }
    ensures net { IfOk result (λ parts. IsNetOf project.now parts.vectors.net) }
    ensures search { IfOk result (λ parts. parts.vectors.search
        ≡ record { junctions = length project.now.junctions.list; rounds = rounds }) }
    ensures header { IfOk result (λ parts. open_header_of parts.vectors.found ≡ header_for project.now) }
    ensures facts { IfOk result (λ parts. HasRoom project.now parts.period.facts) }
    ensures initial { IfOk result (λ parts. standing_for parts.period.standing
        ≡ initial_open_standing project.now) }
    ensures standing { IfOk result (λ parts. IsStanding project.now parts.period.standing) }
    ensures close { IfOk result (λ parts. HasCloseRoom project.now parts.period.close) }
{
    Ok(Parts {
        period: open_period_parts(alloc, project)?,
        vectors: open_vector_parts(alloc, project, rounds)?,
    })
}

impl OpenSim {
    /// A run at its start, with all the memory that it will need.
    pub fn open(
        alloc: Global,
        project: Project,
        settings: OpenSettings,
    ) -> Result<OpenSim, OutOfMemory>
        requires sound { IsSound project }
        ensures standing { IfOk result (λ sim. standing_of sim ≡ initial_open_standing project) }
        ensures running { IfOk result (λ sim. sim.stopped ≡ None) }
        ensures project { IfOk result (λ sim. sim.project ≡ project) }
        ensures settings { IfOk result (λ sim. sim.settings ≡ settings) }
    {
        let parts = open_parts(alloc, &project, settings.search.rounds)?;
        Ok(OpenSim {
            project,
            settings,
            net: parts.vectors.net,
            search: parts.vectors.search,
            found: parts.vectors.found,
            facts: parts.period.facts,
            standing: parts.period.standing,
            close: parts.period.close,
            stopped: None,
        })
    }

    /// Stands at its start again. It takes no memory.
    pub fn begin(&mut self)
        ensures standing { standing_of self.new ≡ initial_open_standing self.old.project }
        ensures running { self.new.stopped ≡ None }
        ensures project { self.new.project ≡ self.old.project }
        ensures settings { self.new.settings ≡ self.old.settings }
    {
        begin_run(&self.project, &mut self.standing);
        self.stopped = None;
    }
}
