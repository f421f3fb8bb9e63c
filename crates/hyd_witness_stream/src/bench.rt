//! What a search for a witness works with.

ghost use Rattle.std.specs.Prelude.{◌≡◌, IfOk};
ghost use Rattle.hyd_net.specs.Sound.{IsSound};
ghost use Rattle.hyd_laws_at_scale.specs.Scales.{parts_of};
ghost use Rattle.hyd_witness_stream.specs.Benches.{AreAtStart, AreFor, IsAtStart, IsBench, IsEntryFor};

use hyd_cert::{FlowPart, Record, version_of};
use hyd_course::Course;
use hyd_laws_at_scale::Scale;
use hyd_net::{OutOfMemory, Project};
use hyd_sim::{Settings, Sim};
use hyd_witness_search::Search;
use hyd_witness_texts::Moment;
use hyd_witness_trials::counts_of;
use std::alloc::Global;

/// A search finds no vectors, so it needs no rounds.
const NO_ROUNDS: Settings = Settings {
    rounds: 0,
    width: 0,
    tight: false,
};

/// What a record of a certificate is read into, and the part behind it.
#[derive(Drop)]
pub struct Entry {
    pub row: Record,
    pub part: FlowPart,
}

/// What moments are found with.
#[derive(Drop)]
pub struct MomentSearch {
    pub course: Course,
    pub search: Search,
    pub moment: Moment,
}

/// What one search for a witness after another works with.
#[derive(Drop)]
pub struct Bench {
    pub sim: Sim,
    pub entry: Entry,
    pub moments: MomentSearch,
}

// Room for a record of a network and its part.
fn open_entry(alloc: Global, project: &Project) -> Result<Entry, OutOfMemory>
    requires { IsSound project.now }
    ensures { IfOk result (IsEntryFor project.now) }
{
    let junctions = project.junctions.len() as u32;
    let tanks = project.tanks.len() as u32;
    let row = Record::open(alloc, version_of(project), junctions, tanks)?;
    let part = FlowPart::open(alloc, junctions)?;
    Ok(Entry { row, part })
}

// What moments of a network are found with at a scale, before the first one.
fn open_moments(alloc: Global, project: &Project, scale: Scale) -> Result<MomentSearch, OutOfMemory>
    requires { IsSound project.now }
    ensures { IfOk result (AreAtStart project.now (parts_of scale)) }
{
    let course = Course::open(alloc, project, scale)?;
    let search = Search::open(alloc, &course.trial.set.net)?;
    let moment = Moment::open(alloc, counts_of(project))?;
    Ok(MomentSearch {
        course,
        search,
        moment,
    })
}

// Puts the course before the first period again, at a scale.
fn begin_moments(project: &Project, scale: Scale, moments: &mut MomentSearch)
    requires sound { IsSound project.now }
    requires moments { AreFor project.now moments.old }
    ensures { AreAtStart project.now (parts_of scale) moments.new }
{
    moments.course.begin(project, scale);
}

fn drop_entry(_entry: Entry, _moments: MomentSearch) {}

impl Bench {
    /// What a search for a witness of a network at a scale works with, at its start, with all the memory that it takes.
    pub fn open(alloc: Global, project: Project, scale: Scale) -> Result<Bench, OutOfMemory>
        requires { IsSound project }
        ensures start { IfOk result (IsAtStart (parts_of scale)) }
        ensures project { IfOk result (λ bench. bench.sim.project ≡ project) }
    {
        let entry = open_entry(alloc, &project)?;
        let moments = open_moments(alloc, &project, scale)?;
        let sim = Sim::open(alloc, project, NO_ROUNDS)?;
        Ok(Bench {
            sim,
            entry,
            moments,
        })
    }

    /// Stands at the start of a search again, at a scale. It takes no memory.
    pub fn begin(&mut self, scale: Scale)
        requires { IsBench self.old }
        ensures start { IsAtStart (parts_of scale) self.new }
        ensures project { self.new.sim.project ≡ self.old.sim.project }
    {
        self.sim.begin();
        begin_moments(self.sim.project(), scale, &mut self.moments);
    }

    /// Gives the network back. Dropping a bench frees as much, but a function that does is proved with all that it
    /// drops.
    pub fn close(self) -> Project
        ensures { result ≡ self.sim.project }
    {
        drop_entry(self.entry, self.moments);
        self.sim.close()
    }
}
