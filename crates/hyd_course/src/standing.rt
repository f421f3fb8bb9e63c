//! What is kept of the last period that was met.
#![tactic(auto)]

ghost use Rattle.std.specs.Prelude.{◌≡◌, IfOk, length, replicate};
ghost use Rattle.hyd_net.specs.Sound.{IsSound};
ghost use Rattle.hyd_spec.specs.History.{initial_links};
ghost use Rattle.hyd_spec_witnesses.specs.MetPeriods.{at_start};
ghost use Rattle.hyd_laws_at_scale.specs.Scales.{parts_of};
ghost use Rattle.hyd_course.specs.Standings.{IsStanding, StandsAt};

use hyd_laws_at_scale::Scale;
use hyd_net::{LinkState, OutOfMemory, Project};
use hyd_stocks_at_scale::Stock;
use std::alloc::Global;

/// When a period began and how long it lasts, in seconds.
#[derive(Clone, Copy, Drop)]
pub struct Lasted {
    pub time: u32,
    pub length: u32,
}

/// What is kept of the last period that was met, and how many were.
#[derive(Drop)]
pub struct Standing {
    /// The scale of the witness.
    pub scale: Scale,
    /// How many periods were met.
    pub count: u64,
    /// When the last of them began and how long it lasts; before the first there is none.
    pub last: Option<Lasted>,
    /// The stock of each tank as it began.
    pub stocks: Vec<Stock>,
    /// What flows into each tank in it, in parts of a flow tick.
    pub inflows: Vec<i128>,
    /// The states that links are commanded to be in at its end, or as the file begins.
    pub commanded: Vec<LinkState>,
}

// So many copies of a value.
fn copies<T: Copy>(alloc: Global, value: T, count: usize) -> Result<Vec<T>, OutOfMemory>
    ensures { IfOk result (λ v. v.items ≡ replicate count value) }
{
    let mut items = Vec::new(alloc);
    items.resize(count, value)?;
    Ok(items)
}

// Puts the states of links with which the file begins.
fn put_links_of_file(project: &Project, links: &mut [LinkState])
    requires { length links.old ≡ length project.now.links.list }
    ensures { links.new ≡ initial_links project.now }
{
    let file = project.links.as_slice();
    for link in 0..links.len() {
        links[link] = file[link].start;
    }
}

// The states of links with which the file begins.
fn links_of_file(alloc: Global, project: &Project) -> Result<Vec<LinkState>, OutOfMemory>
    ensures { IfOk result (λ states. states.items ≡ initial_links project.now) }
{
    let links = project.links.as_slice();
    let mut states = Vec::new(alloc);
    for place in 0..links.len() {
        states.push(links[place].start)?;
    }
    Ok(states)
}

impl Standing {
    /// What is kept before the first period, with all the memory that keeping a period takes.
    pub(crate) fn open(
        alloc: Global,
        project: &Project,
        scale: Scale,
    ) -> Result<Standing, OutOfMemory>
        requires { IsSound project.now }
        ensures is { IfOk result (IsStanding project.now) }
        ensures stands { IfOk result (StandsAt project.now (parts_of scale) at_start) }
    {
        let tanks = project.tanks.len();
        let nothing = Stock {
            level: 0,
            volume: 0,
        };
        let stocks = copies(alloc, nothing, tanks)?;
        let inflows = copies(alloc, 0, tanks)?;
        let commanded = links_of_file(alloc, project)?;
        Ok(Standing {
            scale,
            count: 0,
            last: None,
            stocks,
            inflows,
            commanded,
        })
    }

    /// Keeps nothing any more, before the first period.
    pub(crate) fn begin(&mut self, project: &Project, scale: Scale)
        requires sound { IsSound project.now }
        requires is { IsStanding project.now self.old }
        ensures is { IsStanding project.now self.new }
        ensures stands { StandsAt project.now (parts_of scale) at_start self.new }
    {
        self.restore(project);
        self.scale = scale;
        self.count = 0;
        self.last = None;
    }

    // Puts the states of links with which the file begins in place of those at hand.
    fn restore(&mut self, project: &Project)
        requires { length self.old.commanded.items ≡ length project.now.links.list }
        ensures commanded { self.new.commanded.items ≡ initial_links project.now }
        ensures stocks { self.new.stocks ≡ self.old.stocks }
        ensures inflows { self.new.inflows ≡ self.old.inflows }
    {
        put_links_of_file(project, &mut self.commanded);
    }
}
