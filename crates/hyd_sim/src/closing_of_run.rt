//! The closing of a run, which gives its network back, or all that it holds.
#![tactic(auto)]

ghost use Rattle.std.specs.Prelude.{◌≡◌};
ghost use Rattle.hyd_sim.specs.RoomOfRuns.{HasParts};

use crate::sim::Sim;
use crate::standing_between_periods::Standing;
use hyd_cert::Record;
use hyd_net::{LinkState, Project};
use hyd_period_end::PeriodEnd;
use hyd_period_facts::{Facts, TankStart};
use hyd_period_network::Net;
use hyd_period_vectors::Search;

/// What a run holds beside what it was asked for, for a run of another kind of the same network.
#[derive(Drop)]
pub struct SimParts {
    /// The network.
    pub project: Project,
    /// Room for the network of a period.
    pub net: Net,
    /// Room for the search of vectors.
    pub search: Search,
    /// Room for a record.
    pub row: Record,
    /// Room for the facts of a period.
    pub facts: Facts,
    /// Room for the stocks and the states of tanks at a start.
    pub stocks: TankStart,
    /// Room for the commanded states of links.
    pub commanded: Vec<LinkState>,
    /// Room for the end of a period.
    pub close: PeriodEnd,
}

// What a run holds is dropped in two steps: a function that drops much is slow to prove.
fn drop_vectors(_row: Record, _search: Search, _net: Net) {}

fn drop_period(_standing: Standing, _facts: Facts, _close: PeriodEnd) {}

impl Sim {
    /// Closes the run and gives its network back. Dropping a run frees as much, but a function that does is proved
    /// with all that it drops, and one that calls this isn't.
    pub fn close(self) -> Project
        ensures project { result ≡ self.project }
    {
        drop_vectors(self.row, self.search, self.net);
        drop_period(self.standing, self.facts, self.close);
        self.project
    }

    /// Closes the run and gives all back that it holds.
    pub fn into_parts(self) -> SimParts
        ensures project { result.project ≡ self.project }
        ensures room { HasParts self.project self.settings.rounds result }
    {
        SimParts {
            project: self.project,
            net: self.net,
            search: self.search,
            row: self.row,
            facts: self.facts,
            stocks: self.standing.stocks,
            commanded: self.standing.commanded,
            close: self.close,
        }
    }
}
