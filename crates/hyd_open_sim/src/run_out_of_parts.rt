//! A run out of what another kind of run of the same network held: it takes no memory, but for the events of ends that
//! are open by some seconds, which the other kind doesn't have.
#![tactic(auto)]

ghost use Rattle.std.specs.Prelude.{◌≡◌, None, IfOk};
ghost use Rattle.hyd_net.specs.Sound.{IsSound};
ghost use Rattle.hyd_spec_open_ends.specs.OpenStandings.{initial_open_standing};
ghost use Rattle.hyd_sim.specs.RoomOfRuns.{HasParts};
ghost use Rattle.hyd_open_sim.specs.RoomForEvents.{HasEventRoom};
ghost use Rattle.hyd_open_sim.specs.RunView.{standing_of};

use crate::open_settings::OpenSettings;
use crate::open_sim::OpenSim;
use hyd_net::{List, OutOfMemory, Project};
use hyd_open_certificates::OpenRow;
use hyd_open_period_end::OpenPeriodEnd;
use hyd_open_sim_start::standing_within;
use hyd_sim::SimParts;
use hyd_spec_certificates::Event;
use std::alloc::Global;

/// Room for what happens at the end of each period of a network, where that is open by some seconds: no end takes memory.
pub fn room_for_events(alloc: Global, project: &Project) -> Result<List<Event>, OutOfMemory>
    requires { IsSound project.now }
    ensures room { IfOk result (HasEventRoom project.now) }
{
    List::with_room(alloc, project.tanks.len() + project.controls.len())
}

impl OpenSim {
    /// A run at its start, in the room that a run of the same network held which was asked for as many rounds, and in
    /// room for the events of its ends. It takes no memory.
    pub fn of(parts: SimParts, opened: List<Event>, settings: OpenSettings) -> OpenSim
        requires parts { HasParts parts.project settings.search.rounds parts }
        requires opened { HasEventRoom parts.project opened }
        ensures standing { standing_of result ≡ initial_open_standing parts.project }
        ensures running { result.stopped ≡ None }
        ensures project { result.project ≡ parts.project }
        ensures settings { result.settings ≡ settings }
    {
        let project = parts.project;
        let stocks = parts.stocks;
        let commanded = parts.commanded;
        let close = parts.close;
        let standing = standing_within(&project, stocks, commanded);
        OpenSim {
            project,
            settings,
            net: parts.net,
            search: parts.search,
            found: OpenRow {
                row: parts.row,
                late: 0,
                shortest: 0,
            },
            facts: parts.facts,
            standing,
            close: OpenPeriodEnd {
                readings: close.readings,
                carried: close.carried,
                values: close.values,
                commanded: close.commanded,
                next: close.next,
                first: 0,
                late: 0,
                opened,
            },
            stopped: None,
        }
    }
}
