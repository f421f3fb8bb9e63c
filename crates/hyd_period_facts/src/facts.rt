//! The facts of a period.

ghost use Rattle.std.specs.Prelude.{length, IfOk};
ghost use Rattle.hyd_net.specs.Sound.{IsSound};

use hyd_controls_and_rules::Changes;
use hyd_net::{LinkState, List, Project};
use hyd_num::Span;
use hyd_spec::TankState;
use hyd_spec_certificates::{Event, LevelSpan};
use hyd_tank::VolumeSpan;
use std::alloc::{AllocError as OutOfMemory, Global};

/// What is known of a period: its start and its length, its tanks and links at its start, and what changes in it.
#[derive(Drop)]
pub struct Facts {
    /// When the period begins, in seconds.
    pub time: u32,
    /// How long it lasts, in seconds.
    pub length: u32,
    /// The levels of each tank at the start, in head ticks above its bottom.
    pub levels: List<LevelSpan>,
    /// The volumes of each tank at the start, in volume ticks; 0 to 0 without a volume curve.
    pub volumes: List<VolumeSpan>,
    /// What flows into each tank, in flow ticks.
    pub inflows: List<Span>,
    /// The state of each tank at the start.
    pub tanks: List<TankState>,
    /// The state of each link, after the controls of the start.
    pub links: List<LinkState>,
    /// What changes the states of links: the controls at the start, then the rules at the end.
    pub changes: Changes,
    /// What happens at the end: events of tanks in order, then those of level controls in order.
    pub events: List<Event>,
}

impl Facts {
    ghost use Rattle.hyd_period_facts.specs.ReservedMemory.{HasRoom, AreNone};

    /// Facts of no period, with room for those of each period of a network: filling them takes no memory.
    pub fn open(alloc: Global, project: &Project) -> Result<Facts, OutOfMemory>
        requires { IsSound project.now }
        ensures none { IfOk result AreNone }
        ensures room { IfOk result (HasRoom project.now) }
    {
        let tanks = project.tanks.len();
        let links = project.links.len();
        let controls = project.controls.len();
        Ok(Facts {
            time: 0,
            length: 0,
            levels: List::with_room(alloc, tanks)?,
            volumes: List::with_room(alloc, tanks)?,
            inflows: List::with_room(alloc, tanks)?,
            tanks: List::with_room(alloc, tanks)?,
            links: List::with_room(alloc, links)?,
            changes: Changes::open(alloc, project)?,
            events: List::with_room(alloc, tanks + controls)?,
        })
    }
}
