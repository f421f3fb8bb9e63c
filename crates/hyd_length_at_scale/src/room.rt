//! Room for the end of a period.

ghost use Rattle.std.specs.Prelude.{◌≡◌, length, IfOk};
ghost use Rattle.hyd_net.specs.Sound.{IsSound};
ghost use Rattle.hyd_length_at_scale.specs.ReservedMemory.{IsRoomFor, IsTrialRoomFor};

use hyd_controls_and_rules::Changes;
use hyd_net::{LinkState, OutOfMemory, Project};
use hyd_stocks_at_scale::ExactLevel;
use std::alloc::Global;

/// Room for a trial of the rules.
#[derive(Drop)]
pub struct TrialRoom {
    /// The levels of tanks carried to the instant.
    pub levels: Vec<ExactLevel>,
    /// Which rules are true there.
    pub values: Vec<bool>,
    /// What they change.
    pub changes: Changes,
}

/// Room for the end of each period of a network.
#[derive(Drop)]
pub struct EndRoom {
    pub trial: TrialRoom,
    /// The states of links as the rules are tried.
    pub links: Vec<LinkState>,
}

// So many levels of 0.
fn no_levels(alloc: Global, count: usize) -> Result<Vec<ExactLevel>, OutOfMemory>
    ensures { IfOk result (λ levels. length levels.items ≡ count) }
{
    let none = ExactLevel {
        whole: 0,
        part: 0,
        of: 1,
    };
    vec![in alloc; none; count]
}

// So many values of rules.
fn no_values(alloc: Global, count: usize) -> Result<Vec<bool>, OutOfMemory>
    ensures { IfOk result (λ values. length values.items ≡ count) }
{
    vec![in alloc; false; count]
}

// So many states of links.
fn no_states(alloc: Global, count: usize) -> Result<Vec<LinkState>, OutOfMemory>
    ensures { IfOk result (λ states. length states.items ≡ count) }
{
    vec![in alloc; LinkState::Closed; count]
}

// Room for a trial of the rules of a network.
fn trial_room(alloc: Global, project: &Project) -> Result<TrialRoom, OutOfMemory>
    requires { IsSound project.now }
    ensures { IfOk result (IsTrialRoomFor project.now) }
{
    Ok(TrialRoom {
        levels: no_levels(alloc, project.tanks.len())?,
        values: no_values(alloc, project.rules.len())?,
        changes: Changes::open(alloc, project)?,
    })
}

impl EndRoom {
    /// Room for the end of each period of a network: no end takes memory.
    pub fn open(alloc: Global, project: &Project) -> Result<EndRoom, OutOfMemory>
        requires { IsSound project.now }
        ensures { IfOk result (IsRoomFor project.now) }
    {
        Ok(EndRoom {
            trial: trial_room(alloc, project)?,
            links: no_states(alloc, project.links.len())?,
        })
    }
}
