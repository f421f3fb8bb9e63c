//! The ways that full and empty tanks forbid a link.
#![tactic(auto)]

ghost use Rattle.std.specs.Prelude.{◌≡◌, ◌+◌, ◌^◌, ◌≤◌, length, false};
ghost use Rattle.std.specs.Option.{option_map_or};
ghost use Rattle.hyd_spec.specs.LinkLaw.{is_full, is_empty, overflows, takes_nothing, is_empty_tank};
ghost use Rattle.hyd_spec.specs.LinkLaw.{forbids_forward, forbids_reverse};
ghost use Rattle.hyd_period_network.specs.LawsInSettings.{tank_state};

use hyd_net::{Link, Project};
use hyd_spec::TankState;

// The state of a node that is a tank.
fn tank_state(project: &Project, tanks: &[TankState], node: u32) -> Option<TankState>
    requires few { length project.now.junctions.list + length project.now.reservoirs.list ≤ 2 ^ 32 }
    ensures { result ≡ tank_state project.now tanks.now node }
{
    let before = project.junctions.len() + project.reservoirs.len();
    let node = node as usize;
    if node < before {
        return None;
    }
    let number = node - before;
    if number < tanks.len() {
        return Some(tanks[number]);
    }
    None
}

fn is_full(state: Option<TankState>) -> bool
    ensures { result ≡ option_map_or is_full state false }
{
    match state {
        Some(TankState::Full) => true,
        _ => false,
    }
}

fn is_empty(state: Option<TankState>) -> bool
    ensures { result ≡ option_map_or is_empty state false }
{
    match state {
        Some(TankState::Empty) => true,
        _ => false,
    }
}

// The node is a tank that takes inflow where it is full.
fn overflows(project: &Project, node: u32) -> bool
    requires few { length project.now.junctions.list + length project.now.reservoirs.list ≤ 2 ^ 32 }
    ensures { result ≡ overflows project.now node }
{
    let before = project.junctions.len() + project.reservoirs.len();
    let node = node as usize;
    if node < before {
        return false;
    }
    let tanks = project.tanks.as_slice();
    let number = node - before;
    if number < tanks.len() {
        return tanks[number].overflow;
    }
    false
}

// Nothing flows into the node.
fn takes_nothing(project: &Project, tanks: &[TankState], node: u32) -> bool
    requires few { length project.now.junctions.list + length project.now.reservoirs.list ≤ 2 ^ 32 }
    ensures { result ≡ takes_nothing project.now tanks.now node }
{
    let state = tank_state(project, tanks, node);
    is_full(state) && !overflows(project, node)
}

// Nothing flows out of the node.
fn gives_nothing(project: &Project, tanks: &[TankState], node: u32) -> bool
    requires few { length project.now.junctions.list + length project.now.reservoirs.list ≤ 2 ^ 32 }
    ensures { result ≡ is_empty_tank project.now tanks.now node }
{
    let state = tank_state(project, tanks, node);
    is_empty(state)
}

/// Nothing flows from the first node of the link to the second.
pub(crate) fn forbids_forward(project: &Project, tanks: &[TankState], link: &Link) -> bool
    requires few { length project.now.junctions.list + length project.now.reservoirs.list ≤ 2 ^ 32 }
    ensures { result ≡ forbids_forward project.now tanks.now link.now }
{
    takes_nothing(project, tanks, link.to) || gives_nothing(project, tanks, link.from)
}

/// Nothing flows from the second node of the link to the first.
pub(crate) fn forbids_reverse(project: &Project, tanks: &[TankState], link: &Link) -> bool
    requires few { length project.now.junctions.list + length project.now.reservoirs.list ≤ 2 ^ 32 }
    ensures { result ≡ forbids_reverse project.now tanks.now link.now }
{
    takes_nothing(project, tanks, link.from) || gives_nothing(project, tanks, link.to)
}
