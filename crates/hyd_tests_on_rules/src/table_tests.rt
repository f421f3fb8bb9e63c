//! Each network is read in one place, and asked for the first row of its table that it contradicts.
#![tactic(auto)]

ghost use Rattle.hyd_net.specs.Sound.{IsSound};

use crate::changes_by_rules::{RANKS, wrong_offer};
use crate::networks_states_and_changes::read;
use crate::starts::{CONTROLS, wrong_start};
use crate::truths_at_instants::{CLAUSES, GROUPS, wrong_group, wrong_instant};
use hyd_net::{OutOfMemory, Project};
use std::alloc::Global;
use std::test::Fail;

/// Which table.
#[derive(Clone, Copy, Drop)]
enum Table {
    Instants,
    Groups,
    Offers,
    Starts,
}

// The first row that a network contradicts.
fn first_wrong_of(
    alloc: Global,
    project: &Project,
    table: Table,
) -> Result<Option<usize>, OutOfMemory>
    requires { IsSound project.now }
{
    match table {
        Table::Instants => wrong_instant(alloc, project),
        Table::Groups => wrong_group(alloc, project),
        Table::Offers => wrong_offer(alloc, project),
        Table::Starts => wrong_start(alloc, project),
    }
}

// The same of a text.
fn first_wrong(alloc: Global, text: &str, table: Table) -> Result<Option<usize>, Fail> {
    let project = read(alloc, text)?;
    Ok(first_wrong_of(alloc, &project, table)?)
}

#[test]
fn clauses_at_instants(rt: HostRuntime) -> Result<(), Fail> {
    assert_eq!(rt; first_wrong(rt.alloc(), CLAUSES, Table::Instants)?, None);
    Ok(())
}

#[test]
fn groups_bind_tighter(rt: HostRuntime) -> Result<(), Fail> {
    assert_eq!(rt; first_wrong(rt.alloc(), GROUPS, Table::Groups)?, None);
    Ok(())
}

#[test]
fn offers_are_taken_by_rank(rt: HostRuntime) -> Result<(), Fail> {
    assert_eq!(rt; first_wrong(rt.alloc(), RANKS, Table::Offers)?, None);
    Ok(())
}

#[test]
fn patterns_and_controls_in_order(rt: HostRuntime) -> Result<(), Fail> {
    assert_eq!(rt; first_wrong(rt.alloc(), CONTROLS, Table::Starts)?, None);
    Ok(())
}
