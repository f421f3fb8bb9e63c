//! A network without links through its periods: one junction, whose demand has two patterns, and a reservoir.
#![tactic(auto)]

ghost use Rattle.std.specs.Prelude.{◌≡◌, ◌≤◌, ◌^◌, length};
ghost use Rattle.hyd_net.specs.Sound.{IsSound};
ghost use Rattle.hyd_period_network.specs.NetsSetToPeriods.{IsNetOf};

use crate::demand::network;
use hyd_controls_and_rules::Changes;
use hyd_law::Law;
use hyd_net::{OutOfMemory, Project};
use hyd_period_network::{Net, PeriodDemand};
use hyd_spec_certificates::{Problem, Side};
use hyd_vector_check::{Fails, check_sub, check_super};
use std::alloc::Global;
use std::test::Fail;

// Sets a network without links and tanks to a period.
fn set(net: &mut Net, project: &Project, time: u32) -> Result<(), PeriodDemand>
    requires sound { IsSound project.now }
    requires of { IsNetOf project.now net.old }
    requires time { time ≤ 10 ^ 8 }
    requires links { length project.now.links.list ≡ 0 }
    requires tanks { length project.now.tanks.list ≡ 0 }
    ensures stays { IsNetOf project.now net.new }
{
    net.set_period(project, time, &[], &[], &[])
}

// At most the demand of the first junction, and the head of the first node behind the junctions.
fn demand_and_head(net: &Net) -> Option<(i128, i64)> {
    if net.junctions() != 1 || net.nodes() != 2 {
        return None;
    }
    Some((
        net.demand_law(0).low(0),
        net.fixed(Problem::Main, Side::Upper, 1),
    ))
}

/// What a net says and answers: at first, in a period, and after one that is refused.
#[derive(Clone, Copy, Debug, PartialEq, Drop)]
struct Said {
    before: Option<(i128, i64)>,
    put: Result<(), PeriodDemand>,
    first: Option<(i128, i64)>,
    refused: Result<(), PeriodDemand>,
    after: Option<(i128, i64)>,
}

/// What a net of the network says.
fn said_by(project: &Project, net: &mut Net) -> Said
    requires sound { IsSound project.now }
    requires of { IsNetOf project.now net.old }
    requires links { length project.now.links.list ≡ 0 }
    requires tanks { length project.now.tanks.list ≡ 0 }
    ensures stays { IsNetOf project.now net.new }
{
    let before = demand_and_head(net);
    let put = set(net, project, 0);
    let first = demand_and_head(net);
    let refused = set(net, project, 3_600);
    let after = demand_and_head(net);
    Said {
        before,
        put,
        first,
        refused,
        after,
    }
}

/// What checks of the head 0 answer in the first period, above and below, where the net has one junction.
fn checked(project: &Project, net: &mut Net) -> Option<(Result<(), Fails>, Result<(), Fails>)>
    requires sound { IsSound project.now }
    requires of { IsNetOf project.now net.old }
    requires links { length project.now.links.list ≡ 0 }
    requires tanks { length project.now.tanks.list ≡ 0 }
{
    if set(net, project, 0).is_err() || net.junctions() != 1 {
        return None;
    }
    let above = check_super(net, Problem::Main, &[0]);
    let below = check_sub(net, Problem::Main, &[0]);
    Some((above, below))
}

/// What a new net of the network says, and what checks by it answer.
fn of_net(
    alloc: Global,
    project: &Project,
) -> Result<(Said, Option<(Result<(), Fails>, Result<(), Fails>)>), OutOfMemory>
    requires sound { IsSound project.now }
    requires links { length project.now.links.list ≡ 0 }
    requires tanks { length project.now.tanks.list ≡ 0 }
{
    let mut net = Net::open(alloc, project)?;
    let said = said_by(project, &mut net);
    Ok((said, checked(project, &mut net)))
}

/// What a new net of the small network says, and what checks by it answer.
fn answers(
    alloc: Global,
) -> Result<(Said, Option<(Result<(), Fails>, Result<(), Fails>)>), OutOfMemory> {
    let project = network(alloc)?;
    of_net(alloc, &project)
}

/// How many links changed, by a list of changes that was just opened.
fn changes_of(alloc: Global, project: &Project) -> Result<usize, OutOfMemory>
    requires { IsSound project.now }
{
    let changes = Changes::open(alloc, project)?;
    Ok(changes.rows().len())
}

/// How many of the small network's links changed at first.
fn changes_at_first(alloc: Global) -> Result<usize, OutOfMemory> {
    let project = network(alloc)?;
    changes_of(alloc, &project)
}

#[test]
fn a_refused_period_leaves_the_net_as_it_was(rt: HostRuntime) -> Result<(), Fail> {
    let first = Some((-166_664_166_399_982, -1_000_000_000_000_001));
    let (said, checked) = answers(rt.alloc())?;
    assert_eq!(rt;
        said,
        Said {
            before: Some((0, 0)),
            put: Ok(()),
            first,
            refused: Err(PeriodDemand {
                junction: 0,
                value: 1_500_001_250_600_015,
            }),
            after: first,
        }
    );
    // What flows in alone passes below.
    assert_eq!(rt; checked, Some((Err(Fails { junction: 0 }), Ok(()))));
    Ok(())
}

#[test]
fn changes_are_empty_at_first(rt: HostRuntime) -> Result<(), Fail> {
    assert_eq!(rt; changes_at_first(rt.alloc())?, 0);
    Ok(())
}
