//! The net of one network in its periods: laws at both sides of their knees, heads, emitters and margins.
#![tactic(auto)]

ghost use Rattle.std.specs.Prelude.{IfSome};
ghost use Rattle.std.specs.Option.{option_copied};
ghost use Rattle.hyd_theorems_on_definitions.specs.SoundLawsAndGrids.{IsSoundCapacity};
ghost use Rattle.hyd_net.specs.Sound.{IsSound};
ghost use Rattle.hyd_period_network.specs.NetAsPeriodNetwork.{capacity_of};
ghost use Rattle.hyd_period_network.specs.NetsSetToPeriods.{IsNetOf};
ghost use Rattle.hyd_period_network.specs.LawsInSettings.{AreStates};

use crate::four_periods::{Part, Row, TEXT, emitters, parts};
use crate::networks_from_texts::read;
use hyd_law::{Law, Quad};
use hyd_net::{LinkState, OutOfMemory, Project};
use hyd_period_network::{Net, PeriodDemand};
use hyd_spec_certificates::{Problem, Side};
use hyd_test_helpers::{Order, command, is_problem, set, span, starts};
use std::alloc::Global;
use std::test::Fail;

/// Head differences of at most so many head ticks are accepted by each law.
const MOST: u64 = 2_000_000_000_000_000_000;

/// When a demand is out of range.
const REFUSED: u32 = 10_800;

/// Which laws rows speak of.
#[derive(Clone, Copy, Drop)]
enum Of {
    Link,
    /// Links by their own laws, whatever tanks are full or empty.
    Own,
    Demand,
}

// What a link passes at least and at most at a head difference.
fn passed(net: &Net, link: u32, difference: i64) -> Option<(i128, i128)> {
    if link >= net.links() || difference.unsigned_abs() > MOST {
        return None;
    }
    let law = net.law(link);
    Some((law.low(difference), law.high(difference)))
}

// The same by its own law.
fn own_passed(net: &Net, link: u32, difference: i64) -> Option<(i128, i128)> {
    if link >= net.links() || difference.unsigned_abs() > MOST {
        return None;
    }
    let law = net.own_law(link);
    Some((law.low(difference), law.high(difference)))
}

// What a junction's demand takes at least and at most at a pressure.
fn demanded(net: &Net, junction: u32, pressure: i64) -> Option<(i128, i128)> {
    if junction >= net.junctions() || pressure.unsigned_abs() > MOST {
        return None;
    }
    let law = net.demand_law(junction);
    Some((law.low(pressure), law.high(pressure)))
}

// What leaves an emitter at least and at most at a pressure.
fn emitted(law: Option<&Quad>, pressure: i64) -> Option<(i128, i128)>
    requires { IfSome (option_copied law) (λ quad. IsSoundCapacity (capacity_of quad)) }
{
    let Some(law) = law else {
        return None;
    };
    if pressure.unsigned_abs() > MOST {
        return None;
    }
    Some((law.low(pressure), law.high(pressure)))
}

// The same of a junction's emitter, if it has one.
fn emitted_at(net: &Net, junction: u32, pressure: i64) -> Option<(i128, i128)> {
    if junction >= net.junctions() {
        return None;
    }
    emitted(net.emitter_law(junction), pressure)
}

fn flows(net: &Net, of: Of, number: u32, at: i64) -> Option<(i128, i128)> {
    match of {
        Of::Link => passed(net, number, at),
        Of::Own => own_passed(net, number, at),
        Of::Demand => demanded(net, number, at),
    }
}

// The first row that says other flows than the net.
fn wrong_row(net: &Net, of: Of, rows: &[Row]) -> Option<Row> {
    for row in rows {
        if flows(net, of, row.0, row.1) != Some((row.2, row.3)) {
            return Some(*row);
        }
    }
    None
}

// The heads of the three nodes behind the two junctions.
fn heads(net: &Net, problem: Problem, side: Side) -> Option<[i64; 3]> {
    if net.junctions() != 2 || net.nodes() != 5 || !is_problem(net, problem) {
        return None;
    }
    Some([
        net.fixed(problem, side, 2),
        net.fixed(problem, side, 3),
        net.fixed(problem, side, 4),
    ])
}

// Whether the net says these heads.
fn are_heads(net: &Net, rows: &[(Problem, Side, [i64; 3])]) -> bool {
    for row in rows {
        if heads(net, row.0, row.1) != Some(row.2) {
            return false;
        }
    }
    true
}

// The first row that says another flow of an emitter.
fn wrong_emitter(net: &Net, rows: &[Row]) -> Option<Row> {
    for row in rows {
        if emitted_at(net, row.0, row.1) != Some((row.2, row.3)) {
            return Some(*row);
        }
    }
    None
}

// The margins of the two junctions.
fn margins(net: &Net) -> Option<[i64; 2]> {
    if net.junctions() != 2 {
        return None;
    }
    Some([net.margin(0), net.margin(1)])
}

// Whether the emitters and the margins of the two junctions are as in each period.
fn emits(net: &Net) -> bool {
    wrong_emitter(net, emitters()).is_none()
        && emitted_at(net, 0, 1).is_none()
        && margins(net) == Some([90, 100])
}

// Whether the net says what a part does.
fn says(net: &Net, part: &Part) -> bool {
    wrong_row(net, Of::Link, part.flows).is_none()
        && wrong_row(net, Of::Own, part.own).is_none()
        && wrong_row(net, Of::Demand, part.demands).is_none()
        && are_heads(net, part.fixed)
        && emits(net)
}

// Commands links, one after another, and says whether each went.
fn command_all(project: &Project, states: &mut [LinkState], orders: &[(u32, Order)]) -> bool
    requires { AreStates project.now states.old }
    ensures { AreStates project.now states.new }
{
    for order in orders {
        if !command(project, states, order.0, order.1) {
            return false;
        }
    }
    true
}

// What becomes of the net in the period of a part, at a time.
fn put(
    net: &mut Net,
    project: &Project,
    states: &[LinkState],
    part: &Part,
    time: u32,
) -> Option<Result<(), PeriodDemand>>
    requires sound { IsSound project.now }
    requires of { IsNetOf project.now net.old }
    requires states { AreStates project.now states.now }
    ensures { IsNetOf project.now net.new }
{
    let levels = part.levels.map(span);
    set(net, project, time, states, &levels, &part.tanks)
}

// Commands the links and puts the net into the period of a part, and says whether the net is as the part says.
fn is_right(net: &mut Net, project: &Project, states: &mut [LinkState], part: &Part) -> bool
    requires sound { IsSound project.now }
    requires of { IsNetOf project.now net.old }
    requires states { AreStates project.now states.old }
    ensures stays { IsNetOf project.now net.new }
    ensures states { AreStates project.now states.new }
{
    if !command_all(project, states, part.orders) {
        return false;
    }
    put(net, project, states, part, part.time) == Some(Ok(())) && says(net, part)
}

// Whether a period whose demand is out of range is refused, and leaves the net as it is.
fn is_left(net: &mut Net, project: &Project, states: &[LinkState], part: &Part) -> bool
    requires sound { IsSound project.now }
    requires of { IsNetOf project.now net.old }
    requires states { AreStates project.now states.now }
{
    let fault = PeriodDemand {
        junction: 0,
        value: 2_180_397_187_400_000,
    };
    put(net, project, states, part, REFUSED) == Some(Err(fault)) && says(net, part)
}

// The time of the first period, one after another, whose net is other than its part says; after the last one comes one
// that is refused.
fn wrong_period(
    net: &mut Net,
    project: &Project,
    states: &mut [LinkState],
    parts: &[Part],
) -> Option<u32>
    requires sound { IsSound project.now }
    requires of { IsNetOf project.now net.old }
    requires states { AreStates project.now states.old }
{
    for part in parts {
        if !is_right(net, project, states, part) {
            return Some(part.time);
        }
    }
    let Some(last) = parts.last() else {
        return Some(0);
    };
    if !is_left(net, project, states, last) {
        return Some(REFUSED);
    }
    None
}

// The same of a network.
fn wrong_in(alloc: Global, project: &Project, parts: &[Part]) -> Result<Option<u32>, OutOfMemory>
    requires { IsSound project.now }
{
    let mut net = Net::open(alloc, project)?;
    let mut states = starts(alloc, project)?;
    Ok(wrong_period(&mut net, project, &mut states, parts))
}

// The same of a text.
fn wrong_of(alloc: Global, text: &str, parts: &[Part]) -> Result<Option<u32>, Fail> {
    let project = read(alloc, text)?;
    Ok(wrong_in(alloc, &project, parts)?)
}

#[test]
fn every_kind_of_link_in_its_periods(rt: HostRuntime) -> Result<(), Fail> {
    assert_eq!(rt; wrong_of(rt.alloc(), TEXT, parts())?, None);
    Ok(())
}
