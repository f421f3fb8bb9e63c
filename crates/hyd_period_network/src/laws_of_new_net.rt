//! The laws of closed links, with which a net opens.
#![tactic(auto)]

ghost use Rattle.std.specs.Prelude.{◌≡◌, ◌≤◌, ◌<◌, ◌+◌, ◌*◌, ◌^◌, false, length, map, All, IfOk};
ghost use Rattle.hyd_net.specs.Curves.{IsPumpCurve, IsLossCurve};
ghost use Rattle.hyd_net.specs.NetworkRanges.{HasSizes};
ghost use Rattle.hyd_net.specs.Sound.{IsSound};
ghost use Rattle.hyd_spec.specs.Law as exact;
ghost use Rattle.hyd_spec.specs.NodeNumbers.{nodes_before_tanks};
ghost use Rattle.hyd_period_network.specs.BothLaws.{IsFree, AreFree};
ghost use Rattle.hyd_period_network.specs.LawsInSettings.{Represents, HasRoom, IsClosedLaw, AreBothClosed, AreClosed};
ghost use Rattle.hyd_period_network.specs.NetsSetToPeriods.{ends_of};

use crate::both_laws::BothLaws;
use crate::curves::{closed_curve, points_of, write_pump_knots, write_valve_knots};
use hyd_law::{Knot, LinkLaw, Shut};
use hyd_net::{HeadPoint, Link, LinkKind, List, Project};
use std::alloc::{AllocError as OutOfMemory, Global};

const SPEED_ONE: i64 = 1_000_000_000;

// A list of knots with room for so many.
fn knots_with_room(alloc: Global, room: usize) -> Result<List<Knot>, OutOfMemory>
    ensures { IfOk result (λ knots. room ≤ length knots.list + knots.spare) }
{
    let mut knots = List::new(alloc);
    knots.reserve(room)?;
    Ok(knots)
}

fn closed_pump(alloc: Global, points: &[HeadPoint]) -> Result<LinkLaw, OutOfMemory>
    requires { IsPumpCurve points.now }
    ensures represents { IfOk result (λ law. Represents law exact.Shut) }
    ensures room { IfOk result (λ law. HasRoom (length points.now) law) }
{
    let mut knots = knots_with_room(alloc, points.len())?;
    write_pump_knots(points, SPEED_ONE, &mut knots);
    Ok(closed_curve(knots))
}

fn closed_valve(alloc: Global, points: &[HeadPoint]) -> Result<LinkLaw, OutOfMemory>
    requires { IsLossCurve points.now }
    ensures represents { IfOk result (λ law. Represents law exact.Shut) }
    ensures room { IfOk result (λ law. HasRoom (2 * length points.now) law) }
{
    let mut knots = knots_with_room(alloc, 2 * points.len())?;
    write_valve_knots(points, &mut knots);
    Ok(closed_curve(knots))
}

// The law of a closed link of a kind, with room for the knots of its curve.
fn closed_law(alloc: Global, project: &Project, kind: &LinkKind) -> Result<LinkLaw, OutOfMemory>
    requires { HasSizes project.now.options.unit project.now.patterns.list project.now.bends.list kind.now }
    ensures { IfOk result (λ law. IsClosedLaw project.now.bends.list kind.now law) }
{
    match kind {
        LinkKind::Pipe(_) => Ok(LinkLaw::Shut(Shut)),
        LinkKind::CheckPipe(_) => Ok(LinkLaw::Shut(Shut)),
        LinkKind::Pump { .. } => Ok(LinkLaw::Shut(Shut)),
        LinkKind::CurvePump { bend, pattern: _ } => closed_pump(alloc, points_of(project, *bend)),
        LinkKind::Tcv { .. } => Ok(LinkLaw::Shut(Shut)),
        LinkKind::Fcv { .. } => Ok(LinkLaw::Shut(Shut)),
        LinkKind::Gpv { bend } => closed_valve(alloc, points_of(project, *bend)),
    }
}

// Whether a link ends at a tank.
fn ends_at_tank(project: &Project, link: &Link) -> bool
    requires few { length project.now.junctions.list + length project.now.reservoirs.list ≤ 2 ^ 32 }
    ensures { result ≡ false → (link.now.from < nodes_before_tanks project.now)
        × (link.now.to < nodes_before_tanks project.now) }
{
    let before = project.junctions.len() + project.reservoirs.len();
    link.from as usize >= before || link.to as usize >= before
}

// The law between tanks of a link that ends at one, closed.
fn closed_between(
    alloc: Global,
    project: &Project,
    link: &Link,
) -> Result<Vec<LinkLaw>, OutOfMemory>
    requires few { length project.now.junctions.list + length project.now.reservoirs.list ≤ 2 ^ 32 }
    requires sizes { HasSizes project.now.options.unit project.now.patterns.list project.now.bends.list link.now.kind }
    ensures closed { IfOk result (λ laws. All (IsClosedLaw project.now.bends.list link.now.kind) laws.items) }
    ensures free { IfOk result (λ laws. length laws.items ≡ 0 → (link.now.from < nodes_before_tanks project.now)
        × (link.now.to < nodes_before_tanks project.now)) }
{
    let mut laws = Vec::new(alloc);
    if ends_at_tank(project, link) {
        laws.push(closed_law(alloc, project, &link.kind)?)?;
    }
    Ok(laws)
}

// Both laws of a link, closed.
fn closed_both(alloc: Global, project: &Project, link: &Link) -> Result<BothLaws, OutOfMemory>
    requires few { length project.now.junctions.list + length project.now.reservoirs.list ≤ 2 ^ 32 }
    requires sizes { HasSizes project.now.options.unit project.now.patterns.list project.now.bends.list link.now.kind }
    ensures closed { IfOk result (AreBothClosed project.now.bends.list link.now.kind) }
    ensures free { IfOk result (IsFree (nodes_before_tanks project.now) link.now.from link.now.to) }
{
    let between = closed_between(alloc, project, link)?;
    let own = closed_law(alloc, project, &link.kind)?;
    Ok(BothLaws { between, own })
}

/// Both laws of each link of a network, all closed.
pub(crate) fn closed_laws(alloc: Global, project: &Project) -> Result<Vec<BothLaws>, OutOfMemory>
    requires { IsSound project.now }
    ensures count { IfOk result (λ laws. length laws.items ≡ length project.now.links.list) }
    ensures closed { IfOk result (λ laws. AreClosed project.now project.now.links.list laws.items) }
    ensures free { IfOk result (λ laws. AreFree (nodes_before_tanks project.now)
        (map ends_of project.now.links.list) laws.items) }
{
    let links = project.links.as_slice();
    let mut laws = Vec::with_capacity(alloc, links.len())?;
    for link in links {
        laws.push(closed_both(alloc, project, link)?)?;
    }
    Ok(laws)
}
