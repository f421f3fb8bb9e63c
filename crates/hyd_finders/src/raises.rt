//! Whether a junction falls short of a certificate, and by how much it has to be raised then.
#![tactic(auto)]

ghost use Rattle.std.specs.Prelude.{◌≡◌, length};

use crate::flows::{bound_flow, bound_outflow};
use crate::number_lists::number_at;
use hyd_period_network::Net;
use hyd_spec_certificates::Side;
use hyd_tight_starts::is_in_box;

/// How often the way of a raise is doubled.
const DOUBLINGS: u32 = 60;

/// A junction falls short however far out it stands: raises at others, which stand farther out then, don't help it.
#[derive(Clone, Copy, Drop)]
pub(crate) struct NoValue;

// What flows out of a junction on balance at a head: at most for UPPER, at least for LOWER.
fn net_outflow(net: &Net, side: Side, heads: &[i64], junction: u32, head: i64) -> i64 {
    if junction >= net.junctions() {
        return 0;
    }
    let _nodes = net.nodes();
    let mut sum = bound_outflow(net, side, junction, head);
    for tie in net.row(junction) {
        let flow = bound_flow(net, side, *tie, head, number_at(heads, tie.other));
        sum = sum.saturating_add(flow);
    }
    sum
}

/// A number of flow ticks as it counts on a side: more is farther out.
pub(crate) fn outward(side: Side, ticks: i64) -> i64 {
    match side {
        Side::Upper => ticks,
        Side::Lower => ticks.saturating_neg(),
    }
}

// By how much a junction passes at a head: less than 0 where it falls short.
fn over(net: &Net, side: Side, heads: &[i64], junction: u32, head: i64) -> i64 {
    if junction >= net.junctions() {
        return 0;
    }
    let outflow = net_outflow(net, side, heads, junction, head);
    outward(side, outflow)
        .saturating_sub(net.margin(junction))
        .saturating_sub(1)
}

/// Whether a junction passes at a head, as the check of certificates asks.
pub(crate) fn passes(net: &Net, side: Side, heads: &[i64], junction: u32, head: i64) -> bool {
    over(net, side, heads, junction, head) >= 0
}

// The head so many ticks farther out.
fn further(side: Side, head: i64, ticks: i64) -> i64 {
    match side {
        Side::Upper => head.saturating_add(ticks),
        Side::Lower => head.saturating_sub(ticks),
    }
}

// The first of 1, 2, 4 .. ticks farther out at which a junction passes, if it does at one of them in the box.
fn reach(net: &Net, side: Side, heads: &[i64], junction: u32) -> Result<i64, NoValue> {
    let here = number_at(heads, junction);
    let mut ticks = 1i64;
    for _ in 0..DOUBLINGS {
        let head = further(side, here, ticks);
        if !is_in_box(head) {
            return Err(NoValue);
        }
        if passes(net, side, heads, junction, head) {
            return Ok(ticks);
        }
        ticks = ticks.saturating_mul(2);
    }
    Err(NoValue)
}

// The least number of ticks farther out at which a junction passes, by halving its reach.
fn ticks_to_pass(net: &Net, side: Side, heads: &[i64], junction: u32, reach: i64) -> i64 {
    let here = number_at(heads, junction);
    let mut most = reach;
    let mut part = reach / 2;
    for _ in 0..DOUBLINGS {
        part /= 2;
        if part == 0 {
            break;
        }
        let fewer = most.saturating_sub(part);
        if passes(net, side, heads, junction, further(side, here, fewer)) {
            most = fewer;
        }
    }
    most
}

/// Raises a junction to the nearest head at which it passes.
pub(crate) fn raise(net: &Net, side: Side, heads: &mut [i64], junction: u32) -> Result<(), NoValue>
    ensures { length heads.new ≡ length heads.old }
{
    let reach = reach(net, side, heads, junction)?;
    let ticks = ticks_to_pass(net, side, heads, junction, reach);
    let head = further(side, number_at(heads, junction), ticks);
    if let Some(entry) = heads.get_mut(junction as usize) {
        *entry = head;
    }
    Ok(())
}
