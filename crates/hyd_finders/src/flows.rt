//! What flows at given heads.
#![tactic(auto)]

ghost use Rattle.std.specs.Prelude.{◌≡◌, ◌<◌, ◌≤◌, ◌*◌, length, unsigned_abs};
ghost use Rattle.hyd_spec_certificates.specs.Certificate.{box_limit};

use crate::flow_curves::{Curve, curve_at, flow};
use crate::number_lists::{add_real_at, number_at, real_at};
use hyd_law::{Law, OutLaw};
use hyd_period_network::{Ends, Net, Tie};
use hyd_spec_certificates::{BOX_LIMIT, Side};
use hyd_tight_starts::{is_in_box, outflow};
use std::num::nearest_i64_to_f64;

/// The greatest head difference at which a law is asked: that of the ends of the box, in head ticks.
const WIDEST: i64 = 2 * BOX_LIMIT;

/// The greatest flow that is reckoned with, in flow ticks.
const GREATEST_RECKONED_FLOW: i128 = 1_000_000_000_000_000_000;

// The nearest head difference at which a law is asked.
fn within_reach(difference: i64) -> i64
    ensures { unsigned_abs result ≤ 2 * box_limit }
{
    difference.clamp(-WIDEST, WIDEST)
}

// A flow in 64 bits.
fn narrowed(flow: i128) -> i64 {
    flow.clamp(-GREATEST_RECKONED_FLOW, GREATEST_RECKONED_FLOW) as i64
}

/// At most the flow of a link at a head difference.
pub(crate) fn low_flow(net: &Net, link: u32, difference: i64) -> i64
    requires { link < length net.now.ends }
{
    let _links = net.links();
    let law = net.law(link);
    let near = within_reach(difference);
    narrowed(law.low(near))
}

// At least the flow of a link at a head difference.
fn high_flow(net: &Net, link: u32, difference: i64) -> i64
    requires { link < length net.now.ends }
{
    let _links = net.links();
    let law = net.law(link);
    let near = within_reach(difference);
    narrowed(law.high(near))
}

/// The flow of a link at a head difference, as the middle of its bounds.
pub(crate) fn middle_flow(net: &Net, link: u32, difference: i64) -> i64
    requires { link < length net.now.ends }
{
    let _links = net.links();
    let law = net.law(link);
    let near = within_reach(difference);
    narrowed((law.low(near) + law.high(near)) / 2)
}

// What leaves a junction at a head beside its links, as the middle of its bounds.
fn middle_outflow(net: &Net, junction: u32, head: i64) -> i64 {
    if junction >= net.junctions() || !is_in_box(head) {
        return 0;
    }
    let least = outflow(net, Side::Upper, junction, head);
    let most = outflow(net, Side::Lower, junction, head);
    narrowed((least + most) / 2)
}

/// What leaves a junction at a head beside its links: at most for UPPER, at least for LOWER.
pub(crate) fn bound_outflow(net: &Net, side: Side, junction: u32, head: i64) -> i64 {
    if junction >= net.junctions() || !is_in_box(head) {
        return 0;
    }
    narrowed(outflow(net, side, junction, head))
}

/// At most what leaves a junction at a head beside its links.
pub(crate) fn low_outflow(net: &Net, junction: u32, head: i64) -> i64 {
    bound_outflow(net, Side::Upper, junction, head)
}

/// What flows out of a junction at a head through a link end to a node at another head: at most for UPPER, at least for
/// LOWER.
pub(crate) fn bound_flow(net: &Net, side: Side, tie: Tie, head: i64, other: i64) -> i64 {
    if tie.link >= net.links() {
        return 0;
    }
    let difference = head.saturating_sub(other);
    match (tie.out, side) {
        (true, Side::Upper) => low_flow(net, tie.link, difference),
        (true, Side::Lower) => high_flow(net, tie.link, difference),
        (false, Side::Upper) => high_flow(
            net,
            tie.link,
            difference.saturating_neg(),
        ).saturating_neg(),
        (false, Side::Lower) => low_flow(
            net,
            tie.link,
            difference.saturating_neg(),
        ).saturating_neg(),
    }
}

/// The head difference along a link.
pub(crate) fn difference(heads: &[i64], ends: Ends) -> i64 {
    number_at(heads, ends.from).saturating_sub(number_at(heads, ends.to))
}

// What leaves a junction beside its links at every head, if that is one flow.
fn flat_outflow(net: &Net, junction: u32) -> Option<f64> {
    if junction >= net.junctions() {
        return Some(0.0);
    }
    match (net.demand_law(junction), net.emitter_law(junction)) {
        (OutLaw::Fixed(law), None) => Some(nearest_i64_to_f64(law.demand)),
        _ => None,
    }
}

/// Puts what leaves each junction beside its links where that is the same at every head. Laws lie far apart, and these
/// numbers side by side.
pub(crate) fn put_flat(net: &Net, flat: &mut [Option<f64>])
    ensures { length flat.new ≡ length flat.old }
{
    for junction in 0..net.junctions() {
        if let Some(entry) = flat.get_mut(junction as usize) {
            *entry = flat_outflow(net, junction);
        }
    }
}

/// The flow that leaves a junction beside its links at every head.
pub(crate) fn flat_at(flat: &[Option<f64>], junction: u32) -> Option<f64> {
    flat.get(junction as usize).copied().flatten()
}

/// The total of these flows.
pub(crate) fn total_of(flat: &[Option<f64>]) -> f64 {
    let mut total = 0.0;
    for flow in flat {
        total += flow.unwrap_or(0.0);
    }
    total
}

// What leaves a junction at a head beside its links, near the middle of its bounds.
fn near_outflow(net: &Net, flat: &[Option<f64>], junction: u32, head: i64) -> f64 {
    match flat_at(flat, junction) {
        Some(flow) => flow,
        None => nearest_i64_to_f64(middle_outflow(net, junction, head)),
    }
}

/// Puts the load of each junction less what leaves it beside its links.
pub(crate) fn put_outflows(
    net: &Net,
    flat: &[Option<f64>],
    heads: &[i64],
    loads: &[f64],
    misses: &mut [f64],
)
    ensures { length misses.new ≡ length misses.old }
{
    for junction in 0..net.junctions() {
        if let Some(miss) = misses.get_mut(junction as usize) {
            let leaves = near_outflow(net, flat, junction, number_at(heads, junction));
            *miss = real_at(loads, junction) - leaves;
        }
    }
}

// Adds what links bring to their ends.
fn add_flows(net: &Net, curves: &[Curve], heads: &[i64], misses: &mut [f64])
    ensures { length misses.new ≡ length misses.old }
{
    for link in 0..net.links() {
        let ends = net.ends(link);
        let curve = curve_at(curves, link);
        let flow = flow(net, link, &curve, difference(heads, ends));
        add_real_at(misses, ends.from, -flow);
        add_real_at(misses, ends.to, flow);
    }
}

/// Puts by how much each junction misses its balance at given heads of all nodes: its load and what flows in, less what
/// flows out.
pub(crate) fn put_misses(
    net: &Net,
    curves: &[Curve],
    flat: &[Option<f64>],
    heads: &[i64],
    loads: &[f64],
    misses: &mut [f64],
)
    ensures { length misses.new ≡ length misses.old }
{
    put_outflows(net, flat, heads, loads, misses);
    add_flows(net, curves, heads, misses);
}
