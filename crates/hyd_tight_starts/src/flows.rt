//! By how much junctions pass at given heads.
#![tactic(auto)]

ghost use Rattle.std.specs.Prelude.{◌≡◌, ◌<◌, ◌≤◌, ◌*◌, length, unsigned_abs};
ghost use Rattle.hyd_spec_certificates.specs.Certificate.{box_limit};

use crate::branches::Branches;
use crate::places::number_at;
use hyd_law::{Law, OutLaw};
use hyd_period_network::{Net, Tie};
use hyd_spec_certificates::{BOX_LIMIT, Side};
use hyd_vector_check::{is_in_box, outflow};

/// The greatest head difference at which a law is asked: that of the ends of the box, in head ticks.
const WIDEST: i64 = 2 * BOX_LIMIT;

/// The greatest flow that is reckoned with, in flow ticks.
const GREATEST_RECKONED_FLOW: i128 = 1_000_000_000_000_000_000;

// The nearest head difference at which a law is asked.
fn within_reach(difference: i64) -> i64
    ensures { unsigned_abs result ≤ 2 * box_limit }
{
    difference.clamp(-WIDEST, WIDEST)
}

// A flow in 64 bits.
fn narrowed(flow: i128) -> i64 {
    flow.clamp(-GREATEST_RECKONED_FLOW, GREATEST_RECKONED_FLOW) as i64
}

/// The high flow of a link at a head difference, or the low one.
pub(crate) fn flow(net: &Net, link: u32, high: bool, difference: i64) -> i64
    requires { link < length net.now.ends }
{
    let _links = net.links();
    let law = net.law(link);
    let near = within_reach(difference);
    if high {
        return narrowed(law.high(near));
    }
    narrowed(law.low(near))
}

fn is_lower(side: Side) -> bool {
    match side {
        Side::Upper => false,
        Side::Lower => true,
    }
}

/// The head so many ticks nearer.
pub(crate) fn nearer(side: Side, head: i64, ticks: i64) -> i64 {
    match side {
        Side::Upper => head.saturating_sub(ticks),
        Side::Lower => head.saturating_add(ticks),
    }
}

/// A number of flow ticks as it counts on a side: for UPPER what flows out, for LOWER what flows in.
pub(crate) fn counted(side: Side, ticks: i64) -> i64 {
    match side {
        Side::Upper => ticks,
        Side::Lower => ticks.saturating_neg(),
    }
}

/// What a link end adds to what a junction at a head passes by, with its other node at another head.
pub(crate) fn part(net: &Net, side: Side, tie: Tie, head: i64, other: i64) -> i64 {
    if tie.link >= net.links() {
        return 0;
    }
    let difference = head.saturating_sub(other);
    let leaves = if tie.out {
        flow(net, tie.link, is_lower(side), difference)
    } else {
        flow(net, tie.link, !is_lower(side), difference.saturating_neg()).saturating_neg()
    };
    counted(side, leaves)
}

/// What a junction's demand and emitter add to that.
pub(crate) fn own_part(net: &Net, side: Side, junction: u32, head: i64) -> i64 {
    if junction >= net.junctions() || !is_in_box(head) {
        return 0;
    }
    counted(side, narrowed(outflow(net, side, junction, head)))
}

// The flow that leaves a junction at a head by a link end, as the middle of its bounds.
fn middle_part(net: &Net, tie: Tie, head: i64, other: i64) -> i64 {
    let most = part(net, Side::Lower, tie, head, other).saturating_neg();
    let least = part(net, Side::Upper, tie, head, other);
    (most / 2).saturating_add(least / 2)
}

/// By how much less leaves a junction on balance than a load, as the middle of bounds.
pub(crate) fn middle_miss(net: &Net, heads: &[i64], junction: u32, load: i64) -> i64 {
    if junction >= net.junctions() {
        return 0;
    }
    let _nodes = net.nodes();
    let head = number_at(heads, junction);
    let most = own_part(net, Side::Lower, junction, head).saturating_neg();
    let least = own_part(net, Side::Upper, junction, head);
    let mut leaves = (most / 2).saturating_add(least / 2);
    for tie in net.row(junction) {
        let other = number_at(heads, tie.other);
        leaves = leaves.saturating_add(middle_part(net, *tie, head, other));
    }
    load.saturating_sub(leaves)
}

/// Whether that is the same at every head.
pub(crate) fn is_flat(net: &Net, junction: u32) -> bool {
    if junction >= net.junctions() {
        return true;
    }
    matches!(net.demand_law(junction), OutLaw::Fixed(_)) && net.emitter_law(junction).is_none()
}

/// The link end seen from its other node.
pub(crate) fn turned(tie: Tie, junction: u32) -> Tie {
    Tie {
        link: tie.link,
        other: junction,
        out: !tie.out,
    }
}

/// By how much a junction passes with all nodes at given heads: less than 0 where it falls short.
pub(crate) fn over(net: &Net, side: Side, heads: &[i64], junction: u32) -> i64 {
    over_with(net, side, None, heads, junction, number_at(heads, junction))
}

// Whether a node hangs on another.
fn hangs(branches: Option<&Branches>, node: u32) -> bool {
    match branches {
        Some(here) => here.hangs(node),
        None => false,
    }
}

// What a junction's outflow and those that hang on it add to what it passes by at a head.
fn own_and_hanging(
    net: &Net,
    side: Side,
    branches: Option<&Branches>,
    junction: u32,
    head: i64,
) -> i64 {
    match branches {
        Some(here) => {
            if here.is_flat(junction) {
                here.load(junction)
            } else {
                own_part(net, side, junction, head).saturating_add(here.load(junction))
            }
        }
        None => own_part(net, side, junction, head),
    }
}

/// By how much it passes with a head in place of its own. Where there are branches, those that hang on it stay in their
/// places beside it, wherever their heads are.
pub(crate) fn over_with(
    net: &Net,
    side: Side,
    branches: Option<&Branches>,
    heads: &[i64],
    junction: u32,
    head: i64,
) -> i64 {
    if junction >= net.junctions() {
        return 0;
    }
    let _nodes = net.nodes();
    let mut sum = own_and_hanging(net, side, branches, junction, head);
    for tie in net.row(junction) {
        if !hangs(branches, tie.other) {
            sum = sum.saturating_add(part(net, side, *tie, head, number_at(heads, tie.other)));
        }
    }
    sum.saturating_sub(net.margin(junction)).saturating_sub(1)
}
