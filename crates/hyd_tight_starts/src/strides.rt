//! How far the junctions that passed a step nearer go on together.
#![tactic(auto)]

ghost use Rattle.std.specs.Prelude.{◌≡◌, length};

use crate::branches::Branches;
use crate::flows::{nearer, own_part, part};
use crate::places::{is_marked, mark, number_at, put_at};
use hyd_period_network::Net;
use hyd_spec_certificates::{BOX_LIMIT, Side};
use hyd_vector_check::is_in_box;

/// How often a way is doubled, and then halved.
const DOUBLINGS: u32 = 60;

// Whether it changes by how much one that steps passes when it comes nearer with the others: it is anchored, or a link
// leads to one that stays.
fn lies_on_rim(net: &Net, branches: &Branches, back: &[bool], junction: u32) -> bool {
    if junction >= net.junctions() || branches.is_anchored(junction) {
        return true;
    }
    let _nodes = net.nodes();
    for tie in net.row(junction) {
        if is_marked(back, tie.other) && branches.steps(tie.other) {
            return true;
        }
    }
    false
}

/// Marks the junctions on the rim of those that come nearer.
pub(crate) fn put_rim(net: &Net, branches: &Branches, back: &[bool], rim: &mut [bool])
    ensures { length rim.new ≡ length rim.old }
{
    for place in 0..branches.many() {
        let junction = branches.stepping(place);
        let lies = !is_marked(back, junction) && lies_on_rim(net, branches, back, junction);
        mark(rim, junction, lies);
    }
}

// What changes of what a junction passes by when it comes nearer with the others: its outflow, where that depends on its
// head, and the flows to nodes that stay.
fn changing(
    net: &Net,
    branches: &Branches,
    side: Side,
    heads: &[i64],
    back: &[bool],
    junction: u32,
    head: i64,
) -> i64 {
    if junction >= net.junctions() {
        return 0;
    }
    let _nodes = net.nodes();
    let mut sum = if branches.is_flat(junction) {
        0
    } else {
        own_part(net, side, junction, head)
    };
    for tie in net.row(junction) {
        if tie.other >= net.junctions()
            || is_marked(back, tie.other) && !branches.hangs(tie.other)
        {
            sum = sum.saturating_add(part(net, side, *tie, head, number_at(heads, tie.other)));
        }
    }
    sum
}

/// Puts what stays of what each junction on the rim passes by, and tells whether all of them pass a step nearer. It
/// stops at the first that doesn't.
pub(crate) fn put_rest(
    net: &Net,
    branches: &Branches,
    side: Side,
    heads: &[i64],
    over: &[i64],
    back: &[bool],
    rim: &[bool],
    step: i64,
    rest: &mut [i64],
) -> bool
    ensures { length rest.new ≡ length rest.old }
{
    for place in 0..branches.many() {
        let junction = branches.stepping(place);
        if is_marked(rim, junction) {
            let head = number_at(heads, junction);
            let here = changing(net, branches, side, heads, back, junction, head);
            let stays = number_at(over, junction).saturating_sub(here);
            put_at(rest, junction, stays);
            let there = nearer(side, head, step);
            let closer = changing(net, branches, side, heads, back, junction, there);
            if stays.saturating_add(closer) < 0 {
                return false;
            }
        }
    }
    true
}

/// By how much one on the rim passes so many ticks nearer.
pub(crate) fn over_at(
    net: &Net,
    branches: &Branches,
    side: Side,
    heads: &[i64],
    back: &[bool],
    rest: &[i64],
    junction: u32,
    ticks: i64,
) -> i64 {
    let there = nearer(side, number_at(heads, junction), ticks);
    number_at(rest, junction).saturating_add(changing(
        net, branches, side, heads, back, junction, there,
    ))
}

// The most ticks with which all that don't stay keep in the box.
fn room_in_box(branches: &Branches, side: Side, heads: &[i64], back: &[bool]) -> i64 {
    let mut room = 2 * BOX_LIMIT;
    for place in 0..branches.many() {
        let junction = branches.stepping(place);
        if !is_marked(back, junction) {
            let head = number_at(heads, junction);
            let own = match side {
                Side::Upper => head.saturating_add(BOX_LIMIT),
                Side::Lower => BOX_LIMIT.saturating_sub(head),
            };
            room = room.min(own);
        }
    }
    room
}

// The most ticks, in whole steps and fewer than so many, with which one on the rim passes that passes a step nearer.
fn own_reach(
    net: &Net,
    branches: &Branches,
    side: Side,
    heads: &[i64],
    back: &[bool],
    rest: &[i64],
    junction: u32,
    step: i64,
    fewer_than: i64,
) -> i64 {
    let mut most = step;
    for _ in 0..DOUBLINGS {
        let farther = most.saturating_mul(2);
        if farther >= fewer_than
            || over_at(net, branches, side, heads, back, rest, junction, farther) < 0
        {
            break;
        }
        most = farther;
    }
    let mut more = most / 2;
    for _ in 0..DOUBLINGS {
        if more < step {
            break;
        }
        let farther = most.saturating_add(more);
        if farther < fewer_than
            && over_at(net, branches, side, heads, back, rest, junction, farther) >= 0
        {
            most = farther;
        }
        more /= 2;
    }
    most
}

/// The most ticks, in whole steps, with which the junctions that don't stay pass nearer together, where those on the
/// rim pass a step nearer.
pub(crate) fn reach(
    net: &Net,
    branches: &Branches,
    side: Side,
    heads: &[i64],
    back: &[bool],
    rim: &[bool],
    rest: &[i64],
    step: i64,
) -> i64 {
    let room = room_in_box(branches, side, heads, back);
    if step < 1 || room < step {
        return 0;
    }
    let mut most = room - room % step;
    for place in 0..branches.many() {
        let junction = branches.stepping(place);
        if is_marked(rim, junction)
            && over_at(net, branches, side, heads, back, rest, junction, most) < 0
        {
            most = own_reach(net, branches, side, heads, back, rest, junction, step, most);
        }
    }
    most
}
