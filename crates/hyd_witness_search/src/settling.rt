//! Heads that are moved by single parts, where the junctions around miss their balance by less then. In a wide link with a
//! small flow a part may move more flow than is allowed, so it matters to which part a head was rounded.
#![tactic(auto)]

ghost use Rattle.std.specs.Prelude.{◌≡◌, length};

use crate::bounds::tolerance;
use crate::flows::{difference, flow_of, narrowed};
use crate::number_lists::{add_at, add_value_at, number_at, value_at};
use crate::outflows::outflow_at;
use crate::ways::Ways;
use hyd_laws_at_scale::Scale;
use hyd_period_network::Net;

/// How often all junctions are gone through.
const ROUNDS: u32 = 4;

// The part of the misses that a link makes at its ends, added or taken away.
fn add_link(
    net: &Net,
    ways: &[Ways],
    scale: Scale,
    heads: &[i128],
    link: u32,
    taken: bool,
    misses: &mut [i64],
)
    ensures { length misses.new ≡ length misses.old }
{
    if link >= net.links() {
        return;
    }
    let ends = net.ends(link);
    let flow = flow_of(net, ways, scale, link, difference(heads, ends));
    let more = if taken { flow.saturating_neg() } else { flow };
    add_at(misses, ends.from, more.saturating_neg());
    add_at(misses, ends.to, more);
}

// The part of the misses that a junction's links and outflows make, added or taken away.
fn add_around(
    net: &Net,
    ways: &[Ways],
    scale: Scale,
    heads: &[i128],
    junction: u32,
    taken: bool,
    misses: &mut [i64],
)
    ensures { length misses.new ≡ length misses.old }
{
    if junction >= net.nodes() {
        return;
    }
    let leaves = outflow_at(net, scale, junction, value_at(heads, junction));
    let more = if taken {
        leaves
    } else {
        leaves.saturating_neg()
    };
    add_at(misses, junction, more);
    for tie in net.row(junction) {
        add_link(net, ways, scale, heads, tie.link, taken, misses);
    }
}

// The sum of the magnitudes of the misses at a junction and beside it.
fn sum_around(net: &Net, junction: u32, misses: &[i64]) -> i64 {
    let mut sum = number_at(misses, junction).saturating_abs();
    if junction >= net.nodes() {
        return sum;
    }
    for tie in net.row(junction) {
        sum = sum.saturating_add(number_at(misses, tie.other).saturating_abs());
    }
    sum
}

// Moves the head of a junction, and its part of the misses with it.
fn shift(
    net: &Net,
    ways: &[Ways],
    scale: Scale,
    junction: u32,
    by: i128,
    heads: &mut [i128],
    misses: &mut [i64],
)
    ensures heads { length heads.new ≡ length heads.old }
    ensures misses { length misses.new ≡ length misses.old }
{
    add_around(net, ways, scale, heads, junction, true, misses);
    add_value_at(heads, junction, by);
    add_around(net, ways, scale, heads, junction, false, misses);
}

// Moves the head of a junction where the misses around it fall, and tells whether they do.
fn moves(
    net: &Net,
    ways: &[Ways],
    scale: Scale,
    junction: u32,
    by: i128,
    heads: &mut [i128],
    misses: &mut [i64],
) -> bool
    ensures heads { length heads.new ≡ length heads.old }
    ensures misses { length misses.new ≡ length misses.old }
{
    let before = sum_around(net, junction, misses);
    shift(net, ways, scale, junction, by, heads, misses);
    if sum_around(net, junction, misses) < before {
        return true;
    }
    shift(
        net,
        ways,
        scale,
        junction,
        by.saturating_neg(),
        heads,
        misses,
    );
    false
}

// Goes through all junctions once, and tells whether a head was moved.
fn go_through(
    net: &Net,
    ways: &[Ways],
    scale: Scale,
    heads: &mut [i128],
    misses: &mut [i64],
) -> bool
    ensures heads { length heads.new ≡ length heads.old }
    ensures misses { length misses.new ≡ length misses.old }
{
    let most = narrowed(tolerance(scale));
    let mut moved = false;
    for junction in 0..net.junctions() {
        if number_at(misses, junction).saturating_abs() > most
            && (moves(net, ways, scale, junction, 1, heads, misses)
                || moves(net, ways, scale, junction, -1, heads, misses))
        {
            moved = true;
        }
    }
    moved
}

/// Moves heads of junctions by single parts where that lessens the misses around them. The misses are those at the heads.
pub(crate) fn settle(net: &Net, ways: &[Ways], scale: Scale, heads: &mut [i128], misses: &mut [i64])
    ensures heads { length heads.new ≡ length heads.old }
    ensures misses { length misses.new ≡ length misses.old }
{
    for _ in 0..ROUNDS {
        if !go_through(net, ways, scale, heads, misses) {
            return;
        }
    }
}
