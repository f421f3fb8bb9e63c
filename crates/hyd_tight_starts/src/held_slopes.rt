//! Slopes of flows with a junction held, in units of 1 / `UNIT` flow ticks a head tick.
#![tactic(auto)]

ghost use Rattle.std.specs.Prelude.{◌≡◌, ◌<◌, length};

use crate::flows::{flow, is_flat, own_part};
use crate::places::{add_at, number_at, put_at};
use hyd_period_network::{Ends, Net};
use hyd_spec_certificates::Side;
use std::num::{nearest_i64_to_f64, saturating_f64_to_i64};

/// Half a flow tick in a head tick.
const HALF_UNIT: f64 = 268435456.0;

/// The least slope, which keeps the matrix from being singular where all flows around a junction are flat.
const LEAST_SLOPE: i64 = 1;

/// The slope at a held junction, which keeps it where it is.
const HELD_SLOPE: i64 = 1 << 62;

/// A slope is taken from flows at so great a part of the difference on either side, for flows are whole ticks.
const REACH: i64 = 256;

// How far on either side of a head difference flows are taken.
fn reach(difference: i64) -> i64 {
    (difference.saturating_abs() / REACH).saturating_add(1)
}

// The slope of a rise over twice a reach.
fn slope(below: i64, above: i64, reach: i64) -> i64 {
    let rise = nearest_i64_to_f64(above.saturating_sub(below));
    saturating_f64_to_i64(rise / nearest_i64_to_f64(reach) * HALF_UNIT)
}

// The head difference along a link.
fn difference(heads: &[i64], ends: Ends) -> i64 {
    number_at(heads, ends.from).saturating_sub(number_at(heads, ends.to))
}

// The slope of a link's flow.
fn link_slope(net: &Net, link: u32, difference: i64) -> i64
    requires { link < length net.now.ends }
{
    let reach = reach(difference);
    let below = flow(net, link, false, difference.saturating_sub(reach));
    let above = flow(net, link, false, difference.saturating_add(reach));
    slope(below, above, reach)
}

// The slope of what leaves a junction beside its links.
fn outflow_slope(net: &Net, junction: u32, head: i64) -> i64 {
    if junction >= net.junctions() || is_flat(net, junction) {
        return 0;
    }
    let reach = reach(head.saturating_sub(net.elevation(junction)));
    let below = own_part(net, Side::Upper, junction, head.saturating_sub(reach));
    let above = own_part(net, Side::Upper, junction, head.saturating_add(reach));
    slope(below, above, reach)
}

/// Puts the numbers off the diagonal: the slopes of links with the sign turned.
pub(crate) fn put_slopes(net: &Net, heads: &[i64], off: &mut [i64])
    ensures { length off.new ≡ length off.old }
{
    for link in 0..net.links() {
        let slope = link_slope(net, link, difference(heads, net.ends(link)));
        put_at(off, link, slope.max(LEAST_SLOPE).saturating_neg());
    }
}

// Puts the part of the diagonal that isn't of links.
fn put_own_slopes(net: &Net, heads: &[i64], held: u32, diagonal: &mut [i64])
    ensures { length diagonal.new ≡ length diagonal.old }
{
    for junction in 0..net.junctions() {
        let own = if junction == held {
            HELD_SLOPE
        } else {
            outflow_slope(net, junction, number_at(heads, junction))
        };
        put_at(diagonal, junction, own.saturating_add(LEAST_SLOPE));
    }
}

/// Puts the diagonal: the slopes of each junction's links and of what leaves it, and a steep one where it is held.
pub(crate) fn put_diagonal(net: &Net, heads: &[i64], held: u32, off: &[i64], diagonal: &mut [i64])
    ensures { length diagonal.new ≡ length diagonal.old }
{
    put_own_slopes(net, heads, held, diagonal);
    for link in 0..net.links() {
        let ends = net.ends(link);
        let slope = number_at(off, link).saturating_neg();
        add_at(diagonal, ends.from, slope);
        add_at(diagonal, ends.to, slope);
    }
}
