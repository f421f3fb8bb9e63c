//! Slopes of flows, in units of 1 / `UNIT` flow parts a head part.
#![tactic(auto)]

ghost use Rattle.std.specs.Prelude.{◌≡◌, ◌<◌, length};

use crate::flows::{difference, flow_of, narrowed};
use crate::number_lists::{add_at, number_at, value_at};
use crate::outflows::{outflow_at, pressure_of};
use crate::ways::Ways;
use hyd_laws_at_scale::Scale;
use hyd_period_network::Net;
use std::num::{nearest_i64_to_f64, saturating_f64_to_i64};

/// Half a flow part in a head part.
const HALF_UNIT: f64 = 268435456.0;

/// The least slope, which keeps the matrix from being singular where all flows around a junction are flat.
const LEAST_SLOPE: i64 = 1;

/// A slope is taken from flows at so great a part of the difference on either side, for flows are whole parts.
const REACH: i128 = 256;

/// Of each junction's miss this part is added to its diagonal, which holds its step near 100 m.
const MISS_PER_UNIT: i64 = 1862645;

// How far on either side of a head difference flows are taken.
fn reach(difference: i128) -> i128 {
    (difference.saturating_abs() / REACH).saturating_add(1)
}

// The slope of a rise over twice a reach.
fn slope(below: i64, above: i64, reach: i128) -> i64 {
    let rise = nearest_i64_to_f64(above.saturating_sub(below));
    saturating_f64_to_i64(rise / nearest_i64_to_f64(narrowed(reach)) * HALF_UNIT)
}

// The slope of a link's flow.
fn link_slope(net: &Net, ways: &[Ways], scale: Scale, link: u32, difference: i128) -> i64
    requires { link < length net.now.ends }
{
    let reach = reach(difference);
    let below = flow_of(net, ways, scale, link, difference.saturating_sub(reach));
    let above = flow_of(net, ways, scale, link, difference.saturating_add(reach));
    slope(below, above, reach)
}

// The slope of what leaves a junction beside its links.
fn outflow_slope(net: &Net, scale: Scale, junction: u32, head: i128) -> i64 {
    let reach = reach(pressure_of(net, scale, junction, head));
    let below = outflow_at(net, scale, junction, head.saturating_sub(reach));
    let above = outflow_at(net, scale, junction, head.saturating_add(reach));
    slope(below, above, reach)
}

/// Puts the numbers off the diagonal: the slopes of links with the sign turned.
pub(crate) fn put_slopes(net: &Net, ways: &[Ways], scale: Scale, heads: &[i128], off: &mut [i64])
    ensures { length off.new ≡ length off.old }
{
    for link in 0..net.links() {
        if let Some(entry) = off.get_mut(link as usize) {
            let difference = difference(heads, net.ends(link));
            let slope = link_slope(net, ways, scale, link, difference);
            *entry = slope.max(LEAST_SLOPE).saturating_neg();
        }
    }
}

// Puts the part of the diagonal that isn't of links.
fn put_own_slopes(net: &Net, scale: Scale, heads: &[i128], misses: &[i64], diagonal: &mut [i64])
    ensures { length diagonal.new ≡ length diagonal.old }
{
    for junction in 0..net.junctions() {
        if let Some(entry) = diagonal.get_mut(junction as usize) {
            let hold = number_at(misses, junction).saturating_abs() / MISS_PER_UNIT;
            let slope = outflow_slope(net, scale, junction, value_at(heads, junction));
            *entry = hold
                .saturating_add(LEAST_SLOPE)
                .saturating_add(slope.max(0));
        }
    }
}

// Adds the slope of each link at both its ends.
fn add_slopes(net: &Net, off: &[i64], diagonal: &mut [i64])
    ensures { length diagonal.new ≡ length diagonal.old }
{
    for link in 0..net.links() {
        let ends = net.ends(link);
        let slope = number_at(off, link).saturating_neg();
        add_at(diagonal, ends.from, slope);
        add_at(diagonal, ends.to, slope);
    }
}

/// Puts the diagonal: the slopes of each junction's links and of what leaves it, and a hold on its step by its miss.
pub(crate) fn put_diagonal(
    net: &Net,
    scale: Scale,
    heads: &[i128],
    misses: &[i64],
    off: &[i64],
    diagonal: &mut [i64],
)
    ensures { length diagonal.new ≡ length diagonal.old }
{
    put_own_slopes(net, scale, heads, misses, diagonal);
    add_slopes(net, off, diagonal);
}
