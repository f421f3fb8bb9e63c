//! Slopes of flows, in flow ticks a head tick.
#![tactic(auto)]

ghost use Rattle.std.specs.Prelude.{◌≡◌, ◌<◌, length};

use crate::flow_curves::{Curve, curve_at, slope_at};
use crate::flows::{difference, flat_at, low_outflow};
use crate::number_lists::{add_real_at, number_at, real_at};
use hyd_period_network::Net;
use std::num::nearest_i64_to_f64;

/// The least slope, which keeps the matrix from being singular where all flows around a junction are flat.
const LEAST_SLOPE: f64 = 1e-9;

/// A slope is taken from flows at so great a part of the difference on either side, which rounds off bends of laws.
const REACH: i64 = 256;

/// Of each junction's miss this part is added to its diagonal, which holds its step near 100 m.
const PART_OF_MISS: f64 = 1e-15;

// How far on either side of a pressure outflows are taken.
fn reach(difference: i64) -> i64 {
    (difference.saturating_abs() / REACH).saturating_add(1)
}

// The slope of a rise over twice a reach.
fn slope(below: f64, above: f64, reach: i64) -> f64 {
    (above - below) * 0.5 / nearest_i64_to_f64(reach)
}

// The slope of what leaves a junction beside its links.
fn outflow_slope(net: &Net, flat: &[Option<f64>], junction: u32, head: i64) -> f64 {
    if flat_at(flat, junction).is_some() || junction >= net.junctions() {
        return 0.0;
    }
    let reach = reach(head.saturating_sub(net.elevation(junction)));
    let below = low_outflow(net, junction, head.saturating_sub(reach));
    let above = low_outflow(net, junction, head.saturating_add(reach));
    slope(nearest_i64_to_f64(below), nearest_i64_to_f64(above), reach)
}

/// A slope, or the least one.
pub(crate) fn not_flat(slope: f64) -> f64 {
    if slope > LEAST_SLOPE {
        slope
    } else {
        LEAST_SLOPE
    }
}

/// Puts the numbers off the diagonal: the slopes of links with the sign turned.
pub(crate) fn put_slopes(net: &Net, curves: &[Curve], heads: &[i64], off: &mut [f64])
    ensures { length off.new ≡ length off.old }
{
    for link in 0..net.links() {
        if let Some(entry) = off.get_mut(link as usize) {
            let curve = curve_at(curves, link);
            let slope = slope_at(net, link, &curve, difference(heads, net.ends(link)));
            *entry = -not_flat(slope);
        }
    }
}

// Puts the part of the diagonal that isn't of links.
fn put_own_slopes(
    net: &Net,
    flat: &[Option<f64>],
    heads: &[i64],
    misses: &[f64],
    diagonal: &mut [f64],
)
    ensures { length diagonal.new ≡ length diagonal.old }
{
    for junction in 0..net.junctions() {
        if let Some(entry) = diagonal.get_mut(junction as usize) {
            let hold = real_at(misses, junction).abs() * PART_OF_MISS;
            let slope = outflow_slope(net, flat, junction, number_at(heads, junction));
            *entry = hold + LEAST_SLOPE + slope;
        }
    }
}

// Adds the slope of each link at both its ends.
fn add_slopes(net: &Net, off: &[f64], diagonal: &mut [f64])
    ensures { length diagonal.new ≡ length diagonal.old }
{
    for link in 0..net.links() {
        let ends = net.ends(link);
        let slope = -real_at(off, link);
        add_real_at(diagonal, ends.from, slope);
        add_real_at(diagonal, ends.to, slope);
    }
}

/// Puts the diagonal: the slopes of each junction's links and of what leaves it, and a hold on its step by its miss.
pub(crate) fn put_diagonal(
    net: &Net,
    flat: &[Option<f64>],
    heads: &[i64],
    misses: &[f64],
    off: &[f64],
    diagonal: &mut [f64],
)
    ensures { length diagonal.new ≡ length diagonal.old }
{
    put_own_slopes(net, flat, heads, misses, diagonal);
    add_slopes(net, off, diagonal);
}
