//! Steps on flows and heads together (Todini and Pilati 1988): of each link a point of its curve moves by the flow that
//! the step foresees, not by the head difference, which closes in few steps where flows are far from their balance.
#![tactic(auto)]

ghost use Rattle.std.specs.Prelude.{◌≡◌, ◌<◌, length};

use crate::flow_curves::{Curve, Point, curve_at, point_at, point_of_flow};
use crate::flows::{difference, put_outflows};
use crate::number_lists::{add_real_at, put_real_at, real_at};
use crate::slopes::not_flat;
use hyd_period_network::Net;
use std::alloc::{AllocError as OutOfMemory, Global};
use std::num::nearest_i64_to_f64;

/// No flow without a head difference.
const ORIGIN: Point = Point {
    difference: 0.0,
    flow: 0.0,
};

/// For each link a point of its curve, opened once.
#[derive(Drop)]
pub(crate) struct FlowForm {
    points: Vec<Point>,
}

// The flow that is foreseen at a head difference, along a slope from a point.
fn foreseen(point: &Point, slope: f64, difference: i64) -> f64 {
    point.flow + slope * (nearest_i64_to_f64(difference) - point.difference)
}

// The point of a link.
fn point_of(points: &[Point], link: u32) -> Point {
    points.get(link as usize).copied().unwrap_or(ORIGIN)
}

// Adds what links bring to their ends by what is foreseen.
fn add_foreseen(net: &Net, points: &[Point], heads: &[i64], off: &[f64], misses: &mut [f64])
    ensures { length misses.new ≡ length misses.old }
{
    for link in 0..net.links() {
        let ends = net.ends(link);
        let point = point_of(points, link);
        let flow = foreseen(&point, -real_at(off, link), difference(heads, ends));
        add_real_at(misses, ends.from, -flow);
        add_real_at(misses, ends.to, flow);
    }
}

// Puts the points at given heads.
fn put_points(net: &Net, curves: &[Curve], heads: &[i64], points: &mut [Point]) {
    for link in 0..net.links() {
        if let Some(entry) = points.get_mut(link as usize) {
            let curve = curve_at(curves, link);
            *entry = point_at(net, link, &curve, difference(heads, net.ends(link)));
        }
    }
}

// Moves a link's point to the flow that is foreseen at given heads, and gives the slope there.
fn move_point(
    net: &Net,
    curves: &[Curve],
    heads: &[i64],
    link: u32,
    slope: f64,
    point: &mut Point,
) -> f64
    requires { link < length net.now.ends }
{
    let curve = curve_at(curves, link);
    let difference = difference(heads, net.ends(link));
    let flow = foreseen(point, slope, difference);
    let (moved, slope) = point_of_flow(net, link, &curve, flow, difference);
    *point = moved;
    slope
}

impl FlowForm {
    /// Room for a net's links.
    pub(crate) fn open(alloc: Global, net: &Net) -> Result<FlowForm, OutOfMemory> {
        Ok(FlowForm {
            points: vec![in alloc; ORIGIN; net.links() as usize]?,
        })
    }

    /// Begins at given heads.
    pub(crate) fn begin(&mut self, net: &Net, curves: &[Curve], heads: &[i64]) {
        put_points(net, curves, heads, &mut self.points);
    }

    /// Puts by how much each junction misses its balance at given heads by what is foreseen.
    pub(crate) fn put_misses(
        &self,
        net: &Net,
        flat: &[Option<f64>],
        heads: &[i64],
        loads: &[f64],
        off: &[f64],
        misses: &mut [f64],
    )
        ensures { length misses.new ≡ length misses.old }
    {
        put_outflows(net, flat, heads, loads, misses);
        add_foreseen(net, &self.points, heads, off, misses);
    }

    /// Moves each point to the flow that is foreseen at given heads, and puts the slopes there, with the sign turned.
    pub(crate) fn advance(&mut self, net: &Net, curves: &[Curve], heads: &[i64], off: &mut [f64])
        ensures { length off.new ≡ length off.old }
    {
        for link in 0..net.links() {
            if let Some(point) = self.points.get_mut(link as usize) {
                let slope = move_point(net, curves, heads, link, -real_at(off, link), point);
                put_real_at(off, link, -not_flat(slope));
            }
        }
    }
}
