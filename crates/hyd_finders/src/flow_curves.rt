//! Flows of links in floating point. Head differences come in whole ticks: heads themselves would lose them.
#![tactic(auto)]

ghost use Rattle.std.specs.Prelude.{◌≡◌, ◌<◌, length};

use crate::flows::middle_flow;
use crate::logarithms::{logarithm, power_of_two};
use crate::power_curves::{PowerCurve, power_flow, power_point};
use hyd_law::{LinkLaw, Power};
use hyd_num::{Capacity, Scaled, Span};
use hyd_period_network::{Ends, Net};
use std::alloc::{AllocError as OutOfMemory, Global};
use std::num::{nearest_i64_to_f64, nearest_u64_to_f64};

/// A slope is taken from flows at so great a part of the difference on either side, which rounds off bends of laws.
const REACH: i64 = 256;

/// The greatest flow that is reckoned with, in flow ticks.
const GREATEST_RECKONED_FLOW: f64 = 1e18;

/// What a valve without loss coefficient passes for a head tick.
const TICKS_OF_OPEN_VALVE: f64 = 8026.822656;

/// Constants of losses by powers are of this power of the flow.
const POWER_OF_FLOWS: f64 = 1852.0;

/// What a link's flow is made of.
#[derive(Clone, Copy, Drop)]
enum Shape {
    /// The square root of a multiple of the head difference.
    Root,
    /// A multiple of the head difference.
    Line,
    /// A loss by powers.
    Power(PowerCurve),
    /// Straight lines between knots, for which the law is asked.
    Asked,
}

/// A link's flow by its head difference: of a shape with a multiple, at a difference that is lifted, held from a least
/// to a greatest flow.
#[derive(Clone, Copy, Drop)]
pub(crate) struct Curve {
    shape: Shape,
    multiple: f64,
    lift: f64,
    least: f64,
    most: f64,
}

// A binary number.
fn real(number: Scaled) -> f64 {
    nearest_u64_to_f64(number.mant) * power_of_two(number.exp)
}

fn free(shape: Shape, multiple: f64) -> Curve {
    Curve {
        shape,
        multiple,
        lift: 0.0,
        least: -GREATEST_RECKONED_FLOW,
        most: GREATEST_RECKONED_FLOW,
    }
}

fn root(capacity: &Capacity) -> Curve {
    free(Shape::Root, real(capacity.lo))
}

fn power(law: &Power) -> Curve {
    let capacity = &law.cap;
    let places = nearest_i64_to_f64(i64::from(capacity.low.exp));
    let mantissa = logarithm(nearest_u64_to_f64(capacity.low.mant));
    let curve = PowerCurve {
        unit: (places + mantissa) / POWER_OF_FLOWS,
        fittings: match capacity.minor {
            Some(minor) => real(minor.lo),
            None => 0.0,
        },
    };
    free(Shape::Power(curve), 0.0)
}

fn line() -> Curve {
    free(Shape::Line, TICKS_OF_OPEN_VALVE)
}

fn shut() -> Curve {
    free(Shape::Line, 0.0)
}

// The middle of a span.
fn middle(span: Span) -> f64 {
    let held = (span.lo / 2 + span.hi / 2).clamp(
        -1_000_000_000_000_000_000,
        1_000_000_000_000_000_000,
    );
    nearest_i64_to_f64(held as i64)
}

impl Curve {
    fn lifted(self, lift: Span) -> Curve {
        Curve {
            lift: middle(lift),
            ..self
        }
    }

    fn one_way(self, forward: bool) -> Curve {
        if forward {
            Curve { least: 0.0, ..self }
        } else {
            Curve { most: 0.0, ..self }
        }
    }

    fn up_to(self, most: i64) -> Curve {
        Curve {
            most: nearest_i64_to_f64(most),
            ..self
        }
    }
}

// The curve of a law.
fn curve_of(law: &LinkLaw) -> Curve {
    match law {
        LinkLaw::Shut(_) => shut(),
        LinkLaw::Quad(law) => root(&law.cap),
        LinkLaw::Linear(_) => line(),
        LinkLaw::QuadOneWay(law) => root(&law.inner.cap).one_way(law.forward),
        LinkLaw::LinearOneWay(law) => line().one_way(law.forward),
        LinkLaw::Pump(law) => root(&law.inner.inner.cap)
            .lifted(law.inner.lift)
            .one_way(law.forward),
        LinkLaw::Limit(law) => root(&law.inner.cap).up_to(law.cap),
        LinkLaw::LinearLimit(law) => line().up_to(law.cap),
        LinkLaw::LimitOneWay(law) => root(&law.inner.inner.cap)
            .up_to(law.inner.cap)
            .one_way(law.forward),
        LinkLaw::LinearLimitOneWay(law) => line().up_to(law.inner.cap).one_way(law.forward),
        LinkLaw::Power(law) => power(law),
        LinkLaw::PowerOneWay(law) => power(&law.inner).one_way(law.forward),
        LinkLaw::Bent(_) => free(Shape::Asked, 0.0),
    }
}

// The square root of a multiple of a head difference, with its sign.
fn root_at(multiple: f64, difference: f64) -> f64 {
    if difference >= 0.0 {
        (multiple * difference).sqrt()
    } else {
        -(multiple * -difference).sqrt()
    }
}

fn held(least: f64, most: f64, flow: f64) -> f64 {
    if flow < least {
        least
    } else if flow > most {
        most
    } else {
        flow
    }
}

/// The flow of a link with a curve, at a head difference in head ticks.
pub(crate) fn flow(net: &Net, link: u32, curve: &Curve, difference: i64) -> f64
    requires { link < length net.now.ends }
{
    let lifted = nearest_i64_to_f64(difference) + curve.lift;
    let flow = match curve.shape {
        Shape::Root => root_at(curve.multiple, lifted),
        Shape::Line => curve.multiple * lifted,
        Shape::Power(power) => power_flow(&power, lifted),
        Shape::Asked => return nearest_i64_to_f64(middle_flow(net, link, difference)),
    };
    held(curve.least, curve.most, flow)
}

/// A point of a link's curve: a head difference in head ticks, and the flow there in flow ticks.
#[derive(Clone, Copy, Drop)]
pub(crate) struct Point {
    pub difference: f64,
    pub flow: f64,
}

/// The point of a curve at a head difference.
pub(crate) fn point_at(net: &Net, link: u32, curve: &Curve, difference: i64) -> Point
    requires { link < length net.now.ends }
{
    Point {
        difference: nearest_i64_to_f64(difference),
        flow: flow(net, link, curve, difference),
    }
}

// The point of a curve where a flow passes that isn't held, and the slope there, where the flow tells them.
fn passed(curve: &Curve, flow: f64) -> Option<(Point, f64)> {
    match curve.shape {
        Shape::Root if curve.multiple > 0.0 => {
            let difference = flow * flow.abs() / curve.multiple - curve.lift;
            let slope = curve.multiple.sqrt().min(curve.multiple * 0.5 / flow.abs());
            Some((Point { difference, flow }, slope))
        }
        Shape::Power(power) if flow.abs() >= 1.0 => {
            let (difference, slope) = power_point(&power, flow);
            Some((Point { difference, flow }, slope))
        }
        _ => None,
    }
}

/// The point of a curve where a flow passes, and the slope there; where that doesn't tell the head difference, the one
/// at a head difference.
pub(crate) fn point_of_flow(
    net: &Net,
    link: u32,
    curve: &Curve,
    flow: f64,
    difference: i64,
) -> (Point, f64)
    requires { link < length net.now.ends }
{
    if curve.least < flow && flow < curve.most {
        if let Some(found) = passed(curve, flow) {
            return found;
        }
    }
    (
        point_at(net, link, curve, difference),
        slope_at(net, link, curve, difference),
    )
}

// How far on either side of a head difference flows are taken.
fn reach(difference: i64) -> i64 {
    (difference.saturating_abs() / REACH).saturating_add(1)
}

/// The slope of a link's flow at a head difference, in flow ticks a head tick.
pub(crate) fn slope_at(net: &Net, link: u32, curve: &Curve, difference: i64) -> f64
    requires { link < length net.now.ends }
{
    let reach = reach(difference);
    let below = flow(net, link, curve, difference.saturating_sub(reach));
    let above = flow(net, link, curve, difference.saturating_add(reach));
    (above - below) * 0.5 / nearest_i64_to_f64(reach)
}

// What whole ticks and floating point may take from a flow. At a lift it depends on the law, and isn't known here.
fn rounding(curve: &Curve, flow: f64) -> f64 {
    if curve.lift != 0.0 {
        return GREATEST_RECKONED_FLOW;
    }
    let part = if matches!(curve.shape, Shape::Power(_)) {
        1e-12
    } else {
        1e-14
    };
    flow.abs() * part + 1e-6
}

/// At most the flow in whole ticks that a law gives where its curve has a flow.
pub(crate) fn low_of(curve: &Curve, flow: f64) -> f64 {
    (flow - rounding(curve, flow)).floor()
}

/// At least that flow.
pub(crate) fn high_of(curve: &Curve, flow: f64) -> f64 {
    (flow + rounding(curve, flow)).ceil()
}

/// The curve of a closed link, for room.
pub(crate) fn no_flow() -> Curve {
    shut()
}

/// The curve of a link. Past the list's end it is that of a closed one.
pub(crate) fn curve_at(curves: &[Curve], link: u32) -> Curve {
    curves.get(link as usize).copied().unwrap_or(shut())
}

/// Puts the curves of a net's links.
pub(crate) fn put_curves(net: &Net, curves: &mut [Curve])
    ensures { length curves.new ≡ length curves.old }
{
    for link in 0..net.links() {
        if let Some(entry) = curves.get_mut(link as usize) {
            *entry = curve_of(net.law(link));
        }
    }
}
