//! Flows of losses by powers in floating point.
#![tactic(auto)]

use crate::logarithms::{logarithm, number_of};

/// What a flow is raised to where friction takes head.
const EXPONENT: f64 = 1.852;

const RECIPROCAL: f64 = 1.0 / EXPONENT;

/// The steps of Newton's method to what fittings leave of a flow.
const STEPS: u32 = 3;

/// A pipe's flow by its head difference: the binary logarithm of the flow that a head tick drives through its friction
/// alone, and the head ticks that a squared flow tick loses to fittings.
#[derive(Clone, Copy, Drop)]
pub(crate) struct PowerCurve {
    pub unit: f64,
    pub fittings: f64,
}

// What part of a flow fittings leave that would lose so great a part of the head at the whole flow: with u the part,
// u^1.852 + lost u^2 = 1.
fn part_left(lost: f64) -> f64 {
    let mut part = 1.0 / (1.0 + lost).sqrt();
    for _ in 0..STEPS {
        let friction = number_of(EXPONENT * logarithm(part));
        let fittings = lost * part * part;
        part -= part * (friction + fittings - 1.0) / (EXPONENT * friction + 2.0 * fittings);
    }
    part
}

// The flow that a head difference of at least a tick drives.
fn driven(curve: &PowerCurve, difference: f64) -> f64 {
    let flow = number_of(curve.unit + RECIPROCAL * logarithm(difference));
    if curve.fittings > 0.0 {
        return flow * part_left(curve.fittings * flow * flow / difference);
    }
    flow
}

/// The flow at a head difference, with its sign.
pub(crate) fn power_flow(curve: &PowerCurve, difference: f64) -> f64 {
    if difference >= 1.0 {
        return driven(curve, difference);
    }
    if difference <= -1.0 {
        return -driven(curve, -difference);
    }
    0.0
}

/// The head difference that a flow other than 0 loses, with its sign, and the slope of flows there.
pub(crate) fn power_point(curve: &PowerCurve, flow: f64) -> (f64, f64) {
    let friction = number_of(EXPONENT * (logarithm(flow.abs()) - curve.unit));
    let fittings = curve.fittings * flow * flow;
    let slope = flow.abs() / (EXPONENT * friction.max(1.0) + 2.0 * fittings);
    let lost = friction + fittings;
    (if flow < 0.0 { -lost } else { lost }, slope)
}
