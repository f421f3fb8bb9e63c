//! Junctions, reservoirs and tanks. Heads, elevations and levels are in head ticks of 10^-13
//! metres, flows in flow ticks of 10^-7 cubic metres a day.
#![tactic(auto)]

use crate::list::List;
use hyd_num::{Capacity, Decimal};

/// One category of a junction's demand: a base flow in ticks, and the number of its pattern.
#[derive(Debug, Clone, Copy, PartialEq, Eq, Drop)]
pub struct Demand {
    pub base: i64,
    pub pattern: Option<u32>,
}

/// A junction: its demand is the sum over its categories.
#[derive(Drop)]
pub struct Junction {
    pub elevation: i64,
    pub demands: List<Demand>,
    /// The square of the flow that a head of one tick above the elevation drives out.
    pub emitter: Option<Capacity>,
}

/// A reservoir: its head is the base head times its pattern's multiplier.
#[derive(Debug, Clone, Copy, PartialEq, Eq, Drop)]
pub struct Reservoir {
    pub head: i64,
    pub pattern: Option<u32>,
}

/// A tank: levels are above its bottom. It is cylindrical where it has no volume curve.
#[derive(Debug, Clone, Copy, Drop)]
pub struct Tank {
    pub bottom: i64,
    pub initial: i64,
    pub minimum: i64,
    pub maximum: i64,
    /// The area in 10^-9 square metres, cut. It means nothing where there is a volume curve.
    pub area: i64,
    /// The file's diameter in feet or metres, from which the area is made.
    pub diameter: Decimal,
    /// The number of its volume curve among the network's shapes.
    pub shape: Option<u32>,
    /// Whether it takes inflow where it is full, which is spilled.
    pub overflow: bool,
}
