//! The kinds of laws.
#![tactic(auto)]

use hyd_net::{List, ShutoffHead};
use hyd_num::{Capacity, Span};
use hyd_spec_power_laws::PowerCapacity;

/// A closed link: nothing flows.
#[derive(Clone, Copy, Drop)]
pub struct Shut;

/// A loss that grows with the square of the flow (EPANET 2.2 User Manual, Analysis Algorithms). An emitter follows it
/// too.
#[derive(Clone, Copy, Drop)]
pub struct Quad {
    pub cap: Capacity,
}

/// A pipe's loss by Hazen-Williams (EPANET 2.2 User Manual, The Network Model).
#[derive(Clone, Copy, Drop)]
pub struct Power {
    pub cap: PowerCapacity,
}

/// A valve without loss coefficient, which passes 8026.822656 flow ticks for a head tick (this program's own).
#[derive(Clone, Copy, Drop)]
pub struct Linear;

/// A law at a head difference that a pump lifts: by the squared speed times its shutoff head, of which `lift` has the
/// floor and the ceiling in head ticks.
#[derive(Clone, Copy, Drop)]
pub struct Lifted<L> {
    pub lift: Span,
    /// The file's number from which the shutoff head is made.
    pub head: ShutoffHead,
    /// The speed in billionths.
    pub speed: i64,
    /// Whether the file's heads are in feet.
    pub us: bool,
    pub inner: L,
}

/// A law that passes one way only, from the first node to the second where it is `forward`.
#[derive(Clone, Copy, Drop)]
pub struct OneWay<L> {
    pub forward: bool,
    pub inner: L,
}

/// A law held at or below `cap` flow ticks.
#[derive(Clone, Copy, Drop)]
pub struct Capped<L> {
    pub cap: i64,
    pub inner: L,
}

/// A law held from `least` to `most` flow ticks.
#[derive(Clone, Copy, Drop)]
pub struct Held<L> {
    pub least: i64,
    pub most: i64,
    pub inner: L,
}

/// A knot of straight lines: the flow in flow ticks at a head difference in head ticks.
#[derive(Clone, Copy, Drop)]
pub struct Knot {
    pub head: i64,
    pub flow: i64,
}

/// Straight lines between knots in order of their head differences (EPANET 2.2 User Manual, The Network Model). Before
/// the first knot and after the last one the lines go on where the first, or last, two knots are apart; else the flow
/// stays.
#[derive(Drop)]
pub struct Bent {
    pub knots: List<Knot>,
}
