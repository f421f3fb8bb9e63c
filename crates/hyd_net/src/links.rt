//! Links and their states.
#![tactic(auto)]

use hyd_num::{Capacity, Decimal, Span};
use hyd_spec_power_laws::PowerCapacity;

/// What is lost in a pipe, by one of two formulas.
#[derive(Debug, Clone, Copy, Drop)]
pub enum PipeLoss {
    Manning(Capacity),
    HazenWilliams(PowerCapacity),
}

/// The law of a valve that is fully open: quadratic with a minor loss coefficient above 0, else
/// linear.
#[derive(Debug, Clone, Copy, Drop)]
pub enum OpenValve {
    Quadratic(Capacity),
    Linear,
}

/// The number of the file from which a pump's shutoff head is made, in feet or metres.
#[derive(Debug, Clone, Copy, Drop)]
pub enum ShutoffHead {
    /// The head of a curve of one point. The shutoff head is four thirds of it.
    FourThirds(Decimal),
    /// The shutoff head itself, of a curve of three points.
    Given(Decimal),
}

/// What a link is, with what its law is made of.
#[derive(Debug, Clone, Copy, Drop)]
pub enum LinkKind {
    Pipe(PipeLoss),
    /// A pipe with a check valve, which passes no flow from its second node to its first.
    CheckPipe(PipeLoss),
    Pump {
        cap: Capacity,
        /// The floor and the ceiling of the shutoff head in head ticks at speed 1.
        shutoff: Span,
        head: ShutoffHead,
        /// The number of the pattern of its speeds.
        pattern: Option<u32>,
    },
    /// A pump whose curve is one by straight lines.
    CurvePump {
        /// The number of its curve among the network's bends.
        bend: u32,
        /// The number of the pattern of its speeds.
        pattern: Option<u32>,
    },
    /// A throttle control valve, and its law where it is fully open.
    Tcv {
        valve: OpenValve,
    },
    /// A flow control valve, and its law where it is fully open.
    Fcv {
        valve: OpenValve,
    },
    /// A general purpose valve, whose losses are a curve by straight lines.
    Gpv {
        /// The number of its curve among the network's bends.
        bend: u32,
    },
}

/// The state in which a link is set. `nano` is a setting of the file in billionths.
#[derive(Debug, Clone, Copy, Drop)]
pub enum LinkState {
    Open,
    Closed,
    /// A pump of either kind at this speed in billionths. Speed 0 is `Closed`.
    Speed(i64),
    /// A throttle control valve with this loss coefficient, and the law of the open valve with it.
    Throttle { nano: i64, law: OpenValve },
    /// A flow control valve with this greatest flow, also in flow ticks, cut.
    Limit { nano: i64, ticks: i64 },
}

/// A link from its first node to its second one, by their numbers: junctions first, then
/// reservoirs, then tanks.
#[derive(Debug, Clone, Copy, Drop)]
pub struct Link {
    pub from: u32,
    pub to: u32,
    pub kind: LinkKind,
    /// The state before the pump patterns and controls of time 0.
    pub start: LinkState,
}
