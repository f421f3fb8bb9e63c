//! Points of curves, which are joined by straight lines (EPANET 2.2 User Manual, [CURVES]).
#![tactic(auto)]

/// A point of a tank's volume curve: a level in head ticks above the bottom, and the volume up to
/// it in volume ticks of 10^-9 cubic metres.
#[derive(Debug, Clone, Copy, PartialEq, Eq, Drop)]
pub struct VolumePoint {
    pub level: i64,
    pub volume: i64,
}

/// A point of a pump's curve or of a general purpose valve's: a flow in flow ticks, and the head
/// in head ticks that the pump gives at it at speed 1, or that the valve loses.
#[derive(Debug, Clone, Copy, PartialEq, Eq, Drop)]
pub struct HeadPoint {
    pub flow: i64,
    pub head: i64,
}
