//! The laws that a demand can have.
#![tactic(auto)]

use hyd_num::{Capacity, Decimal, Span};

/// A demand that doesn't depend on the pressure, in flow ticks.
#[derive(Clone, Copy, Drop)]
pub struct Fixed {
    pub demand: i64,
}

/// A demand that depends on the pressure: nothing up to a minimum one, all from a required one on, and by the square
/// root law between (EPANET 2.2 User Manual, pressure-driven demand). `p0` and `pf` are the floors and ceilings of the
/// two pressures in head ticks.
#[derive(Clone, Copy, Drop)]
pub struct Pda {
    pub demand: i64,
    /// Whether the file's pressures are in pounds a square inch.
    pub us: bool,
    pub cap: Capacity,
    pub p0: Span,
    pub pf: Span,
    /// The file's minimum pressure.
    pub minimum: Decimal,
    /// The file's required pressure.
    pub required: Decimal,
}

/// The law of a junction's demand, by its head above the elevation.
#[derive(Clone, Copy, Drop)]
pub enum OutLaw {
    Fixed(Fixed),
    Pda(Pda),
}
