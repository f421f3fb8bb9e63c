//! Definitions alone: the text of a spread, what its rows say, and which of them is wrong. The types are what
//! definitions and code share.
#![tactic(auto)]

/// What a row of a spread is about: the demand of junctions, the coefficient of emitters, the head of reservoirs, or
/// the
/// initial level of tanks.
#[derive(Clone, Copy, Drop)]
pub enum Subject {
    Demand,
    Emitter,
    Head,
    Level,
}

/// The two ends of what a spread leaves open: of factors in billionths, of offsets and of levels in head ticks.
#[derive(Clone, Copy, Drop)]
pub struct Ends {
    pub low: i128,
    pub high: i128,
}
