//! Options and times of a network.
#![tactic(auto)]

use hyd_num::{Decimal, FlowUnit};

/// The options of a network (EPANET 2.2 User Manual, [OPTIONS]).
#[derive(Debug, Clone, Copy, Drop)]
pub struct Options {
    /// The unit of flows. It says also whether lengths, heads and pressures are US customary.
    pub unit: FlowUnit,
    /// Whether demands depend on pressure.
    pub pda: bool,
    /// The pressure up to which a demand that depends on pressure gets nothing, in the file's unit.
    pub p0: Decimal,
    /// The pressure from which on it is met, in the file's unit.
    pub pf: Decimal,
    /// The factor of all demands.
    pub multiplier: Decimal,
    /// The number of the pattern of demands that name none. `None`: their multiplier is 1.
    pub default_pattern: Option<u32>,
}

/// The times of a network in seconds (EPANET 2.2 User Manual, [TIMES]).
#[derive(Debug, Clone, Copy, PartialEq, Eq, Drop)]
pub struct Times {
    pub duration: u32,
    /// The greatest length of a period.
    pub hydraulic: u32,
    pub pattern: u32,
    pub pattern_start: u32,
    pub report: u32,
    pub report_start: u32,
    /// The time of day at which the first period begins.
    pub start_clock: u32,
    /// The time between two trials of the rules.
    pub rule: u32,
}
