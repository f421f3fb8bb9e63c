//! Why a net can't be put into a period.
#![tactic(auto)]

use thiserror::Error;

/// The first junction whose demand is above 10^8 cubic metres a day in magnitude, and that demand in flow ticks.
#[derive(Debug, Clone, Copy, PartialEq, Eq, Drop, Error)]
#[error("a demand out of range")]
pub struct PeriodDemand {
    pub junction: u32,
    pub value: i128,
}
