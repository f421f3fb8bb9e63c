//! What the end of a period may leave open.
#![tactic(auto)]

use hyd_period_facts::{LevelOpen, TankOpen};
use hyd_period_length::RuleOpen;

/// The first matter that the vectors of a period leave open: rules and the end of the period in order of time, then
/// tanks, then level controls.
#[derive(Clone, Copy, Drop)]
pub enum Open {
    /// A rule at an instant of the period.
    Rule(RuleOpen),
    /// The end of the period, which lies between two seconds after its start.
    Event { earliest: u32, latest: u32 },
    /// The state of a tank at the end of the period.
    Tank(TankOpen),
    /// A level control there.
    Control(LevelOpen),
}
