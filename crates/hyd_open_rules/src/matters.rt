//! What the rules bring about at an instant at which they matter.
#![tactic(auto)]

use hyd_period_length::RuleOpen;

/// What the rules bring about at the first instant at which they matter. Seconds count from the first second in which
/// the period may begin.
#[derive(Clone, Copy, Drop)]
pub enum Matter {
    /// They change the state of a link there.
    Acts(u32),
    /// One of them is open there.
    Open { seconds: u32, found: RuleOpen },
}
