//! The kinds of ends.
#![tactic(auto)]

use crate::truth_of_rules::RuleOpen;

/// How a period ends that doesn't begin at the end of the run. Seconds count from its start.
#[derive(Clone, Copy, Drop)]
pub enum Ending {
    /// By the rules, after so many seconds: they change the state of a link there.
    ByRules(u32),
    /// By the clock or a level that is reached, after so many seconds.
    WithoutRules(u32),
    /// A rule is open at the first instant at which the rules matter.
    RuleOpen(RuleOpen),
    /// The clock and levels may end it at the earliest of these seconds and must have at the latest, which differ.
    EventOpen { earliest: u32, latest: u32 },
}
