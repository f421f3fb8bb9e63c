//! Patterns of multipliers over time.
#![tactic(auto)]

use crate::list::List;

/// A pattern: its multipliers in billionths, one for each pattern step, over and over.
#[derive(Drop)]
pub struct Pattern {
    pub multipliers: List<i64>,
}
