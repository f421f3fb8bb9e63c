//! Simple controls and rules: the states of links at the start of a period, what is known of a rule at an instant, and
//! what the rules change.
//!
//! Tested by `hyd_tests_on_rules`.
#![tactic(auto)]

mod actions_by_priority;
mod changes;
mod changes_by_rules;
mod clauses;
mod logic;
mod pump_patterns_and_simple_controls;
mod rules;
mod state_comparison;
pub mod theorems_on_unread_tank_heads;
mod time_of_day;

pub use changes::Changes;
pub use changes_by_rules::act;
pub use pump_patterns_and_simple_controls::{LevelOpen, find_open, settle};
pub use rules::decide;
