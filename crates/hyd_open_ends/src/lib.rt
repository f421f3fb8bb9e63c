//! How a period ends whose start lies between two seconds, or what is open first.
//!
//! Tested by the runs and checks of `hyd_stored_runs`.
#![tactic(auto)]

mod ending;
mod seconds_tried;
mod ways;
mod with_rules;
mod without_rules;

pub use ending::find_way;
pub use ways::{Open, Way, first_end, late_at_end, lengths_of};
