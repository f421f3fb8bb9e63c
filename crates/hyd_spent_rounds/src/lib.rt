//! Rounds that lead to no certificate with a junction held, told so without making them.
//!
//! Tested by `hyd_stored_runs` and `scripts/compare_flows.py`.
#![tactic(auto)]

mod bounds;
mod spent_rounds;

pub use spent_rounds::are_spent;
