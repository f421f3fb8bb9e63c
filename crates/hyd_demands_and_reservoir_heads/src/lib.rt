//! Demands of junctions and heads of reservoirs at a time of a run, exactly as the file's numbers and patterns give
//! them.
//!
//! Tested by `hyd_tests_on_laws_periods_and_tanks` and `hyd_tests_on_tanks_and_demands`.
#![tactic(auto)]

mod demands;
mod multipliers;
mod reservoirs;

pub use demands::{DemandRange, demand_at};
pub use multipliers::multiplier_at;
pub use reservoirs::head_at;
