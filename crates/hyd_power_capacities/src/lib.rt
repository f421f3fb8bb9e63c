//! Capacities of pipes with Hazen-Williams losses, and that their flows enclose the exact ones.
//!
//! Tested by `hyd_tests_on_power_laws`.
#![tactic(auto)]

mod capacities;
mod file_numbers;
mod laws;

pub use capacities::{PowerRange, hazen_williams_capacity};
pub use laws::{flows_of_pipes, hazen_williams_losses, one_capacity};
