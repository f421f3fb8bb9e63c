//! Definitions of Hazen-Williams losses: the exact law, powers that are cut to 63 significant binary digits, the whole
//! flows that pass a test by them, and the numbers that a pipe makes for it. No function here has a body.
//!
//! Tested by `hyd_tests_on_power_laws`.
#![tactic(auto)]

mod cut_numbers;
mod power_capacities;

pub use cut_numbers::CutNumber;
pub use power_capacities::{HazenWilliamsPipe, PowerCapacity};
