//! Hazen-Williams losses: the whole flows that enclose a pipe's exact flow, found without roots or logarithms by a test
//! of cut powers.
//!
//! Tested by `hyd_tests_on_power_laws`.
#![tactic(auto)]

mod comparisons;
mod cut_powers;
mod flow_tests;
mod laws;
mod left_heads;
mod power_flows;
mod searches;
mod seeds;
mod whole_numbers;

pub use laws::{flows_enclose, flows_of_capacities, laws_of_cut_powers, losses_by_powers};
pub use power_flows::{covers, flow_down, flow_up, power_high, power_low};
