//! Capacities: enclosures of Manning's head losses in pipes and valves, and of the quadratic relations of pumps,
//! emitters and pressure-driven demands.
//!
//! Tested by the rows of `hyd_stored_rows`.
#![tactic(auto)]

mod capacity_range;
mod file_numbers;
mod pipes_and_valves;
mod pumps_emitters_and_demands;

pub use capacity_range::CapRange;
pub use pipes_and_valves::{pipe_capacity, valve_capacity};
pub use pumps_emitters_and_demands::{emitter_capacity, pda_capacity, pump_capacity};
