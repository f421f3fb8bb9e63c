//! Capacities of pipes while a file is read: each is made once, when its row is judged, and kept for the network; the
//! power 5.33 of a diameter is made once for all pipes of that diameter.
//!
//! Tested by the networks of `hyd_stored_rows`.
#![tactic(auto)]

mod kept_capacities;
mod kept_pipes;
mod kept_power_pipes;
mod kept_roots;
mod pipes_with_kept_roots;
mod same_numbers;

pub use kept_capacities::KeptCapacities;
