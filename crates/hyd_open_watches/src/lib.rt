//! What may end a period whose start or end lies between two seconds, beside the rules: the next instant of the clock,
//! the earliest and the latest second of what is watched, and the level that has just been reached where that ends the
//! period.
//!
//! Tested by the runs and checks of `hyd_stored_runs`.
#![tactic(auto)]

mod arrivals;
mod control_levels;
mod instants;
mod nearest;
mod seconds;
mod tank_bounds;
mod timed_controls;
mod watches;

pub use arrivals::just_reached;
pub use instants::seconds_to_instant;
pub use seconds::{Seconds, find_seconds};
pub use watches::Watch;
