//! The start of a run for a spread and of each of its periods: the standing at which the run begins, with the levels
//! that the spread allows, or the fault of the text that leaves it open there; and the nets of both sides, the facts
//! and the record of a period that starts.
//!
//! Tested by the starts of `hyd_stored_starts`.
#![tactic(auto)]

mod known_stocks;
mod open_tanks;
mod period_start;
mod run_at_start;
mod start_faults;
mod start_of_text;
mod stop_causes;

pub use period_start::start_period;
pub use run_at_start::{begin_run, first_standing, standing_within};
pub use start_of_text::{SpreadStart, read_start, start_without_spread};
pub use stop_causes::demand_stop;
