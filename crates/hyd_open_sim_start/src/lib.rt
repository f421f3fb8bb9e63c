//! Where a run stands between two periods whose ends may be open by some seconds, and what each of its periods begins
//! with: the standing at the start of the run and behind a period, the facts, the states of links and the network of a
//! period that starts, vectors that are handed in, how narrow vectors and levels are, and the causes of a stop.
//!
//! Tested by the runs and checks of `hyd_stored_runs`.
#![tactic(auto)]

mod facts_and_links_at_start;
mod given_vectors;
mod narrow_vectors;
mod period_start;
mod run_at_start;
mod standing;
mod stop_causes;

pub use facts_and_links_at_start::begin;
pub use given_vectors::{Failing, check_vectors, take_vectors};
pub use narrow_vectors::{are_close, are_steady};
pub use period_start::start_period;
pub use run_at_start::{begin_run, first_standing, standing_within};
pub use standing::Standing;
pub use stop_causes::{demand_stop, lack_fits, lack_stop, open_stop};
