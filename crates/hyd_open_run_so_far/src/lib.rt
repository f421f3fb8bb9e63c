//! A run with a slack as far as it has gone, whatever finds its periods: its first and its last lines, put out through
//! two pens, what these have put in, and what shows that such a run goes on.
//!
//! Tested by the runs and checks of `hyd_stored_runs`.
#![tactic(auto)]

mod first_and_last_lines;
mod signs_of_life;

pub use first_and_last_lines::{begin_run, end_run, finish_run};
pub use signs_of_life::OpenSigns;
