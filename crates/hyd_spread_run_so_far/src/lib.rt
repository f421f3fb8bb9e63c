//! A run for a spread as far as it has gone, whatever finds its periods: its first and its last lines, put out through
//! two pens, what these have put in, and what shows that such a run goes on.
//!
//! Tested by the runs and checks of `hyd_stored_runs`.
#![tactic(auto)]

mod first_and_last_lines;
mod left_open;
mod second_line;

pub use first_and_last_lines::{begin_run, end_run, finish_run, put_first_lines};
