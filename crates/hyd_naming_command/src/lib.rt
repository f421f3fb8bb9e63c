//! The command `run` with `--flows`: a network is run with the flows of links that are named, and its certificate and
//! its report with their lines are put out. Beside it what the end of any run means: its status, and what is said of a stop.
//!
//! Tested by `hyd_stored_runs`.
#![tactic(auto)]

mod command;
mod refused_name;
mod run_ends;
mod whole_run;

pub use command::run_naming_links;
pub use run_ends::{say_end, status_of_end};
