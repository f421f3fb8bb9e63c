//! The command `run` with a slack, on files: ends of periods may be open by some seconds.
//!
//! Tested by the commands of `hyd_stored_runs`.
#![tactic(auto)]

mod command;
mod run_ends;
mod whole_run;

pub use command::run_with_slack;
pub use hyd_naming_command::{run_naming_links, say_end, status_of_end};
pub use hyd_open_run::OpenSettings;
pub use whole_run::run_network;
