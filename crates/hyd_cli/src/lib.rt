//! The command `hyd`: what it does for its commands, what it says on standard error, and the call `tool` that
//! the program makes.
//!
//! Tested by `hyd_stored_runs`.
#![tactic(auto)]

mod command_gen;
mod command_run;
mod command_spread;
mod help;
mod program;
mod run_settings;
mod standard_error;
mod task_with_network;
mod usage;
mod whole_command;

pub use hyd_command_answers::Status;
pub use program::{run_program, start};
pub use whole_command::tool;
