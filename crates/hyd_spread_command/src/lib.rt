//! The commands `run` and `check` for a spread, with a network that was read: demands, emitters, heads of reservoirs
//! and levels of tanks are known within limits only, which the rows of a file give.
//!
//! Tested by the commands of `hyd_stored_runs`.
#![tactic(auto)]

mod check_command;
mod opened_run;
mod run_ends;
mod whole_check;
mod whole_run;

pub use check_command::check_for_spread;
pub use hyd_check_command::check_files;
pub use hyd_spread_files::{SpreadFile, read_spread_file, refuse_spread};
pub use hyd_spread_rows::{SpreadFault, TEXT_TOO_LONG};
pub use whole_run::{SpreadNames, run_within};
