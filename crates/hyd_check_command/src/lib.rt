//! The command `check` on files: a certificate is checked against a network, whatever its version.
//!
//! Tested by the commands of `hyd_stored_runs`.
#![tactic(auto)]

mod begun_reading;
mod command;
mod ends;
mod room;
mod whole_check;

pub use command::check_files;
pub use ends::{status_of_end, status_of_fault};
pub use whole_check::{NO_OPEN_SEARCH, check_network};
