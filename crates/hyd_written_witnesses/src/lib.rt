//! The command `witness`: a witness is sought for a certificate, and written.
//!
//! Tested by the commands of `hyd_stored_runs`.
#![tactic(auto)]

mod answer;
mod command;
mod lines;
mod passes;
mod statuses;
mod writing;

pub use command::write_witness;
