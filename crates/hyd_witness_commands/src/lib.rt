//! The command `meet`: a witness is read and tried period by period against a network.
//!
//! Tested by the commands of `hyd_stored_runs`.
#![tactic(auto)]

mod answer;
mod command_meet;
mod ids;
mod line_pieces;
mod lines;

pub use command_meet::meet_file;
