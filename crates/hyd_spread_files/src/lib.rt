//! The file of a spread: it is read, and refused with the line of its fault. Demands, emitters, heads of reservoirs and
//! levels of tanks are known within limits only, which its rows give.
//!
//! Tested by the commands of `hyd_stored_runs`.
#![tactic(auto)]

mod nets_refused;
mod refused_spread;
mod sentence;
mod spread_file;

pub use nets_refused::nets_fault;
pub use refused_spread::refuse_spread;
pub use spread_file::{SpreadFile, read_spread_file};
