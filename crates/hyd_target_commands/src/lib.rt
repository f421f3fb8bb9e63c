//! The commands `fire` and `closures`: how much may be drawn at a junction with a target pressure there, and which
//! junctions keep that pressure while each pipe is shut alone.
//!
//! Tested by the commands of `hyd_stored_runs`.
#![tactic(auto)]

mod command_closures;
mod command_fire;
mod junction_names;
mod printed_demand;

pub use command_closures::{close_pipes, closures_in};
pub use command_fire::{bracket_in, find_bracket};
pub use junction_names::{junction_named, refuse_name};
pub use printed_demand::{print_demand, say_demand};
