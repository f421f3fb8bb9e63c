//! The commands `fire` and `closures` for a spread: how much may be drawn at a junction with a target pressure there,
//! and which junctions keep that pressure while each pipe is shut alone, in every network within the limits that the
//! rows of a file give.
//!
//! Tested by the commands of `hyd_stored_runs`.
#![tactic(auto)]

mod closures_over;
mod command_closures;
mod command_fire;
mod demand_over;
mod fire_over;
mod opened_inquiry;

pub use command_closures::close_pipes_for_spread;
pub use command_fire::find_bracket_for_spread;
pub use hyd_target_commands::{close_pipes, find_bracket};
