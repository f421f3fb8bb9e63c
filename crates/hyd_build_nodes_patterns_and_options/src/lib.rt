//! The junctions, reservoirs and tanks of an input file without a fault (EPANET 2.2 User Manual, appendix C), in the
//! order of their rows.
//!
//! What an input file without a fault numbers and sets: the IDs of nodes, links, tanks and patterns in the order of
//! their numbers, options and times, and the multipliers of patterns (EPANET 2.2 User Manual, appendix C).
//!
//! Tested by the networks of `hyd_stored_rows`.
#![tactic(auto)]

mod demands;
mod emitters;
mod ids;
mod junctions;
mod last_lines;
mod name_numbers_and_ticks;
mod options;
mod patterns;
mod reservoirs;
mod tanks;
mod times;

pub use ids::{link_ids, node_ids, pattern_ids, tank_ids};
pub use junctions::build_junctions;
pub use options::options_in_force;
pub use patterns::build_patterns;
pub use reservoirs::build_reservoirs;
pub use tanks::build_tanks;
pub use times::times_in_force;
