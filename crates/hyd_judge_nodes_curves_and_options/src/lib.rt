//! The rows of nodes, demands, emitters, curves, patterns and options judged among all rows, a section at a time
//! (EPANET 2.2 User Manual, appendix C), each pass with the table of its IDs and its first wrong row; and the unit of
//! flows and the pressures that a file has in force.
//!
//! Tested by the networks of `hyd_stored_rows`.
#![tactic(auto)]

mod curves;
mod demands;
mod emitters;
mod flow_unit;
mod judged_against;
mod junctions;
mod nodes;
mod options;
mod pattern_extremes;
mod patterns;
mod reservoirs;
mod tanks;

pub use curves::{Curves, judge_curves};
pub use demands::{Demands, judge_demands};
pub use emitters::judge_emitters;
pub use flow_unit::unit_in_force;
pub use judged_against::NodeTables;
pub use nodes::{Nodes, judge_nodes};
pub use options::{Pressures, judge_options, last_option_of, pressures_in_force};
pub use pattern_extremes::Extremes;
pub use patterns::{Patterns, judge_patterns};
