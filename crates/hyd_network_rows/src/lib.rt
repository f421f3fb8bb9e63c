//! The rows of nodes, links and what belongs to them (EPANET 2.2 User Manual, appendix C), each read by itself: what it
//! says, or the first thing that is wrong with it, word by word from the left.
//!
//! The first row of an input file that is wrong by itself, whatever the other rows say (EPANET 2.2 User Manual,
//! appendix C); and the order of the lines of a rule, stage by stage.
//!
//! Tested by the rows of `hyd_stored_rows`.
#![tactic(auto)]

mod demands_emitters_curves_and_statuses;
mod end_nodes;
mod fault_by_section;
mod first_wrong_row;
mod junctions_and_reservoirs;
mod last_lines_of_options;
mod optional_and_bounded_words;
mod patterns;
mod pipes;
mod pumps;
mod rule_line_order;
mod rules;
mod tanks;
mod valves;

pub use demands_emitters_curves_and_statuses::{
    CurveRow, DemandRow, EmitterRow, StatusRow, read_curve, read_demand, read_emitter, read_status,
};
pub use end_nodes::LinkEnds;
pub use first_wrong_row::first_by_itself;
pub use hyd_option_and_rule_lines::Asked;
pub use junctions_and_reservoirs::{JunctionRow, ReservoirRow, read_junction, read_reservoir};
pub use last_lines_of_options::{
    has_hazen_williams, has_hazen_williams_throughout, is_options, last_option,
};
pub use patterns::{PatternRow, read_pattern};
pub use pipes::{PipeRow, PipeStatus, read_pipe, read_pipe_by, read_pipe_status};
pub use pumps::{PumpRow, read_pump};
pub use rule_line_order::{first_word, is_acting, is_rule, is_rules, next_stage, stage_by};
pub use tanks::{TankRow, read_tank};
pub use valves::{ValveRow, ValveSetting, read_valve};
