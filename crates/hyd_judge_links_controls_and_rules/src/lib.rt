//! The rows of links judged among all rows of an input file (EPANET 2.2 User Manual, appendix C, [PIPES], [PUMPS] and
//! [VALVES]): their count, IDs, ends, curves, patterns and settings, and last their capacities.
//!
//! The states that the words of an input file ask of links (EPANET 2.2 User Manual, [STATUS], [CONTROLS], [RULES]). A
//! link comes as the line of its row, which is right by itself.
//!
//! What an input file commands ([STATUS], [CONTROLS], [RULES]), judged among all rows (EPANET 2.2 User Manual,
//! appendix C).
//!
//! Tested by the networks of `hyd_stored_rows`.
#![tactic(auto)]

mod asked_states;
mod controls;
mod faults;
mod id_and_ends;
mod judged_against;
mod link_types;
mod links;
mod names_of_links_and_nodes;
mod pipes;
mod pumps;
mod rule_parts;
mod rules;
mod states_and_valve_laws;
mod status;
mod valves;

pub use controls::judge_controls;
pub use faults::state_fault;
pub use judged_against::LinkTables;
pub use link_types::{LinkType, link_type};
pub use links::{Links, judge_links};
pub use rules::judge_rules;
pub use states_and_valve_laws::{
    is_refused, is_refused_valve, limit_state, link_state, speed_state, throttle_state, valve_law,
};
pub use status::judge_status;
