//! The links of the network that an input file describes (EPANET 2.2 User Manual, appendix C, [PIPES], [PUMPS],
//! [VALVES] and [STATUS]), of a file whose rows are right by themselves and with the others.
//!
//! The controls and rules of an input file without a fault (EPANET 2.2 User Manual, appendix C).
//!
//! Tested by the networks of `hyd_stored_rows`.
#![tactic(auto)]

mod actions;
mod clauses;
mod compared_values;
mod controls;
mod initial_states;
mod links;
mod name_numbers;
mod name_numbers_and_ticks;
mod pipes;
mod pump_laws;
mod pumps;
mod rows_to_build_links_from;
mod rule_parts;
mod rules;
mod statuses;
mod valves;

pub use controls::build_controls;
pub use links::build_links;
pub use rows_to_build_links_from::RowsForLinks;
pub use rules::build_rules;
