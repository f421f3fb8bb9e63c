//! The definitions of the network and of its numbers, each compared on small cases with an
//! independent calculation in exact whole numbers and fractions. Each function's contract is a
//! table of computed values, or says which texts and vectors a definition takes. No function
//! here has a body.
#![tactic(auto)]

pub mod certificates;
pub mod commands;
pub mod count_limits;
pub mod curves;
pub mod decisions;
pub mod each_kind_of_link;
pub mod enclosing_functions;
pub mod exact_flows;
pub mod flows_tanks_and_run_start;
pub mod generated;
pub mod held_junctions;
pub mod input_faults;
pub mod levels;
pub mod links;
pub mod losses;
pub mod more_input_faults;
pub mod net_outflows;
pub mod numbers;
pub mod order_of_fractions;
pub mod pressures_and_valve_states;
pub mod rows;
pub mod rules;
pub mod scales_and_patterns;
pub mod starts;
pub mod statuses_events_tank_laws_and_clauses;
pub mod stocks;
pub mod texts;
