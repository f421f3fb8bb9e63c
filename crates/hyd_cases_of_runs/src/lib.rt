//! Small networks over whole runs: what an independent program writes of them is what the
//! definitions ask for, and they have histories. No function here has a body.
#![tactic(auto)]

pub mod basins;
pub mod clauses;
pub mod hill_town;
pub mod refusals;
pub mod rounds;
pub mod run_ends;
pub mod shallow_village;
pub mod two_tank_town_ends;
pub mod two_tank_town_history;
pub mod two_tank_town_report;
pub mod two_tank_town_rules;
pub mod two_tank_town_starts;
pub mod village;
pub mod village_stops;
