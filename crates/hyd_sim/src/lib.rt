//! A run, one period after another, found or checked: the record of each is valid, and its facts are its own.
//!
//! Tested by the runs of `hyd_stored_runs`, and `hyd_tests_on_library`.
#![tactic(auto)]

mod closing_of_run;
mod due_period;
mod end_of_due_period;
mod facts_and_links_at_start;
mod given_vectors;
mod handed_in_record;
mod narrow_records;
mod period_attempt;
mod run_at_start;
mod settings;
mod sim;
mod standing_between_periods;
mod steps;
mod stop_causes;

pub use closing_of_run::SimParts;
pub use hyd_period_facts::Facts;
pub use hyd_period_vectors::Finder;
pub use settings::Settings;
pub use sim::Sim;
pub use steps::Step;
