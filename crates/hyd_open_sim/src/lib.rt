//! A run whose ends of periods may be open by some seconds, one period after another, found or checked: the record of
//! each is valid, and its facts are its own.
//!
//! Tested by the runs and checks of `hyd_stored_runs`.
#![tactic(auto)]

mod closing_of_run;
mod due_period;
mod end_of_due_period;
mod ends_by_readings;
mod handed_in_record;
mod moving_on;
mod narrow_records;
mod open_settings;
mod open_sim;
mod period_attempt;
mod run_at_start;
mod run_out_of_parts;
mod steps;

pub use ends_by_readings::end_by_readings;
pub use moving_on::move_on;
pub use narrow_records::has_steady_levels;
pub use open_settings::OpenSettings;
pub use open_sim::OpenSim;
pub use run_out_of_parts::room_for_events;
