//! A run for a spread, one period after another: their vectors are sought on the nets of both sides, and each is ended
//! by them; the record of each is valid for the spread, and its facts are its own.
#![tactic(auto)]

mod acceptance;
mod advance;
mod closing_of_run;
mod due_period;
mod given_vectors;
mod handed_in_record;
mod moving_on;
mod narrow_periods;
mod period_attempt;
mod run_at_start;
mod spread_sim;
mod steps;
mod without_spread;

pub use period_attempt::{Fault, try_period};
pub use run_at_start::Unopened;
pub use spread_sim::SpreadSim;
