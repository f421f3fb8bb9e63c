//! A run for a spread from its first step to its last line, put out as it goes: the certificate, of version 4, through
//! one pen and the report through another. With it what checks of such certificates use too: the report of the last
//! period of a run.
//!
//! Tested by the runs and checks of `hyd_stored_runs`.
#![tactic(auto)]

mod record_and_report;
mod steps;
mod whole_run;

pub use hyd_open_sim::{OpenSettings, room_for_events};
pub use hyd_spread_sim::SpreadSim;
pub use record_and_report::put_period_lines;
pub use whole_run::run_over;
