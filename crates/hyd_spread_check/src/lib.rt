//! A check of a certificate of version 4 as that of a run for a spread, from its first record to its END line, read as
//! it goes: each record is tried, and its report put out through a pen.
//!
//! Tested by the runs and checks of `hyd_stored_runs`.
#![tactic(auto)]

mod records;
mod whole_check;

pub use hyd_spread_run::{OpenSettings, SpreadSim, run_over};
pub use whole_check::check_over;
