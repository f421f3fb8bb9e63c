//! A run of a network of which the certificate is written and a summary is printed, in place of its report.
//!
//! Tested by the made networks of `hyd_stored_runs`.
#![tactic(auto)]

mod end_line_and_summary;
mod steps;
mod summary;
mod whole_run;

pub use whole_run::run_summed;
