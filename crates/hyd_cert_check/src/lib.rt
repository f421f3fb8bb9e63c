//! A check of a certificate from its first record to its END line, read as it goes: each record is tried, and its
//! report put out through a pen.
//!
//! Tested by the checks of `hyd_stored_runs`, and `hyd_tests_on_library`.
#![tactic(auto)]

mod last_report_line;
mod outcome;
mod records;
mod refusals_by_a_line;
mod whole_check;

pub use hyd_run::{empty, put_first};
pub use hyd_spec_check_ends::CheckEnd;
pub use outcome::CheckFault;
pub use whole_check::check;
