//! What puts out the report of a period whose start or end may be known to lie between two seconds, and the lines of
//! its start and of its end alone.
//!
//! The first line of a report and its last one are those of other reports.
//!
//! Tested by the runs and checks of `hyd_stored_runs`.
#![tactic(auto)]

mod late;
mod open_report;
mod start_and_end;

pub use late::Late;
pub use open_report::put_open_report;
pub use start_and_end::{put_end, put_start};
