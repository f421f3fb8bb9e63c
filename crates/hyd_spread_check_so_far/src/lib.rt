//! A check of a certificate of version 4 as that of a run for a spread, as far as it has gone, whatever judges its
//! records: the reading of each record, the first lines and the last line of its report, and what was read and put in
//! so far.
//!
//! Tested by the runs and checks of `hyd_stored_runs`.
#![tactic(auto)]

mod conclusion;
mod last_report_line;
mod next_record;

pub use conclusion::SpreadConclusion;
pub use last_report_line::{begin_check, end_check, finish_check};
pub use next_record::read_record;
