//! What puts out the report of a period of a run for a spread, whose start or end may be known to lie between two
//! seconds.
//!
//! The first line of a report and its last one are those of other reports.
#![tactic(auto)]

mod junctions;
mod links;
mod reservoirs;
mod spread_report;
mod state;

pub use spread_report::put_spread_report;
