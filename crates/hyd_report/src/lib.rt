//! What puts out the report of a period and single lines of it, the lines of the flows of named links, the last line of a run or of a check,
//! and the one line of an input file that is refused.
//!
//! Tested by the runs of `hyd_stored_runs`.
#![tactic(auto)]

mod changes;
mod done_partial_and_refused_end;
mod events;
mod flow_lines;
mod ids;
mod junctions;
mod line_pieces;
mod links;
mod numbers_times_and_settings;
mod printed_intervals;
mod refused_records;
mod refused_text;
mod report;
mod report_time;
mod reservoirs;
mod short_text;
mod states;
mod stops;
mod tanks;

pub use done_partial_and_refused_end::{put_done, put_partial, put_refused_end};
pub use flow_lines::{put_flow_line, put_refused_flow};
pub use junctions::put_junction_line;
pub use links::put_link_line;
pub use refused_records::put_refused;
pub use refused_text::{put_refused_spread, put_refused_text};
pub use report::put_report;
pub use report_time::{is_report_time, put_time};
pub use reservoirs::put_reservoir_line;
pub use stops::put_stop;
pub use tanks::put_tanks;
