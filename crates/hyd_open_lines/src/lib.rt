//! What puts out the lines of a report whose time may be known to lie between two seconds: changes of links by controls
//! and rules, and what tanks reach.
//!
//! Tested by the runs and checks of `hyd_stored_runs`.
#![tactic(auto)]

mod changes;
mod events;
mod ids;
mod line_pieces;
mod numbers_times_and_settings;
mod open_time;
mod short_text;
mod states;

pub use changes::put_open_changes;
pub use events::put_open_events;
pub use open_time::OpenTime;
