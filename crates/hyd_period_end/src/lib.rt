//! The end of a period by its vectors: its length, what happens there, and what stands behind it; or the first matter
//! that the vectors leave open.
//!
//! Tested by the runs over time of `hyd_stored_runs`.
#![tactic(auto)]

mod controls;
mod end_and_what_follows;
mod event_list;
mod events;
mod inflows_and_readings;
mod length_and_events;
mod period_end;
mod tanks;
mod undecided;

pub use events::put_events;
pub use period_end::PeriodEnd;
pub use undecided::Open;
