//! The end of a period by its vectors, whose start or end may be open by some seconds: when it ends, what happens there,
//! and what stands behind it; or the first matter that the vectors leave open.
//!
//! Tested by the runs and checks of `hyd_stored_runs`.
#![tactic(auto)]

mod arrivals;
mod carried_at_end;
mod ending;
mod following;
mod inflows_and_readings;
mod matters;
mod open_period_end;
mod telling;

pub use inflows_and_readings::look;
pub use open_period_end::{ANY_SLACK, OpenPeriodEnd};
