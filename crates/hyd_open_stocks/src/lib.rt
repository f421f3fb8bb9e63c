//! Stocks of a tank over lengths that are known to lie between two seconds: the carried levels, and the stocks with
//! which the next period begins, both cut by a level that has just been reached.
//!
//! Tested by the runs and checks of `hyd_stored_runs`.
#![tactic(auto)]

mod ends_of_contents;
mod goals;
mod lengths_and_arrivals;
mod reached_levels;
mod stocks_at_end;
mod volumes_on_curve;

pub use lengths_and_arrivals::{Arrival, Lengths};
pub use stocks_at_end::{carried_at_end, carried_over, stock_at_end};
