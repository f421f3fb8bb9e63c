//! What becomes of a tank's stock of water under a constant inflow, when its level reaches a target, how full it is,
//! and the stock with which a run begins.
//!
//! Tested by `hyd_tests_on_laws_periods_and_tanks` and `hyd_tests_on_tanks_and_demands`.
#![tactic(auto)]

mod contents_of_tanks;
mod cylinders;
mod first_second_at_target;
mod states;
mod stock_intervals;
mod stocks;
mod volume_curve;
mod volume_curve_tanks;

pub use cylinders::{first_second, level_at, next_level};
pub use states::state_of;
pub use stock_intervals::{Stock, VolumeSpan};
pub use stocks::{first_stock, initial_stock, next_stock, stock_at, tank_at};
