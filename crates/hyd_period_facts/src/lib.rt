//! The facts of a period and the tanks in it. The facts: what is known at its start, how long it lasts, what changes in
//! it and what happens at its end. The tanks: what flows into each, levels carried to an instant, levels that are
//! watched and the ends that they bring, and the stocks and states with which a period begins.
//!
//! Tested by the runs over time of `hyd_stored_runs`.
#![tactic(auto)]

mod all_watched_levels;
mod carried;
mod controls;
mod facts;
mod inflows;
mod initial_stocks;
mod levels_and_level_controls;
mod states;
mod states_and_level_controls;
mod stocks;
mod stocks_and_inflows;
mod tank_bounds;
mod tanks_at_start;
mod watch;

pub use all_watched_levels::level_ends;
pub use carried::put_carried;
pub use facts::Facts;
pub use hyd_bounds::flow_box;
pub use hyd_controls_and_rules::LevelOpen;
pub use inflows::put_inflows;
pub use levels_and_level_controls::{add_level, control_holds, level_at};
pub use states::{TankOpen, put_states};
pub use states_and_level_controls::Unsettled;
pub use stocks::put_stocks;
pub use stocks_and_inflows::{inflow_at, stock_at};
pub use tanks_at_start::TankStart;
pub use watch::Ends;
