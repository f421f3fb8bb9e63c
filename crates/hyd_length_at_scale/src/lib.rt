//! How long a period of a witness lasts, exactly: what flows into its tanks, the least instant at which the clock, a
//! level or the rules end it, and what its end commands.
#![tactic(auto)]

mod carried;
mod clock;
mod clock_controls;
mod ends;
mod inflows;
mod level_controls;
mod multiples;
mod periods;
mod reached_levels;
mod room;
mod tank_bounds;
mod trials;

pub use ends::{command_at_end, least_end};
pub use hyd_rules_at_scale::start_links;
pub use inflows::put_inflows;
pub use periods::MetPeriod;
pub use room::{EndRoom, TrialRoom};
