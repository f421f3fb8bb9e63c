//! Tanks at the end of a period whose length lies between two seconds: the stocks with which the next one begins, cut
//! by a level that has just been reached, what level controls keep of them, and the states of tanks.
//!
//! Tested by the runs and checks of `hyd_stored_runs`.
#![tactic(auto)]

mod arrivals;
mod following;
mod kept_levels;
mod left;
mod settled;

pub use following::follow_over;
