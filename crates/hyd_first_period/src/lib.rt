//! The network of the first period, as it starts or with one link closed, with all the memory that this takes.
#![tactic(auto)]

mod first_period;
mod links_at_start;

pub use first_period::FirstPeriod;
pub use links_at_start::states_at_start;
