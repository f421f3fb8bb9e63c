//! The two nets of a run for a spread, one a side: each is put into the outermost network of its side, period by
//! period.
#![tactic(auto)]

mod demands;
mod emitters;
mod ends;
mod fault;
mod heads;
mod nets;
mod nets_opened;
mod nets_set_to_period;

pub use fault::{DemandOver, SpreadNetsRefused};
pub use nets::SpreadNets;
