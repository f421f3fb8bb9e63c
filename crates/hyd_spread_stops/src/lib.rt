//! The stops of a run for a spread at a period that lacks a vector on one of the outermost networks.
#![tactic(auto)]

mod stops;
mod without_spread;

pub use stops::{lack_fits, lack_stop};
pub use without_spread::stuck_without_spread;
