//! The trial of a witness: it is read period by period, and each period is tried against the network as the one that comes
//! next.
//!
//! Tested by the commands of `hyd_stored_runs`.
#![tactic(auto)]

mod counts;
mod finding;
mod periods;

pub use counts::counts_of;
pub use finding::Finding;
pub use periods::find;
