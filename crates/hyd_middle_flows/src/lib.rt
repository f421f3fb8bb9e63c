//! Heads and flows of the middle candidate of a witness: heads between two vectors, and the flows of links, of demands
//! and of emitters halfway between what their laws pass at least and at most there.
#![tactic(auto)]

mod halfway;
mod heads;
mod links;
mod outflows;
mod periods;

pub use heads::put_heads_between;
pub use periods::put_flows_halfway;
