//! What a period's vectors tell of it on the nets of both sides of a spread: what flows into tanks, and what rules look at.
#![tactic(auto)]

mod flows;
mod heads;
mod inflows;
mod readings;

pub use inflows::put_inflows;
pub use readings::put_readings;
