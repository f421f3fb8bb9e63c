//! Moments of a witness from the records of a certificate: the middle candidate for the next period of a course, and
//! whether it is met.
#![tactic(auto)]

mod candidate;
mod finding;
mod stocks;

pub use candidate::middle;
pub use finding::{find_middle, goes_on};
