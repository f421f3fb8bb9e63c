//! A moment that is met as the next period of a witness, found from a record of a certificate.
//! Tested by the commands of `hyd_stored_runs`.
#![tactic(auto)]

mod beginnings;
mod finding;
mod heads;
mod stocks;
mod values;

pub use finding::{find_moment, fine};
