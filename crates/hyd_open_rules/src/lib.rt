//! Rules in a period whose start lies between two seconds: they are tried at the multiples of the rule step on levels
//! carried over all lengths that the period may have had there, and the first instant is found at which they matter.
//!
//! Tested by the runs and checks of `hyd_stored_runs`.
#![tactic(auto)]

mod carried_over;
mod matters;
mod rule_instants;
mod tried_rules;

pub use carried_over::put_carried_over;
pub use matters::Matter;
pub use rule_instants::first_matter;
