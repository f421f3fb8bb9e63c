//! How long a period lasts: what the clock allows, what rules look at and what is known of them at an instant, and the
//! end by the clock, by levels or by rules, with what it commands.
//!
//! Tested by the runs over time of `hyd_stored_runs`.
#![tactic(auto)]

mod controls;
mod end_kinds;
mod finding_the_end;
mod flows;
mod heads;
mod length;
mod multiples;
mod readings;
mod rule_instants;
mod tried_rules;
mod truth_of_rules;

pub use end_kinds::Ending;
pub use finding_the_end::find_end;
pub use length::clock_length;
pub use readings::Readings;
pub use tried_rules::try_rules;
pub use truth_of_rules::{RuleOpen, decide_all};
