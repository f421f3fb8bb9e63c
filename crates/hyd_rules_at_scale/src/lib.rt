//! Rules and simple controls of a witness's period, exactly, at a scale of parts of ticks: the values of rules at an
//! instant, and the states of links at the start of a period.
#![tactic(auto)]

mod amounts;
mod clauses;
mod instant;
mod links_at_start;
mod quantities;
mod readings;
mod rules;
mod times;

pub use instant::Instant;
pub use links_at_start::start_links;
pub use rules::put_values;
