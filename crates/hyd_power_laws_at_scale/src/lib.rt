//! Flows of pipes with Hazen-Williams losses at a scale of parts of ticks.
#![tactic(auto)]

mod ends_in_parts;
mod flows_in_parts;

pub use flows_in_parts::{is_in_range, power_high_at, power_low_at};
