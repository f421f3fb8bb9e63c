//! The end of a period of a run for a spread, by the vectors of its record, which are certificates on the nets of both
//! sides: what flows into tanks and what rules look at by both, and how the period ends by them; or the first matter that
//! they leave open.
#![tactic(auto)]

mod due_period_end;
mod inflows_and_readings;

pub use due_period_end::end_period;
pub use inflows_and_readings::look;
