//! Questions about a target pressure in the first period of a network for a spread, and what is printed of their
//! answers: each holds of every network within the spread.
#![tactic(auto)]

mod bracket_within;
mod closure_within;
mod closures_within;
mod first_period_over;
mod spread_inquiry;

pub use bracket_within::put_bracket_within;
pub use closures_within::put_closures_within;
pub use first_period_over::FirstPeriodOver;
pub use spread_inquiry::SpreadInquiry;
