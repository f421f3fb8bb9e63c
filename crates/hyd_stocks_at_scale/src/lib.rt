//! Stocks of tanks at a scale: with which a next period may begin, when they reach a target level, and the levels
//! carried to a second.
#![tactic(auto)]

mod carried_levels;
mod contents;
mod cylinders;
mod first_seconds;
mod motions;
mod states;
mod stocks;
mod tanks_with_curve;
mod volume_curve;

pub use carried_levels::ExactLevel;
pub use motions::Stock;
pub use states::state_at;
pub use stocks::{carried_level, first_second, has_reached, is_next_stock};
