//! Stocks of tanks in halves of ticks, rounded down: those with which the middle candidate of a witness goes on.
#![tactic(auto)]

mod kept_volumes;
mod moments;
mod stocks;
mod volumes;

pub use moments::{put_stocks_below, put_stocks_of_file};
pub use stocks::{halves, stock_below};
