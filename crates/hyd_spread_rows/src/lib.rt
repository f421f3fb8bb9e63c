//! The reader of a spread: its rows, read over a network, and the first that is wrong.
#![tactic(auto)]

mod fault;
mod ids;
mod lines;
mod lines_that_count;
mod names;
mod numbers;
mod reader;
mod resolved;
mod rows;
mod said;
mod texts_without_rows;
mod words;

pub use fault::{SpreadFault, SpreadRefused, TEXT_TOO_LONG};
pub use hyd_spec_spread_rows::{Ends, Subject};
pub use lines_that_count::{level_line, line_for};
pub use reader::read_spread;
pub use resolved::SpreadRows;
pub use texts_without_rows::has_rows;
