//! Definitions alone: the lines and words of an input file, its sections, and the rows that they hold (EPANET 2.2 User
//! Manual, appendix C). The types are the words that definitions and code share.
#![tactic(auto)]

mod fault;
mod line;
mod section;

pub use fault::{LexCause, LexFault};
pub use line::Line;
pub use section::{Kind, Region, Section};
