//! Lines and words of an input file (EPANET 2.2 User Manual, appendix C).
//!
//! Tested by the rows of `hyd_stored_rows`.
#![tactic(auto)]

mod first_words;
mod headings;
mod lines;
mod lines_and_words_split;

pub use first_words::FirstWords;
pub use hyd_spec_lines::{LexCause, LexFault, Line, Section};
pub use lines::Lines;
pub use lines_and_words_split::{is_keyword, split_word};
