//! Lines from the file that is being read, the words of a line with the numbers that they spell, and lines that are put
//! together. What reads and puts out certificates and witnesses stands on it.
//!
//! Tested by the rows of `hyd_stored_rows` and `hyd_stored_witnesses`.
#![tactic(auto)]

mod line_buffer;
mod line_reader;
mod words;

pub use line_buffer::{append, append_number};
pub use line_reader::{LINE, Source};
pub use words::{after, head, is_number, number, small_number, split_word};
