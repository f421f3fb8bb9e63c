//! The text of a witness: its periods, what puts them out, and what reads them, with the line of a fault.
//!
//! Tested by the rows of `hyd_stored_witnesses`.
#![tactic(auto)]

mod answers_of_reader;
mod counts;
mod header_line;
mod lines;
mod lines_of_text;
mod lists_of_moment;
mod moment;
mod numbers_read;
mod period_or_end_line;
mod reader;
mod theorems_on_readings;
mod writer;

pub use answers_of_reader::{Reached, Stand, WitnessFault, WitnessNext};
pub use counts::NetworkCounts;
pub use moment::Moment;
pub use reader::WitnessReader;
pub use theorems_on_readings::{faults_are_lines, faults_behind_moments, one_beginning};
pub use writer::{put_moment, put_witness_end, put_witness_header};

/// The error of a call that found no memory.
pub use std::alloc::AllocError as OutOfMemory;
