//! The text of a generated network: an input file of any number of junctions, of which a seed decides the demands.
//!
//! Tested by the rows of `hyd_stored_rows`.
#![tactic(auto)]

mod junctions;
mod pipes;
mod whole_text;

pub use whole_text::generate;
/// The error of a call that found no memory.
pub use std::alloc::AllocError as OutOfMemory;
