//! A search for a witness: a certificate is read record by record, each is accepted as a check does, a moment is found
//! for it, and put into the witness.
//!
//! Tested by the commands of `hyd_stored_runs`.
#![tactic(auto)]

mod bench;
mod ending;
mod records;
mod signs_of_life;
mod whole_search;

pub use bench::{Bench, Entry, MomentSearch};
pub use ending::{Halt, SearchEnd, SearchFault};
pub use hyd_found_moments::fine;
pub use whole_search::search_witness;
