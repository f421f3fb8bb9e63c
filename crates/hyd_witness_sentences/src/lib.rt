//! What the program says to a person on standard error of a witness: which clause of a period isn't met and where, that a
//! line of the file can't be so, or that none was found for a period. Nothing is claimed of it. No memory is taken.
//!
//! Tested by `hyd_stored_sentences`.
#![tactic(auto)]

mod bad_lines;
mod ids;
mod unfound_periods;
mod unmet_periods;

pub use bad_lines::BadLine;
pub use unfound_periods::UnfoundPeriod;
pub use unmet_periods::UnmetPeriod;
