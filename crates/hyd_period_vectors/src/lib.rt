//! The vectors of a period's record: proposed by a finder and checked, or else found by rounds of raises. Rounds toward
//! a tight vector begin where the finder says, if every certificate lies beyond that.
//!
//! Tested by the runs of `hyd_stored_runs`, and `hyd_tests_on_library`.
#![tactic(auto)]

mod missing_vector;
mod one_vector;
mod search;
mod search_start;

pub use hyd_finders::Finder;
pub use missing_vector::Lack;
pub use search::Search;
