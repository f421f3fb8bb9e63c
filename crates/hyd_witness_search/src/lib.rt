//! A search for heads and flows of a witness's period: Newton steps to heads at which the junctions' flows balance
//! (Todini and Pilati 1988), then flows that are fitted into what the heads allow (augmenting paths, Ford and Fulkerson
//! 1956). Nothing is promised of what it finds: whoever takes it checks it.
//!
//! Tested by `hyd_stored_runs`.
#![tactic(auto)]

mod approach;
mod bounds;
mod fitting;
mod flows;
mod number_lists;
mod outflows;
mod paths;
mod search;
mod settling;
mod slopes;
mod tangent;
mod values;
mod ways;

pub use search::Search;
