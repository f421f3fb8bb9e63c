//! The vectors of a period of a run for a spread: found on the outermost network of each side, by a net and a finder
//! of its own. The record gets the UPPER vectors of the upper network and the LOWER vectors of the lower one. The two
//! others are kept beside them, since a record is narrow where each network's own vectors are close.
#![tactic(auto)]

mod lack_on_network;
mod narrow_networks;
mod spread_search;
mod theorems_on_spread_vectors;
mod written_sides;

pub use hyd_period_vectors::{Finder, Lack};
pub use lack_on_network::SpreadLack;
pub use spread_search::SpreadSearch;
pub use theorems_on_spread_vectors::{certificates_over, narrow_over, tight_over};
