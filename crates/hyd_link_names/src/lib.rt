//! The links that a run is asked to name, looked up by their names; and the line of the first name that is refused.
//!
//! Tested by the commands of `hyd_stored_runs`.
#![tactic(auto)]

mod lookup;
mod numbered_links;
mod refused_name_line;

pub use lookup::{RefusedName, find_links};
pub use numbered_links::NumberedLinks;
pub use refused_name_line::put_refused_name;
