//! The flows of named links in a period: vectors in which a link's first node is held are found and checked, and what
//! flows by them is put out.
#![tactic(auto)]

mod checks;
mod flow_lines;
mod flow_search;
mod flows;
mod held_nodes;
mod names;
mod near_vectors;
mod search;

pub use checks::check_flows;
pub use flow_lines::put_flow_lines;
pub use flow_search::FlowSearch;
pub use flows::flow_of;
pub use names::joins_junctions;
pub use search::find;
