//! Bounds of a period from certificates on the nets of both sides, as a spread has them: the heads of a node, what
//! flows in a link, out of a junction and into a tank, at least and at most, and the status word of a link.
//!
//! The UPPER net holds the least demands and the greatest heads of reservoirs that the spread allows, the LOWER one the
//! other ends; tanks and links are the same in both.
#![tactic(auto)]

mod flows;
mod heads;
mod inflows;
mod order;
mod outflows;
mod status_words;

pub use flows::flow_box;
pub use heads::head_span;
pub use inflows::tank_inflow;
pub use order::{bounds_of_records, heads_in_order, outermost_in_order};
pub use outflows::out_box;
pub use status_words::status_of;
