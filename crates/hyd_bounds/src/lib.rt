//! Bounds from certificates: what flows in a link, out of a junction and into a tank, at least and at most, and the
//! status word of a link.
//!
//! Tested by `hyd_tests_on_certificates`.
#![tactic(auto)]

mod flows;
mod heads;
mod inflows;
mod outflows;
mod status_words;

pub use flows::{flow_between, flow_box};
pub use heads::node_head;
pub use inflows::{pinned_in_order, tank_flows, tank_inflow};
pub use outflows::out_box;
pub use status_words::{status_of, word_of};
