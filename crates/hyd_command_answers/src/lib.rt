//! How commands answer: their statuses, what they leave of a desk's contents, the reading of the network's file, and the
//! line of a text that is refused.
//!
//! Tested by the commands of `hyd_stored_runs`.
#![tactic(auto)]

mod network_file;
mod refused_text;
mod status;

pub use network_file::{Unread, network_told, read_network, read_text};
pub use refused_text::{print_refusal, refuse_text};
pub use status::{Status, fault_status};
