//! Certificates decided: whether a vector of heads lies above, or below, the heads of every assignment, and if it isn't
//! a certificate of that, where it fails first; and what this rests on: heads in the box, flows and net outflows of a
//! junction, and by how much it passes.
//!
//! Tested by `hyd_tests_on_certificates`.
#![tactic(auto)]

mod checks;
mod flows;
mod heads;
mod junction_test;
mod outflows;

pub use checks::{Fails, check, check_sub, check_super};
pub use flows::flows_out;
pub use heads::{difference, head_of, is_in_box};
pub use junction_test::{net_high, net_low, passes, surplus};
pub use outflows::outflow;
