//! The network of a period: its links with their laws, and the link ends at each junction.
//!
//! Tested by `hyd_tests_on_laws_periods_and_tanks` and `hyd_tests_on_nets`.
#![tactic(auto)]

mod both_laws;
mod curves;
mod demands;
mod fault;
mod fixed_heads;
mod given_data;
mod junctions_ends_and_settings;
mod laws;
mod laws_of_new_net;
mod link_ends;
mod net;
mod net_given_its_data;
mod net_opened_and_set_to_period;
mod nodes_and_links_of_net;
mod parts_of_new_net;
mod pumps;
mod states_and_forbidden_ways;
mod theorems_on_nets_of_one_period;

pub use fault::PeriodDemand;
pub use hyd_law::{Law, LinkLaw, OutLaw, Quad};
pub use junctions_ends_and_settings::{Ends, NetJunction, Setting, Tie};
pub use net::Net;
pub use theorems_on_nets_of_one_period::periods;
