//! The flows of a witness's period: whether each link's flow, each demand and each emitter flow is met at its heads,
//! and whether the flows balance at each junction.
#![tactic(auto)]

mod balances;
mod forbidden_ways;
mod heads;
mod links;
mod near_flows;
mod outflows;
mod values;

pub use balances::{first_unbalanced, net_outflow};
pub use heads::head_of;
pub use links::{difference_of, first_unmet_link, window_of_link};
pub use outflows::{first_unmet_demand, first_unmet_emitter, pressure_of};
pub use values::{number_at, value_at};
