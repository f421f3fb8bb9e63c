//! A run of a network that names links: behind each record its certificate has a part with the vectors of these links,
//! and behind the lines of each period its report has their FLOW lines.
#![tactic(auto)]

mod periods;
mod steps;
mod vectors;
mod whole_run;

pub use whole_run::run_naming;
