//! Proposals of certificates: what a finder of them is, one that proposes nothing, and the gradient method (Todini and
//! Pilati 1988). Nothing is promised of a proposal: whoever takes one checks it.
//!
//! Tested by `hyd_tests_on_certificates` and `hyd_tests_on_library`.
#![tactic(auto)]

mod conjugate_gradients;
mod convergence;
mod earlier_middles;
mod finder;
mod flow_curves;
mod flow_form;
mod flows;
mod gradient;
mod jacobian;
mod junction_queue;
mod line_search;
mod logarithms;
mod mending;
mod number_lists;
mod power_curves;
mod raises;
mod slopes;
mod weights_of_misses;

pub use finder::{Finder, Null};
pub use gradient::Gradient;
