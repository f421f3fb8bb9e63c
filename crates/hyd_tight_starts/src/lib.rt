//! Proposals of tight vectors, with or without a junction held: from a certificate, sets of junctions step nearer
//! together. Nothing is promised of a proposal: whoever takes one checks it.
//!
//! Tested by `hyd_tests_on_library`.
#![tactic(auto)]

mod branches;
mod descent;
mod flows;
mod gain_bounds;
mod held_balance;
mod held_descent;
mod held_slopes;
mod leaps;
mod near_starts;
mod near_vectors;
mod places;
mod raises;
mod responses;
mod steps;
mod strides;

pub use descent::Descent;
pub use held_descent::HeldDescent;
pub use hyd_vector_check::{is_in_box, outflow};
pub use responses::Response;
