//! The factor of a sparse symmetric matrix, as the gradient method needs it for heads (EPANET 2.2
//! User Manual, chapter on analysis algorithms). Nothing is promised of its numbers: whoever uses
//! them checks what they lead to.
//!
//! Tested by `hyd_stored_rows`.
#![tactic(auto)]

mod elimination_order;
mod factor;
mod numeric_factorization;
mod pattern;
mod pattern_from_links;
mod permutation;
mod queue;
mod solution;
mod stages;
mod tables;

pub use factor::{Factor, UNIT};

/// The error of a call that found no memory.
pub use std::alloc::AllocError as OutOfMemory;
