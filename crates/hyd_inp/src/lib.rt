//! The reader of input files (EPANET 2.2 User Manual, appendix C): the network that a text describes, or its fault.
//!
//! Tested by the networks of `hyd_stored_rows`.
#![tactic(auto)]

mod build;
mod fault;
mod first_fault;
mod first_wrong_with_others;
mod ids_in_order;
mod missing_from_file;
mod network_parts;
mod numbered_names;
mod project;
mod rows_to_build_from;
mod tables;

pub use fault::{InpFault, InpRefused, TEXT_TOO_LONG};
pub use first_fault::{LONGEST_TEXT, find_fault};
pub use project::read_project;
