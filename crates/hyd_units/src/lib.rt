//! Numbers of an input file in ticks, where rows and options give them, and ticks as decimals of the file's units,
//! rounded outward, as reports print them.
//!
//! A head tick is 10^-13 m, a flow tick 10^-7 m^3 a day. US customary files have feet and pounds
//! a square inch, the others metres for both (EPANET 2.2 User Manual, Units of Measurement).
//!
//! Tested by the rows of `hyd_stored_rows`.
#![tactic(auto)]

mod conversion;
mod decimal_texts;
mod printed_quantities;

pub use conversion::{flow_ticks, head_ticks, pressure_ticks};
pub use decimal_texts::BUFFER_SIZE;
pub use printed_quantities::{Way, print_flow, print_head, print_pressure};
