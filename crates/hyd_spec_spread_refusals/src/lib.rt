//! Definitions alone: why a record of a certificate is refused in a check for a spread. No function here has a body.
//!
//! Laws on them stand in `hyd_theorems_on_spread_refusals`.
#![tactic(auto)]
