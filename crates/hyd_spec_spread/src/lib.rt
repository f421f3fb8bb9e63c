//! Definitions alone: data of a network that are known within limits, a spread; the networks and the histories within
//! it, and the certificates that hold for all of them at once. No function here has a body.
//!
//! Laws on them stand in `hyd_theorems_on_spread`.
#![tactic(auto)]
