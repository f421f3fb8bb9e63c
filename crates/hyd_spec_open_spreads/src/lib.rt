//! Definitions alone: runs for a spread that go on where ends of periods are open by some seconds, and what they claim
//! of the histories within the spread that keep what they reach. No function here has a body.
//!
//! Laws on them stand in `hyd_theorems_on_open_spreads`.
#![tactic(auto)]
