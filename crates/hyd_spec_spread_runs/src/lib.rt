//! Definitions alone: runs for a spread. What is known of a period from the two outermost grids, when a record is valid
//! for a spread, and what a run for one claims of the histories within it. No function here has a body.
//!
//! Laws on them stand in `hyd_theorems_on_spread_runs`.
#![tactic(auto)]
