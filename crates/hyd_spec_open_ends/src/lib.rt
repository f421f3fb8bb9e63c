//! Definitions alone: periods whose end is known to lie between two seconds, the standings and records of runs that go
//! on from there, and what such runs promise of every history that keeps what it reaches. No function here has a body.
//!
//! Laws on them stand in `hyd_theorems_on_open_ends`.
#![tactic(auto)]
