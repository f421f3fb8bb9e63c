//! Definitions alone: the start of a run for the spread of a text. Which tank the text leaves open there, which line
//! says so, and which texts a run can begin with. No function here has a body.
//!
//! Laws on them stand in `hyd_theorems_on_spread_starts`.
#![tactic(auto)]
