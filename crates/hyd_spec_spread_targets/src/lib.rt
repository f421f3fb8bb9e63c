//! Definitions alone: a target pressure in the first period of every network within a spread, how much may be drawn at
//! a junction with it, and which junctions keep it while a pipe is shut. No function here has a body.
//!
//! Laws on them stand in `hyd_theorems_on_spread_targets`, but for those of pairs with one grid on both sides.
#![tactic(auto)]
