//! Definitions alone: the report of a run for a spread, which lines it has, its bytes, and what its lines claim of the
//! histories within the spread. No function here has a body.
#![tactic(auto)]
