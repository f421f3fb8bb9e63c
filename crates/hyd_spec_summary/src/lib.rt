//! Definitions alone: the summary of a run. No function here has a body.
#![tactic(auto)]
