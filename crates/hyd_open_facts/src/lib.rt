//! Definitions alone: when facts are those of a period whose start or end may be open by some seconds. No function here
//! has a body.
//!
//! They are made by `hyd_open_period_end`.
#![tactic(auto)]
