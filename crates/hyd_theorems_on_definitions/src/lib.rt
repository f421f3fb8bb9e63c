//! Laws over the definitions of the network, and worked examples. Each is the contract of a small
//! function.
#![tactic(auto)]

pub mod certificates;
pub mod decisions;
pub mod determined;
pub mod examples;
pub mod laws;
pub mod tanks;
pub mod texts;
