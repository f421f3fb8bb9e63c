//! Theorems on whole runs and their reports: there is one tight run, every history agrees with every run, and a run goes
//! on or stops. Each is the contract of a small function.
#![tactic(auto)]

pub mod determined;
pub mod going_on;
pub mod histories;
pub mod runs;
