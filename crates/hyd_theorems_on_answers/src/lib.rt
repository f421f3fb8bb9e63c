//! What is answered on one text that is read twice: no check by one reading of a network refuses the certificate of a run
//! of another, and no call of `check` refuses what a call of `run` wrote. Each statement is the contract of a small
//! function.
#![tactic(auto)]

pub mod checks_after_rereading;
pub mod open_checks_after_rereading;
pub mod two_calls;
