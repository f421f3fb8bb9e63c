//! The course of a witness's periods: whether one more period is met where the course stands, and where it isn't, the
//! first of its clauses that fails. (EPANET 2.2 User Manual, chapter 3, for what a period is; the clauses are this
//! program's.)
//!
//! Tested by `hyd_stored_runs`.
#![tactic(auto)]

mod course;
mod flows;
mod going_on;
mod set_net;
mod setting;
mod standing;
mod starts;
mod trial;

pub use course::Course;
pub use set_net::SetNet;
pub use standing::{Lasted, Standing};
pub use trial::Trial;
