//! Networks as tests give them: the states of links, and nets put into periods.
#![tactic(auto)]

mod periods;
mod states;

pub use periods::{is_problem, put_at, set, span};
pub use states::{Order, command, starts};

/// A metre in head ticks of 10^-13 m.
pub const METRE: i64 = 10_000_000_000_000;
