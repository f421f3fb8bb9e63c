//! Sweeps: raises of single junctions, rounds of them and leaps, the way to the tight vector of a problem and side,
//! with or without a junction held.
//!
//! Tested by `hyd_tests_on_laws_periods_and_tanks` and `hyd_tests_on_certificates`.
#![tactic(auto)]

mod answers_of_sweeps;
mod heads_along_side;
mod heads_where_sweeps_begin;
mod leaps;
mod next_trial_head;
mod raises_in_order;
mod rounds;
mod single_raises;
mod strides;
mod sweeper;

pub use answers_of_sweeps::{Raised, Swept};
pub use heads_along_side::nearer;
pub use heads_where_sweeps_begin::begin;
pub use leaps::leap;
pub use raises_in_order::{follow, follow_sub, follow_super};
pub use rounds::tighten;
pub use single_raises::{raise, raise_sub, raise_super};
pub use sweeper::{Sweeper, tighten_by_leaps};
