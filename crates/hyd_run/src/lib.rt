//! A run of a network from its first step to its last line, put out as it goes: the certificate through one pen and the
//! report through another. With it what checks and other runs use too: how a run ends, the first and the last lines,
//! the emptying of pens, and what shows that a run goes on.
//!
//! Tested by the runs of `hyd_stored_runs`, and `hyd_tests_on_library`.
#![tactic(auto)]

mod first_lines_and_emptied_pens;
mod low_pressures;
mod outcome;
mod period_and_last_lines;
mod signs_of_life;
mod steps;
mod whole_run;

pub use first_lines_and_emptied_pens::{empty, empty_both, put_first};
pub use hyd_report::{
    put_done, put_partial, put_refused, put_refused_end, put_refused_flow, put_report,
};
pub use hyd_sim::Step;
pub use low_pressures::{Low, LowPressures};
pub use outcome::{RunEnd, is_finished};
pub use period_and_last_lines::{put_last, put_last_line};
pub use signs_of_life::Signs;
pub use whole_run::run;
