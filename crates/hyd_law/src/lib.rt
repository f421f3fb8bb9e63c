//! Laws of links and of outflows as values: what passes at a head difference, at least and at most, in whole flow
//! ticks.
//!
//! Tested by `hyd_tests_on_laws_periods_and_tanks`.
#![tactic(auto)]

mod composed_laws;
mod demand_law_kinds;
mod demand_laws;
mod law;
mod law_kinds;
mod link_law_kinds;
mod link_laws;
mod quadratic;
mod single_laws;
mod straight_line_law;
mod straight_lines;

pub use demand_law_kinds::{Fixed, OutLaw, Pda};
pub use law::Law;
pub use law_kinds::{Bent, Capped, Held, Knot, Lifted, Linear, OneWay, Power, Quad, Shut};
pub use link_law_kinds::LinkLaw;
