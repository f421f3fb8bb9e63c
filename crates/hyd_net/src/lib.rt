//! The network as an input file gives it: its nodes, links, curves, patterns, controls and rules, with all quantities
//! as whole numbers of ticks, and the two containers that hold them; the causes for which a text is refused; and
//! whether two networks are the same.
//!
//! Tested by `hyd_tests_on_laws_periods_and_tanks`.
#![tactic(auto)]

mod comparison;
mod controls;
mod curves;
mod links;
mod list;
mod names;
mod nodes;
mod options;
mod patterns;
mod project;
pub mod ranges;
mod refusal_cause;
mod rules;

pub use comparison::same;
pub use controls::{Control, When};
pub use curves::{HeadPoint, VolumePoint};
pub use links::{Link, LinkKind, LinkState, OpenValve, PipeLoss, ShutoffHead};
pub use list::List;
pub use names::Names;
pub use nodes::{Demand, Junction, Reservoir, Tank};
pub use options::{Options, Times};
pub use patterns::Pattern;
pub use project::Project;
pub use refusal_cause::Cause;
pub use rules::{Action, Clause, Joined, Relation, Rule, RuleClause, Value, What};

/// The error of a call that found no memory.
pub use std::alloc::AllocError as OutOfMemory;
