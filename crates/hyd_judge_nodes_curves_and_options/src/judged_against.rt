//! What rows of nodes are judged against.
#![tactic(auto)]

use crate::patterns::Patterns;
use hyd_curves::Points;
use hyd_num::FlowUnit;
use hyd_rows_and_tables::Table;

/// What rows of nodes name, and the unit of flows in force.
#[derive(Clone, Copy, Drop)]
pub struct NodeTables<'a> {
    pub patterns: &'a Patterns,
    /// The IDs of curves.
    pub curves: &'a Table,
    /// The points of curves, by the numbers of their IDs.
    pub points: &'a Points,
    pub unit: FlowUnit,
}
