//! What rows of links are judged against.
#![tactic(auto)]

use hyd_curves::CurveVerdicts;
use hyd_judge_nodes_curves_and_options::Patterns;
use hyd_num::FlowUnit;
use hyd_rows_and_tables::Table;

/// What rows of links name, and the unit of flows and the head loss formula in force.
#[derive(Clone, Copy, Drop)]
pub struct LinkTables<'a> {
    pub nodes: &'a Table,
    pub curves: &'a Table,
    /// What pumps and general purpose valves ask of each curve.
    pub verdicts: &'a CurveVerdicts,
    pub patterns: &'a Patterns,
    pub unit: FlowUnit,
    /// Whether losses are by Hazen-Williams.
    pub by_power: bool,
}
