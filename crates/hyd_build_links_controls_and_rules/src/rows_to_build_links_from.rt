//! What links are built from.
#![tactic(auto)]

use hyd_curves::Points;
use hyd_lex::Line;
use hyd_num::FlowUnit;
use hyd_rows_and_tables::{NumberedIds, Table};

/// The rows of a file, and what its rows of links name.
#[derive(Clone, Copy, Drop)]
pub struct RowsForLinks<'a> {
    pub lines: &'a [Line],
    /// Junctions, then reservoirs, then tanks.
    pub nodes: &'a NumberedIds,
    /// The IDs of pipes, pumps and valves.
    pub links: &'a Table,
    pub patterns: &'a NumberedIds,
    pub curves: &'a Table,
    /// The points of curves.
    pub points: &'a Points,
    /// The curves by straight lines of pumps, then those of valves.
    pub bends: &'a NumberedIds,
    /// The unit of flows in force.
    pub unit: FlowUnit,
    /// Whether losses are by Hazen-Williams.
    pub by_power: bool,
}
