//! What the parts of a network are built from.
#![tactic(auto)]

use crate::numbered_names::Numbers;
use hyd_curves::Points;
use hyd_lex::Line;
use hyd_num::FlowUnit;
use hyd_rows_and_tables::Table;

/// The rows of a file, the numbers of its names, and what its rows name.
#[derive(Clone, Copy, Drop)]
pub(crate) struct RowsForNetwork<'a> {
    pub(crate) lines: &'a [Line],
    pub(crate) numbers: Numbers<'a>,
    /// The IDs of junctions, reservoirs and tanks.
    pub(crate) nodes: &'a Table,
    /// The IDs of pipes, pumps and valves.
    pub(crate) links: &'a Table,
    /// The IDs of curves.
    pub(crate) curves: &'a Table,
    pub(crate) points: &'a Points,
    /// The unit of flows in force.
    pub(crate) unit: FlowUnit,
}
