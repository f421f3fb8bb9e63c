//! What a file is judged against, kept for what is built of it.
#![tactic(auto)]

use hyd_curves::Points;
use hyd_rows_and_tables::Table;

/// The tables of a file's IDs, and the points of its curves.
#[derive(Drop)]
pub(crate) struct Tables {
    /// The IDs of junctions, reservoirs and tanks.
    pub(crate) nodes: Table,
    /// The IDs of pipes, pumps and valves.
    pub(crate) links: Table,
    /// The IDs of curves.
    pub(crate) curves: Table,
    /// The points of curves, by the numbers of their IDs.
    pub(crate) points: Points,
}
