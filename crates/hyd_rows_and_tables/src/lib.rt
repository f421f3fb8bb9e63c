//! The rows of an input file, gathered once, and what the passes over them share: which section a row stands in, the
//! first wrong row found so far, tables of IDs, limits of counts, names that no table has, and heads and flows out of
//! range.
//!
//! Tested by the rows of `hyd_stored_rows`.
#![tactic(auto)]

mod count_limits;
mod first_wrong;
mod gathered_rows;
mod id_table;
mod numbered_ids;
mod quantity_ranges;
mod sections;
mod unknown_names;

pub use count_limits::{count_words, limit};
pub use first_wrong::{Found, kept, least};
pub use gathered_rows::{Gathered, gather};
pub use id_table::{Table, own_id};
pub use numbered_ids::NumberedIds;
pub use quantity_ranges::{flow_fault, head_fault};
pub use sections::{
    is_controls, is_curves, is_demands, is_emitters, is_junctions, is_status, is_tanks,
};
pub use unknown_names::{has, unknown_curve, unknown_junction, unknown_node, unknown_pattern};
