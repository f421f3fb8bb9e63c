//! The curves of an input file: their points, gathered once, what pumps, general purpose valves and tanks ask of theirs
//! (EPANET 2.2 User Manual, [CURVES]), and the curves by straight lines and the volume curves that rows name.
//!
//! Tested by the networks of `hyd_stored_rows`.
#![tactic(auto)]

mod interpolation;
mod points;
mod points_in_ticks;
mod pumps;
mod straight_line_curves;
mod tanks;
mod valves;
mod verdicts_on_curves;
mod volume_at_level;
mod volume_curves;

pub use points::{CurvePoint, Points, gather_points};
pub use straight_line_curves::{Bends, gather_bends};
pub use tanks::tank_curve_fault;
pub use verdicts_on_curves::{CurveVerdict, CurveVerdicts, curve_verdicts};
pub use volume_curves::{Shapes, gather_shapes};
