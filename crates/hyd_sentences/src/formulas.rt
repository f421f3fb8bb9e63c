//! The formula of head losses of a file.

use crate::rows::{Row, rows_of};
use hyd_spec_lines::Section;

/// The formula that a file has, and the line that says so.
#[derive(Clone, Copy)]
pub(crate) enum Formula {
    /// Chezy-Manning, or none that is known.
    Manning,
    /// Hazen-Williams.
    HazenWilliams,
    /// Darcy-Weisbach, by this line.
    DarcyWeisbach(u32),
    /// No line says it, so that EPANET takes Hazen-Williams.
    Untold,
}

// Whether a row says the formula.
fn is_headloss(row: &Row<'_>) -> bool {
    matches!(row.section(), Some(Section::Options)) && row.has(0, "HEADLOSS")
}

/// The formula of a file, which the last line of HEADLOSS says.
pub(crate) fn formula_of(text: &[u8]) -> Formula {
    let mut formula = Formula::Untold;
    for row in rows_of(text) {
        if is_headloss(&row) {
            formula = formula_in(&row);
        }
    }
    formula
}

// The formula that a row says.
fn formula_in(row: &Row<'_>) -> Formula {
    if row.has(1, "H-W") {
        return Formula::HazenWilliams;
    }
    if row.has(1, "D-W") {
        return Formula::DarcyWeisbach(row.number);
    }
    Formula::Manning
}
