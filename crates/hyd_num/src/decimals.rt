//! Numbers as a file gives them.
#![tactic(auto)]

ghost use Rattle.std.specs.Prelude.{◌^◌, ◌≤◌, unsigned_abs};

use thiserror::Error;

/// A number of a file in billionths, of a magnitude of at most 10^21 billionths.
#[derive(Debug, Clone, Copy, PartialEq, Eq, Drop)]
pub struct Decimal {
    pub nano: i128,
    pub ghost bounded: { unsigned_abs nano ≤ 10 ^ 21 },
}

/// Why a text gives no [`Decimal`].
#[derive(Debug, Clone, Copy, PartialEq, Eq, Drop, Error)]
pub enum NumFault {
    /// The text isn't a number.
    #[error("not a number")]
    NotANumber,
    /// The number's magnitude is above 10^12.
    #[error("a magnitude above 10^12")]
    TooLarge,
}
