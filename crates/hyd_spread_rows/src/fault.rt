//! Why a text gives no spread.
#![tactic(auto)]

ghost use Rattle.std.specs.Prelude.{◌≡◌};
ghost use Rattle.hyd_spread_rows.specs.declared.fault.SpreadRefused.TheVariants.{OutOfMemory as NoMemory};

use hyd_net::{Cause, OutOfMemory};

/// The fault of a text.
#[derive(Clone, Copy, Drop)]
pub struct SpreadFault {
    /// Its line, counted from 1, or 0 where the text as a whole is meant.
    pub line: u32,
    /// What is wrong.
    pub cause: Cause,
}

/// The fault of a text of more than 64 MiB.
pub const TEXT_TOO_LONG: SpreadFault = SpreadFault {
    line: 0,
    cause: Cause::Limit(1),
};

/// Why a text gave no spread.
#[derive(Clone, Copy, Drop)]
pub enum SpreadRefused {
    /// There was no memory for it.
    OutOfMemory,
    /// The text has a fault.
    Fault(SpreadFault),
}

impl From<OutOfMemory> for SpreadRefused {
    ghost from_gives = { λ _ e. e ≡ NoMemory };

    fn from(_error: OutOfMemory) -> SpreadRefused {
        SpreadRefused::OutOfMemory
    }
}
