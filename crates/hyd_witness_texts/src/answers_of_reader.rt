//! What a reader of a witness answers, and where it then stands.

use thiserror::Error;

/// Why a witness was read no further.
#[derive(Clone, Copy, Debug, PartialEq, Eq, Error)]
pub enum WitnessFault {
    /// A read failed.
    #[error("a read failed")]
    Read,
    /// This line is the first with which, the end of the text counted in, the text begins no witness.
    #[error("line {line} of a witness can't be so")]
    Grammar {
        /// The number of the line, counted from 1. It stays at 2^64 - 1 once it is there.
        line: u64,
    },
}

/// How much of a witness was read.
#[derive(Clone, Copy)]
pub struct Reached {
    /// The scale that its header says.
    pub scale: u32,
    /// The number of periods.
    pub periods: u32,
}

/// What a reader found.
#[derive(Clone, Copy)]
pub enum WitnessNext {
    /// A period; how much was read with it.
    Moment(Reached),
    /// The END line, and the end of the text behind it; how much was read.
    End(Reached),
}

/// Where a reader stands.
#[derive(Clone, Copy)]
pub enum Stand {
    /// Before the header line.
    First,
    /// Before a PERIOD line or the END line.
    Between(Reached),
    /// Behind the END line, which ends the text.
    Over(Reached),
    /// It answered this fault.
    Stuck(WitnessFault),
}
