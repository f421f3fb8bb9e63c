//! What a reader of a certificate text answers, and where it then stands.

use thiserror::Error;

/// Why a certificate text was read no further.
#[derive(Clone, Copy, Debug, PartialEq, Eq, Error)]
pub enum CertFault {
    /// A read failed.
    #[error("a read failed")]
    Read,
    /// This line is the first with which, the end of the text counted in, the text begins no certificate.
    #[error("line {line} of a certificate can't be so")]
    Grammar {
        /// The number of the line, counted from 1. It stays at 2^64 - 1 once it is there.
        line: u64,
    },
    /// The header line has another version or other counts than the record.
    #[error("line {line} of a certificate has another version or other counts")]
    Count {
        /// The number of the line, which is 1 for a reader that is fresh.
        line: u64,
    },
}

/// What an END line says.
#[derive(Clone, Copy)]
pub struct EndLine {
    /// The number of records.
    pub periods: u32,
    /// Whether the run reached its end.
    pub finished: bool,
}

/// What a reader found.
#[derive(Clone, Copy)]
pub enum CertNext {
    /// A record.
    Record,
    /// The END line, and the end of the text behind it.
    End {
        /// The number of records that it says.
        periods: u32,
        /// Whether it says that the run reached its end.
        finished: bool,
    },
}

/// Where a reader stands.
#[derive(Clone, Copy)]
pub enum Stand {
    /// Before the header line.
    First,
    /// Before a PERIOD line or an END line.
    Between,
    /// Behind the END line, which ends the text.
    Over(EndLine),
    /// It answered this fault.
    Stuck(CertFault),
}
