//! What is found of a certificate where its records end.

use hyd_spec_certificates::CertRefused;

/// What is found of a certificate of version 4 where its records end.
#[derive(Clone, Copy, Drop)]
pub enum SpreadConclusion {
    /// Its END line says what is so: whether the run is finished.
    Accepted(bool),
    /// The next record is refused.
    Refused(CertRefused),
    /// Its END line, the line of this number, says what isn't so.
    OtherEnd(u64),
    /// The line of this number is the first with which it begins no certificate of version 4.
    Grammar(u64),
    /// Its header line, the line of this number, has other counts than the network.
    Counts(u64),
}
