//! How a check ends.

use hyd_io::OutFault;
use hyd_spec_certificates::CertRefused;
use hyd_spec_flows::FlowFails;
use thiserror::Error;

/// Why a check was broken off.
#[derive(Clone, Copy, Debug, PartialEq, Eq, Error)]
pub enum CheckFault {
    /// A read of the certificate failed.
    #[error("a read failed")]
    Read,
    /// A call that prints failed or took nothing.
    #[error("a print failed or took nothing")]
    Output(OutFault),
}

/// What is found of a certificate where its records end.
#[derive(Clone, Copy)]
pub(crate) enum Conclusion {
    /// Its END line says what is so: whether the run is finished.
    Accepted(bool),
    /// The next record is refused.
    Refused(CertRefused),
    /// The part behind the next record, which has this number, is refused.
    RefusedPart(u32, FlowFails),
    /// Its END line, the line of this number, says what isn't so.
    OtherEnd(u64),
    /// The line of this number is the first with which it begins no certificate.
    Grammar(u64),
    /// Its header line, the line of this number, has another version or other counts than the network.
    Counts(u64),
}
