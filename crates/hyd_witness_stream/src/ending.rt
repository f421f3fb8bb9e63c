//! How a search for a witness ends.

use hyd_io::OutFault;
use hyd_spec_certificates::CertRefused;
use hyd_spec_flows::FlowFails;

/// Why a witness has no further periods.
#[derive(Clone, Copy, Drop)]
pub enum Halt {
    /// The certificate is right, and there is a period for each of its records.
    Accepted,
    /// No moment was found for the next record.
    NoMoment,
    /// The next record is refused.
    Refused(CertRefused),
    /// The part behind the next record, which has this number, is refused.
    RefusedPart(u32, FlowFails),
    /// The END line of the certificate, the line of this number, says what isn't so.
    OtherEnd(u64),
    /// The line of this number is the first with which the text begins no certificate.
    Grammar(u64),
    /// The header line, the line of this number, has another version or other counts than the network.
    Counts(u64),
}

/// How a search ended that wrote its witness whole.
#[derive(Clone, Copy, Drop)]
pub struct SearchEnd {
    /// How many periods the witness has.
    pub periods: u32,
    pub halt: Halt,
}

/// Why a search was broken off.
#[derive(Clone, Copy, Drop)]
pub enum SearchFault {
    /// A read of the certificate failed.
    Read,
    /// A call that writes the witness failed or took nothing.
    Output(OutFault),
}
