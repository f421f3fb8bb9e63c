//! Definitions alone: how a check ends, and the last line of its report where a line of the certificate is refused. No
//! function here has a body.
#![tactic(auto)]

/// How a check ended.
#[derive(Clone, Copy, Drop)]
pub enum CheckEnd {
    /// The certificate was accepted.
    Accepted,
    /// The certificate was refused. The last line of the report says why.
    Refused,
}
