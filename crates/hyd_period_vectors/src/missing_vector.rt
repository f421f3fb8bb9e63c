//! Why a vector isn't had.
#![tactic(auto)]

use hyd_spec_certificates::{Problem, Side};

/// Why a period has no vector of a problem and side.
#[derive(Clone, Copy, Drop)]
pub enum Lack {
    /// No vector in the box is a certificate. The junction has no value at the heads where the search ended, as the
    /// rounds reached them.
    NoCertificate {
        problem: Problem,
        side: Side,
        /// Its number, counted from 0.
        junction: u32,
    },
    /// The rounds that a search may take exist, from the floor of the box for UPPER and its ceiling for LOWER, and lead
    /// to no certificate.
    RoundsSpent {
        problem: Problem,
        side: Side,
    },
}
