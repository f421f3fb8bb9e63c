//! Why a vector isn't had.
#![tactic(auto)]

use hyd_period_vectors::Lack;
use hyd_spec_certificates::Side;

/// Why the outermost network of a side has no vector of a problem and side.
#[derive(Clone, Copy, Drop)]
pub struct SpreadLack {
    /// The side of the network: [`Side::Upper`] for the one with the greatest heads.
    pub network: Side,
    /// The problem and side that lacks a vector there, and why it does.
    pub lack: Lack,
}
