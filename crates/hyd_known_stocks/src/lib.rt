//! What a tank holds whose level is known within limits: the levels, and with a volume curve the volumes that are kept
//! at both ends.
//!
//! Tested by the starts of `hyd_stored_starts`.
#![tactic(auto)]

mod stocks;
mod volumes;

pub use stocks::stock_between;
