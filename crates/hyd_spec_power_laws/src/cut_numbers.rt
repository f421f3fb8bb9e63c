//! Whole numbers by their first binary digits.
#![tactic(auto)]

/// The whole number `mant * 2^exp`; one that was cut has a mantissa from 2^62 to below 2^63.
#[derive(Clone, Copy, Drop)]
pub struct CutNumber {
    pub mant: u64,
    pub exp: u32,
}
