//! Binary numbers of 63 bits.
#![tactic(auto)]

ghost use Rattle.std.specs.Prelude.{◌^◌, ◌≤◌, ◌<◌};

/// The number `mant * 2^exp`, `mant` from 2^62 to below 2^63.
#[derive(Debug, Clone, Copy, PartialEq, Eq, Drop)]
pub struct Scaled {
    pub mant: u64,
    pub exp: i32,
    pub ghost normal: { 2 ^ 62 ≤ mant },
    pub ghost short: { mant < 2 ^ 63 },
}
