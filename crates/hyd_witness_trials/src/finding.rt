//! What is found of a witness.

use hyd_spec_witnesses::Unmet;

/// What is found of a witness.
#[derive(Clone, Copy)]
pub enum Finding {
    /// All its periods are met: how many they are.
    Meets(u32),
    /// The period of this number, counted from 0, isn't met: its first clause that fails.
    Fails(u32, Unmet),
    /// The line of this number can't be so.
    BadLine(u64),
}
