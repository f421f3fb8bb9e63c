//! Pairs of binary numbers.
#![tactic(auto)]

ghost use Rattle.std.specs.Prelude.{◌≤◌, ◌*◌};
ghost use Rattle.hyd_num.specs.BinaryNumbers.{numerator, denominator};

use crate::binary::Scaled;

/// A number that is known to lie from `lo` to `hi`, both included.
#[derive(Debug, Clone, Copy, PartialEq, Eq, Drop)]
pub struct Pair {
    pub lo: Scaled,
    pub hi: Scaled,
    pub ghost ordered: { numerator lo * denominator hi ≤ numerator hi * denominator lo },
}
