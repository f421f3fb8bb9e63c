//! Spans: numbers enclosed by two whole ones.
#![tactic(auto)]

ghost use Rattle.std.specs.Prelude.{◌≤ℤ◌};

/// A whole number that is known to lie from `lo` to `hi`, both included.
#[derive(Debug, Clone, Copy, PartialEq, Eq, Drop)]
pub struct Span {
    pub lo: i128,
    pub hi: i128,
    pub ghost ordered: { lo ≤ℤ hi },
}
