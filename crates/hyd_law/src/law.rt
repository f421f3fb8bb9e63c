//! What a law is.
#![tactic(auto)]

ghost use Rattle.std.specs.Prelude.{◌≡◌, ◌≤◌, ℕ, ℤ, unsigned_abs};
ghost use Rattle.hyd_theorems_on_definitions.specs.SoundLawsAndGrids.{IsLaw};

/// The law of a link or an outflow: the exact flow at a head difference as two relations, and a whole number of flow
/// ticks below and one above it at a head difference of whole head ticks.
pub trait Law {
    /// At a scale and a head difference the exact flow is at least a number.
    ghost at_least: { Self → ℕ → ℤ → ℤ → Type 0 };

    /// At a scale and a head difference the exact flow is at most a number.
    ghost at_most: { Self → ℕ → ℤ → ℤ → Type 0 };

    /// At most the exact flow.
    ghost low: { Self → ℤ → ℤ };

    /// At least the exact flow.
    ghost high: { Self → ℤ → ℤ };

    /// The numbers of the law are those that a network gives it: capacities enclose, lifts are rounded, knots rise, the
    /// minimum pressure isn't below 0.
    ghost sound: { Self → Type 0 };

    /// The head differences at which both are computed.
    ghost accepts: { Self → ℤ → Type 0 };

    /// The greatest magnitude of both.
    ghost most: { ℕ };

    /// At most the exact flow, in flow ticks, at a head difference of `d` head ticks.
    fn low(&self, d: i64) -> i128
        requires sound { sound self.now }
        requires accepted { accepts self.now d }
        ensures value { result ≡ low self.now d }
        ensures small { unsigned_abs result ≤ most };

    /// At least the exact flow, in flow ticks, at a head difference of `d` head ticks.
    fn high(&self, d: i64) -> i128
        requires sound { sound self.now }
        requires accepted { accepts self.now d }
        ensures value { result ≡ high self.now d }
        ensures small { unsigned_abs result ≤ most };

    /// Both rise, enclose the exact flow at every scale, and the two relations speak of one flow.
    ghost laws: { (law : Self) → sound law → IsLaw (at_least law) (at_most law) (low law) (high law) };
}
