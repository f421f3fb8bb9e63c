//! Laws of losses by powers, and of the flows that enclose them. No function here has a body.
#![tactic(auto)]

ghost use Rattle.std.specs.Prelude.{◌≡◌, ℕ, ◌<◌, ◌≤◌, ◌+◌, ◌*◌, ◌^◌, ℤ, neg_ℤ, ◌≤ℤ◌, Bool, List};
ghost use Rattle.hyd_num.specs.Fraction.{Fraction};
ghost use Rattle.hyd_spec_power_laws.specs.declared.power_capacities.PowerCapacity.{PowerCapacity};
ghost use Rattle.hyd_spec_power_laws.specs.declared.cut_numbers.CutNumber.{CutNumber};
ghost use Rattle.hyd_spec_power_laws.specs.CutPowers.{value, IsNormal, cut_power, exponent, roundings};
ghost use Rattle.hyd_spec_power_laws.specs.CutPowers.{digits_of_1852, digits_of_1000};
ghost use Rattle.hyd_spec_power_laws.specs.EnclosingFlows.{power_low, power_high};
ghost use Rattle.hyd_spec_power_laws.specs.PowerLosses.{PowerLossAtMost, PowerLossAtLeast};
ghost use Rattle.hyd_spec_power_laws.specs.WholeFlows.{flow_down, flow_up};
ghost use Rattle.hyd_power_laws.specs.LawsOfPowers.{EnclosesLaw};

/// The digits of both exponents are theirs. A cut power is at most the exact one, loses at most the 2^62nd part of
/// itself at each product, counted as often as it stands in the power, and rises with its number.
pub fn laws_of_cut_powers()
    ensures of_flows { exponent digits_of_1852 ≡ 1852 }
    ensures of_heads { exponent digits_of_1000 ≡ 1000 }
    ensures at_most { (a : CutNumber) (ds : List Bool) → IsNormal a → value (cut_power a ds) ≤ value a ^ exponent ds }
    ensures near { (a : CutNumber) (ds : List Bool) → IsNormal a
        → value a ^ exponent ds * (2 ^ 62) ^ roundings ds ≤ value (cut_power a ds) * (2 ^ 62 + 1) ^ roundings ds }
    ensures rises { (a b : CutNumber) (ds : List Bool) → IsNormal a → IsNormal b → value a ≤ value b
        → value (cut_power a ds) ≤ value (cut_power b ds) }
{}

/// A lesser flow loses no more, a greater one no less; a flow that loses at most some head is at most one that loses at
/// least that head; and each flow loses at least 0.
pub fn losses_by_powers()
    ensures falls { (k r : Fraction) (S p q y : ℕ) → p ≤ q → PowerLossAtMost k r S q y → PowerLossAtMost k r S p y }
    ensures rises { (k r : Fraction) (S p q y : ℕ) → p ≤ q → PowerLossAtLeast k r S p y → PowerLossAtLeast k r S q y }
    ensures consistent { (k r : Fraction) (S p q y : ℕ) → 0 < S → 0 < k.den → 0 < r.den → PowerLossAtMost k r S p y
        → PowerLossAtLeast k r S q y → p ≤ q }
    ensures without_head { (k r : Fraction) (S q : ℕ) → PowerLossAtLeast k r S q 0 }
{}

/// Neither enclosing flow falls as the head difference rises, and each is the other one in reverse.
pub fn flows_of_capacities()
    ensures low_rises { (capacity : PowerCapacity) (c d : ℤ) → c ≤ℤ d → power_low capacity c ≤ℤ power_low capacity d }
    ensures high_rises { (capacity : PowerCapacity) (c d : ℤ) → c ≤ℤ d → power_high capacity c ≤ℤ power_high capacity
        d }
    ensures low_odd { (capacity : PowerCapacity) (d : ℤ)
        → power_low capacity (neg_ℤ d) ≡ neg_ℤ (power_high capacity d) }
    ensures high_odd { (capacity : PowerCapacity) (d : ℤ) → power_high capacity (neg_ℤ d) ≡ neg_ℤ (power_low capacity
        d) }
{}

/// At a head of at least `d` ticks the lower flow at `d` loses at most that head, at one of at most `d` ticks the upper
/// flow at least it, both at each scale; and the lower flow is at most the upper one.
pub fn flows_enclose()
    ensures below { (capacity : PowerCapacity) (k r : Fraction) (S d y : ℕ) → EnclosesLaw capacity k r → S * d ≤ y
        → PowerLossAtMost k r S (S * flow_down capacity.low capacity.minor d) y }
    ensures above { (capacity : PowerCapacity) (k r : Fraction) (S d y : ℕ) → EnclosesLaw capacity k r → y ≤ S * d
        → PowerLossAtLeast k r S (S * flow_up capacity.high capacity.minor d) y }
    ensures ordered { (capacity : PowerCapacity) (k r : Fraction) (d : ℤ) → EnclosesLaw capacity k r
        → power_low capacity d ≤ℤ power_high capacity d }
{}
