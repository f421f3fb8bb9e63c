//! What is in range at a scale.
#![tactic(auto)]

ghost use Rattle.std.specs.Prelude.{◌≡◌, ◌*◌, ◌^◌, ◌≤◌, ◌+ℤ◌, IfSome, IfNone, unsigned_abs};
ghost use Rattle.std.specs.Bool.{OnTrue, OnFalse};
ghost use Rattle.hyd_spec.specs.Scale.{at_scale};
ghost use Rattle.hyd_spec_witnesses.specs.EnclosingFunctionsAtScale.{IsDifference, IsCapacityInRange};
ghost use Rattle.hyd_laws_at_scale.specs.Scales.{parts_of};

use crate::scale::Scale;
use hyd_num::Capacity;

/// The greatest head difference and pressure either way, in parts of a head tick at every scale.
const GREATEST_DIFFERENCE: u128 = 3_000_000_000_000_000_000;

/// A binary number of 63 bits with this exponent or a lesser one is below 2^66, with a greater one it isn't.
const GREATEST_EXPONENT: i32 = 3;

/// A head difference or a pressure where it is in range, else nothing.
pub(crate) fn in_range(d: i128) -> Option<i64>
    ensures some { IfSome result (λ inside. (inside ≡ d) × IsDifference d) }
    ensures none { IfNone result (IsDifference d → ⊥) }
{
    if d.unsigned_abs() > GREATEST_DIFFERENCE {
        return None;
    }
    Some(d as i64)
}

/// A head difference in range and a lift (head ticks) together, where that is in range.
pub(crate) fn lifted(d: i64, lift: i128, scale: Scale) -> Option<i64>
    requires { unsigned_abs lift ≤ 10 ^ 20 }
    ensures some { IfSome result (λ sum. (sum ≡ d +ℤ at_scale (parts_of scale) lift)
        × IsDifference (d +ℤ at_scale (parts_of scale) lift)) }
    ensures none { IfNone result (IsDifference (d +ℤ at_scale (parts_of scale) lift) → ⊥) }
{
    in_range(i128::from(d) + scale.in_parts(lift))
}

/// Whether a capacity is in range at a scale.
pub(crate) fn fits(capacity: &Capacity, scale: Scale) -> bool
    ensures yes { OnTrue result (IsCapacityInRange (parts_of scale) capacity.now) }
    ensures no { OnFalse result (IsCapacityInRange (parts_of scale) capacity.now → ⊥) }
{
    capacity.hi.exp + scale.power as i32 <= GREATEST_EXPONENT
}
