//! Which enclosures are capacities.
#![tactic(auto)]

ghost use Rattle.std.specs.Prelude.{◌≡◌, ◌*◌, ◌^◌, ◌≤◌, ◌<◌, IfOk, OnOk, OnErr};
ghost use Rattle.std.specs.Bool.{OnTrue, OnFalse};
ghost use Rattle.hyd_num.specs.BinaryNumbers.{numerator, denominator};
ghost use Rattle.hyd_num.specs.CapacityPairs.{StandsFor, IsMade};
ghost use Rattle.hyd_spec.specs.CapacityEnclosure.{IsEnclosure, IsSharp};
ghost use Rattle.hyd_num.specs.CapacityRange.{IsRefused};

use hyd_num::{Capacity, Origin, Pair, Scaled};
use thiserror::Error;

// A mantissa is from 2^62 to below 2^63.
const LEAST_EXPONENT: i32 = -123;

const GREATEST_EXPONENT: i32 = 3;

/// The numbers of a file stand for a capacity whose enclosure reaches 2^66 or goes below 2^-61.
#[derive(Debug, Clone, Copy, PartialEq, Eq, Drop, Error)]
#[error("a capacity out of range")]
pub struct CapRange;

/// The capacity of this pair. Fails exactly where its upper end is at least 2^66 or its lower end
/// below 2^-61.
pub fn capacity(pair: Pair, origin: Origin) -> Result<Capacity, CapRange>
    requires { StandsFor origin pair }
    ensures origin { IfOk result (λ c. c.origin ≡ origin) }
    ensures made { IfOk result (λ c. IsMade c) }
    ensures encloses { IfOk result (λ c. IsEnclosure c) }
    ensures sharp { IfOk result (λ c. IsSharp c) }
    ensures accepted { OnOk result (¬ IsRefused origin) }
    ensures refused { OnErr result (IsRefused origin) }
{
    if is_below_least(pair.lo) {
        return Err(CapRange);
    }
    if is_from_greatest(pair.hi) {
        return Err(CapRange);
    }
    Ok(capacity_inside(pair, origin))
}

/// The capacity of this pair, which is in range.
pub fn capacity_inside(pair: Pair, origin: Origin) -> Capacity
    requires pair { StandsFor origin pair }
    requires least { denominator pair.lo ≤ numerator pair.lo * 2 ^ 61 }
    requires greatest { numerator pair.hi < 2 ^ 66 * denominator pair.hi }
    ensures origin { result.origin ≡ origin }
    ensures made { IsMade result }
    ensures encloses { IsEnclosure result }
    ensures sharp { IsSharp result }
    ensures accepted { ¬ IsRefused origin }
{
    Capacity {
        lo: pair.lo,
        hi: pair.hi,
        origin,
    }
}

fn is_below_least(low: Scaled) -> bool
    ensures below { OnTrue result (numerator low * 2 ^ 61 < denominator low) }
    ensures from { OnFalse result (denominator low ≤ numerator low * 2 ^ 61) }
{
    low.exp < LEAST_EXPONENT
}

fn is_from_greatest(high: Scaled) -> bool
    ensures from { OnTrue result (2 ^ 66 * denominator high ≤ numerator high) }
    ensures below { OnFalse result (numerator high < 2 ^ 66 * denominator high) }
{
    high.exp > GREATEST_EXPONENT
}
