//! The capacity that a pipe's numbers make with Manning's coefficient, by kept powers of diameters (EPANET 2.2 User
//! Manual, Analysis Algorithms).
#![tactic(auto)]

ghost use Rattle.std.specs.Prelude.{◌≡◌, ◌≤◌, ◌<◌, ◌*◌, ◌^◌, pos, ◌<ℤ◌, IfOk, OnOk, OnErr};
ghost use Rattle.std.specs.Bool.{OnTrue};
ghost use Rattle.hyd_num.specs.BinaryNumbers.{numerator, denominator};
ghost use Rattle.hyd_num.specs.FileQuantity.{billionths, feet, ordinary};
ghost use Rattle.hyd_num.specs.Pairs.{pair_reach};
ghost use Rattle.hyd_num.specs.CapacityPairs.{StandsFor, IsPairOf, IsUnitOver, IsFrictionPair, IsMade};
ghost use Rattle.hyd_num.specs.CapacityRange.{IsRefused};
ghost use Rattle.hyd_spec.specs.CapacityEnclosure.{IsEnclosure, IsSharp};
ghost use Rattle.hyd_capacities.specs.FileNumberRanges.{IsLength, IsDiameter, IsRoughness, IsMinorCoefficient};

use crate::kept_roots::KeptRoots;
use hyd_capacities::{CapRange, pipe_capacity};
use hyd_num::{Capacity, Decimal, Origin, Pair, TEN_THOUSANDTHS_OF_METRE_IN_FOOT, div, mul, ratio};

const BILLION: u128 = 1_000_000_000;

// A billion feet in ten-thousandths of a metre.
const BILLION_FEET: u128 = TEN_THOUSANDTHS_OF_METRE_IN_FOOT as u128 * BILLION;

// A mantissa is from 2^62 to below 2^63, a capacity from 2^-61 to below 2^66.
const LEAST_EXPONENT: i32 = -123;

const GREATEST_EXPONENT: i32 = 3;

// A number as it is.
fn as_pair(number: Decimal) -> Pair
    requires { pos 0 <ℤ number.nano }
    ensures value { IsPairOf (ordinary (billionths number)) result }
    ensures near { pair_reach result ≤ 2 ^ 10 }
{
    ratio(number.nano.unsigned_abs(), BILLION)
}

// A length in feet.
fn length_in_feet(length: Decimal, us: bool) -> Pair
    requires { pos 0 <ℤ length.nano }
    ensures value { IsPairOf (feet us (billionths length)) result }
    ensures near { pair_reach result ≤ 2 ^ 10 }
{
    let nano = length.nano.unsigned_abs();
    if us {
        return ratio(nano, BILLION);
    }
    ratio(10_000 * nano, BILLION_FEET)
}

// The capacity of what loses this many feet at one cubic foot a second.
fn unit_over(lost: Pair) -> Pair
    requires { pair_reach lost ≤ 2 ^ 25 }
    ensures { IsUnitOver lost result }
{
    // 86,400^2 * TEN_THOUSANDTHS_OF_METRE_IN_FOOT^5 * 10 / 10^20
    div(
        ratio(
            19_638_228_018_626_667_793_612_800_000,
            100_000_000_000_000_000_000,
        ),
        lost,
    )
}

// The feet lost to friction at one cubic foot a second.
fn friction(
    length: Decimal,
    diameter: Decimal,
    roughness: Decimal,
    us: bool,
    roots: &mut KeptRoots,
) -> Pair
    requires length { pos 0 <ℤ length.nano }
    requires diameter { pos 0 <ℤ diameter.nano }
    requires roughness { pos 0 <ℤ roughness.nano }
    ensures value { IsFrictionPair length diameter roughness us result }
    ensures near { pair_reach result ≤ 2 ^ 25 }
{
    let rough = as_pair(roughness);
    let squared = mul(mul(ratio(466, 100), rough), rough);
    let root = roots.root(diameter, us);
    div(mul(squared, length_in_feet(length, us)), root)
}

// Whether a pair lies in the range of capacities.
fn is_inside(pair: Pair) -> bool
    ensures least { OnTrue result (denominator pair.lo ≤ numerator pair.lo * 2 ^ 61) }
    ensures greatest { OnTrue result (numerator pair.hi < 2 ^ 66 * denominator pair.hi) }
{
    if pair.lo.exp < LEAST_EXPONENT {
        return false;
    }
    pair.hi.exp <= GREATEST_EXPONENT
}

// The capacity of a pair in range.
fn capacity_inside(pair: Pair, origin: Origin) -> Capacity
    requires pair { StandsFor origin pair }
    requires least { denominator pair.lo ≤ numerator pair.lo * 2 ^ 61 }
    requires greatest { numerator pair.hi < 2 ^ 66 * denominator pair.hi }
    ensures origin { result.origin ≡ origin }
    ensures made { IsMade result }
    ensures encloses { IsEnclosure result }
    ensures sharp { IsSharp result }
    ensures accepted { ¬ IsRefused origin }
{
    Capacity {
        lo: pair.lo,
        hi: pair.hi,
        origin,
    }
}

/// The capacity of a pipe, with the same promises as those of `pipe_capacity`.
pub(crate) fn capacity_with(
    length: Decimal,
    diameter: Decimal,
    roughness: Decimal,
    minor: Decimal,
    us: bool,
    roots: &mut KeptRoots,
) -> Result<Capacity, CapRange>
    requires length { IsLength length }
    requires diameter { IsDiameter diameter }
    requires roughness { IsRoughness roughness }
    requires minor { IsMinorCoefficient minor }
    ensures origin { IfOk result (λ c. c.origin ≡ Origin.Pipe us length diameter roughness minor) }
    ensures made { IfOk result (λ c. IsMade c) }
    ensures encloses { IfOk result (λ c. IsEnclosure c) }
    ensures sharp { IfOk result (λ c. IsSharp c) }
    ensures accepted { OnOk result (¬ IsRefused (Origin.Pipe us length diameter roughness minor)) }
    ensures refused { OnErr result (IsRefused (Origin.Pipe us length diameter roughness minor)) }
{
    if minor.nano > 0 {
        return pipe_capacity(length, diameter, roughness, minor, us);
    }
    let pair = unit_over(friction(length, diameter, roughness, us, roots));
    if !is_inside(pair) {
        return pipe_capacity(length, diameter, roughness, minor, us);
    }
    let origin = Origin::Pipe {
        length,
        diameter,
        roughness,
        minor,
        us,
    };
    Ok(capacity_inside(pair, origin))
}
