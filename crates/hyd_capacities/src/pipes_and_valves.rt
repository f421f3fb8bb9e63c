//! Capacities of pipes and valves, by Manning's formula and minor losses (EPANET 2.2 User Manual,
//! Analysis Algorithms).
#![tactic(auto)]

ghost use Rattle.std.specs.Prelude.{◌≡◌, ◌≤◌, ◌<◌, ◌^◌, pos, ◌<ℤ◌, IfOk, OnOk, OnErr};
ghost use Rattle.hyd_num.specs.Pairs.{pair_reach};
ghost use Rattle.hyd_num.specs.CapacityPairs.{IsMinorPair, IsFrictionPair, IsMade};
ghost use Rattle.hyd_spec.specs.CapacityEnclosure.{IsEnclosure, IsSharp};
ghost use Rattle.hyd_capacities.specs.FileNumberRanges.{IsLength, IsDiameter, IsRoughness, IsMinorCoefficient};
ghost use Rattle.hyd_capacities.specs.FileNumberRanges.{IsCoefficient};
ghost use Rattle.hyd_num.specs.CapacityRange.{IsRefused};

use crate::capacity_range::{CapRange, capacity};
use crate::file_numbers::{as_pair, diameter_in_feet, length_in_feet, unit_over};
use hyd_num::{Capacity, Decimal, Origin, Pair, add, div, mul, pow, ratio, root533};

/// The capacity of a valve that is fully open, or throttled to the coefficient `k`: it loses
/// `0.02517 k d^-4 q^2` feet for `q` cubic feet a second, with `d` its diameter in feet. `us`
/// says that the diameter is in inches, against millimetres. Fails with [`CapRange`] exactly
/// where the enclosure reaches 2^66 or goes below 2^-61.
pub fn valve_capacity(diameter: Decimal, k: Decimal, us: bool) -> Result<Capacity, CapRange>
    requires diameter { IsDiameter diameter }
    requires k { IsCoefficient k }
    ensures origin { IfOk result (λ c. c.origin ≡ Origin.Valve diameter k us) }
    ensures made { IfOk result (λ c. IsMade c) }
    ensures encloses { IfOk result (λ c. IsEnclosure c) }
    ensures sharp { IfOk result (λ c. IsSharp c) }
    ensures accepted { OnOk result (¬ IsRefused (Origin.Valve diameter k us)) }
    ensures refused { OnErr result (IsRefused (Origin.Valve diameter k us)) }
{
    capacity(
        unit_over(minor_loss(diameter, k, us)),
        Origin::Valve { diameter, k, us },
    )
}

/// The capacity of a pipe with Manning's `roughness` and the minor loss coefficient `minor`, which
/// is 0 where it has none: it loses `4.66 n^2 d^-5.33 L q^2 + 0.02517 K d^-4 q^2` feet for `q` cubic
/// feet a second, with its length and diameter in feet. `us` says that the length is in feet and
/// the diameter in inches, against metres and millimetres. Fails with [`CapRange`] exactly where
/// the enclosure reaches 2^66 or goes below 2^-61.
pub fn pipe_capacity(
    length: Decimal,
    diameter: Decimal,
    roughness: Decimal,
    minor: Decimal,
    us: bool,
) -> Result<Capacity, CapRange>
    requires length { IsLength length }
    requires diameter { IsDiameter diameter }
    requires roughness { IsRoughness roughness }
    requires minor { IsMinorCoefficient minor }
    ensures origin { IfOk result (λ c. c.origin ≡ Origin.Pipe us length diameter roughness minor) }
    ensures made { IfOk result (λ c. IsMade c) }
    ensures encloses { IfOk result (λ c. IsEnclosure c) }
    ensures sharp { IfOk result (λ c. IsSharp c) }
    ensures accepted { OnOk result (¬ IsRefused (Origin.Pipe us length diameter roughness minor)) }
    ensures refused { OnErr result (IsRefused (Origin.Pipe us length diameter roughness minor)) }
{
    let origin = Origin::Pipe {
        length,
        diameter,
        roughness,
        minor,
        us,
    };
    let friction = friction(length, diameter, roughness, us);
    if minor.nano > 0 {
        let lost = add(friction, minor_loss(diameter, minor, us));
        return capacity(unit_over(lost), origin);
    }
    capacity(unit_over(friction), origin)
}

// The feet lost to friction at one cubic foot a second.
fn friction(length: Decimal, diameter: Decimal, roughness: Decimal, us: bool) -> Pair
    requires length { pos 0 <ℤ length.nano }
    requires diameter { pos 0 <ℤ diameter.nano }
    requires roughness { pos 0 <ℤ roughness.nano }
    ensures value { IsFrictionPair length diameter roughness us result }
    ensures near { pair_reach result ≤ 2 ^ 20 }
{
    let rough = as_pair(roughness);
    let squared = mul(mul(ratio(466, 100), rough), rough);
    div(
        mul(squared, length_in_feet(length, us)),
        root533(diameter_in_feet(diameter, us)),
    )
}

// The feet lost to fittings at one cubic foot a second.
fn minor_loss(diameter: Decimal, k: Decimal, us: bool) -> Pair
    requires diameter { pos 0 <ℤ diameter.nano }
    requires k { pos 0 <ℤ k.nano }
    ensures value { IsMinorPair diameter k us result }
    ensures near { pair_reach result ≤ 2 ^ 13 }
{
    let scaled = mul(ratio(2517, 100_000), as_pair(k));
    div(scaled, pow(diameter_in_feet(diameter, us), 4))
}
