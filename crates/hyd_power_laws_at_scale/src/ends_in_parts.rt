//! The numbers of a capacity for parts of ticks.
#![tactic(auto)]

ghost use Rattle.std.specs.Prelude.{◌≡◌, ◌*◌, ◌^◌, ◌≤◌, ◌+ℤ◌, IfSome, unsigned_abs};
ghost use Rattle.hyd_num.specs.BinaryNumbers.{reach};
ghost use Rattle.hyd_num.specs.Pairs.{pair_reach};
ghost use Rattle.hyd_power_laws_at_scale.specs.Parts.{IsTimes, IsDivided, IsMinorDivided};

use hyd_num::{Pair, Scaled};

// By how many places a constant rises where the parts are halved: 1852 - 1000.
const PLACES_OF_CONSTANT: i32 = 852;

// A binary number with an exponent that differs by so many places.
fn shifted(number: Scaled, places: i32) -> Scaled
    requires near { reach number ≤ 2 ^ 26 }
    requires few { unsigned_abs places ≤ 2 ^ 20 }
    ensures mantissa { result.mant ≡ number.mant }
    ensures exponent { result.exp ≡ number.exp +ℤ places }
{
    Scaled {
        mant: number.mant,
        exp: number.exp + places,
    }
}

/// An end of a constant of powers in `2^power` parts.
pub(crate) fn constant_in_parts(end: Scaled, power: u32) -> Scaled
    requires near { reach end ≤ 2 ^ 26 }
    requires few { power ≤ 10 }
    ensures { IsTimes (852 * power) end result }
{
    shifted(end, PLACES_OF_CONSTANT * power as i32)
}

// An end of a minor loss in them.
fn divided(end: Scaled, power: u32) -> Scaled
    requires near { reach end ≤ 2 ^ 26 }
    requires few { power ≤ 10 }
    ensures { IsTimes power result end }
{
    shifted(end, -(power as i32))
}

// A minor loss in them.
fn pair_in_parts(minor: Pair, power: u32) -> Pair
    requires near { pair_reach minor ≤ 2 ^ 26 }
    requires few { power ≤ 10 }
    ensures { IsDivided power minor result }
{
    let lo = divided(minor.lo, power);
    let hi = divided(minor.hi, power);
    Pair { lo, hi }
}

/// A minor loss in `2^power` parts, none where there is none.
pub(crate) fn minor_in_parts(minor: Option<Pair>, power: u32) -> Option<Pair>
    requires near { IfSome minor (λ m. pair_reach m ≤ 2 ^ 26) }
    requires few { power ≤ 10 }
    ensures { IsMinorDivided power minor result }
{
    match minor {
        Some(pair) => Some(pair_in_parts(pair, power)),
        None => None,
    }
}
