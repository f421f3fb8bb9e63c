//! Numbers of a file as pairs, and the capacity of what loses so many feet.
#![tactic(auto)]

ghost use Rattle.std.specs.Prelude.{◌≡◌, ◌≤◌, ◌<◌, ◌^◌, pos, ◌≤ℤ◌, ◌<ℤ◌};
ghost use Rattle.hyd_num.specs.FileQuantity.{billionths, feet, feet_across, ordinary};
ghost use Rattle.hyd_num.specs.Pairs.{pair_reach};
ghost use Rattle.hyd_num.specs.CapacityPairs.{IsPairOf, IsUnitOver};

use hyd_num::{Decimal, Pair, TEN_THOUSANDTHS_OF_METRE_IN_FOOT, div, ratio};

pub const BILLION: u128 = 1_000_000_000;

// A billion feet in ten-thousandths of a metre.
const BILLION_FEET: u128 = TEN_THOUSANDTHS_OF_METRE_IN_FOOT as u128 * BILLION;

/// The billionths of a number that isn't negative.
pub fn nano(number: Decimal) -> u128
    requires { pos 0 ≤ℤ number.nano }
    ensures value { result ≡ billionths number }
    ensures bounded { result ≤ 10 ^ 21 }
{
    number.nano.unsigned_abs()
}

/// A number as it is.
pub fn as_pair(number: Decimal) -> Pair
    requires { pos 0 <ℤ number.nano }
    ensures value { IsPairOf (ordinary (billionths number)) result }
    ensures near { pair_reach result ≤ 2 ^ 10 }
{
    ratio(nano(number), BILLION)
}

/// A length in feet.
pub fn length_in_feet(length: Decimal, us: bool) -> Pair
    requires { pos 0 <ℤ length.nano }
    ensures value { IsPairOf (feet us (billionths length)) result }
    ensures near { pair_reach result ≤ 2 ^ 10 }
{
    if us {
        return ratio(nano(length), BILLION);
    }
    ratio(10_000 * nano(length), BILLION_FEET)
}

/// A diameter in feet.
pub fn diameter_in_feet(diameter: Decimal, us: bool) -> Pair
    requires { pos 0 <ℤ diameter.nano }
    ensures value { IsPairOf (feet_across us (billionths diameter)) result }
    ensures near { pair_reach result ≤ 2 ^ 10 }
{
    if us {
        return ratio(nano(diameter), 12 * BILLION);
    }
    ratio(10 * nano(diameter), BILLION_FEET)
}

/// The capacity of what loses this many feet at one cubic foot a second.
pub fn unit_over(lost: Pair) -> Pair
    requires { pair_reach lost ≤ 2 ^ 25 }
    ensures { IsUnitOver lost result }
{
    // 86,400^2 * TEN_THOUSANDTHS_OF_METRE_IN_FOOT^5 * 10 / 10^20
    div(
        ratio(
            19_638_228_018_626_667_793_612_800_000,
            100_000_000_000_000_000_000,
        ),
        lost,
    )
}
