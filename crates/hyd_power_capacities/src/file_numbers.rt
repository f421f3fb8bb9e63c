//! Numbers of a file as pairs.
#![tactic(auto)]

ghost use Rattle.std.specs.Prelude.{◌≡◌, ◌≤◌, ◌^◌, pos, ◌<ℤ◌};
ghost use Rattle.hyd_num.specs.FileQuantity.{billionths, feet, feet_across, ordinary};
ghost use Rattle.hyd_num.specs.Pairs.{pair_reach};
ghost use Rattle.hyd_num.specs.CapacityPairs.{IsPairOf};
ghost use Rattle.hyd_spec_power_laws.specs.PowerCapacities.{IsFlowUnit};

use hyd_num::{Decimal, Pair, TEN_THOUSANDTHS_OF_METRE_IN_FOOT, ratio};

const BILLION: u128 = 1_000_000_000;

/// A foot in head ticks, and a billion feet in ten-thousandths of a metre.
pub(crate) const FOOT: u128 = TEN_THOUSANDTHS_OF_METRE_IN_FOOT as u128 * BILLION;

// A cubic foot a second in thousandths of a flow tick.
const FLOW_UNIT: u128 = 24_465_755_455_488;

/// A cubic foot a second in flow ticks.
pub(crate) fn flow_unit() -> Pair
    ensures value { IsFlowUnit result }
    ensures near { pair_reach result ≤ 2 ^ 10 }
{
    ratio(FLOW_UNIT, 1000)
}

/// The billionths of a number above 0.
pub(crate) fn nano(number: Decimal) -> u128
    requires { pos 0 <ℤ number.nano }
    ensures value { result ≡ billionths number }
    ensures some { 1 ≤ result }
    ensures bounded { result ≤ 10 ^ 21 }
{
    number.nano.unsigned_abs()
}

/// A number as it is.
pub(crate) fn as_pair(number: Decimal) -> Pair
    requires { pos 0 <ℤ number.nano }
    ensures value { IsPairOf (ordinary (billionths number)) result }
    ensures near { pair_reach result ≤ 2 ^ 10 }
{
    ratio(nano(number), BILLION)
}

/// A length in feet.
pub(crate) fn length_in_feet(length: Decimal, us: bool) -> Pair
    requires { pos 0 <ℤ length.nano }
    ensures value { IsPairOf (feet us (billionths length)) result }
    ensures near { pair_reach result ≤ 2 ^ 10 }
{
    if us {
        return ratio(nano(length), BILLION);
    }
    ratio(10_000 * nano(length), FOOT)
}

/// A diameter in feet.
pub(crate) fn diameter_in_feet(diameter: Decimal, us: bool) -> Pair
    requires { pos 0 <ℤ diameter.nano }
    ensures value { IsPairOf (feet_across us (billionths diameter)) result }
    ensures near { pair_reach result ≤ 2 ^ 10 }
{
    if us {
        return ratio(nano(diameter), 12 * BILLION);
    }
    ratio(10 * nano(diameter), FOOT)
}
