//! From the numbers of a file to ticks.
ghost use Rattle.hyd_num.specs.FileQuantity as quantity;
ghost use Rattle.hyd_num.specs.FileQuantity.{pressure_denominator, pressure_numerator};
ghost use Rattle.hyd_num.specs.QuotientsAndRoots.{IsCeiling, IsFloor};
ghost use Rattle.std.specs.Prelude.{◌≡◌, pos};

use hyd_num::{
    Decimal, FlowUnit, HEAD_TICKS_IN_BILLIONTH_OF_METRE, NUMERATOR_OF_BILLIONTH_OF_POUND, Span,
    TEN_THOUSANDTHS_OF_METRE_IN_FOOT, TEN_THOUSANDTHS_OF_POUND_IN_FOOT, mul_div_ceil,
    mul_div_floor,
};

/// A head or a level in head ticks, exactly. `v` is in feet where `us` says so, else in metres.
pub fn head_ticks(v: Decimal, us: bool) -> i128
    ensures { result ≡ quantity.head_ticks us v.nano }
{
    if us {
        return v.nano * TEN_THOUSANDTHS_OF_METRE_IN_FOOT as i128;
    }
    v.nano * HEAD_TICKS_IN_BILLIONTH_OF_METRE as i128
}

/// A flow in flow ticks, cut toward zero.
pub fn flow_ticks(v: Decimal, unit: FlowUnit) -> i128
    ensures { result ≡ quantity.flow_ticks unit v.nano }
{
    let (numerator, denominator) = unit.factor();
    v.nano * i128::from(numerator) / (100 * i128::from(denominator))
}

/// A pressure in head ticks, from the greatest whole number at most it to the least at least it.
/// `v` is in pounds a square inch where `us` says so, else in metres.
pub fn pressure_ticks(v: Decimal, us: bool) -> Span
    ensures floor { IsFloor (pressure_numerator us v.nano) (pos (pressure_denominator us)) result.lo }
    ensures ceiling { IsCeiling (pressure_numerator us v.nano) (pos (pressure_denominator us)) result.hi }
{
    if us {
        let numerator = NUMERATOR_OF_BILLIONTH_OF_POUND as i128;
        let denominator = TEN_THOUSANDTHS_OF_POUND_IN_FOOT as i128;
        let lo = mul_div_floor(numerator, v.nano, denominator);
        let hi = mul_div_ceil(numerator, v.nano, denominator);
        return Span { lo, hi };
    }
    let ticks = v.nano * HEAD_TICKS_IN_BILLIONTH_OF_METRE as i128;
    Span {
        lo: ticks,
        hi: ticks,
    }
}
