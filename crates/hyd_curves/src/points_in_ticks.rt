//! Points of curves in ticks, their ranges, and which of two lies higher.
#![tactic(auto)]

ghost use Rattle.std.specs.Prelude.{◌≡◌, ◌≤◌, ◌^◌, ◌&&◌, pos, ◌≤ℤ◌, unsigned_abs};
ghost use lib.Signed.{lt_z};
ghost use Rattle.hyd_num.specs.FileQuantity as quantity;
ghost use Rattle.hyd_num.specs.FileQuantity.{is_us_unit};
ghost use Rattle.hyd_spec_input.specs.Curves as curve;

use crate::points::CurvePoint;
use hyd_num::{Decimal, FlowUnit};
use hyd_units::{flow_ticks, head_ticks};

/// A point of a curve in ticks, before its ranges are known: of a volume curve a level and a volume, of the others a
/// flow and a head.
#[derive(Clone, Copy, Drop)]
pub(crate) struct Ticks {
    pub place: i128,
    pub value: i128,
}

// A volume in volume ticks, cut toward zero. `v` is in cubic feet where `us` says so, else in cubic metres.
fn volume_ticks(v: Decimal, us: bool) -> i128
    ensures { result ≡ curve.volume_ticks us v.nano }
{
    if us {
        return 28_316_846_592 * v.nano / 1_000_000_000_000;
    }
    v.nano
}

/// A point of a volume curve.
pub(crate) fn volume_point(point: CurvePoint, us: bool) -> Ticks
    ensures place { result.place ≡ quantity.head_ticks us point.x.nano }
    ensures value { result.value ≡ curve.volume_ticks us point.y.nano }
{
    Ticks {
        place: head_ticks(point.x, us),
        value: volume_ticks(point.y, us),
    }
}

/// A point of a pump's or a valve's curve.
pub(crate) fn head_point(point: CurvePoint, unit: FlowUnit) -> Ticks
    ensures place { result.place ≡ quantity.flow_ticks unit point.x.nano }
    ensures value { result.value ≡ quantity.head_ticks (is_us_unit unit) point.y.nano }
    ensures heads { unsigned_abs result.value ≤ 10 ^ 26 }
{
    Ticks {
        place: flow_ticks(point.x, unit),
        value: head_ticks(point.y, unit.is_us()),
    }
}

/// Whether a number is at most a bound up or down.
pub(crate) fn is_within(ticks: i128, most: i128) -> bool
    requires least { pos 0 ≤ℤ most }
    requires small { most ≤ℤ pos (10 ^ 18) }
    ensures { result ≡ curve.is_within (unsigned_abs most) ticks }
{
    if ticks < -most {
        return false;
    }
    ticks <= most
}

/// Whether place and value rise.
pub(crate) fn rises(a: Ticks, b: Ticks) -> bool
    ensures { result ≡ (lt_z a.place b.place && lt_z a.value b.value) }
{
    if a.place >= b.place {
        return false;
    }
    a.value < b.value
}

/// Whether the place rises and the value falls.
pub(crate) fn falls(a: Ticks, b: Ticks) -> bool
    ensures { result ≡ (lt_z a.place b.place && lt_z b.value a.value) }
{
    if a.place >= b.place {
        return false;
    }
    b.value < a.value
}
