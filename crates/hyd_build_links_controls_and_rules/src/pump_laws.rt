//! The laws of pumps with curves of one point or three.
#![tactic(auto)]

ghost use Rattle.std.specs.Prelude.{◌≡◌, ◌≤ℤ◌, ◌<ℤ◌, ◌-ℤ◌, ◌*ℤ◌, ◌≤◌, ◌^◌, pos};
ghost use Rattle.hyd_num.specs.FileQuantity as quantity;
ghost use Rattle.hyd_num.specs.declared.link_capacities.Origin.TheVariants as origin;
ghost use Rattle.hyd_num.specs.CapacityPairs.{IsMade};
ghost use Rattle.hyd_num.specs.CapacityRange.{IsRefused};
ghost use Rattle.hyd_net.specs.RoundedFileNumbers.{IsRounded, IsExactly};
ghost use Rattle.hyd_capacities.specs.FileNumberRanges.{IsCurveFlow};
ghost use Rattle.hyd_build_links_controls_and_rules.specs.Pumps.{ArePumpPoints, IsPumpLaw};
ghost use Rattle.hyd_curves.specs.Points.{points_in};

use hyd_capacities::pump_capacity;
use hyd_curves::CurvePoint;
use hyd_net::ShutoffHead;
use hyd_num::{Capacity, Decimal, FlowUnit, Span, mul_div_ceil, mul_div_floor};
use hyd_units::head_ticks;

/// What a pump with a curve of one point or three is made of.
#[derive(Clone, Copy, Drop)]
pub(crate) struct PumpLaw {
    pub(crate) cap: Capacity,
    pub(crate) shutoff: Span,
    pub(crate) head: ShutoffHead,
}

// Four thirds of a head, rounded both ways.
fn four_thirds(head: Decimal, us: bool) -> Span
    ensures { IsRounded (pos 4 *ℤ quantity.head_ticks us head.nano) 3 result }
{
    let ticks = head_ticks(head, us);
    Span {
        lo: mul_div_floor(4, ticks, 3),
        hi: mul_div_ceil(4, ticks, 3),
    }
}

// A head as it is.
fn exactly(head: Decimal, us: bool) -> Span
    ensures { IsExactly (quantity.head_ticks us head.nano) result }
{
    let ticks = head_ticks(head, us);
    Span {
        lo: ticks,
        hi: ticks,
    }
}

// The capacity that is in range.
fn capacity(flow: Decimal, drop: Decimal, thirds: u32, unit: FlowUnit) -> Capacity
    requires flow { IsCurveFlow unit flow }
    requires drop { pos 0 <ℤ drop.nano }
    requires thirds { 1 ≤ thirds }
    requires free { ¬ IsRefused (origin.Pump flow drop thirds unit) }
    ensures made { IsMade result }
    ensures origin { result.origin ≡ origin.Pump flow drop thirds unit }
{
    let Ok(cap) = pump_capacity(flow, drop, thirds, unit) else {
        unreachable!()
    };
    cap
}

/// The law of a pump by the points of its curve.
pub(crate) fn pump_law(points: &[CurvePoint], unit: FlowUnit) -> PumpLaw
    requires { ArePumpPoints unit (points_in points.now) }
    ensures { IsPumpLaw unit (points_in points.now) result }
{
    match points {
        [point] => PumpLaw {
            cap: capacity(point.x, point.y, 3, unit),
            shutoff: four_thirds(point.y, unit.is_us()),
            head: ShutoffHead::FourThirds(point.y),
        },
        [first, second, _] => PumpLaw {
            cap: capacity(second.x, difference(first.y, second.y), 1, unit),
            shutoff: exactly(first.y, unit.is_us()),
            head: ShutoffHead::Given(first.y),
        },
        _ => unreachable!(),
    }
}

// A number less another, where a decimal holds it.
fn difference(a: Decimal, b: Decimal) -> Decimal
    requires positive { b.nano <ℤ a.nano }
    requires bounded { (a.nano -ℤ b.nano) ≤ℤ pos (10 ^ 21) }
    ensures { result.nano ≡ a.nano -ℤ b.nano }
{
    Decimal {
        nano: a.nano - b.nano,
    }
}
