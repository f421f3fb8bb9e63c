//! Capacities of pumps, emitters and pressure-driven demands: the square of a flow over the head
//! that drives it (EPANET 2.2 User Manual, The Network Model and Analysis Algorithms).
#![tactic(auto)]

ghost use Rattle.std.specs.Prelude.{◌≡◌, ◌≤◌, ◌<◌, ◌*◌, ◌^◌, pos, ◌≤ℤ◌, ◌<ℤ◌, IfOk, OnOk, OnErr};
ghost use Rattle.hyd_num.specs.Pairs.{pair_reach};
ghost use Rattle.hyd_num.specs.FileQuantity.{billionths, flow_fraction, pressure_fraction};
ghost use Rattle.hyd_num.specs.CapacityPairs.{IsPairOf, IsSquareOver, IsMade};
ghost use Rattle.hyd_net.specs.NumberRanges.{flow_limit};
ghost use Rattle.hyd_spec.specs.CapacityEnclosure.{IsEnclosure, IsSharp};
ghost use Rattle.hyd_capacities.specs.FileNumberRanges.{IsCoefficient, IsCurveFlow, ArePressures};
ghost use Rattle.hyd_num.specs.CapacityRange.{IsRefused};

use crate::capacity_range::{CapRange, capacity, capacity_inside};
use crate::file_numbers::{BILLION, nano};
use hyd_num::{
    Capacity, Decimal, FlowUnit, HEAD_TICKS_IN_BILLIONTH_OF_METRE, NUMERATOR_OF_BILLIONTH_OF_POUND,
    Origin, Pair, TEN_THOUSANDTHS_OF_POUND_IN_FOOT, div, mul, ratio,
};
use hyd_units::head_ticks;

/// The capacity of a pump that loses `drop / thirds` of head at `flow`, both above 0: from a
/// curve of one point its head and 3, from one of three points the first head less the second and
/// 1. Fails with [`CapRange`] exactly where the enclosure reaches 2^66 or goes below 2^-61.
pub fn pump_capacity(
    flow: Decimal,
    drop: Decimal,
    thirds: u32,
    unit: FlowUnit,
) -> Result<Capacity, CapRange>
    requires flow { IsCurveFlow unit flow }
    requires drop { pos 0 <ℤ drop.nano }
    requires thirds { 1 ≤ thirds }
    ensures origin { IfOk result (λ c. c.origin ≡ Origin.Pump flow drop thirds unit) }
    ensures made { IfOk result (λ c. IsMade c) }
    ensures encloses { IfOk result (λ c. IsEnclosure c) }
    ensures sharp { IfOk result (λ c. IsSharp c) }
    ensures accepted { OnOk result (¬ IsRefused (Origin.Pump flow drop thirds unit)) }
    ensures refused { OnErr result (IsRefused (Origin.Pump flow drop thirds unit)) }
{
    let flows = flow_in_ticks(flow, unit);
    let drop_in_ticks = head_ticks(drop, unit.is_us()).unsigned_abs();
    let head = ratio(drop_in_ticks, u128::from(thirds));
    capacity(
        square_over(flows, head),
        Origin::Pump {
            flow,
            drop,
            thirds,
            unit,
        },
    )
}

/// The capacity of an emitter that gives the flow `c`, above 0, at one pound a square inch or one
/// metre. Fails with [`CapRange`] exactly where the enclosure reaches 2^66 or goes below 2^-61.
pub fn emitter_capacity(c: Decimal, unit: FlowUnit) -> Result<Capacity, CapRange>
    requires { IsCoefficient c }
    ensures origin { IfOk result (λ made. made.origin ≡ Origin.Emitter c unit) }
    ensures made { IfOk result (λ made. IsMade made) }
    ensures encloses { IfOk result (λ made. IsEnclosure made) }
    ensures sharp { IfOk result (λ made. IsSharp made) }
    ensures accepted { OnOk result (¬ IsRefused (Origin.Emitter c unit)) }
    ensures refused { OnErr result (IsRefused (Origin.Emitter c unit)) }
{
    let flows = flow_in_ticks(c, unit);
    let head = pressure_in_ticks(BILLION, unit.is_us());
    capacity(
        square_over(flows, head),
        Origin::Emitter {
            coefficient: c,
            unit,
        },
    )
}

/// The capacity of a junction that gets none of its demand at the pressure `p0` and all of it, so
/// many flow ticks, at `pf`. `us` says that pressures are in pounds a square inch, against metres.
pub fn pda_capacity(demand: i64, p0: Decimal, pf: Decimal, us: bool) -> Capacity
    requires demanded { pos 1 ≤ℤ demand }
    requires demand { demand ≤ℤ pos flow_limit }
    requires pressures { ArePressures us p0 pf }
    ensures origin { result.origin ≡ Origin.PressureDemand demand p0 pf us }
    ensures made { IsMade result }
    ensures encloses { IsEnclosure result }
    ensures sharp { IsSharp result }
{
    let flows = ratio(u128::from(demand.unsigned_abs()), 1);
    let head = pressure_in_ticks((pf.nano - p0.nano).unsigned_abs(), us);
    let origin = Origin::PressureDemand {
        demand,
        minimum: p0,
        required: pf,
        us,
    };
    capacity_inside(square_over(flows, head), origin)
}

// A flow in ticks, before any cut.
fn flow_in_ticks(flow: Decimal, unit: FlowUnit) -> Pair
    requires positive { pos 0 <ℤ flow.nano }
    requires small { (flow_fraction unit (billionths flow)).num < 2 ^ 100 }
    ensures value { IsPairOf (flow_fraction unit (billionths flow)) result }
    ensures near { pair_reach result ≤ 2 ^ 10 }
{
    let (numerator, denominator) = unit.factor();
    ratio(
        nano(flow) * u128::from(numerator),
        100 * u128::from(denominator),
    )
}

// A pressure of so many billionths in head ticks.
fn pressure_in_ticks(billionths: u128, us: bool) -> Pair
    requires above { 1 ≤ billionths }
    requires small { billionths ≤ 10 ^ 22 }
    ensures value { IsPairOf (pressure_fraction us billionths) result }
    ensures near { pair_reach result ≤ 2 ^ 10 }
{
    if us {
        return ratio(
            u128::from(NUMERATOR_OF_BILLIONTH_OF_POUND) * billionths,
            u128::from(TEN_THOUSANDTHS_OF_POUND_IN_FOOT),
        );
    }
    ratio(u128::from(HEAD_TICKS_IN_BILLIONTH_OF_METRE) * billionths, 1)
}

fn square_over(flow: Pair, head: Pair) -> Pair
    requires flow { pair_reach flow ≤ 2 ^ 10 }
    requires head { pair_reach head ≤ 2 ^ 10 }
    ensures { IsSquareOver flow head result }
{
    div(mul(flow, flow), head)
}
