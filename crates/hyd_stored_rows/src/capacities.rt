//! Ends of capacities.

ghost use Rattle.std.specs.Prelude.{◌*◌, ◌^◌, IsTrue};
ghost use Rattle.hyd_capacities.specs.FileNumberRanges.{IsPositiveUpTo, IsMinorCoefficient, IsCurveFlow, ArePressures};

use crate::words::{decimal_at, is_us_at, number_at, put_ends, small_at, unit_at};
use hyd_capacities::{
    CapRange, emitter_capacity, pda_capacity, pipe_capacity, pump_capacity, valve_capacity,
};
use hyd_num::{Capacity, Decimal, FlowUnit};
use std::alloc::AllocError;

/// Writes the ends of a capacity, or that it is out of range.
fn put_capacity(capacity: Result<Capacity, CapRange>, out: &mut String) -> Result<(), AllocError> {
    match capacity {
        Ok(capacity) => put_ends(out, capacity.lo, capacity.hi),
        Err(CapRange) => out.push_str("out of range"),
    }
}

/// The capacity of a valve of a diameter and a loss coefficient.
pub(crate) fn put_valve(asked: &str, out: &mut String) -> Result<(), AllocError> {
    let diameter = decimal_at(asked, 0);
    let k = decimal_at(asked, 1);
    if is_up_to(diameter, 10_000) && is_up_to(k, 1_000_000) {
        return put_capacity(valve_capacity(diameter, k, is_us_at(asked, 2)), out);
    }
    out.push_str("none")
}

/// The capacity of a pipe of a length, a diameter, a roughness and a minor loss coefficient.
pub(crate) fn put_pipe(asked: &str, out: &mut String) -> Result<(), AllocError> {
    let length = decimal_at(asked, 0);
    let diameter = decimal_at(asked, 1);
    let roughness = decimal_at(asked, 2);
    let minor = decimal_at(asked, 3);
    if !is_up_to(length, 1_000_000) || !is_up_to(diameter, 10_000) {
        return out.push_str("none");
    }
    if !is_up_to(roughness, 10) || !is_minor(minor) {
        return out.push_str("none");
    }
    put_capacity(
        pipe_capacity(length, diameter, roughness, minor, is_us_at(asked, 4)),
        out,
    )
}

/// The capacity of a pump that loses a number of thirds of a head at a flow.
pub(crate) fn put_pump(asked: &str, out: &mut String) -> Result<(), AllocError> {
    let flow = decimal_at(asked, 0);
    let drop = decimal_at(asked, 1);
    let thirds = small_at(asked, 2);
    let unit = unit_at(asked, 3);
    if is_curve_flow(flow, unit) && drop.nano > 0 && thirds > 0 {
        return put_capacity(pump_capacity(flow, drop, thirds, unit), out);
    }
    out.push_str("none")
}

/// The capacity of an emitter.
pub(crate) fn put_emitter(asked: &str, out: &mut String) -> Result<(), AllocError> {
    let coefficient = decimal_at(asked, 0);
    if is_up_to(coefficient, 1_000_000) {
        return put_capacity(emitter_capacity(coefficient, unit_at(asked, 1)), out);
    }
    out.push_str("none")
}

/// The capacity of a demand in ticks between two pressures.
pub(crate) fn put_pressure_demand(asked: &str, out: &mut String) -> Result<(), AllocError> {
    let demand = i64::try_from(number_at(asked, 0)).unwrap_or(0);
    let minimum = decimal_at(asked, 1);
    let required = decimal_at(asked, 2);
    let us = is_us_at(asked, 3);
    if demand < 1 || demand > 1_000_000_000_000_000 || !are_pressures(minimum, required, us) {
        return out.push_str("none");
    }
    let capacity = pda_capacity(demand, minimum, required, us);
    put_ends(out, capacity.lo, capacity.hi)
}

/// Whether a number is above 0 and at most so many units.
fn is_up_to(number: Decimal, most: u32) -> bool
    ensures { IsTrue result → IsPositiveUpTo most number }
{
    number.nano > 0 && number.nano <= i128::from(most) * 1_000_000_000
}

/// Whether a number is a minor loss coefficient.
fn is_minor(number: Decimal) -> bool
    ensures { IsTrue result → IsMinorCoefficient number }
{
    number.nano >= 0 && number.nano <= 1_000_000_000_000_000
}

/// Whether a flow is one of a curve. Flows of at most 20,000 of any unit are at most 10^15 ticks.
fn is_curve_flow(flow: Decimal, unit: FlowUnit) -> bool
    ensures { IsTrue result → IsCurveFlow unit flow }
{
    flow.nano > 0 && flow.nano <= 20_000_000_000_000
}

/// Whether two pressures are a minimum and a required one. 10^17 head ticks are 10^13 billionths of a metre, and more
/// than 1.42 * 10^13 of a pound a square inch.
fn are_pressures(minimum: Decimal, required: Decimal, us: bool) -> bool
    ensures { IsTrue result → ArePressures us minimum required }
{
    let most = if us {
        14_215_879_265_091
    } else {
        10_000_000_000_000
    };
    if minimum.nano < 0 || required.nano > most || minimum.nano > required.nano {
        return false;
    }
    minimum.nano + 100_000_000 <= required.nano
}
