//! Heads, pressures and flows, from the file's units to ticks and back.

ghost use Rattle.std.specs.Prelude.{◌≤◌, ◌^◌, unsigned_abs};

use crate::words::{decimal_at, is_us_at, number_at, unit_at, word_at};
use hyd_num::FlowUnit;
use hyd_units::{
    BUFFER_SIZE, Way, flow_ticks, head_ticks, pressure_ticks, print_flow, print_head,
    print_pressure,
};
use std::alloc::AllocError;
use std::fmt::Write;

/// The most ticks that are printed.
const MOST: u128 = 1_000_000_000_000_000_000_000_000_000;

/// The direction in which a decimal is rounded.
fn way_at(asked: &str, place: usize) -> Way {
    if word_at(asked, place) == "up" {
        Way::Up
    } else {
        Way::Down
    }
}

/// Writes what stands at the front of a buffer.
fn put_front(out: &mut String, buffer: &[u8; BUFFER_SIZE], length: usize) -> Result<(), AllocError>
    requires { length ≤ BUFFER_SIZE }
{
    crate::words::put_bytes(out, &buffer[..length])
}

/// Writes a head in metres or feet.
fn put_head(out: &mut String, ticks: i128, us: bool, way: Way) -> Result<(), AllocError>
    requires { unsigned_abs ticks ≤ 10 ^ 27 }
{
    let mut buffer = [b'x'; BUFFER_SIZE];
    let length = print_head(ticks, us, way, &mut buffer);
    put_front(out, &buffer, length)
}

/// Writes a pressure in metres or pounds a square inch.
fn put_pressure(out: &mut String, ticks: i128, us: bool, way: Way) -> Result<(), AllocError>
    requires { unsigned_abs ticks ≤ 10 ^ 27 }
{
    let mut buffer = [b'x'; BUFFER_SIZE];
    let length = print_pressure(ticks, us, way, &mut buffer);
    put_front(out, &buffer, length)
}

/// Writes a flow.
fn put_flow(out: &mut String, ticks: i128, unit: FlowUnit, way: Way) -> Result<(), AllocError>
    requires { unsigned_abs ticks ≤ 10 ^ 27 }
{
    let mut buffer = [b'x'; BUFFER_SIZE];
    let length = print_flow(ticks, unit, way, &mut buffer);
    put_front(out, &buffer, length)
}

/// A height in ticks as a head in metres and in feet, and as a pressure in metres and in pounds a square inch.
pub(crate) fn put_height(asked: &str, out: &mut String) -> Result<(), AllocError> {
    let ticks = number_at(asked, 0);
    let way = way_at(asked, 1);
    if ticks.unsigned_abs() > MOST {
        return out.push_str("none");
    }
    put_head(out, ticks, false, way)?;
    out.push(' ')?;
    put_head(out, ticks, true, way)?;
    out.push(' ')?;
    put_pressure(out, ticks, false, way)?;
    out.push(' ')?;
    put_pressure(out, ticks, true, way)
}

/// A flow in ticks in a unit.
pub(crate) fn put_flow_in(asked: &str, out: &mut String) -> Result<(), AllocError> {
    let ticks = number_at(asked, 1);
    if ticks.unsigned_abs() > MOST {
        return out.push_str("none");
    }
    put_flow(out, ticks, unit_at(asked, 0), way_at(asked, 2))
}

/// The ticks of a flow in a unit.
pub(crate) fn put_flow_ticks(asked: &str, out: &mut String) -> Result<(), AllocError> {
    write!(
        out,
        "{}",
        flow_ticks(decimal_at(asked, 1), unit_at(asked, 0))
    )
}

/// The ticks of a head.
pub(crate) fn put_head_ticks(asked: &str, out: &mut String) -> Result<(), AllocError> {
    write!(
        out,
        "{}",
        head_ticks(decimal_at(asked, 1), is_us_at(asked, 0))
    )
}

/// The ticks of a pressure, as the ends of an interval.
pub(crate) fn put_pressure_ticks(asked: &str, out: &mut String) -> Result<(), AllocError> {
    let ticks = pressure_ticks(decimal_at(asked, 1), is_us_at(asked, 0));
    write!(out, "{} {}", ticks.lo, ticks.hi)
}
