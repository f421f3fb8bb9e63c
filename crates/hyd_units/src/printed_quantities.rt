//! From ticks to decimals of the file's units.
ghost use Rattle.hyd_num.specs.PrintedDecimals.{flow_quantity, head_quantity, pressure_quantity};
ghost use Rattle.hyd_units.specs.PrintedText.{IsDecimalOf, IsRounded, IsWhole};
ghost use Rattle.std.specs.Prelude.{◌≡◌, ◌≤◌, ◌<◌, ◌^◌, drop, take, unsigned_abs, pos, ◌*ℤ◌, ◌*◌};

use crate::decimal_texts::{BUFFER_SIZE, write_decimal};
use hyd_num::{
    FlowUnit, HEAD_TICKS_IN_BILLIONTH_OF_METRE, TEN_THOUSANDTHS_OF_METRE_IN_FOOT,
    TEN_THOUSANDTHS_OF_POUND_IN_FOOT, mul_div_ceil, mul_div_floor,
};

const TICKS_PER_METRE: u64 = 1_000_000_000 * HEAD_TICKS_IN_BILLIONTH_OF_METRE;

const TICKS_PER_FOOT: u64 = 1_000_000_000 * TEN_THOUSANDTHS_OF_METRE_IN_FOOT;

/// The direction in which a decimal is rounded.
#[derive(Clone, Copy, Drop)]
pub enum Way {
    /// To the greatest decimal at most the quantity, as for a lower end.
    Down,
    /// To the least decimal at least the quantity, as for an upper end.
    Up,
}

/// Prints a head or a level of at most 10^27 head ticks in magnitude with four decimals, in feet
/// where `us` says so, else in metres. The text stands at the front of the buffer, whose rest stays
/// as it was, and its length is returned.
pub fn print_head(ticks: i128, us: bool, way: Way, out: &mut [u8; BUFFER_SIZE]) -> usize
    requires { unsigned_abs ticks ≤ 10 ^ 27 }
    ensures text { IsDecimalOf way (head_quantity us ticks) (take result out.new) }
    ensures within { result ≤ BUFFER_SIZE }
    ensures rest { drop result out.new ≡ drop result out.old }
{
    write_decimal(head_decimal(ticks, us, way), out)
}

/// Prints a pressure, given as a height of water in head ticks, as [`print_head`] does, but in pounds
/// a square inch where `us` says so. A foot of water is 0.4333 of them.
pub fn print_pressure(ticks: i128, us: bool, way: Way, out: &mut [u8; BUFFER_SIZE]) -> usize
    requires { unsigned_abs ticks ≤ 10 ^ 27 }
    ensures text { IsDecimalOf way (pressure_quantity us ticks) (take result out.new) }
    ensures within { result ≤ BUFFER_SIZE }
    ensures rest { drop result out.new ≡ drop result out.old }
{
    write_decimal(pressure_decimal(ticks, us, way), out)
}

/// Prints a flow of at most 10^27 flow ticks in magnitude in its unit, as [`print_head`] does.
pub fn print_flow(ticks: i128, unit: FlowUnit, way: Way, out: &mut [u8; BUFFER_SIZE]) -> usize
    requires { unsigned_abs ticks ≤ 10 ^ 27 }
    ensures text { IsDecimalOf way (flow_quantity unit ticks) (take result out.new) }
    ensures within { result ≤ BUFFER_SIZE }
    ensures rest { drop result out.new ≡ drop result out.old }
{
    write_decimal(flow_decimal(ticks, unit, way), out)
}

// Each `_decimal` function gives a number of ten-thousandths.

fn head_decimal(ticks: i128, us: bool, way: Way) -> i128
    requires { unsigned_abs ticks ≤ 10 ^ 27 }
    ensures { IsRounded way (head_quantity us ticks) result }
{
    if us {
        return divide(ticks, 10_000, TICKS_PER_FOOT, way);
    }
    divide(ticks, 10_000, TICKS_PER_METRE, way)
}

fn pressure_decimal(ticks: i128, us: bool, way: Way) -> i128
    requires { unsigned_abs ticks ≤ 10 ^ 27 }
    ensures { IsRounded way (pressure_quantity us ticks) result }
{
    if us {
        return divide(ticks, TEN_THOUSANDTHS_OF_POUND_IN_FOOT, TICKS_PER_FOOT, way);
    }
    divide(ticks, 10_000, TICKS_PER_METRE, way)
}

fn flow_decimal(ticks: i128, unit: FlowUnit, way: Way) -> i128
    requires { unsigned_abs ticks ≤ 10 ^ 27 }
    ensures { IsRounded way (flow_quantity unit ticks) result }
{
    let (numerator, denominator) = unit.factor();
    // 10^7 ticks are a cubic metre a day, so 10^3 a ten-thousandth of one.
    divide(ticks, denominator, 1_000 * numerator, way)
}

fn divide(ticks: i128, factor: u64, divisor: u64, way: Way) -> i128
    requires fits { unsigned_abs ticks * factor < 2 ^ 127 }
    requires positive { 0 < divisor }
    ensures { IsWhole way (pos factor *ℤ ticks) (pos divisor) result }
{
    match way {
        Way::Down => mul_div_floor(i128::from(factor), ticks, i128::from(divisor)),
        Way::Up => mul_div_ceil(i128::from(factor), ticks, i128::from(divisor)),
    }
}
