//! The two ends of intervals as printed decimals.

ghost use Rattle.std.specs.Prelude.{◌≡◌, ◌≤◌, ◌^◌, ◌+ℤ◌, ◌-ℤ◌, unsigned_abs};
ghost use Rattle.hyd_spec_certificates.specs.SpansAsIntervals.{levels_of, flows_of};
ghost use Rattle.hyd_spec_certificates.specs.Interval.{shifted};
ghost use Rattle.hyd_units.specs.PrintedText.{IsDecimalOf};
ghost use Rattle.hyd_report.specs.PrintedIntervals.{printed, quantity_in, ArePrinted};
ghost use Rattle.hyd_report.specs.declared.printed_intervals.Quantity.TheVariants.{Head, Pressure, Flow};

use crate::short_text::Text;
use hyd_net::Project;
use hyd_num::Span;
use hyd_spec_certificates::LevelSpan;
use hyd_units::{BUFFER_SIZE, Way, print_flow, print_head, print_pressure};

/// What a printed number is.
#[derive(Clone, Copy, Drop)]
pub(crate) enum Quantity {
    Head,
    Pressure,
    Flow,
}

/// The number of ticks in the units of the network's file, rounded one way to four decimals.
fn print_ticks(project: &Project, quantity: Quantity, ticks: i128, way: Way) -> Text
    requires { unsigned_abs ticks ≤ 10 ^ 27 }
    ensures { IsDecimalOf way (quantity_in project.now quantity ticks) result }
{
    let unit = project.options.unit;
    let mut buffer = [0; BUFFER_SIZE];
    let used = match quantity {
        Quantity::Head => print_head(ticks, unit.is_us(), way, &mut buffer),
        Quantity::Pressure => print_pressure(ticks, unit.is_us(), way, &mut buffer),
        Quantity::Flow => print_flow(ticks, unit, way, &mut buffer),
    };
    Text::of(buffer, used)
}

/// The two ends of an interval, rounded outward.
#[derive(Drop)]
pub(crate) struct Ends {
    pub(crate) low: Text,
    pub(crate) high: Text,
}

/// The ends of an interval of ticks, in the units of the network's file.
pub(crate) fn print_ends(project: &Project, quantity: Quantity, low: i128, high: i128) -> Ends
    requires low { unsigned_abs low ≤ 10 ^ 27 }
    requires high { unsigned_abs high ≤ 10 ^ 27 }
    ensures { ArePrinted (printed (quantity_in project.now quantity) (record { lo = low; hi = high })) result }
{
    Ends {
        low: print_ticks(project, quantity, low, Way::Down),
        high: print_ticks(project, quantity, high, Way::Up),
    }
}

/// Heads from one to another, as they are printed.
pub(crate) fn print_heads(project: &Project, lower: i64, upper: i64) -> Ends
    ensures { ArePrinted (printed (quantity_in project.now Head) (record { lo = lower; hi = upper })) result }
{
    print_ends(
        project,
        Quantity::Head,
        i128::from(lower),
        i128::from(upper),
    )
}

/// How far a value is above a base.
fn above(value: i64, base: i64) -> i128
    ensures difference { result ≡ value -ℤ base }
    ensures in_range { unsigned_abs result ≤ 10 ^ 27 }
{
    i128::from(value) - i128::from(base)
}

/// Pressures of heads from one to another above an elevation, as they are printed.
pub(crate) fn print_pressures(project: &Project, lower: i64, upper: i64, elevation: i64) -> Ends
    ensures { ArePrinted (printed (quantity_in project.now Pressure)
        (record { lo = lower -ℤ elevation; hi = upper -ℤ elevation })) result }
{
    print_ends(
        project,
        Quantity::Pressure,
        above(lower, elevation),
        above(upper, elevation),
    )
}

/// How much a level and an elevation are together.
fn raised(level: i64, by: i64) -> i128
    ensures sum { result ≡ level +ℤ by }
    ensures in_range { unsigned_abs result ≤ 10 ^ 27 }
{
    i128::from(level) + i128::from(by)
}

/// Heads of levels from one to another above a bottom, as they are printed.
pub(crate) fn print_tank_heads(project: &Project, levels: &LevelSpan, bottom: i64) -> Ends
    ensures { ArePrinted (printed (quantity_in project.now Head) (shifted bottom (levels_of levels.now))) result }
{
    print_ends(
        project,
        Quantity::Head,
        raised(levels.lo, bottom),
        raised(levels.hi, bottom),
    )
}

/// Levels from one to another, as they are printed.
pub(crate) fn print_levels(project: &Project, levels: &LevelSpan) -> Ends
    ensures { ArePrinted (printed (quantity_in project.now Head) (levels_of levels.now)) result }
{
    print_heads(project, levels.lo, levels.hi)
}

/// Flows from one to another, as they are printed.
pub(crate) fn print_flows(project: &Project, flow: &Span) -> Ends
    requires low { unsigned_abs flow.now.lo ≤ 10 ^ 27 }
    requires high { unsigned_abs flow.now.hi ≤ 10 ^ 27 }
    ensures { ArePrinted (printed (quantity_in project.now Flow) (flows_of flow.now)) result }
{
    print_ends(project, Quantity::Flow, flow.lo, flow.hi)
}
