//! Tanks, each with its levels and its area or its volume curve.
#![tactic(auto)]

ghost use Rattle.std.specs.Prelude.{◌≡◌, ◌<◌, ◌≤◌, ◌+◌, ◌*◌, ◌/◌, ◌^◌, ◌≤ℤ◌, pos, ◌*ℤ◌, None, length, take};
ghost use Rattle.std.specs.Prelude.{unsigned_abs, IfOk, OnOk};
ghost use Rattle.std.specs.List.{All};
ghost use Rattle.hyd_num.specs.FileQuantity.{is_us_unit, head_ticks};
ghost use Rattle.hyd_num.specs.QuotientsAndRoots.{IsFloor};
ghost use Rattle.hyd_spec_lines.specs.Lines.{LiesIn};
ghost use Rattle.hyd_spec_lines.specs.declared.section.Section.TheVariants.{Tanks};
ghost use Rattle.hyd_option_and_rule_lines.specs.FaultOrValue.{words_at};
ghost use Rattle.hyd_spec_input.specs.SingleRows.{IsWrongByItself};
ghost use Rattle.hyd_spec_input.specs.Faults.{NoneIs, IsWrongWithOthers};
ghost use Rattle.hyd_spec_input.specs.OptionsAndTimesInForce as force;
ghost use Rattle.hyd_spec_input.specs.MeaningsAcrossRows.{shape_names};
ghost use Rattle.hyd_spec_input.specs.NodeAndLinkRows as row;
ghost use Rattle.hyd_spec_input.specs.Project.{Match, IsTank};
ghost use Rattle.hyd_spec_input.specs.SectionsAndTables.{rows_of};
ghost use Rattle.hyd_rows_and_tables.specs.RowsOfLines.{rows_at};
ghost use Rattle.hyd_build_nodes_patterns_and_options.specs.ReservoirsAndTanks.{AreSmall, HasTankMore, IsSmall, IsTankBy};

use crate::name_numbers_and_ticks::{head_of, number_named};
use hyd_lex::{Line, Lines};
use hyd_net::{List, OutOfMemory, Tank};
use hyd_network_rows::{TankRow, read_tank};
use hyd_num::{Decimal, FlowUnit};
use hyd_rows_and_tables::{NumberedIds, is_tanks};
use std::alloc::Global;

// The square of a diameter's billionths, times and over a number, cut.
fn square_times(diameter: Decimal, factor: u128, divisor: u128) -> u128
    requires at_most { unsigned_abs diameter.nano ≤ 10 ^ 12 }
    requires factor { factor < 2 ^ 48 }
    requires divisor { 10 ^ 18 ≤ divisor }
    requires fits { factor * 10 ^ 24 < 10 ^ 15 * divisor }
    ensures value { result ≡ factor * (unsigned_abs diameter.nano * unsigned_abs diameter.nano) / divisor }
    ensures small { result < 2 ^ 63 }
{
    let nano = diameter.nano.unsigned_abs();
    factor * (nano * nano) / divisor
}

fn signed(area: u128) -> i64
    requires { area < 2 ^ 63 }
    ensures { result ≡ pos area }
{
    area as i64
}

// Pi (3.141592654) times a squared diameter in metres, over 4, in 10^-9 square metres, cut. What the factors share with
// the divisor is left out of both.
fn area_of(diameter: Decimal, unit: FlowUnit) -> i64
    requires at_least { pos 0 ≤ℤ diameter.nano }
    requires at_most { diameter.nano ≤ℤ pos (1000 * 10 ^ 9) }
    ensures { IsFloor (pos 3141592654 *ℤ (head_ticks (is_us_unit unit) diameter.nano
        *ℤ head_ticks (is_us_unit unit) diameter.nano)) (pos (4 * 10 ^ 26)) result }
{
    if unit.is_us() {
        return signed(square_times(
            diameter,
            228_018_365_623_647,
            3_125_000_000_000_000_000_000_000,
        ));
    }
    signed(square_times(diameter, 1_570_796_327, 2_000_000_000_000_000_000))
}

// The tank of what a row says.
fn tank_by(row: &TankRow<'_>, shapes: &NumberedIds, unit: FlowUnit) -> Tank
    requires bottom { IsSmall unit row.now.bottom.nano }
    requires initial { IsSmall unit row.now.initial.nano }
    requires minimum { IsSmall unit row.now.minimum.nano }
    requires maximum { IsSmall unit row.now.maximum.nano }
    requires at_least { pos 0 ≤ℤ row.now.diameter.nano }
    requires at_most { row.now.diameter.nano ≤ℤ pos (1000 * 10 ^ 9) }
    ensures { IsTankBy unit shapes.now row.now result }
{
    Tank {
        bottom: head_of(row.bottom, unit),
        initial: head_of(row.initial, unit),
        minimum: head_of(row.minimum, unit),
        maximum: head_of(row.maximum, unit),
        area: area_of(row.diameter, unit),
        diameter: row.diameter,
        shape: number_named(shapes, row.curve),
        overflow: row.overflows,
    }
}

// Appends the tank of a row.
fn push_tank(
    list: &mut List<Tank>,
    text: &Lines<'_>,
    line: &Line,
    shapes: &NumberedIds,
    unit: FlowUnit,
) -> Result<(), OutOfMemory>
    requires lies { LiesIn text.now.text line.now }
    requires right { row.tank (words_at text.now line.now) ≡ None }
    requires small { AreSmall unit (words_at text.now line.now) }
    ensures { OnOk result (HasTankMore unit shapes.now (words_at text.now line.now) list.old.list list.new.list) }
{
    let Ok(row) = read_tank(text, line) else {
        return Ok(());
    };
    list.push(tank_by(&row, shapes, unit))?;
    Ok(())
}

// The next row.
fn add_row(
    list: &mut List<Tank>,
    text: &Lines<'_>,
    lines: &[Line],
    place: usize,
    shapes: &NumberedIds,
    unit: FlowUnit,
) -> Result<(), OutOfMemory>
    requires within { place < length lines.now }
    requires lie { All (LiesIn text.now.text) lines.now }
    requires by_itself { NoneIs (IsWrongByItself (rows_at text.now.text lines.now)) }
    requires with_others { NoneIs (IsWrongWithOthers (rows_at text.now.text lines.now)) }
    requires shapes { shapes.now ≡ shape_names (rows_at text.now.text lines.now) }
    requires unit { unit ≡ force.unit (rows_at text.now.text lines.now) }
    requires built { Match (IsTank (rows_at text.now.text lines.now))
        (rows_of Tanks (take place (rows_at text.now.text lines.now))) list.old.list }
    ensures { OnOk result (Match (IsTank (rows_at text.now.text lines.now))
        (rows_of Tanks (take (place + 1) (rows_at text.now.text lines.now))) list.new.list) }
{
    let line = &lines[place];
    if !is_tanks(line.section) {
        return Ok(());
    }
    push_tank(list, text, line, shapes, unit)?;
    Ok(())
}

/// The tanks of a file without a fault, in the order of their rows, where `shapes` numbers the volume curves that they
/// name.
pub fn build_tanks(
    alloc: Global,
    text: &Lines<'_>,
    lines: &[Line],
    shapes: &NumberedIds,
    unit: FlowUnit,
) -> Result<List<Tank>, OutOfMemory>
    requires lie { All (LiesIn text.now.text) lines.now }
    requires by_itself { NoneIs (IsWrongByItself (rows_at text.now.text lines.now)) }
    requires with_others { NoneIs (IsWrongWithOthers (rows_at text.now.text lines.now)) }
    requires shapes { shapes.now ≡ shape_names (rows_at text.now.text lines.now) }
    requires unit { unit ≡ force.unit (rows_at text.now.text lines.now) }
    ensures { IfOk result (λ list. Match (IsTank (rows_at text.now.text lines.now))
        (rows_of Tanks (rows_at text.now.text lines.now)) list.list) }
{
    let mut list = List::new(alloc);
    for place in 0..lines.len() {
        add_row(&mut list, text, lines, place, shapes, unit)?;
    }
    Ok(list)
}
