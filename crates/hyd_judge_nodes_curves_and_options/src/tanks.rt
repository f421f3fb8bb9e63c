//! Tanks among all rows.
#![tactic(auto)]

ghost use Rattle.std.specs.Prelude.{◌≡◌, ◌+ℤ◌, ◌-ℤ◌, ◌≤ℤ◌, List, None, pos};
ghost use lib.Signed.{le_z};
ghost use Rattle.hyd_spec_lines.specs.WordsOfLines.{text_of};
ghost use Rattle.hyd_spec_lines.specs.Lines.{LiesIn, Row};
ghost use Rattle.hyd_spec_lines.specs.declared.section.Section.TheVariants.{Curves};
ghost use Rattle.hyd_option_and_rule_lines.specs.FaultOrValue.{words_at};
ghost use Rattle.hyd_net.specs.NumberRanges.{least_level_difference};
ghost use Rattle.hyd_net.specs.declared.refusal_cause.Cause.TheVariants.{Range};
ghost use Rattle.hyd_spec_input.specs.Columns.{unless};
ghost use Rattle.hyd_spec_input.specs.Curves.{is_head};
ghost use Rattle.hyd_spec_input.specs.NodeAndLinkRows as row;
ghost use Rattle.hyd_spec_input.specs.SectionsAndTables.{rows_of};
ghost use Rattle.hyd_rows_and_tables.specs.QuantityRanges as range;
ghost use Rattle.hyd_rows_and_tables.specs.IdTables.{IsTable, IsEven};
ghost use Rattle.hyd_judge_nodes_curves_and_options.specs.NodeFaults as node;
ghost use Rattle.hyd_curves.specs.Points.{ArePoints};

use crate::judged_against::NodeTables;
use hyd_curves::{Points, tank_curve_fault};
use hyd_lex::{Line, Lines};
use hyd_net::Cause;
use hyd_net::ranges::GREATEST_HEAD;
use hyd_network_rows::{TankRow, read_tank};
use hyd_num::{FlowUnit, TEN_THOUSANDTHS_OF_METRE_IN_FOOT};
use hyd_rows_and_tables::{Table, head_fault, limit, unknown_curve};
use hyd_units::head_ticks;

const MOST_TANKS: usize = 32;

/// The least by which a maximum level exceeds a minimum level, in head ticks: 0.01 foot.
const LEAST_LEVEL_DIFFERENCE: i128 = 10_000_000 * TEN_THOUSANDTHS_OF_METRE_IN_FOOT as i128;

// Range where levels are closer than the least difference.
fn near_fault(ticks: i128) -> Option<Cause>
    ensures { result ≡ unless (le_z (pos least_level_difference) ticks) Range }
{
    if LEAST_LEVEL_DIFFERENCE <= ticks {
        return None;
    }
    Some(Cause::Range)
}

// Range where a head is above 10^17 head ticks up or down.
fn far_fault(ticks: i128) -> Option<Cause>
    ensures { result ≡ unless (is_head ticks) Range }
{
    if ticks < -GREATEST_HEAD || ticks > GREATEST_HEAD {
        return Some(Cause::Range);
    }
    None
}

// What is wrong with the distance of a tank's levels.
fn apart_fault(row: &TankRow<'_>, unit: FlowUnit) -> Option<Cause>
    ensures { result ≡ node.apart_fault unit (row.now.maximum.nano -ℤ row.now.minimum.nano) }
{
    let us = unit.is_us();
    near_fault(head_ticks(row.maximum, us) - head_ticks(row.minimum, us))
}

// What is wrong with the head at a tank's maximum level.
fn top_fault(row: &TankRow<'_>, unit: FlowUnit) -> Option<Cause>
    ensures { result ≡ range.head_fault unit (row.now.bottom.nano +ℤ row.now.maximum.nano) }
{
    let us = unit.is_us();
    far_fault(head_ticks(row.bottom, us) + head_ticks(row.maximum, us))
}

// What is wrong with the levels of a tank and its volume curve.
fn levels_fault(row: &TankRow<'_>, points: &Points, curves: &Table, unit: FlowUnit) -> Option<Cause>
    requires { row.now.minimum.nano ≤ℤ row.now.maximum.nano }
    ensures { (rows : List Row) → ArePoints rows curves.now.names points.now
        → result ≡ node.levels_fault rows unit row.now.bottom.nano row.now.minimum.nano row.now.maximum.nano
        (text_of row.now.curve) }
{
    if let Some(cause) = head_fault(row.bottom, unit) {
        return Some(cause);
    }
    if let Some(cause) = apart_fault(row, unit) {
        return Some(cause);
    }
    if let Some(cause) = top_fault(row, unit) {
        return Some(cause);
    }
    tank_curve_fault(points, curves, row.curve, row.minimum, row.maximum, unit)
}

/// What is wrong with a tank, where it is the first row with its ID or not: Limit 6 above 32 of them, DuplicateId,
/// UnknownName of its volume curve, Range of its bottom, of levels less than a hundredth of a foot apart, of the head
/// at its maximum level, and of a volume curve that can't be its own: of fewer than two points, out of range, that
/// doesn't rise, that doesn't cover its levels, or that has less than a litre between them.
pub(crate) fn tank_fault(
    text: &Lines<'_>,
    line: &Line,
    count: usize,
    new: bool,
    tables: &NodeTables<'_>,
) -> Option<Cause>
    requires lies { LiesIn text.now.text line.now }
    requires even { IsEven tables.now.curves.now }
    requires right { row.tank (words_at text.now line.now) ≡ None }
    ensures { (rows : List Row) → IsTable text.now.text (rows_of Curves rows) tables.now.curves.now
        → ArePoints rows tables.now.curves.now.names tables.now.points.now
        → result ≡ node.tank_fault rows tables.now.unit count new (words_at text.now line.now) }
{
    let Ok(row) = read_tank(text, line) else {
        return None;
    };
    if let Some(cause) = limit(MOST_TANKS, 6, count) {
        return Some(cause);
    }
    if !new {
        return Some(Cause::DuplicateId);
    }
    if let Some(cause) = unknown_curve(text, tables.curves, row.curve) {
        return Some(cause);
    }
    levels_fault(&row, tables.points, tables.curves, tables.unit)
}
