//! What a tank asks of its volume curve.
#![tactic(auto)]

ghost use Rattle.std.specs.Prelude.{◌≡◌, true, ◌&&◌, List, pos, ◌-ℤ◌, ◌≤ℤ◌};
ghost use lib.Signed.{le_z};
ghost use Rattle.hyd_spec_lines.specs.WordsOfLines.{text_of};
ghost use Rattle.hyd_spec_lines.specs.Lines.{Row};
ghost use Rattle.hyd_spec_input.specs.Curves as curve;
ghost use Rattle.hyd_spec_input.specs.Curves.{is_fuller, covers};
ghost use Rattle.hyd_net.specs.NumberRanges.{volume_limit, least_volume_difference};
ghost use Rattle.hyd_net.specs.Curves.{volume_at};
ghost use Rattle.hyd_curves.specs.CurveFaults as asked;
ghost use Rattle.hyd_curves.specs.Points.{ArePoints, points_in, point_in};
ghost use Rattle.hyd_curves.specs.EachWithNext.{goes_on, all_in_turn};
ghost use Rattle.hyd_curves.specs.TankCurveTests.{level_passes, begins_and_ends, IsRight};

use crate::points::{CurvePoint, Points};
use crate::points_in_ticks::{Ticks, is_within, rises, volume_point};
use crate::volume_at_level::volume_up_to;
use hyd_net::Cause;
use hyd_net::ranges::{GREATEST_HEAD, GREATEST_VOLUME};
use hyd_num::{Decimal, FlowUnit};
use hyd_rows_and_tables::Table;
use hyd_units::head_ticks;

/// The least that a tank holds between its minimum and its maximum level, in volume ticks: a litre.
const LEAST_VOLUME_DIFFERENCE: i128 = 1_000_000;

// Whether a point's level is in range, and level and volume rise to the next point.
fn passes(point: CurvePoint, rest: &[CurvePoint], us: bool) -> bool
    ensures { result ≡ (level_passes (curve.volume_point us (point_in point))
        && goes_on is_fuller (curve.volume_point us (point_in point)) (curve.volume_points us (points_in rest.now))) }
{
    let here = volume_point(point, us);
    if !is_within(here.place, GREATEST_HEAD) {
        return false;
    }
    let Some((next, _)) = rest.split_first() else {
        return true;
    };
    rises(here, volume_point(*next, us))
}

// Whether all levels are in range, and levels and volumes rise.
fn rise_in_turn(points: &[CurvePoint], us: bool) -> bool
    ensures { result ≡ all_in_turn level_passes is_fuller (curve.volume_points us (points_in points.now)) }
{
    let mut left = points;
    while let Some((point, rest)) = left.split_first() {
        if !passes(*point, rest, us) {
            return false;
        }
        left = rest;
    }
    true
}

// Whether a first and a last point have volumes from 0 to the greatest, and cover these levels.
fn are_ends(first: Ticks, last: Ticks, minimum: i128, maximum: i128) -> bool
    ensures { result ≡ ((le_z (pos 0) first.value && le_z last.value (pos volume_limit))
        && (le_z first.place minimum && le_z maximum last.place)) }
{
    if first.value < 0 {
        return false;
    }
    if last.value > GREATEST_VOLUME {
        return false;
    }
    if first.place > minimum {
        return false;
    }
    maximum <= last.place
}

// Whether volumes are from 0 to the greatest, and the curve covers these levels.
fn spans(points: &[CurvePoint], minimum: i128, maximum: i128, us: bool) -> bool
    ensures { result ≡ (begins_and_ends (curve.volume_points us (points_in points.now))
        && covers minimum maximum (curve.volume_points us (points_in points.now))) }
{
    let Some((first, _)) = points.split_first() else {
        return false;
    };
    let Some((last, _)) = points.split_last() else {
        return false;
    };
    are_ends(
        volume_point(*first, us),
        volume_point(*last, us),
        minimum,
        maximum,
    )
}

// Whether a curve that is right and covers these levels has room between them.
fn has_room(points: &[CurvePoint], minimum: i128, maximum: i128, us: bool) -> bool
    requires right { IsRight (curve.volume_points us (points_in points.now)) }
    requires covered { covers minimum maximum (curve.volume_points us (points_in points.now)) ≡ true }
    requires ordered { minimum ≤ℤ maximum }
    ensures { result ≡ le_z (pos least_volume_difference)
        (volume_at (curve.volume_points us (points_in points.now)) maximum
        -ℤ volume_at (curve.volume_points us (points_in points.now)) minimum) }
{
    volume_up_to(points, maximum, us) - volume_up_to(points, minimum, us) >= LEAST_VOLUME_DIFFERENCE
}

// Whether points are a volume curve that covers these levels.
fn is_shape(points: &[CurvePoint], minimum: i128, maximum: i128, us: bool) -> bool
    requires { minimum ≤ℤ maximum }
    ensures { result ≡ curve.is_volume_curve minimum maximum (curve.volume_points us (points_in points.now)) }
{
    if points.len() < 2 {
        return false;
    }
    if !rise_in_turn(points, us) {
        return false;
    }
    if !spans(points, minimum, maximum, us) {
        return false;
    }
    has_room(points, minimum, maximum, us)
}

/// Range where the volume curve that a tank names can't be the tank's, with levels from `minimum` to `maximum` in the
/// file's units: it has fewer than two points, a level above 10^17 head ticks up or down, a level or volume that isn't
/// above the one before, a volume below 0 or above 10^9 m3, doesn't cover the tank's levels, or has less than a litre
/// between them. A name that no curve has is one of no points.
pub fn tank_curve_fault(
    points: &Points,
    curves: &Table,
    name: Option<&[u8]>,
    minimum: Decimal,
    maximum: Decimal,
    unit: FlowUnit,
) -> Option<Cause>
    requires { minimum.nano ≤ℤ maximum.nano }
    ensures { (rows : List Row) → ArePoints rows curves.now.names points.now
        → result ≡ asked.tank_curve_fault rows unit minimum.nano maximum.nano (text_of name.entry) }
{
    let name = name?;
    let us = unit.is_us();
    let points = points.named(curves, name);
    if is_shape(points, head_ticks(minimum, us), head_ticks(maximum, us), us) {
        return None;
    }
    Some(Cause::Range)
}
