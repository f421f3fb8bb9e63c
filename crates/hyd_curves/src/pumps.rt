//! What a pump asks of its curve.
#![tactic(auto)]

ghost use Rattle.std.specs.Prelude.{◌≡◌, ◌<◌, ◌≤◌, ◌*◌, ◌^◌, ◌&&◌, true, false, length, pos, ◌*ℤ◌, ◌-ℤ◌, ◌≤ℤ◌, ◌<ℤ◌};
ghost use Rattle.std.specs.Ordering.{int_eq};
ghost use lib.Signed.{le_z, lt_z};
ghost use Rattle.hyd_num.specs.FileQuantity as quantity;
ghost use Rattle.hyd_num.specs.FileQuantity.{is_us_unit};
ghost use Rattle.hyd_num.specs.Rational.{is_at_most, whole};
ghost use Rattle.hyd_net.specs.NumberRanges.{shutoff_head_limit};
ghost use Rattle.hyd_net.specs.Curves as curve_form;
ghost use Rattle.hyd_spec_input.specs.Curves as curve;
ghost use Rattle.hyd_spec_input.specs.Curves.{square, is_flow, is_slower, has_flow};
ghost use Rattle.hyd_curves.specs.CurveFaults as asked;
ghost use Rattle.hyd_curves.specs.PumpAndValveCurveTests.{IsPumpPoint, begins_and_ends};
ghost use Rattle.hyd_curves.specs.PointsAsKnots.{knot_of};
ghost use Rattle.hyd_curves.specs.Points.{points_in, point_in};
ghost use Rattle.hyd_curves.specs.EachWithNext.{goes_on, all_in_turn};

use crate::interpolation::on_line;
use crate::points::CurvePoint;
use crate::points_in_ticks::{Ticks, falls, head_point, is_within};
use hyd_net::Cause;
use hyd_net::ranges::{GREATEST_FLOW, GREATEST_SHUTOFF_HEAD};
use hyd_num::{FlowUnit, compare_squares};
use hyd_units::{flow_ticks, head_ticks};
use std::cmp::Ordering;

const GREATEST_DROP: i128 = 1_000_000_000_000_000_000_000;

// ---- one point or three

// Whether a q^2 is b p^2.
fn are_squares_alike(a: i128, q: i128, b: i128, p: i128) -> bool
    requires a_above { pos 0 <ℤ a }
    requires a_small { a ≤ℤ pos (2 * 10 ^ 21) }
    requires q_above { pos 0 <ℤ q }
    requires q_small { q ≤ℤ pos (2 * 10 ^ 21) }
    requires b_above { pos 0 <ℤ b }
    requires b_small { b ≤ℤ pos (2 * 10 ^ 21) }
    requires p_above { pos 0 <ℤ p }
    requires p_small { p ≤ℤ pos (2 * 10 ^ 21) }
    ensures { result ≡ int_eq (a *ℤ square q) (b *ℤ square p) }
{
    match compare_squares(
        a.unsigned_abs(),
        q.unsigned_abs(),
        b.unsigned_abs(),
        p.unsigned_abs(),
    ) {
        Ordering::Equal => true,
        _ => false,
    }
}

// Whether flows rise from 0 and heads fall.
fn fall_from_0(a: CurvePoint, b: CurvePoint, c: CurvePoint) -> bool
    ensures { result ≡ ((int_eq a.x.nano (pos 0) && (lt_z (pos 0) b.x.nano && lt_z b.x.nano c.x.nano))
        && (lt_z b.y.nano a.y.nano && lt_z c.y.nano b.y.nano)) }
{
    if a.x.nano != 0 {
        return false;
    }
    if b.x.nano <= 0 {
        return false;
    }
    if c.x.nano <= b.x.nano {
        return false;
    }
    if b.y.nano >= a.y.nano {
        return false;
    }
    c.y.nano < b.y.nano
}

// Whether three points lie on a parabola that falls from flow 0.
fn is_parabola(a: CurvePoint, b: CurvePoint, c: CurvePoint) -> bool
    ensures { result ≡ curve.is_parabola (point_in a) (point_in b) (point_in c) }
{
    if !fall_from_0(a, b, c) {
        return false;
    }
    are_squares_alike(a.y.nano - c.y.nano, b.x.nano, a.y.nano - b.y.nano, c.x.nano)
}

// Whether a pump can have a curve of so many points, ranges aside.
fn is_pump_curve(points: &[CurvePoint]) -> bool
    ensures { result ≡ curve.is_pump_curve (points_in points.now) }
{
    if points.len() >= 4 {
        return true;
    }
    match points {
        [a] => a.x.nano > 0 && a.y.nano > 0,
        [a, b, c] => is_parabola(*a, *b, *c),
        _ => false,
    }
}

// Whether a flow is in range after the cut.
fn is_flow_in_range(point: CurvePoint, unit: FlowUnit) -> bool
    ensures { result ≡ is_flow unit point.x.nano }
{
    is_within(flow_ticks(point.x, unit), GREATEST_FLOW)
}

// Whether all flows are in range.
fn are_flows(points: &[CurvePoint], unit: FlowUnit) -> bool
    ensures { result ≡ curve.are_flows unit (points_in points.now) }
{
    let mut left = points;
    while let Some((point, rest)) = left.split_first() {
        if !is_flow_in_range(*point, unit) {
            return false;
        }
        left = rest;
    }
    true
}

// Whether the first head of three points is in range, and its drop to the second.
fn is_drop_in_range(a: CurvePoint, b: CurvePoint, us: bool) -> bool
    ensures { result ≡ (curve.is_within shutoff_head_limit (quantity.head_ticks us a.y.nano)
        && le_z (a.y.nano -ℤ b.y.nano) (pos (10 ^ 21))) }
{
    if !is_within(head_ticks(a.y, us), GREATEST_SHUTOFF_HEAD) {
        return false;
    }
    a.y.nano - b.y.nano <= GREATEST_DROP
}

// Whether the head at no flow is in range, and the drop of three points.
fn has_shutoff(points: &[CurvePoint], us: bool) -> bool
    ensures { result ≡ curve.has_shutoff us (points_in points.now) }
{
    match points {
        [a] => 4 * head_ticks(a.y, us) <= 3 * GREATEST_SHUTOFF_HEAD,
        [a, b, _] => is_drop_in_range(*a, *b, us),
        _ => true,
    }
}

// ---- four points and more

// Whether a point's flow is in range, and to the next point the flow rises and the head falls.
fn passes(point: CurvePoint, rest: &[CurvePoint], unit: FlowUnit) -> bool
    ensures { result ≡ (has_flow (curve.head_point unit (is_us_unit unit) (point_in point))
        && goes_on is_slower (curve.head_point unit (is_us_unit unit) (point_in point))
        (curve.head_points unit (is_us_unit unit) (points_in rest.now))) }
{
    let here = head_point(point, unit);
    if !is_within(here.place, GREATEST_FLOW) {
        return false;
    }
    let Some((next, _)) = rest.split_first() else {
        return true;
    };
    falls(here, head_point(*next, unit))
}

// Whether all flows are in range and rise, and heads fall.
fn fall_in_turn(points: &[CurvePoint], unit: FlowUnit) -> bool
    ensures { result ≡ all_in_turn has_flow is_slower
        (curve.head_points unit (is_us_unit unit) (points_in points.now)) }
{
    let mut left = points;
    while let Some((point, rest)) = left.split_first() {
        if !passes(*point, rest, unit) {
            return false;
        }
        left = rest;
    }
    true
}

// Whether the line of two points begins no higher than the greatest head at no flow.
fn begins_low(first: Ticks, second: Ticks) -> bool
    requires first { IsPumpPoint first }
    requires second { IsPumpPoint second }
    requires rises { first.place <ℤ second.place }
    requires falls { second.value <ℤ first.value }
    ensures { result ≡ is_at_most (curve_form.on_line 1 (knot_of first) (knot_of second) (pos 0))
        (whole (pos shutoff_head_limit)) }
{
    if first.value > GREATEST_SHUTOFF_HEAD {
        return false;
    }
    on_line(first, second, 0) <= GREATEST_SHUTOFF_HEAD * (second.place - first.place)
}

// Whether a first point has a flow and a last point a head of at least 0.
fn are_ends(first: Ticks, last: Ticks) -> bool
    ensures { result ≡ (le_z (pos 0) first.place && le_z (pos 0) last.value) }
{
    if first.place < 0 {
        return false;
    }
    last.value >= 0
}

// Whether the first flow and the last head are at least 0.
fn is_forward(points: &[CurvePoint], unit: FlowUnit) -> bool
    ensures { result ≡ begins_and_ends (curve.head_points unit (is_us_unit unit) (points_in points.now)) }
{
    let Some((first, _)) = points.split_first() else {
        return false;
    };
    let Some((last, _)) = points.split_last() else {
        return false;
    };
    are_ends(head_point(*first, unit), head_point(*last, unit))
}

// Whether points are a pump's curve by straight lines.
fn is_bend(points: &[CurvePoint], unit: FlowUnit) -> bool
    requires { 4 ≤ length points.now }
    ensures { result ≡ curve.is_pump_bend (curve.head_points unit (is_us_unit unit) (points_in points.now)) }
{
    if !fall_in_turn(points, unit) {
        return false;
    }
    if !is_forward(points, unit) {
        return false;
    }
    begins_low(head_point(points[0], unit), head_point(points[1], unit))
}

// Whether the first flow is at least 0, in the file's number.
fn begins_forward(points: &[CurvePoint]) -> bool
    ensures { result ≡ curve.begins_forward (points_in points.now) }
{
    let Some((first, _)) = points.split_first() else {
        return false;
    };
    first.x.nano >= 0
}

// Whether points that a pump can have are in range.
fn is_in_range(points: &[CurvePoint], unit: FlowUnit) -> bool
    ensures { result ≡ asked.is_pump_range unit (points_in points.now) }
{
    if points.len() >= 4 {
        return begins_forward(points) && is_bend(points, unit);
    }
    if !are_flows(points, unit) {
        return false;
    }
    has_shutoff(points, unit.is_us())
}

/// What is wrong with points as a pump's curve: Unsupported 4 where a pump can't have so many points or such ones,
/// Range where flows or heads are out of range.
pub(crate) fn pump_fault(points: &[CurvePoint], unit: FlowUnit) -> Option<Cause>
    ensures { result ≡ asked.pump_fault unit (points_in points.now) }
{
    if !is_pump_curve(points) {
        return Some(Cause::Unsupported(4));
    }
    if !is_in_range(points, unit) {
        return Some(Cause::Range);
    }
    None
}
