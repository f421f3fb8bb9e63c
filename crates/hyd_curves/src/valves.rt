//! What a general purpose valve asks of its curve.
#![tactic(auto)]

ghost use Rattle.std.specs.Prelude.{◌≡◌, ◌&&◌};
ghost use Rattle.hyd_num.specs.FileQuantity.{is_us_unit};
ghost use Rattle.hyd_spec_input.specs.Curves as curve;
ghost use Rattle.hyd_spec_input.specs.Curves.{is_faster};
ghost use Rattle.hyd_curves.specs.CurveFaults as asked;
ghost use Rattle.hyd_curves.specs.PumpAndValveCurveTests.{loss_passes};
ghost use Rattle.hyd_curves.specs.Points.{points_in, point_in};
ghost use Rattle.hyd_curves.specs.EachWithNext.{goes_on, all_in_turn};

use crate::points::CurvePoint;
use crate::points_in_ticks::{head_point, is_within, rises};
use hyd_net::Cause;
use hyd_net::ranges::{GREATEST_FLOW, GREATEST_HEAD};
use hyd_num::FlowUnit;

// Whether a point's flow and loss are in range, and both rise to the next point.
fn passes(point: CurvePoint, rest: &[CurvePoint], unit: FlowUnit) -> bool
    ensures { result ≡ (loss_passes (curve.head_point unit (is_us_unit unit) (point_in point))
        && goes_on is_faster (curve.head_point unit (is_us_unit unit) (point_in point))
        (curve.head_points unit (is_us_unit unit) (points_in rest.now))) }
{
    let here = head_point(point, unit);
    if !is_within(here.place, GREATEST_FLOW) {
        return false;
    }
    if !is_within(here.value, GREATEST_HEAD) {
        return false;
    }
    let Some((next, _)) = rest.split_first() else {
        return true;
    };
    rises(here, head_point(*next, unit))
}

// Whether all flows and losses are in range and rise.
fn rise_in_turn(points: &[CurvePoint], unit: FlowUnit) -> bool
    ensures { result ≡ all_in_turn loss_passes is_faster
        (curve.head_points unit (is_us_unit unit) (points_in points.now)) }
{
    let mut left = points;
    while let Some((point, rest)) = left.split_first() {
        if !passes(*point, rest, unit) {
            return false;
        }
        left = rest;
    }
    true
}

// Whether the first point has no flow and no loss.
fn begins_at_0(points: &[CurvePoint]) -> bool
    ensures { result ≡ curve.begins_at_0 (points_in points.now) }
{
    let Some((first, _)) = points.split_first() else {
        return false;
    };
    first.x.nano == 0 && first.y.nano == 0
}

/// Range where points aren't a general purpose valve's curve: two at least, from no flow and no loss, both in range and
/// rising.
pub(crate) fn valve_fault(points: &[CurvePoint], unit: FlowUnit) -> Option<Cause>
    ensures { result ≡ asked.valve_fault unit (points_in points.now) }
{
    if points.len() < 2 {
        return Some(Cause::Range);
    }
    if !begins_at_0(points) {
        return Some(Cause::Range);
    }
    if !rise_in_turn(points, unit) {
        return Some(Cause::Range);
    }
    None
}
