//! The laws of links with a curve by straight lines. Their knots are written in the room of a list, so that no memory
//! is taken.
#![tactic(auto)]

ghost use Rattle.std.specs.Prelude.{◌≡◌, ◌<◌, ◌≤◌, ◌+◌, ◌*◌, ◌++◌, [], ◌∷◌, ℕ, pos, neg_ℤ, ℤ, List, Bool, length};
ghost use Rattle.std.specs.Prelude.{map, reverse, Option};
ghost use Rattle.std.specs.List.{All};
ghost use Rattle.hyd_net.specs.Curves.{IsPumpCurve, IsLossCurve};
ghost use Rattle.hyd_net.specs.NumberRanges.{IsHead, IsFlow, Lies, shutoff_head_limit};
ghost use Rattle.hyd_net.specs.LinkStates.{IsSpeed};
ghost use Rattle.hyd_net.specs.declared.curves.HeadPoint.{HeadPoint};
ghost use Rattle.hyd_spec.specs.ProgramTypes.{CurvePump, Gpv};
ghost use Rattle.hyd_spec.specs.Law as exact;
ghost use Rattle.hyd_spec.specs.LinkLaw as spec;
ghost use Rattle.hyd_spec.specs.DemandsHeadsAndPumpLifts.{points_of, pump_knots, valve_knots};
ghost use Rattle.hyd_law.specs.KnotsOfStraightLines.{IsCurve, IsKnot, place_of, places};
ghost use Rattle.hyd_law.specs.LinkLaws.{IsSoundLink};
ghost use Rattle.hyd_period_network.specs.LawsInSettings.{HasRoom, Represents};

use crate::pumps::{SQUARED_BILLION, product, squared_times};
use hyd_law::{Bent, Held, Knot, LinkLaw};
use hyd_net::{HeadPoint, LinkState, List, Project};

// What a curve by straight lines passes at most, in flow ticks.
const GREATEST_CURVE_FLOW: i64 = 100_000_000_000_000_000;

const BILLION: i128 = 1_000_000_000;

/// The points of a curve by straight lines.
pub(crate) fn points_of(project: &Project, bend: u32) -> &[HeadPoint]
    requires { bend < length project.now.bends.list }
    ensures { result.now ≡ points_of project.now.bends.list bend }
{
    project.bends.as_slice()[bend as usize].as_slice()
}

/// The knots of a law by straight lines.
pub(crate) fn knots_of(law: LinkLaw) -> List<Knot>
    requires sound { IsSoundLink law }
    requires bent { HasRoom 0 law }
    ensures curve { IsCurve result.list }
    ensures room { (n : ℕ) → HasRoom n law → n ≤ length result.list + result.spare }
{
    let LinkLaw::Bent(held) = law else {
        unreachable!()
    };
    held.inner.knots
}

// Appends a knot where there is room for it.
fn add_knot(knots: &mut List<Knot>, knot: Knot)
    requires room { 0 < knots.old.spare }
    ensures added { knots.new.list ≡ knots.old.list ++ knot ∷ [] }
    ensures room { knots.old.spare ≤ knots.new.spare + 1 }
{
    if knots.push(knot).is_err() {
        unreachable!();
    }
}

// The knot of a pump's point at a speed.
fn pump_knot(point: HeadPoint, speed: i64) -> Knot
    requires head { Lies (pos 0) (pos shutoff_head_limit) point.head }
    requires flow { IsFlow point.flow }
    requires speed { IsSpeed speed }
    ensures knot { place_of result ∷ [] ≡ pump_knots (point ∷ []) speed }
    ensures range { IsKnot result }
{
    let head = -squared_times(speed, i128::from(point.head));
    let flow = product(i128::from(speed), i128::from(point.flow));
    Knot {
        head: (head / SQUARED_BILLION) as i64,
        flow: (flow / BILLION) as i64,
    }
}

/// Writes the knots of a pump's curve at a speed, in billionths, over those of the list.
pub(crate) fn write_pump_knots(points: &[HeadPoint], speed: i64, knots: &mut List<Knot>)
    requires curve { IsPumpCurve points.now }
    requires speed { IsSpeed speed }
    requires room { length points.now ≤ length knots.old.list + knots.old.spare }
    ensures curve { IsCurve knots.new.list }
    ensures knots { places knots.new.list ≡ pump_knots points.now speed }
    ensures room { length knots.old.list + knots.old.spare ≤ length knots.new.list + knots.new.spare }
{
    knots.clear();
    for point in points {
        add_knot(knots, pump_knot(*point, speed));
    }
}

// The knot of a valve's point in reverse.
fn reverse_knot(point: HeadPoint) -> Knot
    requires head { IsHead point.head }
    requires flow { IsFlow point.flow }
    ensures knot { place_of result ≡ record { place = neg_ℤ point.head; value = neg_ℤ point.flow } }
    ensures range { IsKnot result }
{
    Knot {
        head: -point.head,
        flow: -point.flow,
    }
}

// Appends a valve's knots in reverse: the negatives of its points, the last one first.
fn add_reverse_knots(points: &[HeadPoint], knots: &mut List<Knot>)
    requires heads { All (λ (p : HeadPoint). IsHead p.head) points.now }
    requires flows { All (λ (p : HeadPoint). IsFlow p.flow) points.now }
    requires room { length points.now ≤ knots.old.spare }
    requires ranges { All IsKnot knots.old.list }
    ensures added { places knots.new.list ≡ places knots.old.list ++ map (λ (p : HeadPoint). record {
      place = neg_ℤ p.head;
      value = neg_ℤ p.flow;
    }) (reverse points.now) }
    ensures ranges { All IsKnot knots.new.list }
    ensures room { knots.old.spare ≤ knots.new.spare + length points.now }
{
    for i in 0..points.len() {
        add_knot(knots, reverse_knot(points[points.len() - 1 - i]));
    }
}

// Appends a valve's knots: its points.
fn add_forward_knots(points: &[HeadPoint], knots: &mut List<Knot>)
    requires heads { All (λ (p : HeadPoint). IsHead p.head) points.now }
    requires flows { All (λ (p : HeadPoint). IsFlow p.flow) points.now }
    requires room { length points.now ≤ knots.old.spare }
    requires ranges { All IsKnot knots.old.list }
    ensures added { places knots.new.list ≡ places knots.old.list ++ map (λ (p : HeadPoint). record {
      place = p.head;
      value = p.flow;
    }) points.now }
    ensures ranges { All IsKnot knots.new.list }
    ensures room { knots.old.spare ≤ knots.new.spare + length points.now }
{
    for point in points {
        add_knot(
            knots,
            Knot {
                head: point.head,
                flow: point.flow,
            },
        );
    }
}

/// Writes the knots of a general purpose valve's curve over those of the list.
pub(crate) fn write_valve_knots(points: &[HeadPoint], knots: &mut List<Knot>)
    requires curve { IsLossCurve points.now }
    requires room { 2 * length points.now ≤ length knots.old.list + knots.old.spare }
    ensures curve { IsCurve knots.new.list }
    ensures knots { places knots.new.list ≡ valve_knots points.now }
    ensures room { length knots.old.list + knots.old.spare ≤ length knots.new.list + knots.new.spare }
{
    knots.clear();
    add_reverse_knots(points, knots);
    add_forward_knots(points, knots);
}

/// The law of straight lines that are held from 0 to 0: that of a closed link, which keeps the room of its knots.
pub(crate) fn closed_curve(knots: List<Knot>) -> LinkLaw
    requires { IsCurve knots.list }
    ensures represents { Represents result exact.Shut }
    ensures room { (n : ℕ) → n ≤ length knots.list + knots.spare → HasRoom n result }
{
    LinkLaw::Bent(Held {
        least: 0,
        most: 0,
        inner: Bent { knots },
    })
}

fn running_curve(points: &[HeadPoint], speed: i64, room: List<Knot>) -> LinkLaw
    requires curve { IsPumpCurve points.now }
    requires speed { IsSpeed speed }
    requires room { length points.now ≤ length room.list + room.spare }
    ensures represents { Represents result (exact.Held (pos 0) spec.greatest_curve_flow
        (exact.Bent (pump_knots points.now speed))) }
    ensures room { (n : ℕ) → n ≤ length room.list + room.spare → HasRoom n result }
{
    let mut knots = room;
    write_pump_knots(points, speed, &mut knots);
    LinkLaw::Bent(Held {
        least: 0,
        most: GREATEST_CURVE_FLOW,
        inner: Bent { knots },
    })
}

fn open_curve(points: &[HeadPoint], room: List<Knot>) -> LinkLaw
    requires curve { IsLossCurve points.now }
    requires room { 2 * length points.now ≤ length room.list + room.spare }
    ensures represents { Represents result (exact.Held (neg_ℤ spec.greatest_curve_flow) spec.greatest_curve_flow
        (exact.Bent (valve_knots points.now))) }
    ensures room { (n : ℕ) → n ≤ length room.list + room.spare → HasRoom n result }
{
    let mut knots = room;
    write_valve_knots(points, &mut knots);
    LinkLaw::Bent(Held {
        least: -GREATEST_CURVE_FLOW,
        most: GREATEST_CURVE_FLOW,
        inner: Bent { knots },
    })
}

/// The law of a pump with a curve by straight lines, in the room of its knots.
pub(crate) fn curve_pump_law(points: &[HeadPoint], state: &LinkState, knots: List<Knot>) -> LinkLaw
    requires curve { IsPumpCurve points.now }
    requires speed { (speed : ℤ) → state.now ≡ LinkState.Speed speed → IsSpeed speed }
    requires held { IsCurve knots.list }
    requires room { length points.now ≤ length knots.list + knots.spare }
    ensures represents { (us : Bool) (bend : ℕ) (pattern : Option ℕ) (project : Project)
        → points.now ≡ points_of project.bends.list bend
        → Represents result (spec.own_law us project.bends.list (CurvePump bend pattern) state.now) }
    ensures room { (n : ℕ) → n ≤ length knots.list + knots.spare → HasRoom n result }
{
    match state {
        LinkState::Open => closed_curve(knots),
        LinkState::Closed => closed_curve(knots),
        LinkState::Speed(speed) => running_curve(points, *speed, knots),
        LinkState::Throttle { .. } => closed_curve(knots),
        LinkState::Limit { .. } => closed_curve(knots),
    }
}

/// The law of a general purpose valve, in the room of its knots.
pub(crate) fn curve_valve_law(points: &[HeadPoint], state: &LinkState, knots: List<Knot>) -> LinkLaw
    requires curve { IsLossCurve points.now }
    requires held { IsCurve knots.list }
    requires room { 2 * length points.now ≤ length knots.list + knots.spare }
    ensures represents { (us : Bool) (bend : ℕ) (project : Project) → points.now ≡ points_of project.bends.list bend
        → Represents result (spec.own_law us project.bends.list (Gpv bend) state.now) }
    ensures room { (n : ℕ) → n ≤ length knots.list + knots.spare → HasRoom n result }
{
    match state {
        LinkState::Open => open_curve(points, knots),
        LinkState::Closed => closed_curve(knots),
        LinkState::Speed(_) => closed_curve(knots),
        LinkState::Throttle { .. } => closed_curve(knots),
        LinkState::Limit { .. } => closed_curve(knots),
    }
}
