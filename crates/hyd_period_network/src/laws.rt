//! The laws of links in their settings.
#![tactic(auto)]

ghost use Rattle.std.specs.Prelude.{◌≡◌, ℕ, ℤ, Bool, true, false, not, List, length, if◌then◌else◌};
ghost use Rattle.std.specs.Bool.{OnTrue, OnFalse};
ghost use Rattle.hyd_law.specs.ComposedLaws.{directed};
ghost use Rattle.hyd_law.specs.LinkLaws.{IsSoundLink};
ghost use Rattle.hyd_net.specs.ListView.{ListView};
ghost use Rattle.hyd_net.specs.RoundedFileNumbers.{IsValveMade, IsLossMade};
ghost use Rattle.hyd_net.specs.LinkStates.{IsSpeed};
ghost use Rattle.hyd_net.specs.declared.curves.HeadPoint.{HeadPoint};
ghost use Rattle.hyd_spec.specs.ProgramTypes.{Open, Closed, Speed, Throttle, Limit};
ghost use Rattle.hyd_spec.specs.Law.{Law};
ghost use Rattle.hyd_spec.specs.Law as exact;
ghost use Rattle.hyd_spec.specs.LinkLaw as spec;
ghost use Rattle.hyd_spec.specs.DemandsHeadsAndPumpLifts.{is_us};
ghost use Rattle.hyd_period_network.specs.BothLaws.{own_of, law_of};
ghost use Rattle.hyd_period_network.specs.ExactLaw.{one_way_law};
ghost use Rattle.hyd_period_network.specs.LawsInSettings.{Stands, Represents, HasRoom, HasRoomFor, HasNoCurve};
ghost use Rattle.hyd_period_network.specs.LawsInSettings.{HasShutoff, IsLawMade};
ghost use Rattle.hyd_period_network.specs.LawsInSettings.{CanStand, AreLawsOf, AreSoundBoth, IsShutBetween, restricted};

use crate::both_laws::BothLaws;
use crate::curves::{closed_curve, curve_pump_law, curve_valve_law, knots_of, points_of};
use crate::junctions_ends_and_settings::Setting;
use crate::pumps::pump_law;
use hyd_law::{Bent, Capped, Held, Linear, LinkLaw, OneWay, Power, Quad, Shut};
use hyd_net::{LinkKind, LinkState, OpenValve, PipeLoss, Project};
use hyd_num::{Capacity, Decimal, Origin, Scaled};
use std::mem;

fn pipe_law(loss: &PipeLoss) -> LinkLaw
    requires { IsLossMade loss.now }
    ensures { Represents result (spec.pipe_law loss.now) }
{
    match loss {
        PipeLoss::Manning(cap) => LinkLaw::Quad(Quad { cap: *cap }),
        PipeLoss::HazenWilliams(cap) => LinkLaw::Power(Power { cap: *cap }),
    }
}

// The law of a pipe with a check valve.
fn check_law(loss: &PipeLoss) -> LinkLaw
    requires { IsLossMade loss.now }
    ensures { Represents result (exact.ForwardOnly (spec.pipe_law loss.now)) }
{
    match loss {
        PipeLoss::Manning(cap) => LinkLaw::QuadOneWay(OneWay {
            forward: true,
            inner: Quad { cap: *cap },
        }),
        PipeLoss::HazenWilliams(cap) => LinkLaw::PowerOneWay(OneWay {
            forward: true,
            inner: Power { cap: *cap },
        }),
    }
}

fn valve_law(valve: &OpenValve) -> LinkLaw
    requires { IsValveMade valve.now }
    ensures { Represents result (spec.valve_law valve.now) }
{
    match valve {
        OpenValve::Quadratic(cap) => LinkLaw::Quad(Quad { cap: *cap }),
        OpenValve::Linear => LinkLaw::Linear(Linear),
    }
}

fn limited(ticks: i64, valve: &OpenValve) -> LinkLaw
    requires { IsValveMade valve.now }
    ensures { Represents result (exact.Capped ticks (spec.valve_law valve.now)) }
{
    match valve {
        OpenValve::Quadratic(cap) => LinkLaw::Limit(Capped {
            cap: ticks,
            inner: Quad { cap: *cap },
        }),
        OpenValve::Linear => LinkLaw::LinearLimit(Capped {
            cap: ticks,
            inner: Linear,
        }),
    }
}

// The law of a link that is fully open.
fn open_law(kind: &LinkKind) -> LinkLaw
    requires no_curve { HasNoCurve kind.now }
    requires made { IsLawMade kind.now }
    ensures { (us : Bool) (bends : List (ListView HeadPoint))
        → Represents result (spec.own_law us bends kind.now Open) }
{
    match kind {
        LinkKind::Pipe(loss) => pipe_law(loss),
        LinkKind::CheckPipe(loss) => check_law(loss),
        LinkKind::Pump { .. } => LinkLaw::Shut(Shut),
        LinkKind::CurvePump { .. } => LinkLaw::Shut(Shut),
        LinkKind::Tcv { valve } => valve_law(valve),
        LinkKind::Fcv { valve } => valve_law(valve),
        LinkKind::Gpv { .. } => LinkLaw::Shut(Shut),
    }
}

// The law of a link at a speed.
fn running_law(us: bool, kind: &LinkKind, speed: i64) -> LinkLaw
    requires no_curve { HasNoCurve kind.now }
    requires made { IsLawMade kind.now }
    requires head { HasShutoff us kind.now }
    requires speed { IsSpeed speed }
    ensures { (bends : List (ListView HeadPoint)) → Represents result (spec.own_law us bends kind.now (Speed speed)) }
{
    match kind {
        LinkKind::Pipe(_) => LinkLaw::Shut(Shut),
        LinkKind::CheckPipe(_) => LinkLaw::Shut(Shut),
        LinkKind::Pump { cap, head, .. } => pump_law(us, cap, head, speed),
        LinkKind::CurvePump { .. } => LinkLaw::Shut(Shut),
        LinkKind::Tcv { .. } => LinkLaw::Shut(Shut),
        LinkKind::Fcv { .. } => LinkLaw::Shut(Shut),
        LinkKind::Gpv { .. } => LinkLaw::Shut(Shut),
    }
}

// The law of a link with the law of a throttled valve.
fn throttled_law(kind: &LinkKind, law: &OpenValve) -> LinkLaw
    requires { IsValveMade law.now }
    ensures { (us : Bool) (bends : List (ListView HeadPoint)) (nano : ℤ)
        → Represents result (spec.own_law us bends kind.now (Throttle nano law.now)) }
{
    match kind {
        LinkKind::Pipe(_) => LinkLaw::Shut(Shut),
        LinkKind::CheckPipe(_) => LinkLaw::Shut(Shut),
        LinkKind::Pump { .. } => LinkLaw::Shut(Shut),
        LinkKind::CurvePump { .. } => LinkLaw::Shut(Shut),
        LinkKind::Tcv { .. } => valve_law(law),
        LinkKind::Fcv { .. } => LinkLaw::Shut(Shut),
        LinkKind::Gpv { .. } => LinkLaw::Shut(Shut),
    }
}

// The law of a link with a greatest flow.
fn limited_law(kind: &LinkKind, ticks: i64) -> LinkLaw
    requires { IsLawMade kind.now }
    ensures { (us : Bool) (bends : List (ListView HeadPoint)) (nano : ℤ)
        → Represents result (spec.own_law us bends kind.now (Limit nano ticks)) }
{
    match kind {
        LinkKind::Pipe(_) => LinkLaw::Shut(Shut),
        LinkKind::CheckPipe(_) => LinkLaw::Shut(Shut),
        LinkKind::Pump { .. } => LinkLaw::Shut(Shut),
        LinkKind::CurvePump { .. } => LinkLaw::Shut(Shut),
        LinkKind::Tcv { .. } => LinkLaw::Shut(Shut),
        LinkKind::Fcv { valve } => limited(ticks, valve),
        LinkKind::Gpv { .. } => LinkLaw::Shut(Shut),
    }
}

// The law of a link without a curve by straight lines in a state.
fn law_without_curve(project: &Project, kind: &LinkKind, state: &LinkState) -> LinkLaw
    requires no_curve { HasNoCurve kind.now }
    requires can { CanStand project.now kind.now state.now }
    ensures { Represents result (spec.own_law (is_us project.now) project.now.bends.list kind.now state.now) }
{
    match state {
        LinkState::Open => open_law(kind),
        LinkState::Closed => LinkLaw::Shut(Shut),
        LinkState::Speed(speed) => running_law(project.options.unit.is_us(), kind, *speed),
        LinkState::Throttle { nano: _, law } => throttled_law(kind, law),
        LinkState::Limit { nano: _, ticks } => limited_law(kind, *ticks),
    }
}

// The law of a link in a state, without regard to tanks. Straight lines are written in the room of the law that was
// held.
fn own_law(project: &Project, kind: &LinkKind, state: &LinkState, held: LinkLaw) -> LinkLaw
    requires can { CanStand project.now kind.now state.now }
    requires sound { IsSoundLink held }
    requires room { HasRoomFor project.now.bends.list kind.now held }
    ensures represents { Represents result (spec.own_law (is_us project.now) project.now.bends.list kind.now
        state.now) }
    ensures room { HasRoomFor project.now.bends.list kind.now result }
{
    match kind {
        LinkKind::Pipe(_) => law_without_curve(project, kind, state),
        LinkKind::CheckPipe(_) => law_without_curve(project, kind, state),
        LinkKind::Pump { .. } => law_without_curve(project, kind, state),
        LinkKind::CurvePump { bend, pattern: _ } => curve_pump_law(
            points_of(project, *bend),
            state,
            knots_of(held),
        ),
        LinkKind::Tcv { .. } => law_without_curve(project, kind, state),
        LinkKind::Fcv { .. } => law_without_curve(project, kind, state),
        LinkKind::Gpv { bend } => curve_valve_law(points_of(project, *bend), state, knots_of(held)),
    }
}

fn is_same_way(a: bool, b: bool) -> bool
    ensures same { OnTrue result (a ≡ b) }
    ensures opposite { OnFalse result (a ≡ not b) }
{
    a == b
}

fn one_way_held(held: Held<Bent>, forward: bool) -> Held<Bent>
    ensures least { result.least ≡ directed forward held.least }
    ensures most { result.most ≡ directed forward held.most }
    ensures inner { result.inner ≡ held.inner }
{
    if forward {
        return Held {
            least: held.least.max(0),
            most: held.most.max(0),
            inner: held.inner,
        };
    }
    Held {
        least: held.least.min(0),
        most: held.most.min(0),
        inner: held.inner,
    }
}

// The law that passes one way only.
fn one_way(law: LinkLaw, forward: bool) -> LinkLaw
    ensures stands { (of : Law) → Stands law of → Stands result (one_way_law forward of) }
    ensures room { (n : ℕ) → HasRoom n law → HasRoom n result }
{
    match law {
        LinkLaw::Shut(law) => LinkLaw::Shut(law),
        LinkLaw::Quad(inner) => LinkLaw::QuadOneWay(OneWay { forward, inner }),
        LinkLaw::Linear(inner) => LinkLaw::LinearOneWay(OneWay { forward, inner }),
        LinkLaw::Limit(inner) => LinkLaw::LimitOneWay(OneWay { forward, inner }),
        LinkLaw::LinearLimit(inner) => LinkLaw::LinearLimitOneWay(OneWay { forward, inner }),
        LinkLaw::Power(inner) => LinkLaw::PowerOneWay(OneWay { forward, inner }),
        LinkLaw::QuadOneWay(law) => if is_same_way(law.forward, forward) {
            LinkLaw::QuadOneWay(law)
        } else {
            LinkLaw::Shut(Shut)
        },
        LinkLaw::LinearOneWay(law) => if is_same_way(law.forward, forward) {
            LinkLaw::LinearOneWay(law)
        } else {
            LinkLaw::Shut(Shut)
        },
        LinkLaw::Pump(law) => if is_same_way(law.forward, forward) {
            LinkLaw::Pump(law)
        } else {
            LinkLaw::Shut(Shut)
        },
        LinkLaw::LimitOneWay(law) => if is_same_way(law.forward, forward) {
            LinkLaw::LimitOneWay(law)
        } else {
            LinkLaw::Shut(Shut)
        },
        LinkLaw::LinearLimitOneWay(law) => if is_same_way(law.forward, forward) {
            LinkLaw::LinearLimitOneWay(law)
        } else {
            LinkLaw::Shut(Shut)
        },
        LinkLaw::PowerOneWay(law) => if is_same_way(law.forward, forward) {
            LinkLaw::PowerOneWay(law)
        } else {
            LinkLaw::Shut(Shut)
        },
        LinkLaw::Bent(held) => LinkLaw::Bent(one_way_held(held, forward)),
    }
}

// The law that passes nothing forward, where that is forbidden.
fn without_forward(law: LinkLaw, forbidden: bool) -> LinkLaw
    ensures stands { (of : Law) → Stands law of → Stands result (if forbidden then exact.ReverseOnly of else of) }
    ensures room { (n : ℕ) → HasRoom n law → HasRoom n result }
{
    if forbidden {
        return one_way(law, false);
    }
    law
}

// The law that passes nothing in reverse, where that is forbidden.
fn without_reverse(law: LinkLaw, forbidden: bool) -> LinkLaw
    ensures stands { (of : Law) → Stands law of → Stands result (if forbidden then exact.ForwardOnly of else of) }
    ensures room { (n : ℕ) → HasRoom n law → HasRoom n result }
{
    if forbidden {
        return one_way(law, true);
    }
    law
}

// The law of a link that passes nothing either way, in the room of the law that was held.
fn shut_law(law: LinkLaw) -> LinkLaw
    requires { IsSoundLink law }
    ensures represents { Represents result exact.Shut }
    ensures room { (n : ℕ) → HasRoom n law → HasRoom n result }
{
    match law {
        LinkLaw::Shut(_) => LinkLaw::Shut(Shut),
        LinkLaw::Quad(_) => LinkLaw::Shut(Shut),
        LinkLaw::Linear(_) => LinkLaw::Shut(Shut),
        LinkLaw::Limit(_) => LinkLaw::Shut(Shut),
        LinkLaw::LinearLimit(_) => LinkLaw::Shut(Shut),
        LinkLaw::QuadOneWay(_) => LinkLaw::Shut(Shut),
        LinkLaw::LinearOneWay(_) => LinkLaw::Shut(Shut),
        LinkLaw::Pump(_) => LinkLaw::Shut(Shut),
        LinkLaw::LimitOneWay(_) => LinkLaw::Shut(Shut),
        LinkLaw::LinearLimitOneWay(_) => LinkLaw::Shut(Shut),
        LinkLaw::Power(_) => LinkLaw::Shut(Shut),
        LinkLaw::PowerOneWay(_) => LinkLaw::Shut(Shut),
        LinkLaw::Bent(held) => closed_curve(held.inner.knots),
    }
}

// The law of a link between tanks that forbid ways. Where both ways are forbidden, the link is shut.
fn restricted(law: LinkLaw, setting: &Setting) -> LinkLaw
    requires { IsSoundLink law }
    ensures stands { (of : Law) → Stands law of → Stands result
        (restricted setting.now.no_forward setting.now.no_reverse of) }
    ensures shut { IsShutBetween setting.now result }
    ensures room { (n : ℕ) → HasRoom n law → HasRoom n result }
{
    if setting.no_forward && setting.no_reverse {
        return shut_law(law);
    }
    without_reverse(without_forward(law, setting.no_forward), setting.no_reverse)
}

fn is_same_number(a: Decimal, b: Decimal) -> bool
    ensures { result ≡ true → a ≡ b }
{
    a == b
}

fn is_same_bound(a: Scaled, b: Scaled) -> bool
    ensures { result ≡ true → a ≡ b }
{
    a == b
}

// Whether two capacities are known to be made of the same numbers. Only those of valves are compared: links are
// throttled by no others.
fn is_same_origin(a: &Origin, b: &Origin) -> bool
    ensures { result ≡ true → a.now ≡ b.now }
{
    match (a, b) {
        (
            Origin::Valve { diameter, k, us },
            Origin::Valve {
                diameter: across,
                k: loss,
                us: feet,
            },
        ) => { is_same_number(*diameter, *across) && is_same_number(*k, *loss) && *us == *feet }
        _ => false,
    }
}

fn is_same_capacity(a: &Capacity, b: &Capacity) -> bool
    ensures { result ≡ true → a.now ≡ b.now }
{
    is_same_bound(a.lo, b.lo) && is_same_bound(a.hi, b.hi) && is_same_origin(&a.origin, &b.origin)
}

fn is_same_valve(a: &OpenValve, b: &OpenValve) -> bool
    ensures { result ≡ true → a.now ≡ b.now }
{
    match (a, b) {
        (OpenValve::Quadratic(x), OpenValve::Quadratic(y)) => is_same_capacity(x, y),
        (OpenValve::Linear, OpenValve::Linear) => true,
        _ => false,
    }
}

// Whether two states are known to be the same.
fn is_same_state(a: &LinkState, b: &LinkState) -> bool
    ensures { result ≡ true → a.now ≡ b.now }
{
    match (a, b) {
        (LinkState::Open, LinkState::Open) => true,
        (LinkState::Closed, LinkState::Closed) => true,
        (LinkState::Speed(x), LinkState::Speed(y)) => *x == *y,
        (
            LinkState::Throttle { nano, law },
            LinkState::Throttle {
                nano: other,
                law: valve,
            },
        ) => { *nano == *other && is_same_valve(law, valve) }
        (
            LinkState::Limit { nano, ticks },
            LinkState::Limit {
                nano: other,
                ticks: most,
            },
        ) => { *nano == *other && *ticks == *most }
        _ => false,
    }
}

fn is_same(a: &Setting, b: &Setting) -> bool
    ensures { result ≡ true → a.now ≡ b.now }
{
    a.no_forward == b.no_forward
        && a.no_reverse == b.no_reverse
        && is_same_state(&a.state, &b.state)
}

// Makes a law a link's own in a state.
fn set_own(project: &Project, kind: &LinkKind, state: &LinkState, own: &mut LinkLaw)
    requires can { CanStand project.now kind.now state.now }
    requires sound { IsSoundLink own.old }
    requires room { HasRoomFor project.now.bends.list kind.now own.old }
    ensures represents { Represents own.new (spec.own_law (is_us project.now) project.now.bends.list kind.now
        state.now) }
    ensures room { HasRoomFor project.now.bends.list kind.now own.new }
{
    let held = mem::replace(own, LinkLaw::Shut(Shut));
    *own = own_law(project, kind, state, held);
}

// Makes a law that of a link in a setting.
fn set_law(project: &Project, kind: &LinkKind, setting: &Setting, law: &mut LinkLaw)
    requires can { CanStand project.now kind.now setting.now.state }
    requires sound { IsSoundLink law.old }
    requires room { HasRoomFor project.now.bends.list kind.now law.old }
    ensures stands { Stands law.new (restricted setting.now.no_forward setting.now.no_reverse
        (spec.own_law (is_us project.now) project.now.bends.list kind.now setting.now.state)) }
    ensures shut { IsShutBetween setting.now law.new }
    ensures room { HasRoomFor project.now.bends.list kind.now law.new }
{
    let held = mem::replace(law, LinkLaw::Shut(Shut));
    *law = restricted(own_law(project, kind, &setting.state, held), setting);
}

// Makes both laws of a link those of a setting.
fn set_both(project: &Project, kind: &LinkKind, setting: &Setting, laws: &mut BothLaws)
    requires can { CanStand project.now kind.now setting.now.state }
    requires held { AreSoundBoth project.now.bends.list kind.now laws.old }
    requires free { length laws.old.between.items ≡ 0 → (setting.now.no_forward ≡ false)
        × (setting.now.no_reverse ≡ false) }
    ensures stand { AreLawsOf (is_us project.now) project.now.bends.list kind.now setting.now (own_of laws.new)
        (law_of laws.new) }
    ensures count { length laws.new.between.items ≡ length laws.old.between.items }
{
    set_own(project, kind, &setting.state, &mut laws.own);
    if laws.between.len() > 0 {
        set_law(project, kind, setting, &mut laws.between[0]);
    }
}

/// Puts a link into a setting. Where it is in that setting, nothing is written. No memory is taken.
pub(crate) fn set_link(
    project: &Project,
    kind: &LinkKind,
    wanted: &Setting,
    setting: &mut Setting,
    laws: &mut BothLaws,
)
    requires can { CanStand project.now kind.now wanted.now.state }
    requires stand { AreLawsOf (is_us project.now) project.now.bends.list kind.now setting.old (own_of laws.old)
        (law_of laws.old) }
    requires free { length laws.old.between.items ≡ 0 → (wanted.now.no_forward ≡ false)
        × (wanted.now.no_reverse ≡ false) }
    ensures stand { AreLawsOf (is_us project.now) project.now.bends.list kind.now setting.new (own_of laws.new)
        (law_of laws.new) }
    ensures set { setting.new ≡ wanted.now }
    ensures count { length laws.new.between.items ≡ length laws.old.between.items }
{
    if !is_same(setting, wanted) {
        set_both(project, kind, wanted, laws);
        *setting = *wanted;
    }
}
