//! Comparison of two networks.
#![tactic(auto)]

ghost use Rattle.std.specs.Prelude.{◌≡◌, ◌↔◌, IsTrue, map};
ghost use Rattle.std.specs.Option.{option_map};
ghost use Rattle.hyd_net.specs.ProjectAsCompared.{bare_list, compared_list, compared_capacity, compared_valve};
ghost use Rattle.hyd_net.specs.ProjectAsCompared.{compared_power, compared_loss};
ghost use Rattle.hyd_net.specs.ProjectAsCompared.{compared_kind, compared_state, compared_link, compared_tank};
ghost use Rattle.hyd_net.specs.ProjectAsCompared.{compared_junction, compared_pattern, compared_control};
ghost use Rattle.hyd_net.specs.ProjectAsCompared.{compared_value, compared_clause, compared_rule_clause};
ghost use Rattle.hyd_net.specs.ProjectAsCompared.{compared_action, compared_rule};
ghost use Rattle.hyd_net.specs.ProjectAsCompared.{compared_project};

use crate::controls::Control;
use crate::curves::{HeadPoint, VolumePoint};
use crate::links::{Link, LinkKind, LinkState, OpenValve, PipeLoss};
use crate::list::List;
use crate::nodes::{Demand, Junction, Reservoir, Tank};
use crate::options::{Options, Times};
use crate::patterns::Pattern;
use crate::project::Project;
use crate::rules::{Action, Clause, Rule, RuleClause, Value};
use hyd_num::{Capacity, Decimal, FlowUnit, Pair, Scaled, Span};
use hyd_spec_power_laws::PowerCapacity;

/// Values that are compared without the numbers of the file that are kept beside a rounded form.
trait Alike {
    ghost compared: { Self → Self };

    fn same(&self, other: &Self) -> bool
        ensures { IsTrue result ↔ (compared self.now ≡ compared other.now) };
}

fn same_items<T: Alike>(a: &[T], b: &[T]) -> bool
    ensures { IsTrue result ↔ (map T.compared a.now ≡ map T.compared b.now) }
{
    if a.len() != b.len() {
        return false;
    }
    for i in 0..a.len() {
        if !a[i].same(&b[i]) {
            return false;
        }
    }
    true
}

fn same_list<T: Alike + Drop>(a: &List<T>, b: &List<T>) -> bool
    ensures { IsTrue result ↔ (compared_list T.compared a.now ≡ compared_list T.compared b.now) }
{
    same_items(a.as_slice(), b.as_slice())
}

fn same_end(a: Scaled, b: Scaled) -> bool
    ensures { IsTrue result ↔ (a ≡ b) }
{
    a == b
}

fn same_span(a: Span, b: Span) -> bool
    ensures { IsTrue result ↔ (a ≡ b) }
{
    a == b
}

fn same_named(a: Option<u32>, b: Option<u32>) -> bool
    ensures { IsTrue result ↔ (a ≡ b) }
{
    a == b
}

impl Alike for Capacity {
    ghost compared = { compared_capacity };

    fn same(&self, other: &Capacity) -> bool {
        same_end(self.lo, other.lo) && same_end(self.hi, other.hi)
    }
}

fn same_emitter(a: &Option<Capacity>, b: &Option<Capacity>) -> bool
    ensures { IsTrue result ↔ (option_map compared_capacity a.now ≡ option_map compared_capacity b.now) }
{
    match (a, b) {
        (Some(x), Some(y)) => x.same(y),
        (None, None) => true,
        _ => false,
    }
}

fn same_pair(a: Pair, b: Pair) -> bool
    ensures { IsTrue result ↔ (a ≡ b) }
{
    same_end(a.lo, b.lo) && same_end(a.hi, b.hi)
}

fn same_minor(a: &Option<Pair>, b: &Option<Pair>) -> bool
    ensures { IsTrue result ↔ (a.now ≡ b.now) }
{
    match (a, b) {
        (Some(x), Some(y)) => same_pair(*x, *y),
        (None, None) => true,
        _ => false,
    }
}

fn same_ends_and_minor(a: &PowerCapacity, b: &PowerCapacity) -> bool
    ensures { IsTrue result ↔ ((a.now.low ≡ b.now.low) × (a.now.high ≡ b.now.high) × (a.now.minor ≡ b.now.minor)) }
{
    same_end(a.low, b.low) && same_end(a.high, b.high) && same_minor(&a.minor, &b.minor)
}

impl Alike for PowerCapacity {
    ghost compared = { compared_power };

    fn same(&self, other: &PowerCapacity) -> bool {
        same_ends_and_minor(self, other)
    }
}

impl Alike for PipeLoss {
    ghost compared = { compared_loss };

    fn same(&self, other: &PipeLoss) -> bool {
        match (self, other) {
            (PipeLoss::Manning(x), PipeLoss::Manning(y)) => x.same(y),
            (PipeLoss::HazenWilliams(x), PipeLoss::HazenWilliams(y)) => x.same(y),
            _ => false,
        }
    }
}

impl Alike for OpenValve {
    ghost compared = { compared_valve };

    fn same(&self, other: &OpenValve) -> bool {
        match (self, other) {
            (OpenValve::Quadratic(x), OpenValve::Quadratic(y)) => x.same(y),
            (OpenValve::Linear, OpenValve::Linear) => true,
            _ => false,
        }
    }
}

impl Alike for LinkKind {
    ghost compared = { compared_kind };

    fn same(&self, other: &LinkKind) -> bool {
        match (self, other) {
            (LinkKind::Pipe(x), LinkKind::Pipe(y)) => x.same(y),
            (LinkKind::CheckPipe(x), LinkKind::CheckPipe(y)) => x.same(y),
            (
                LinkKind::Pump {
                    cap: x,
                    shutoff: s,
                    pattern: p,
                    ..
                },
                LinkKind::Pump {
                    cap: y,
                    shutoff: t,
                    pattern: q,
                    ..
                },
            ) => x.same(y) && same_span(*s, *t) && same_named(*p, *q),
            (
                LinkKind::CurvePump {
                    bend: x,
                    pattern: p,
                },
                LinkKind::CurvePump {
                    bend: y,
                    pattern: q,
                },
            ) => x == y && same_named(*p, *q),
            (LinkKind::Tcv { valve: x }, LinkKind::Tcv { valve: y }) => x.same(y),
            (LinkKind::Fcv { valve: x }, LinkKind::Fcv { valve: y }) => x.same(y),
            (LinkKind::Gpv { bend: x }, LinkKind::Gpv { bend: y }) => x == y,
            _ => false,
        }
    }
}

impl Alike for LinkState {
    ghost compared = { compared_state };

    fn same(&self, other: &LinkState) -> bool {
        match (self, other) {
            (LinkState::Open, LinkState::Open) => true,
            (LinkState::Closed, LinkState::Closed) => true,
            (LinkState::Speed(x), LinkState::Speed(y)) => x == y,
            (LinkState::Throttle { nano: x, law: f }, LinkState::Throttle { nano: y, law: g }) => x
                == y
                && f.same(g),
            (LinkState::Limit { nano: x, ticks: f }, LinkState::Limit { nano: y, ticks: g }) => x
                == y
                && f == g,
            _ => false,
        }
    }
}

impl Alike for Link {
    ghost compared = { compared_link };

    fn same(&self, other: &Link) -> bool {
        self.from == other.from
            && self.to == other.to
            && self.kind.same(&other.kind)
            && self.start.same(&other.start)
    }
}

impl Alike for Demand {
    ghost compared = { λ d. d };

    fn same(&self, other: &Demand) -> bool {
        *self == *other
    }
}

impl Alike for Reservoir {
    ghost compared = { λ r. r };

    fn same(&self, other: &Reservoir) -> bool {
        *self == *other
    }
}

fn same_demands(a: &List<Demand>, b: &List<Demand>) -> bool
    ensures { IsTrue result ↔ (bare_list a.now ≡ bare_list b.now) }
{
    same_items(a.as_slice(), b.as_slice())
}

fn same_reservoirs(a: &List<Reservoir>, b: &List<Reservoir>) -> bool
    ensures { IsTrue result ↔ (bare_list a.now ≡ bare_list b.now) }
{
    same_items(a.as_slice(), b.as_slice())
}

fn same_multipliers(a: &List<i64>, b: &List<i64>) -> bool
    ensures { IsTrue result ↔ (bare_list a.now ≡ bare_list b.now) }
{
    a.as_slice() == b.as_slice()
}

fn same_bytes(a: &List<u8>, b: &List<u8>) -> bool
    ensures { IsTrue result ↔ (bare_list a.now ≡ bare_list b.now) }
{
    a.as_slice() == b.as_slice()
}

impl Alike for VolumePoint {
    ghost compared = { λ p. p };

    fn same(&self, other: &VolumePoint) -> bool {
        *self == *other
    }
}

impl Alike for HeadPoint {
    ghost compared = { λ p. p };

    fn same(&self, other: &HeadPoint) -> bool {
        *self == *other
    }
}

impl Alike for List<VolumePoint> {
    ghost compared = { bare_list };

    fn same(&self, other: &List<VolumePoint>) -> bool {
        same_items(self.as_slice(), other.as_slice())
    }
}

impl Alike for List<HeadPoint> {
    ghost compared = { bare_list };

    fn same(&self, other: &List<HeadPoint>) -> bool {
        same_items(self.as_slice(), other.as_slice())
    }
}

impl Alike for Junction {
    ghost compared = { compared_junction };

    fn same(&self, other: &Junction) -> bool {
        self.elevation == other.elevation
            && same_demands(&self.demands, &other.demands)
            && same_emitter(&self.emitter, &other.emitter)
    }
}

impl Alike for Tank {
    ghost compared = { compared_tank };

    fn same(&self, other: &Tank) -> bool {
        self.bottom == other.bottom
            && self.initial == other.initial
            && self.minimum == other.minimum
            && self.maximum == other.maximum
            && self.area == other.area
            && same_named(self.shape, other.shape)
            && self.overflow == other.overflow
    }
}

impl Alike for Pattern {
    ghost compared = { compared_pattern };

    fn same(&self, other: &Pattern) -> bool {
        same_multipliers(&self.multipliers, &other.multipliers)
    }
}

impl Alike for Control {
    ghost compared = { compared_control };

    fn same(&self, other: &Control) -> bool {
        self.link == other.link && self.to.same(&other.to) && self.when == other.when
    }
}

impl Alike for Value {
    ghost compared = { compared_value };

    fn same(&self, other: &Value) -> bool {
        match (self, other) {
            (Value::Amount { span: x, .. }, Value::Amount { span: y, .. }) => same_span(*x, *y),
            (Value::Open, Value::Open) => true,
            (Value::Closed, Value::Closed) => true,
            (Value::Active, Value::Active) => true,
            _ => false,
        }
    }
}

impl Alike for Clause {
    ghost compared = { compared_clause };

    fn same(&self, other: &Clause) -> bool {
        self.what == other.what && self.relation == other.relation && self.value.same(&other.value)
    }
}

impl Alike for RuleClause {
    ghost compared = { compared_rule_clause };

    fn same(&self, other: &RuleClause) -> bool {
        self.joined == other.joined && self.clause.same(&other.clause)
    }
}

impl Alike for Action {
    ghost compared = { compared_action };

    fn same(&self, other: &Action) -> bool {
        self.link == other.link && self.to.same(&other.to)
    }
}

impl Alike for Rule {
    ghost compared = { compared_rule };

    fn same(&self, other: &Rule) -> bool {
        same_bytes(&self.id, &other.id)
            && same_list(&self.clauses, &other.clauses)
            && same_list(&self.yes, &other.yes)
            && same_list(&self.no, &other.no)
            && self.priority == other.priority
    }
}

fn same_unit(a: FlowUnit, b: FlowUnit) -> bool
    ensures { IsTrue result ↔ (a ≡ b) }
{
    a == b
}

fn same_number(a: Decimal, b: Decimal) -> bool
    ensures { IsTrue result ↔ (a ≡ b) }
{
    a == b
}

fn same_options(a: &Options, b: &Options) -> bool
    ensures { IsTrue result ↔ (a.now ≡ b.now) }
{
    same_unit(a.unit, b.unit)
        && a.pda == b.pda
        && same_number(a.p0, b.p0)
        && same_number(a.pf, b.pf)
        && same_number(a.multiplier, b.multiplier)
        && same_named(a.default_pattern, b.default_pattern)
}

fn same_times(a: &Times, b: &Times) -> bool
    ensures { IsTrue result ↔ (a.now ≡ b.now) }
{
    *a == *b
}

fn same_settings(a: &Project, b: &Project) -> bool
    ensures { IsTrue result ↔ ((a.now.options ≡ b.now.options) × (a.now.times ≡ b.now.times)
        × (a.now.node_ids ≡ b.now.node_ids) × (a.now.link_ids ≡ b.now.link_ids)) }
{
    same_options(&a.options, &b.options)
        && same_times(&a.times, &b.times)
        && a.node_ids.same(&b.node_ids)
        && a.link_ids.same(&b.link_ids)
}

fn same_nodes(a: &Project, b: &Project) -> bool
    ensures { IsTrue result ↔ ((compared_list compared_junction a.now.junctions
        ≡ compared_list compared_junction b.now.junctions)
        × (bare_list a.now.reservoirs ≡ bare_list b.now.reservoirs)
        × (compared_list compared_tank a.now.tanks ≡ compared_list compared_tank b.now.tanks)) }
{
    same_list(&a.junctions, &b.junctions)
        && same_reservoirs(&a.reservoirs, &b.reservoirs)
        && same_list(&a.tanks, &b.tanks)
}

fn same_curves(a: &Project, b: &Project) -> bool
    ensures { IsTrue result ↔ ((compared_list bare_list a.now.shapes ≡ compared_list bare_list b.now.shapes)
        × (compared_list bare_list a.now.bends ≡ compared_list bare_list b.now.bends)) }
{
    same_list(&a.shapes, &b.shapes) && same_list(&a.bends, &b.bends)
}

/// Whether all fields of two networks are equal, the numbers of the file aside from which a
/// capacity, a shutoff head, a tank's area and the amount of a clause were made.
pub fn same(a: &Project, b: &Project) -> bool
    ensures { IsTrue result ↔ (compared_project a.now ≡ compared_project b.now) }
{
    same_settings(a, b)
        && same_nodes(a, b)
        && same_list(&a.links, &b.links)
        && same_list(&a.patterns, &b.patterns)
        && same_curves(a, b)
        && same_list(&a.controls, &b.controls)
        && same_list(&a.rules, &b.rules)
}
