//! What rules look at, at an instant, and clauses of rules there.
#![tactic(auto)]

ghost use Rattle.std.specs.Prelude.{◌≡◌, ◌+◌, ◌^◌, ◌<◌, ◌≤◌, length, pos, IfSome, IfNone};
ghost use Rattle.std.specs.List.{All};
ghost use Rattle.hyd_num.specs.Rational.{Rational, whole};
ghost use Rattle.hyd_net.specs.ControlsAndRules.{node_count, HasPressure, SpeaksOf, IsClause};
ghost use Rattle.hyd_net.specs.RoundedFileNumbers.{IsRounded, IsValueMade};
ghost use Rattle.hyd_spec.specs.NodeNumbers.{nodes_before_tanks};
ghost use Rattle.hyd_spec.specs.Rules.{setting_of, compares, is_word, status_holds, state_word, seconds_of, time_holds};
ghost use Rattle.hyd_spec.specs.Rules.{has_come, has_come_today};
ghost use Rattle.hyd_spec_certificates.specs.SpansAsIntervals.{flows_of};
ghost use Rattle.hyd_spec_certificates.specs.Decided.{least_magnitude, greatest_magnitude};
ghost use Rattle.hyd_controls_and_rules.specs.RuleReadings.{IsBounded, IsInstant, AreLevelEnds, AreEnds};
ghost use Rattle.hyd_controls_and_rules.specs.RuleReadings.{IsMeasured};
ghost use Rattle.hyd_controls_and_rules.specs.RuleReadings.{verdict_there};

use crate::logic::at_both_ends;
use crate::time_of_day::{DAY, clock_at};
use hyd_net::{Clause, LinkState, Project, Relation, Value, What};
use hyd_num::Span;
use hyd_spec_certificates::{LevelSpan, Verdict};

/// What rules look at, at an instant of a period: the heads of junctions and then of reservoirs from below and from
/// above, the flows of links, the carried levels of tanks, and the commanded states.
#[derive(Clone, Copy, Drop)]
pub(crate) struct Instant<'a> {
    pub(crate) project: &'a Project,
    pub(crate) time: u32,
    pub(crate) low: &'a [i64],
    pub(crate) high: &'a [i64],
    pub(crate) flows: &'a [Span],
    pub(crate) levels: &'a [LevelSpan],
    pub(crate) links: &'a [LinkState],
}

/// What a clause measures, from below and from above.
#[derive(Clone, Copy, Drop)]
pub(crate) struct Ends {
    pub(crate) lo: i128,
    pub(crate) hi: i128,
}

// ---- what clauses measure

// The number among the tanks of a node that is one.
fn tank_number(project: &Project, node: u32) -> Option<usize>
    requires { length project.now.junctions.list + length project.now.reservoirs.list ≤ 2 ^ 32 }
    ensures tank { IfSome result (λ tank. node ≡ nodes_before_tanks project.now + tank) }
    ensures other { IfNone result (node < nodes_before_tanks project.now) }
{
    (node as usize).checked_sub(project.junctions.len() + project.reservoirs.len())
}

// The carried level of a tank, above the level -`base`.
fn level_ends(instant: &Instant<'_>, tank: usize, base: i64) -> Ends
    requires { tank < length instant.now.levels.now }
    ensures { AreLevelEnds instant.now tank base result }
{
    let level = instant.levels[tank];
    Ends {
        lo: i128::from(level.lo) + i128::from(base),
        hi: i128::from(level.hi) + i128::from(base),
    }
}

fn head_ends(instant: &Instant<'_>, node: u32) -> Ends
    requires instant { IsInstant instant.now }
    requires there { node < node_count instant.now.project.now }
    ensures { AreEnds instant.now (What.Head node) result }
{
    if let Some(tank) = tank_number(instant.project, node) {
        let here = &instant.project.tanks.as_slice()[tank];
        return level_ends(instant, tank, here.bottom);
    }
    Ends {
        lo: i128::from(instant.low[node as usize]),
        hi: i128::from(instant.high[node as usize]),
    }
}

fn pressure_ends(instant: &Instant<'_>, node: u32) -> Ends
    requires instant { IsInstant instant.now }
    requires there { HasPressure instant.now.project.now node }
    ensures { AreEnds instant.now (What.Pressure node) result }
{
    if let Some(tank) = tank_number(instant.project, node) {
        return level_ends(instant, tank, 0);
    }
    let junction = &instant.project.junctions.as_slice()[node as usize];
    Ends {
        lo: i128::from(instant.low[node as usize]) - i128::from(junction.elevation),
        hi: i128::from(instant.high[node as usize]) - i128::from(junction.elevation),
    }
}

// The least magnitude of a flow.
fn least_magnitude(flow: &Span) -> i128
    requires { IsBounded flow.now }
    ensures { result ≡ pos (least_magnitude (flows_of flow.now)) }
{
    if flow.lo >= 0 {
        return flow.lo;
    }
    if flow.hi <= 0 { -flow.hi } else { 0 }
}

// The greatest magnitude of a flow.
fn greatest_magnitude(flow: &Span) -> i128
    requires { IsBounded flow.now }
    ensures { result ≡ pos (greatest_magnitude (flows_of flow.now)) }
{
    flow.hi.max(-flow.lo)
}

fn flow_ends(instant: &Instant<'_>, link: u32) -> Ends
    requires each { link < length instant.now.flows.now }
    requires bounded { All IsBounded instant.now.flows.now }
    ensures { AreEnds instant.now (What.Flow link) result }
{
    let flow = &instant.flows[link as usize];
    Ends {
        lo: least_magnitude(flow),
        hi: greatest_magnitude(flow),
    }
}

fn setting_of(state: &LinkState) -> i64
    ensures { result ≡ setting_of state.now }
{
    match state {
        LinkState::Open | LinkState::Closed => 0,
        LinkState::Speed(nano) => *nano,
        LinkState::Throttle { nano, .. } => *nano,
        LinkState::Limit { nano, .. } => *nano,
    }
}

fn setting_ends(instant: &Instant<'_>, link: u32) -> Ends
    requires { link < length instant.now.links.now }
    ensures { AreEnds instant.now (What.Setting link) result }
{
    let setting = i128::from(setting_of(&instant.links[link as usize]));
    Ends {
        lo: setting,
        hi: setting,
    }
}

/// What a clause measures, in head or flow ticks, of a setting in billionths.
pub(crate) fn ends_of(instant: &Instant<'_>, what: What) -> Ends
    requires instant { IsInstant instant.now }
    requires there { SpeaksOf instant.now.project.now what }
    ensures { AreEnds instant.now what result }
{
    match what {
        What::Head(node) => head_ends(instant, node),
        What::Pressure(node) => pressure_ends(instant, node),
        What::Level(tank) => level_ends(instant, tank as usize, 0),
        What::Flow(link) => flow_ends(instant, link),
        What::Setting(link) => setting_ends(instant, link),
        What::Status(_) | What::Time | What::Clock => Ends { lo: 0, hi: 0 },
    }
}

// ---- whether they hold

// A whole number is the value of which the span has the floor and the ceiling.
fn equals(value: i128, amount: &Span) -> bool
    ensures { (exact : Rational) → 0 < exact.den → IsRounded exact.num exact.den amount.now
        → result ≡ compares Relation.Equal (whole value) exact }
{
    value <= amount.lo && value >= amount.hi
}

// A whole number stands in a relation to the value of which the span has the floor and the ceiling.
fn compares(relation: Relation, value: i128, amount: &Span) -> bool
    ensures { (exact : Rational) → 0 < exact.den → IsRounded exact.num exact.den amount.now
        → result ≡ compares relation (whole value) exact }
{
    match relation {
        Relation::Less => value < amount.hi,
        Relation::AtMost => value <= amount.lo,
        Relation::More => value > amount.lo,
        Relation::AtLeast => value >= amount.hi,
        Relation::Equal => equals(value, amount),
        Relation::Unequal => !equals(value, amount),
    }
}

fn is_word(state: &LinkState, value: Value) -> bool
    ensures { result ≡ is_word (state_word state.now) value }
{
    match state {
        LinkState::Open | LinkState::Speed(_) => matches!(value, Value::Open),
        LinkState::Closed => matches!(value, Value::Closed),
        LinkState::Throttle { .. } | LinkState::Limit { .. } => matches!(value, Value::Active),
    }
}

fn status_holds(relation: Relation, state: &LinkState, value: Value) -> bool
    ensures { result ≡ status_holds relation (state_word state.now) value }
{
    match relation {
        Relation::Unequal => !is_word(state, value),
        _ => is_word(state, value),
    }
}

fn seconds_of(value: Value) -> u32
    requires { seconds_of value < 2 ^ 32 }
    ensures { result ≡ seconds_of value }
{
    match value {
        Value::Amount { span, .. } => span.lo.unsigned_abs() as u32,
        Value::Open | Value::Closed | Value::Active => 0,
    }
}

fn time_holds(relation: Relation, now: u32, at: u32, came: bool) -> bool
    ensures { result ≡ time_holds relation now at came }
{
    match relation {
        Relation::Less => now < at,
        Relation::AtMost => now <= at,
        Relation::More => now > at,
        Relation::AtLeast => now >= at,
        Relation::Equal => came,
        Relation::Unequal => !came,
    }
}

// A time has come within the last rule step.
fn has_come(project: &Project, time: u32, at: u32) -> bool
    ensures { result ≡ has_come project.now time at }
{
    at <= time && u64::from(time) < u64::from(at) + u64::from(project.times.rule)
}

// A time of day has come within the last rule step, modulo a day.
fn has_come_today(project: &Project, now: u32, at: u32) -> bool
    requires { now < 86400 }
    ensures { result ≡ has_come_today project.now now at }
{
    (now + DAY - at % DAY) % DAY < project.times.rule
}

// Both ends of what a clause measures are compared.
fn measured_verdict(instant: &Instant<'_>, clause: &Clause) -> Verdict
    requires instant { IsInstant instant.now }
    requires clause { IsClause instant.now.project.now clause.now }
    requires made { IsValueMade instant.now.project.now.options.unit clause.now.what clause.now.value }
    requires measured { IsMeasured clause.now.what }
    ensures { result ≡ verdict_there instant.now clause.now }
{
    let Value::Amount { span, .. } = clause.value else {
        unreachable!()
    };
    let ends = ends_of(instant, clause.what);
    at_both_ends(
        compares(clause.relation, ends.lo, &span),
        compares(clause.relation, ends.hi, &span),
    )
}

/// What is known of a clause.
pub(crate) fn clause_verdict(instant: &Instant<'_>, clause: &Clause) -> Verdict
    requires instant { IsInstant instant.now }
    requires clause { IsClause instant.now.project.now clause.now }
    requires made { IsValueMade instant.now.project.now.options.unit clause.now.what clause.now.value }
    ensures { result ≡ verdict_there instant.now clause.now }
{
    let project = instant.project;
    let holds = match clause.what {
        What::Status(link) => {
            let state = &instant.links[link as usize];
            status_holds(clause.relation, state, clause.value)
        }
        What::Time => {
            let at = seconds_of(clause.value);
            let came = has_come(project, instant.time, at);
            time_holds(clause.relation, instant.time, at, came)
        }
        What::Clock => {
            let now = clock_at(project, instant.time);
            let at = seconds_of(clause.value);
            let came = has_come_today(project, now, at);
            time_holds(clause.relation, now, at, came)
        }
        _ => return measured_verdict(instant, clause),
    };
    at_both_ends(holds, holds)
}
