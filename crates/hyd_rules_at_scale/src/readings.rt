//! What clauses measure at an instant.
#![tactic(auto)]

ghost use Rattle.std.specs.Prelude.{◌≡◌, ◌+◌, ◌*◌, ◌^◌, ◌<◌, ◌≤◌, List, length, pos, unsigned_abs, IfSome, IfNone};
ghost use Rattle.std.specs.Prelude.{slice_index_or};
ghost use Rattle.hyd_num.specs.Rational.{Rational, whole, total_of};
ghost use Rattle.hyd_net.specs.ControlsAndRules.{node_count, HasPressure, SpeaksOf};
ghost use Rattle.hyd_spec.specs.NodeNumbers.{nodes_before_tanks};
ghost use Rattle.hyd_spec.specs.Rules.{setting_of, level_of, head_of, pressure_of, in_ticks, measured};
ghost use Rattle.hyd_laws_at_scale.specs.Scales.{parts_of};
ghost use Rattle.hyd_rules_at_scale.specs.Quantities.{IsProper, IsExactly, IsQuantity};
ghost use Rattle.hyd_rules_at_scale.specs.Instants.{IsInstant, AreLevels, readings_at};

use crate::instant::Instant;
use crate::quantities::Quantity;
use hyd_met_flows::value_at;
use hyd_net::{LinkState, Project, What};
use hyd_stocks_at_scale::ExactLevel;

// The number among the tanks of a node that is one.
fn tank_number(project: &Project, node: u32) -> Option<usize>
    requires { length project.now.junctions.list + length project.now.reservoirs.list ≤ 2 ^ 32 }
    ensures tank { IfSome result (λ tank. node ≡ nodes_before_tanks project.now + tank) }
    ensures other { IfNone result (node < nodes_before_tanks project.now) }
{
    (node as usize).checked_sub(project.junctions.len() + project.reservoirs.len())
}

// A whole value.
fn whole(value: i128) -> ExactLevel
    requires { unsigned_abs value ≤ 4 * 10 ^ 24 }
    ensures proper { IsProper result }
    ensures value { IsExactly result (whole value) }
{
    ExactLevel {
        whole: value,
        part: 0,
        of: 1,
    }
}

// A value raised by a whole number.
fn raised(value: ExactLevel, by: i128) -> ExactLevel
    requires value { IsProper value }
    requires small { unsigned_abs value.whole ≤ 10 ^ 24 }
    requires by { unsigned_abs by ≤ 10 ^ 24 }
    ensures proper { IsProper result }
    ensures value { (x : Rational) → IsExactly value x → IsExactly result (total_of x (whole by)) }
{
    ExactLevel {
        whole: value.whole + by,
        ..value
    }
}

// The level of a tank.
fn level_of(instant: &Instant<'_>, tank: usize) -> ExactLevel
    requires instant { IsInstant instant.now }
    requires there { tank < length instant.now.levels.now }
    ensures proper { IsProper result }
    ensures small { unsigned_abs result.whole ≤ 10 ^ 24 }
    ensures value { (levels : List Rational) → AreLevels instant.now.levels.now levels
        → IsExactly result (level_of (readings_at instant.now levels) tank) }
{
    instant.levels[tank]
}

// The head of a node.
fn head_of(instant: &Instant<'_>, node: u32) -> ExactLevel
    requires instant { IsInstant instant.now }
    requires there { node < node_count instant.now.project.now }
    ensures proper { IsProper result }
    ensures value { (levels : List Rational) → AreLevels instant.now.levels.now levels
        → IsExactly result (head_of instant.now.project.now (parts_of instant.now.scale)
        (readings_at instant.now levels) node) }
{
    let project = instant.project;
    if let Some(tank) = tank_number(project, node) {
        let bottom = project.tanks.as_slice()[tank].bottom;
        let level = level_of(instant, tank);
        return raised(level, instant.scale.in_parts(i128::from(bottom)));
    }
    whole(hyd_met_flows::head_of(project, instant.scale, instant.moment, node))
}

// The pressure of a junction or a tank.
fn pressure_of(instant: &Instant<'_>, node: u32) -> ExactLevel
    requires instant { IsInstant instant.now }
    requires there { HasPressure instant.now.project.now node }
    ensures proper { IsProper result }
    ensures value { (levels : List Rational) → AreLevels instant.now.levels.now levels
        → IsExactly result (pressure_of instant.now.project.now (parts_of instant.now.scale)
        (readings_at instant.now levels) node) }
{
    let project = instant.project;
    if let Some(tank) = tank_number(project, node) {
        return level_of(instant, tank);
    }
    let elevation = project.junctions.as_slice()[node as usize].elevation;
    let head = hyd_met_flows::head_of(project, instant.scale, instant.moment, node);
    whole(head - instant.scale.in_parts(i128::from(elevation)))
}

// The magnitude of a flow.
fn flow_of(instant: &Instant<'_>, link: u32) -> ExactLevel
    requires instant { IsInstant instant.now }
    requires there { link < length instant.now.project.now.links.list }
    ensures proper { IsProper result }
    ensures value { (levels : List Rational) → IsExactly result
        (whole (pos (slice_index_or (readings_at instant.now levels).flows link 0))) }
{
    let flow = value_at(instant.moment.flows.as_slice(), link as usize);
    whole(flow.abs())
}

fn setting_of(state: &LinkState) -> i64
    ensures { result ≡ setting_of state.now }
{
    match state {
        LinkState::Open | LinkState::Closed => 0,
        LinkState::Speed(nano) => *nano,
        LinkState::Throttle { nano, .. } => *nano,
        LinkState::Limit { nano, .. } => *nano,
    }
}

// A whole number of billionths.
fn in_billionths(value: i128) -> Quantity
    requires { unsigned_abs value ≤ 4 * 10 ^ 24 }
    ensures proper { IsProper result.value }
    ensures parts { 0 < result.parts }
    ensures value { IsQuantity result (whole value) }
{
    Quantity {
        value: whole(value),
        parts: 1,
    }
}

// A value in parts of ticks, as one in ticks.
fn in_ticks(instant: &Instant<'_>, value: ExactLevel) -> Quantity
    requires { IsProper value }
    ensures proper { IsProper result.value }
    ensures parts { 0 < result.parts }
    ensures value { (x : Rational) → IsExactly value x
        → IsQuantity result (in_ticks (parts_of instant.now.scale) x) }
{
    Quantity {
        value,
        parts: instant.scale.parts(),
    }
}

/// What a clause measures, in head or flow ticks, of a setting in billionths.
pub(crate) fn measured(instant: &Instant<'_>, what: What) -> Quantity
    requires instant { IsInstant instant.now }
    requires there { SpeaksOf instant.now.project.now what }
    ensures proper { IsProper result.value }
    ensures parts { 0 < result.parts }
    ensures value { (levels : List Rational) → AreLevels instant.now.levels.now levels
        → IsQuantity result (measured instant.now.project.now (parts_of instant.now.scale)
        (readings_at instant.now levels) what) }
{
    let value = match what {
        What::Head(node) => head_of(instant, node),
        What::Pressure(node) => pressure_of(instant, node),
        What::Level(tank) => level_of(instant, tank as usize),
        What::Flow(link) => flow_of(instant, link),
        What::Setting(link) => {
            let setting = setting_of(&instant.links[link as usize]);
            return in_billionths(i128::from(setting));
        }
        What::Status(_) | What::Time | What::Clock => return in_billionths(0),
    };
    in_ticks(instant, value)
}
