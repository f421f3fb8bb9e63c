//! The values of all rules at an instant, or the first rule that is open there.
#![tactic(auto)]

ghost use Rattle.std.specs.Prelude.{◌≡◌, ◌<◌, Some, length, map, slice_get, IfErr, OnOk, IfOk};
ghost use Rattle.std.specs.List.{All};
ghost use Rattle.hyd_net.specs.Sound.{IsSound};
ghost use Rattle.hyd_spec.specs.ProgramTypes.{Rule};
ghost use Rattle.hyd_spec.specs.NodeNumbers.{nodes_before_tanks, tank_count};
ghost use Rattle.hyd_spec.specs.Rules.{Readings};
ghost use Rattle.hyd_spec_certificates.specs.SpansAsIntervals.{levels_of, flows_of};
ghost use Rattle.hyd_controls_and_rules.specs.AlikeButTankHeads.{AreAlike};
ghost use Rattle.hyd_controls_and_rules.specs.RuleReadings.{IsBounded, lower_readings};
ghost use Rattle.hyd_controls_and_rules.specs.RuleReadings.{upper_readings};
ghost use Rattle.hyd_period_length.specs.TruthOfRules.{IsKnown, IsOpen, AreKnown, IsFirstOpen};

use hyd_controls_and_rules::decide;
use hyd_net::{LinkState, Project};
use hyd_num::Span;
use hyd_spec_certificates::{LevelSpan, Truth};

/// The first rule that is open at an instant, the first of its clauses that is open by itself, and the ends of what
/// that clause measures. Rules and clauses are counted from 0.
#[derive(Clone, Copy, Drop)]
pub struct RuleOpen {
    /// Its number among the rules.
    pub rule: u32,
    /// The number of the clause in it.
    pub clause: u32,
    /// The lower end, in head or flow ticks, of a flow its magnitude.
    pub lo: i128,
    /// The upper end.
    pub hi: i128,
}

// The value of one rule.
fn value_of(
    project: &Project,
    rule: u32,
    low: &[i64],
    high: &[i64],
    flows: &[Span],
    levels: &[LevelSpan],
    links: &[LinkState],
    time: u32,
) -> Result<bool, RuleOpen>
    requires sound { IsSound project.now }
    requires in_range { rule < length project.now.rules.list }
    requires each_low { length low.now ≡ nodes_before_tanks project.now }
    requires each_high { length high.now ≡ nodes_before_tanks project.now }
    requires each_flow { length flows.now ≡ length project.now.links.list }
    requires bounded { All IsBounded flows.now }
    requires each_level { length levels.now ≡ tank_count project.now }
    requires each_link { length links.now ≡ length project.now.links.list }
    ensures known { IfOk result (λ value. (lower upper : Readings) (each : Rule)
        → AreAlike project.now (lower_readings low.now (map flows_of flows.now)
        (map levels_of levels.now) links.now) lower
        → AreAlike project.now (upper_readings high.now (map flows_of flows.now)
        (map levels_of levels.now) links.now) upper
        → slice_get project.now.rules.list rule ≡ Some each → IsKnown project.now time lower upper each value) }
    ensures open { IfErr result (λ found. (lower upper : Readings) (each : Rule)
        → AreAlike project.now (lower_readings low.now (map flows_of flows.now)
        (map levels_of levels.now) links.now) lower
        → AreAlike project.now (upper_readings high.now (map flows_of flows.now)
        (map levels_of levels.now) links.now) upper
        → slice_get project.now.rules.list rule ≡ Some each → IsOpen project.now time lower upper rule each found) }
{
    match decide(project, rule, low, high, flows, levels, links, time) {
        Truth::True => Ok(true),
        Truth::False => Ok(false),
        Truth::Open { clause, lo, hi } => Err(RuleOpen {
            rule,
            clause,
            lo,
            hi,
        }),
    }
}

/// Puts the value of each rule at an instant of a period, where all are decided (EPANET 2.2 User Manual, [RULES]).
/// Fails
/// with the first rule that is open. Both are so by any readings that differ in the heads of tanks alone, which no rule
/// looks at.
///
/// `low` and `high` are the heads of junctions and then of reservoirs from below and from above, `flows` the flows of
/// links, `levels` the levels of tanks carried to the instant, `links` the states that links were commanded to be in,
/// and `time` the instant in seconds.
pub fn decide_all(
    project: &Project,
    low: &[i64],
    high: &[i64],
    flows: &[Span],
    levels: &[LevelSpan],
    links: &[LinkState],
    time: u32,
    values: &mut [bool],
) -> Result<(), RuleOpen>
    requires sound { IsSound project.now }
    requires each_low { length low.now ≡ nodes_before_tanks project.now }
    requires each_high { length high.now ≡ nodes_before_tanks project.now }
    requires each_flow { length flows.now ≡ length project.now.links.list }
    requires bounded { All IsBounded flows.now }
    requires each_level { length levels.now ≡ tank_count project.now }
    requires each_link { length links.now ≡ length project.now.links.list }
    requires each_value { length values.old ≡ length project.now.rules.list }
    ensures decided { OnOk result ((lower upper : Readings)
        → AreAlike project.now (lower_readings low.now (map flows_of flows.now)
        (map levels_of levels.now) links.now) lower
        → AreAlike project.now (upper_readings high.now (map flows_of flows.now)
        (map levels_of levels.now) links.now) upper
        → AreKnown project.now time lower upper values.new) }
    ensures open { IfErr result (λ found. (lower upper : Readings)
        → AreAlike project.now (lower_readings low.now (map flows_of flows.now)
        (map levels_of levels.now) links.now) lower
        → AreAlike project.now (upper_readings high.now (map flows_of flows.now)
        (map levels_of levels.now) links.now) upper
        → IsFirstOpen project.now time lower upper found) }
    ensures each { length values.new ≡ length values.old }
{
    for rule in 0..values.len() {
        let value = value_of(project, rule as u32, low, high, flows, levels, links, time)?;
        values[rule] = value;
    }
    Ok(())
}
