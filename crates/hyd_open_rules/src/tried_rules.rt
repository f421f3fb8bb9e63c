//! What is known of the rules some seconds after the first start of a period.
#![tactic(auto)]

ghost use Rattle.std.specs.Prelude.{◌≡◌, ◌≤◌, ◌+◌, ◌^◌, length, IfErr, OnOk};
ghost use Rattle.std.specs.List.{All};
ghost use Rattle.hyd_net.specs.Sound.{IsSound};
ghost use Rattle.hyd_spec.specs.NodeNumbers.{nodes_before_tanks, tank_count};
ghost use Rattle.hyd_spec_open_ends.specs.RulesOverLengths.{IsOpenRuleOver};
ghost use Rattle.hyd_controls_and_rules.specs.RuleReadings.{IsBounded};
ghost use Rattle.hyd_period_facts.specs.FactsBeforeEnd.{HaveTanks};
ghost use Rattle.hyd_period_length.specs.TriedRules.{open_rule};
ghost use Rattle.hyd_open_rules.specs.OpenReadings.{ForOpenPeriod, AreDecidedOver};

use crate::carried_over::put_carried_over;
use hyd_net::{List, Project};
use hyd_open_stocks::Lengths;
use hyd_period_facts::Facts;
use hyd_period_length::{Readings, RuleOpen, decide_all};
use hyd_spec_certificates::LevelSpan;

/// Tries the rules so many seconds after the first second in which a period may begin, which is open by `late` seconds,
/// and puts the value of each: on the levels carried over all lengths that it may have had (EPANET 2.2 User Manual,
/// [RULES]). Fails with the first rule that is open there.
///
/// The facts hold what is known at the start of the period, with what flows into its tanks, the readings what the rules
/// look at in it. `levels` is room for the carried levels, so no memory is taken.
pub(crate) fn try_over(
    project: &Project,
    facts: &Facts,
    late: u32,
    readings: &Readings,
    seconds: u32,
    levels: &mut List<LevelSpan>,
    values: &mut [bool],
) -> Result<(), RuleOpen>
    requires sound { IsSound project.now }
    requires tanks { HaveTanks project.now facts.now }
    requires time { facts.now.time + seconds ≤ 10 ^ 8 }
    requires each_low { length readings.now.low.list ≡ nodes_before_tanks project.now }
    requires each_high { length readings.now.high.list ≡ nodes_before_tanks project.now }
    requires each_flow { length readings.now.flows.list ≡ length project.now.links.list }
    requires bounded { All IsBounded readings.now.flows.list }
    requires each_link { length facts.now.links.list ≡ length project.now.links.list }
    requires room { tank_count project.now ≤ length levels.old.list + levels.old.spare }
    requires each_value { length values.old ≡ length project.now.rules.list }
    ensures decided { OnOk result (ForOpenPeriod project.now facts.now late readings.now
        (λ grid standing row. AreDecidedOver project.now grid standing row seconds values.new)) }
    ensures open { IfErr result (λ found. ForOpenPeriod project.now facts.now late readings.now
        (λ grid standing row. IsOpenRuleOver project.now grid standing row seconds (open_rule found))) }
    ensures room { length levels.old.list + levels.old.spare ≤ length levels.new.list + levels.new.spare }
    ensures each { length values.new ≡ length values.old }
{
    let lengths = Lengths {
        shortest: seconds.saturating_sub(late),
        longest: seconds,
    };
    put_carried_over(project, facts, lengths, levels);
    decide_all(
        project,
        readings.low.as_slice(),
        readings.high.as_slice(),
        readings.flows.as_slice(),
        levels.as_slice(),
        facts.links.as_slice(),
        facts.time + seconds,
        values,
    )
}
