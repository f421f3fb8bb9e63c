//! What is known of the rules some seconds after the start of a period.
#![tactic(auto)]

ghost use Rattle.std.specs.Prelude.{◌≡◌, ◌≤◌, ◌+◌, ◌^◌, length, IfErr, OnOk};
ghost use Rattle.std.specs.List.{All};
ghost use Rattle.hyd_net.specs.Sound.{IsSound};
ghost use Rattle.hyd_spec.specs.NodeNumbers.{nodes_before_tanks, tank_count};
ghost use Rattle.hyd_spec_certificates.specs.PeriodNetwork.{Grid};
ghost use Rattle.hyd_spec_certificates.specs.RecordAndStanding.{Record, Standing};
ghost use Rattle.hyd_spec_certificates.specs.Decided.{IsOpenRule};
ghost use Rattle.hyd_controls_and_rules.specs.RuleReadings.{IsBounded};
ghost use Rattle.hyd_period_facts.specs.FactsBeforeEnd.{HaveTanks, AreStarted};
ghost use Rattle.hyd_period_length.specs.TriedRules.{AreDecided, open_rule};
ghost use Rattle.hyd_period_length.specs.Readings.{AreRead};

use crate::truth_of_rules::{RuleOpen, decide_all};
use hyd_net::{List, Project};
use hyd_num::Span;
use hyd_period_facts::{Facts, put_carried};
use hyd_spec_certificates::LevelSpan;

/// Tries the rules so many seconds after the start of a period and puts the value of each (EPANET 2.2 User Manual,
/// [RULES]). Fails with the first rule that is open there.
///
/// The facts hold what is known at the start of the period, with what flows into its tanks; `low` and `high` are the
/// heads of junctions and then of reservoirs from below and from above, `flows` the flows of links. `levels` is room
/// for the carried levels, so no memory is taken.
pub fn try_rules(
    project: &Project,
    facts: &Facts,
    low: &[i64],
    high: &[i64],
    flows: &[Span],
    seconds: u32,
    levels: &mut List<LevelSpan>,
    values: &mut [bool],
) -> Result<(), RuleOpen>
    requires sound { IsSound project.now }
    requires tanks { HaveTanks project.now facts.now }
    requires time { facts.now.time + seconds ≤ 10 ^ 8 }
    requires each_low { length low.now ≡ nodes_before_tanks project.now }
    requires each_high { length high.now ≡ nodes_before_tanks project.now }
    requires each_flow { length flows.now ≡ length project.now.links.list }
    requires bounded { All IsBounded flows.now }
    requires each_link { length facts.now.links.list ≡ length project.now.links.list }
    requires room { tank_count project.now ≤ length levels.old.list + levels.old.spare }
    requires each_value { length values.old ≡ length project.now.rules.list }
    ensures decided { OnOk result ((grid : Grid) (standing : Standing) (row : Record)
        → AreStarted project.now grid standing row facts.now → AreRead grid row low.now high.now flows.now
        → AreDecided project.now grid standing row seconds values.new) }
    ensures open { IfErr result (λ found. (grid : Grid) (standing : Standing) (row : Record)
        → AreStarted project.now grid standing row facts.now → AreRead grid row low.now high.now flows.now
        → IsOpenRule project.now grid standing row seconds (open_rule found)) }
    ensures room { length levels.old.list + levels.old.spare ≤ length levels.new.list + levels.new.spare }
    ensures each { length values.new ≡ length values.old }
{
    put_carried(project, facts, seconds, levels);
    decide_all(
        project,
        low,
        high,
        flows,
        levels.as_slice(),
        facts.links.as_slice(),
        facts.time + seconds,
        values,
    )
}
