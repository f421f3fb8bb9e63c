//! Carried levels of all tanks over lengths.
#![tactic(auto)]

ghost use Rattle.std.specs.Prelude.{◌≡◌, ◌<◌, ◌≤◌, ◌+◌, ◌^◌, Some, length, map, slice_get};
ghost use Rattle.hyd_net.specs.Sound.{IsSound};
ghost use Rattle.hyd_spec.specs.ProgramTypes.{Tank};
ghost use Rattle.hyd_spec.specs.NodeNumbers.{tank_count};
ghost use Rattle.hyd_spec_certificates.specs.SpansAsIntervals.{levels_of};
ghost use Rattle.hyd_spec_certificates.specs.PeriodNetwork.{Grid};
ghost use Rattle.hyd_spec_certificates.specs.RecordAndStanding.{Record, Standing};
ghost use Rattle.hyd_spec_open_ends.specs.RulesOverLengths.{carried_over};
ghost use Rattle.hyd_period_facts.specs.FactsBeforeEnd.{HaveTanks, AreStarted};
ghost use Rattle.hyd_open_rules.specs.OpenReadings.{carried_over_in};

use hyd_net::{List, Project};
use hyd_open_stocks::{Lengths, carried_over};
use hyd_period_facts::{Facts, add_level, inflow_at, stock_at};
use hyd_spec_certificates::LevelSpan;

// The carried levels of one tank.
fn carried_of(project: &Project, facts: &Facts, tank: u32, lengths: Lengths) -> LevelSpan
    requires sound { IsSound project.now }
    requires tanks { HaveTanks project.now facts.now }
    requires in_range { tank < length project.now.tanks.list }
    requires shortest { lengths.shortest ≤ 10 ^ 8 }
    requires longest { lengths.longest ≤ 10 ^ 8 }
    ensures { (each : Tank) → slice_get project.now.tanks.list tank ≡ Some each
        → levels_of result ≡ carried_over_in project.now facts.now lengths.shortest lengths.longest tank each }
{
    let stock = stock_at(facts, tank);
    let inflow = inflow_at(facts, tank);
    carried_over(project, tank, stock, inflow, lengths)
}

/// Puts the levels of tanks carried over lengths from the shortest to the longest. The facts hold the stocks at the
/// start of the period and what flows into its tanks. What the list held before goes. It has room for an item for each
/// tank, so no memory is taken.
pub fn put_carried_over(
    project: &Project,
    facts: &Facts,
    lengths: Lengths,
    levels: &mut List<LevelSpan>,
)
    requires sound { IsSound project.now }
    requires tanks { HaveTanks project.now facts.now }
    requires shortest { lengths.shortest ≤ 10 ^ 8 }
    requires longest { lengths.longest ≤ 10 ^ 8 }
    requires room { tank_count project.now ≤ length levels.old.list + levels.old.spare }
    ensures levels { (grid : Grid) (standing : Standing) (row : Record)
        → AreStarted project.now grid standing row facts.now
        → map levels_of levels.new.list
        ≡ carried_over project.now grid standing row lengths.shortest lengths.longest }
    ensures count { length levels.new.list ≡ tank_count project.now }
    ensures room { length levels.old.list + levels.old.spare ≤ length levels.new.list + levels.new.spare }
{
    levels.clear();
    for tank in 0..project.tanks.len() {
        let level = carried_of(project, facts, tank as u32, lengths);
        add_level(levels, level);
    }
}
