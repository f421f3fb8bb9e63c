//! Carried levels of all tanks.
#![tactic(auto)]

ghost use Rattle.std.specs.Prelude.{◌≡◌, ◌<◌, ◌≤◌, ◌+◌, ◌^◌, Some, length, map, slice_get};
ghost use Rattle.hyd_net.specs.Sound.{IsSound};
ghost use Rattle.hyd_spec.specs.ProgramTypes.{Tank};
ghost use Rattle.hyd_spec.specs.NodeNumbers.{tank_count};
ghost use Rattle.hyd_spec_certificates.specs.SpansAsIntervals.{levels_of};
ghost use Rattle.hyd_spec_certificates.specs.PeriodNetwork.{Grid};
ghost use Rattle.hyd_spec_certificates.specs.RecordAndStanding.{Record, Standing};
ghost use Rattle.hyd_spec_certificates.specs.Decided.{carried_at};
ghost use Rattle.hyd_period_facts.specs.FactsBeforeEnd.{HaveTanks, AreStarted};
ghost use Rattle.hyd_period_facts.specs.Carried.{carried_in};

use crate::facts::Facts;
use crate::levels_and_level_controls::add_level;
use crate::stocks_and_inflows::{inflow_at, stock_at};
use hyd_net::{List, Project};
use hyd_spec_certificates::LevelSpan;

// The carried levels of one tank.
fn carried_of(project: &Project, facts: &Facts, tank: u32, seconds: u32) -> LevelSpan
    requires sound { IsSound project.now }
    requires tanks { HaveTanks project.now facts.now }
    requires in_range { tank < length project.now.tanks.list }
    requires seconds { seconds ≤ 10 ^ 8 }
    ensures { (each : Tank) → slice_get project.now.tanks.list tank ≡ Some each
        → levels_of result ≡ carried_in project.now facts.now seconds tank each }
{
    let stock = stock_at(facts, tank);
    let inflow = inflow_at(facts, tank);
    let carried = hyd_tank::stock_at(project, tank, stock, inflow, seconds);
    carried.level
}

/// Puts the levels of tanks carried to so many seconds after the start of a period. The facts hold the stocks at its
/// start and what flows into its tanks. What the list held before goes. It has room for an item for each tank, so no
/// memory is taken.
pub fn put_carried(project: &Project, facts: &Facts, seconds: u32, levels: &mut List<LevelSpan>)
    requires sound { IsSound project.now }
    requires tanks { HaveTanks project.now facts.now }
    requires seconds { seconds ≤ 10 ^ 8 }
    requires room { tank_count project.now ≤ length levels.old.list + levels.old.spare }
    ensures levels { (grid : Grid) (standing : Standing) (row : Record)
        → AreStarted project.now grid standing row facts.now
        → map levels_of levels.new.list ≡ carried_at project.now grid standing row seconds }
    ensures count { length levels.new.list ≡ tank_count project.now }
    ensures room { length levels.old.list + levels.old.spare ≤ length levels.new.list + levels.new.spare }
{
    levels.clear();
    for tank in 0..project.tanks.len() {
        let level = carried_of(project, facts, tank as u32, seconds);
        add_level(levels, level);
    }
}
