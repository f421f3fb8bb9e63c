//! The carried levels of all tanks at the end of a period whose length lies between two seconds.
#![tactic(auto)]

ghost use Rattle.std.specs.Prelude.{◌≡◌, ◌<◌, ◌≤◌, ◌+◌, ◌^◌, Some, length, map, slice_get};
ghost use Rattle.std.specs.Option.{option_map};
ghost use Rattle.hyd_net.specs.Sound.{IsSound};
ghost use Rattle.hyd_spec.specs.ProgramTypes.{Tank};
ghost use Rattle.hyd_spec.specs.NodeNumbers.{tank_count};
ghost use Rattle.hyd_spec_certificates.specs.SpansAsIntervals.{levels_of};
ghost use Rattle.hyd_spec_certificates.specs.PeriodNetwork.{Grid};
ghost use Rattle.hyd_spec_certificates.specs.RecordAndStanding.{Standing};
ghost use Rattle.hyd_spec_open_ends.specs.OpenStandings.{OpenRecord};
ghost use Rattle.hyd_spec_open_reports.specs.OpenReport.{all_carried_left};
ghost use Rattle.hyd_period_facts.specs.FactsBeforeEnd.{HaveTanks, AreStarted};
ghost use Rattle.hyd_open_watches.specs.Candidates.{watch_for};
ghost use Rattle.hyd_open_tanks.specs.StocksLeft.{IsInReachOf};
ghost use Rattle.hyd_open_period_end.specs.CarriedAtEnd.{carried_left_in};

use crate::arrivals::arrival_at;
use hyd_net::{List, Project};
use hyd_open_stocks::{Lengths, carried_at_end};
use hyd_open_watches::Watch;
use hyd_period_facts::{Facts, add_level, inflow_at, stock_at};
use hyd_spec_certificates::LevelSpan;

// The carried levels of one tank.
fn carried_of(
    project: &Project,
    facts: &Facts,
    lengths: Lengths,
    reached: Option<Watch>,
    tank: u32,
) -> LevelSpan
    requires sound { IsSound project.now }
    requires tanks { HaveTanks project.now facts.now }
    requires shortest { lengths.shortest ≤ 10 ^ 8 }
    requires longest { lengths.longest ≤ 10 ^ 8 }
    requires reach { IsInReachOf project.now facts.now reached }
    requires in_range { tank < length project.now.tanks.list }
    ensures { (each : Tank) → slice_get project.now.tanks.list tank ≡ Some each
        → levels_of result ≡ carried_left_in project.now facts.now lengths.shortest lengths.longest
        (option_map watch_for reached) tank each }
{
    let stock = stock_at(facts, tank);
    let inflow = inflow_at(facts, tank);
    let arrival = arrival_at(lengths.shortest, reached, tank);
    carried_at_end(project, tank, stock, inflow, lengths, arrival)
}

/// Puts the levels of tanks carried to the end of a period of such lengths, cut by the level that has just been reached
/// there, if any. The facts hold the stocks at its start and what flows into its tanks; the level is in its tank's
/// reach. What the list held before goes. It has room for an item for each tank, so no memory is taken.
pub(crate) fn put_carried_at_end(
    project: &Project,
    facts: &Facts,
    lengths: Lengths,
    reached: Option<Watch>,
    levels: &mut List<LevelSpan>,
)
    requires sound { IsSound project.now }
    requires tanks { HaveTanks project.now facts.now }
    requires shortest { lengths.shortest ≤ 10 ^ 8 }
    requires longest { lengths.longest ≤ 10 ^ 8 }
    requires reach { IsInReachOf project.now facts.now reached }
    requires room { tank_count project.now ≤ length levels.old.list + levels.old.spare }
    ensures levels { (grid : Grid) (standing : Standing) (found : OpenRecord)
        → AreStarted project.now grid standing found.row facts.now → found.shortest ≡ lengths.shortest
        → found.row.length ≡ lengths.longest → map levels_of levels.new.list
        ≡ all_carried_left project.now grid standing found (option_map watch_for reached) }
    ensures count { length levels.new.list ≡ tank_count project.now }
    ensures room { length levels.old.list + levels.old.spare ≤ length levels.new.list + levels.new.spare }
{
    levels.clear();
    for tank in 0..project.tanks.len() {
        let level = carried_of(project, facts, lengths, reached, tank as u32);
        add_level(levels, level);
    }
}
