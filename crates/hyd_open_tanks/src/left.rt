//! The stocks of all tanks with which the next period begins.
#![tactic(auto)]

ghost use Rattle.std.specs.Prelude.{◌≡◌, ◌<◌, ◌≤◌, ◌+◌, ◌^◌, ◌++◌, ◌∷◌, [], ℕ, Some, length, map, slice_get};
ghost use Rattle.std.specs.Option.{option_map};
ghost use Rattle.hyd_net.specs.Sound.{IsSound};
ghost use Rattle.hyd_spec.specs.ProgramTypes.{Tank};
ghost use Rattle.hyd_spec.specs.NodeNumbers.{tank_count};
ghost use Rattle.hyd_spec.specs.Tank.{walls_of};
ghost use Rattle.hyd_spec_certificates.specs.SpansAsIntervals.{levels_of};
ghost use Rattle.hyd_spec_certificates.specs.PeriodNetwork.{Grid};
ghost use Rattle.hyd_spec_certificates.specs.RecordAndStanding.{Standing};
ghost use Rattle.hyd_spec_open_ends.specs.OpenStandings.{OpenRecord};
ghost use Rattle.hyd_spec_open_ends.specs.OpenRecords.{levels_left, volumes_left};
ghost use Rattle.hyd_tank.specs.StockIntervals.{stocks_of, AreHeld, volumes_of};
ghost use Rattle.hyd_period_facts.specs.FactsBeforeEnd.{HaveTanks, AreStarted};
ghost use Rattle.hyd_period_facts.specs.TankStart.{stocks_among};
ghost use Rattle.hyd_open_watches.specs.Candidates.{watch_for};
ghost use Rattle.hyd_open_tanks.specs.StocksLeft.{left_in, IsInReachOf};

use crate::arrivals::arrival_at;
use crate::kept_levels::keep;
use hyd_net::{List, Project};
use hyd_open_stocks::{Lengths, carried_at_end, stock_at_end};
use hyd_open_watches::Watch;
use hyd_period_facts::{Facts, add_level, inflow_at, stock_at};
use hyd_spec_certificates::LevelSpan;
use hyd_tank::{Stock, VolumeSpan};

// The stock of one tank.
fn left_of(
    project: &Project,
    facts: &Facts,
    lengths: Lengths,
    reached: Option<Watch>,
    tank: u32,
) -> Stock
    requires sound { IsSound project.now }
    requires tanks { HaveTanks project.now facts.now }
    requires shortest { lengths.shortest ≤ 10 ^ 8 }
    requires longest { lengths.longest ≤ 10 ^ 8 }
    requires reach { IsInReachOf project.now facts.now reached }
    requires in_range { tank < length project.now.tanks.list }
    ensures value { (each : Tank) → slice_get project.now.tanks.list tank ≡ Some each
        → stocks_of result ≡ left_in project.now facts.now lengths.shortest lengths.longest
        (option_map watch_for reached) tank each }
    ensures held { (each : Tank) → slice_get project.now.tanks.list tank ≡ Some each
        → AreHeld (walls_of project.now each) each (stocks_of result) }
{
    let stock = stock_at(facts, tank);
    let inflow = inflow_at(facts, tank);
    let arrival = arrival_at(lengths.shortest, reached, tank);
    let carried = carried_at_end(project, tank, stock, inflow, lengths, arrival);
    let next = stock_at_end(project, tank, stock, inflow, lengths, arrival);
    Stock {
        level: keep(project, tank, carried, next.level),
        volume: next.volume,
    }
}

// Appends volumes, for which there is room.
fn add_volume(volumes: &mut List<VolumeSpan>, volume: VolumeSpan)
    requires { 0 < volumes.old.spare }
    ensures list { volumes.new.list ≡ volumes.old.list ++ volume ∷ [] }
    ensures spare { volumes.old.spare ≤ volumes.new.spare + 1 }
{
    volumes.push(volume).unwrap();
}

/// Puts the levels and the volumes of tanks with which the next period begins, after a period of such lengths at whose
/// end this level has just been reached, if any. The facts hold the stocks at its start and what flows into its tanks.
/// What the lists held before goes. They have room for an item for each tank, so no memory is taken.
pub(crate) fn put_left(
    project: &Project,
    facts: &Facts,
    lengths: Lengths,
    reached: Option<Watch>,
    levels: &mut List<LevelSpan>,
    volumes: &mut List<VolumeSpan>,
)
    requires sound { IsSound project.now }
    requires tanks { HaveTanks project.now facts.now }
    requires shortest { lengths.shortest ≤ 10 ^ 8 }
    requires longest { lengths.longest ≤ 10 ^ 8 }
    requires reach { IsInReachOf project.now facts.now reached }
    requires levels_room { tank_count project.now ≤ length levels.old.list + levels.old.spare }
    requires volumes_room { tank_count project.now ≤ length volumes.old.list + volumes.old.spare }
    ensures levels { (grid : Grid) (standing : Standing) (found : OpenRecord)
        → AreStarted project.now grid standing found.row facts.now → found.shortest ≡ lengths.shortest
        → found.row.length ≡ lengths.longest → map levels_of levels.new.list
        ≡ levels_left project.now grid standing found (option_map watch_for reached) }
    ensures volumes { (grid : Grid) (standing : Standing) (found : OpenRecord)
        → AreStarted project.now grid standing found.row facts.now → found.shortest ≡ lengths.shortest
        → found.row.length ≡ lengths.longest → map volumes_of volumes.new.list
        ≡ volumes_left project.now grid standing found (option_map watch_for reached) }
    ensures held { (k : ℕ) (each : Tank) → slice_get project.now.tanks.list k ≡ Some each
        → AreHeld (walls_of project.now each) each (stocks_among levels.new.list volumes.new.list k) }
    ensures levels_count { length levels.new.list ≡ tank_count project.now }
    ensures volumes_count { length volumes.new.list ≡ tank_count project.now }
    ensures levels_stay { length levels.old.list + levels.old.spare ≤ length levels.new.list + levels.new.spare }
    ensures volumes_stay { length volumes.old.list + volumes.old.spare ≤ length volumes.new.list + volumes.new.spare }
{
    levels.clear();
    volumes.clear();
    for tank in 0..project.tanks.len() {
        let left = left_of(project, facts, lengths, reached, tank as u32);
        add_level(levels, left.level);
        add_volume(volumes, left.volume);
    }
}
