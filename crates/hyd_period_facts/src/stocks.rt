//! The stocks of all tanks with which the next period begins.
#![tactic(auto)]

ghost use Rattle.std.specs.Prelude.{◌≡◌, ◌<◌, ◌≤◌, ◌+◌, ◌^◌, ◌++◌, ◌∷◌, [], ℕ, Some, length, map, slice_get};
ghost use Rattle.hyd_net.specs.Sound.{IsSound};
ghost use Rattle.hyd_spec.specs.ProgramTypes.{Tank};
ghost use Rattle.hyd_spec.specs.NodeNumbers.{tank_count};
ghost use Rattle.hyd_spec.specs.Tank.{walls_of};
ghost use Rattle.hyd_spec_certificates.specs.SpansAsIntervals.{levels_of};
ghost use Rattle.hyd_spec_certificates.specs.PeriodNetwork.{Grid};
ghost use Rattle.hyd_spec_certificates.specs.RecordAndStanding.{Record, Standing};
ghost use Rattle.hyd_spec_certificates.specs.Valid.{levels_next, volumes_next};
ghost use Rattle.hyd_tank.specs.StockIntervals.{stocks_of, AreHeld, volumes_of};
ghost use Rattle.hyd_period_facts.specs.FactsBeforeEnd.{HaveTanks, AreStarted};
ghost use Rattle.hyd_period_facts.specs.TankStart.{next_in, stocks_among};

use crate::facts::Facts;
use crate::levels_and_level_controls::add_level;
use crate::stocks_and_inflows::{inflow_at, stock_at};
use hyd_net::{List, Project};
use hyd_spec_certificates::LevelSpan;
use hyd_tank::{Stock, VolumeSpan, next_stock};

// The stock of one tank.
fn next_of(project: &Project, facts: &Facts, tank: u32, seconds: u32) -> Stock
    requires sound { IsSound project.now }
    requires tanks { HaveTanks project.now facts.now }
    requires in_range { tank < length project.now.tanks.list }
    requires seconds { seconds ≤ 10 ^ 8 }
    ensures value { (each : Tank) → slice_get project.now.tanks.list tank ≡ Some each
        → stocks_of result ≡ next_in project.now facts.now seconds tank each }
    ensures held { (each : Tank) → slice_get project.now.tanks.list tank ≡ Some each
        → AreHeld (walls_of project.now each) each (stocks_of result) }
{
    let stock = stock_at(facts, tank);
    let inflow = inflow_at(facts, tank);
    next_stock(project, tank, stock, inflow, seconds)
}

/// Appends volumes, for which there is room.
pub(crate) fn add_volume(volumes: &mut List<VolumeSpan>, volume: VolumeSpan)
    requires { 0 < volumes.old.spare }
    ensures list { volumes.new.list ≡ volumes.old.list ++ volume ∷ [] }
    ensures spare { volumes.old.spare ≤ volumes.new.spare + 1 }
{
    volumes.push(volume).unwrap();
}

/// Puts the levels and the volumes of tanks with which the next period begins, after so many seconds of a period. The
/// facts hold the stocks at its start and what flows into its tanks. What the lists held before goes. They have room
/// for an item for each tank, so no memory is taken.
pub fn put_stocks(
    project: &Project,
    facts: &Facts,
    seconds: u32,
    levels: &mut List<LevelSpan>,
    volumes: &mut List<VolumeSpan>,
)
    requires sound { IsSound project.now }
    requires tanks { HaveTanks project.now facts.now }
    requires seconds { seconds ≤ 10 ^ 8 }
    requires levels_room { tank_count project.now ≤ length levels.old.list + levels.old.spare }
    requires volumes_room { tank_count project.now ≤ length volumes.old.list + volumes.old.spare }
    ensures levels { (grid : Grid) (standing : Standing) (row : Record)
        → AreStarted project.now grid standing row facts.now
        → map levels_of levels.new.list ≡ levels_next project.now grid standing row seconds }
    ensures volumes { (grid : Grid) (standing : Standing) (row : Record)
        → AreStarted project.now grid standing row facts.now
        → map volumes_of volumes.new.list ≡ volumes_next project.now grid standing row seconds }
    ensures held { (k : ℕ) (each : Tank) → slice_get project.now.tanks.list k ≡ Some each
        → AreHeld (walls_of project.now each) each (stocks_among levels.new.list volumes.new.list k) }
    ensures levels_count { length levels.new.list ≡ tank_count project.now }
    ensures volumes_count { length volumes.new.list ≡ tank_count project.now }
    ensures levels_stay { length levels.old.list + levels.old.spare ≤ length levels.new.list + levels.new.spare }
    ensures volumes_stay { length volumes.old.list + volumes.old.spare ≤ length volumes.new.list + volumes.new.spare }
{
    levels.clear();
    volumes.clear();
    for tank in 0..project.tanks.len() {
        let next = next_of(project, facts, tank as u32, seconds);
        add_level(levels, next.level);
        add_volume(volumes, next.volume);
    }
}
