//! The stocks that a spread allows at the start of a run.
#![tactic(auto)]

ghost use Rattle.std.specs.Prelude.{◌≡◌, ◌<◌, ◌≤◌, ◌+◌, ◌*◌, ◌++◌, ◌∷◌, [], pos, ℕ, Some, length, map, slice_get};
ghost use Rattle.hyd_net.specs.NumberRanges.{Lies, head_limit};
ghost use Rattle.hyd_net.specs.Sound.{IsSound};
ghost use Rattle.hyd_spec.specs.ProgramTypes.{Tank};
ghost use Rattle.hyd_spec.specs.NodeNumbers.{tank_count};
ghost use Rattle.hyd_spec.specs.Tank.{walls_of};
ghost use Rattle.hyd_spec_certificates.specs.SpansAsIntervals.{levels_of};
ghost use Rattle.hyd_spec_spread.specs.Spreads.{IsSpread, level_interval};
ghost use Rattle.hyd_spec_spread.specs.IntervalsOfData.{known_levels, known_volumes};
ghost use Rattle.hyd_spec_spread_rows.specs.TextsOfSpreads.{at_both, interval_from};
ghost use Rattle.hyd_tank.specs.StockIntervals.{AreHeld, stocks_of, volumes_of};
ghost use Rattle.hyd_known_stocks.specs.KnownStocks.{stocks_between};
ghost use Rattle.hyd_period_facts.specs.TankStart.{stocks_among};
ghost use Rattle.hyd_spread_rows.specs.SpreadsRead.{spread_of};

use hyd_known_stocks::stock_between;
use hyd_net::{List, Project, Tank};
use hyd_period_facts::add_level;
use hyd_spec_certificates::LevelSpan;
use hyd_spec_spread_rows::Ends;
use hyd_spread_rows::SpreadRows;
use hyd_tank::{Stock, VolumeSpan, tank_at};

// Two ends as levels.
fn span_of(ends: Ends) -> LevelSpan
    requires low { Lies (pos 0) (pos (2 * head_limit)) ends.low }
    requires high { Lies (pos 0) (pos (2 * head_limit)) ends.high }
    ensures { levels_of result ≡ interval_from ends }
{
    LevelSpan {
        lo: ends.low as i64,
        hi: ends.high as i64,
    }
}

// A tank's initial level as both ends.
fn own_level(tank: &Tank) -> Ends
    ensures { result ≡ at_both tank.now.initial }
{
    Ends {
        low: i128::from(tank.initial),
        high: i128::from(tank.initial),
    }
}

// The ends of a tank's level: its initial level twice where no rows say anything of tanks.
fn ends_at(project: &Project, rows: &SpreadRows, tank: u32) -> Ends
    requires { tank < length project.now.tanks.list }
    ensures { (each : Tank) → slice_get project.now.tanks.list tank ≡ Some each
        → interval_from result ≡ level_interval (spread_of rows.now) tank each }
{
    let place = tank as usize;
    if place < rows.levels.len() {
        return rows.levels[place];
    }
    own_level(&tank_at(project, tank))
}

// The stock of a tank: the levels that the spread allows, and the volumes that are kept at both.
fn stock_of(project: &Project, rows: &SpreadRows, tank: u32) -> Stock
    requires sound { IsSound project.now }
    requires spread { IsSpread project.now (spread_of rows.now) }
    requires tank { tank < length project.now.tanks.list }
    ensures value { (each : Tank) → slice_get project.now.tanks.list tank ≡ Some each
        → stocks_of result
        ≡ stocks_between (walls_of project.now each) (level_interval (spread_of rows.now) tank each) }
    ensures held { (each : Tank) → slice_get project.now.tanks.list tank ≡ Some each
        → AreHeld (walls_of project.now each) each (stocks_of result) }
{
    let level = span_of(ends_at(project, rows, tank));
    stock_between(project, tank, level)
}

// Appends volumes, for which there is room.
fn add_volume(volumes: &mut List<VolumeSpan>, volume: VolumeSpan)
    requires { 0 < volumes.old.spare }
    ensures list { volumes.new.list ≡ volumes.old.list ++ volume ∷ [] }
    ensures spare { volumes.old.spare ≤ volumes.new.spare + 1 }
{
    volumes.push(volume).unwrap();
}

/// Puts the levels and the volumes of tanks that a spread allows at the start of a run. What the lists held before
/// goes. They have room for an item for each tank, so no memory is taken.
pub(crate) fn put_known(
    project: &Project,
    rows: &SpreadRows,
    levels: &mut List<LevelSpan>,
    volumes: &mut List<VolumeSpan>,
)
    requires sound { IsSound project.now }
    requires spread { IsSpread project.now (spread_of rows.now) }
    requires levels_room { tank_count project.now ≤ length levels.old.list + levels.old.spare }
    requires volumes_room { tank_count project.now ≤ length volumes.old.list + volumes.old.spare }
    ensures levels { map levels_of levels.new.list ≡ known_levels project.now (spread_of rows.now) }
    ensures volumes { map volumes_of volumes.new.list ≡ known_volumes project.now (spread_of rows.now) }
    ensures held { (k : ℕ) (each : Tank) → slice_get project.now.tanks.list k ≡ Some each
        → AreHeld (walls_of project.now each) each (stocks_among levels.new.list volumes.new.list k) }
    ensures levels_count { length levels.new.list ≡ tank_count project.now }
    ensures volumes_count { length volumes.new.list ≡ tank_count project.now }
    ensures levels_stay { length levels.old.list + levels.old.spare ≤ length levels.new.list + levels.new.spare }
    ensures volumes_stay { length volumes.old.list + volumes.old.spare ≤ length volumes.new.list + volumes.new.spare }
{
    levels.clear();
    volumes.clear();
    for tank in 0..project.tanks.len() {
        let stock = stock_of(project, rows, tank as u32);
        add_level(levels, stock.level);
        add_volume(volumes, stock.volume);
    }
}
