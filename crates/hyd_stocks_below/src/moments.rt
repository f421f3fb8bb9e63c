//! The stocks of all tanks as the middle candidate begins.
#![tactic(auto)]

ghost use Rattle.std.specs.Prelude.{◌≡◌, ◌<◌, Some, None, pos, length, slice_get, slice_index_or, slice_set};
ghost use Rattle.std.specs.List.{All};
ghost use Rattle.hyd_net.specs.Sound.{IsSound};
ghost use Rattle.hyd_spec.specs.Lists.{Each};
ghost use Rattle.hyd_spec.specs.NodeNumbers.{tank_count};
ghost use Rattle.hyd_spec.specs.PeriodLength.{Period};
ghost use Rattle.hyd_spec.specs.ProgramTypes.{Tank};
ghost use Rattle.hyd_spec_witnesses.specs.MiddleCandidate.{stock_at};
ghost use Rattle.hyd_spec_witnesses.specs.WitnessText.{AreValues};
ghost use Rattle.hyd_stocks_at_scale.specs.Motions.{stock_of, IsSmallStock};
ghost use Rattle.hyd_stocks_below.specs.KeptStocks.{AreKept, IsSmallInflow};

use crate::stocks::stock_below;
use crate::volumes::in_halves;
use hyd_net::Project;
use hyd_stocks_at_scale::Stock;
use hyd_tank::initial_stock;

// Writes the level and the volume of a tank.
fn store(levels: &mut [i128], volumes: &mut [i128], tank: u32, stock: Stock)
    requires level_there { tank < length levels.old }
    requires volume_there { tank < length volumes.old }
    ensures levels { levels.new ≡ slice_set levels.old tank stock.level }
    ensures volumes { volumes.new ≡ slice_set volumes.old tank stock.volume }
{
    levels[tank as usize] = stock.level;
    volumes[tank as usize] = stock.volume;
}

// The stock of a tank.
fn stock_in(stocks: &[Stock], tank: u32) -> Stock
    requires there { tank < length stocks.now }
    requires small { All IsSmallStock stocks.now }
    ensures value { slice_get stocks.now tank ≡ Some result }
    ensures small { IsSmallStock result }
{
    stocks[tank as usize]
}

// What flows into a tank.
fn inflow_in(inflows: &[i128], tank: u32) -> i128
    requires there { tank < length inflows.now }
    requires small { All IsSmallInflow inflows.now }
    ensures value { result ≡ slice_index_or inflows.now tank (pos 0) }
    ensures small { IsSmallInflow result }
{
    inflows[tank as usize]
}

// The stock of a tank with which the file begins.
fn stock_of_file(project: &Project, tank: u32) -> Stock
    requires sound { IsSound project.now }
    requires tank { tank < length project.now.tanks.list }
    ensures value { (each : Tank) → slice_get project.now.tanks.list tank ≡ Some each
        → stock_of result ≡ stock_at project.now None tank each }
    ensures small { IsSmallStock result }
{
    let stock = initial_stock(project, tank);
    Stock {
        level: in_halves(stock.level.lo),
        volume: in_halves(stock.volume.lo),
    }
}

/// Puts the level and the volume of each tank as the file begins, in halves of ticks.
pub fn put_stocks_of_file(project: &Project, levels: &mut [i128], volumes: &mut [i128])
    requires sound { IsSound project.now }
    requires levels { AreValues (tank_count project.now) levels.old }
    requires volumes { AreValues (tank_count project.now) volumes.old }
    ensures levels { Each project.now.tanks.list (λ k tank. slice_index_or levels.new k (pos 0)
        ≡ (stock_at project.now None k tank).level) }
    ensures volumes { Each project.now.tanks.list (λ k tank. slice_index_or volumes.new k (pos 0)
        ≡ (stock_at project.now None k tank).volume) }
    ensures levels_fit { AreValues (tank_count project.now) levels.new }
    ensures volumes_fit { AreValues (tank_count project.now) volumes.new }
{
    for tank in 0..levels.len() as u32 {
        store(levels, volumes, tank, stock_of_file(project, tank));
    }
}

/// Puts the level and the volume of each tank, rounded down, so many seconds after a period began with these stocks
/// under these inflows, in halves of ticks and flow ticks.
pub fn put_stocks_below(
    project: &Project,
    seconds: u32,
    stocks: &[Stock],
    inflows: &[i128],
    levels: &mut [i128],
    volumes: &mut [i128],
)
    requires sound { IsSound project.now }
    requires stock_each { length stocks.now ≡ tank_count project.now }
    requires inflow_each { length inflows.now ≡ tank_count project.now }
    requires stocks { All IsSmallStock stocks.now }
    requires inflows { All IsSmallInflow inflows.now }
    requires levels { AreValues (tank_count project.now) levels.old }
    requires volumes { AreValues (tank_count project.now) volumes.old }
    ensures levels { (before : Period) → AreKept project.now before seconds stocks.now inflows.now
        → Each project.now.tanks.list (λ k tank. slice_index_or levels.new k (pos 0)
        ≡ (stock_at project.now (Some before) k tank).level) }
    ensures volumes { (before : Period) → AreKept project.now before seconds stocks.now inflows.now
        → Each project.now.tanks.list (λ k tank. slice_index_or volumes.new k (pos 0)
        ≡ (stock_at project.now (Some before) k tank).volume) }
    ensures levels_fit { AreValues (tank_count project.now) levels.new }
    ensures volumes_fit { AreValues (tank_count project.now) volumes.new }
{
    for tank in 0..levels.len() as u32 {
        let stock = stock_in(stocks, tank);
        let inflow = inflow_in(inflows, tank);
        let next = stock_below(project, tank, stock, inflow, seconds);
        store(levels, volumes, tank, next);
    }
}
