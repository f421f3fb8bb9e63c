//! The stocks of tanks with which a moment begins, in parts of ticks.
#![tactic(auto)]

ghost use Rattle.std.specs.Prelude.{◌≡◌, ◌<◌, ◌≤◌, ℕ, length, unsigned_abs};
ghost use Rattle.std.specs.List.{All};
ghost use Rattle.hyd_net.specs.Sound.{IsSound};
ghost use Rattle.hyd_spec.specs.NodeNumbers.{tank_count};
ghost use Rattle.hyd_spec_witnesses.specs.WitnessText.{AreValues};
ghost use Rattle.hyd_stocks_at_scale.specs.Motions.{IsSmallStock, content_limit, inflow_limit};
ghost use Rattle.hyd_course.specs.Standings.{IsStanding, IsSmallInflow};

use crate::values::put_value;
use hyd_course::Standing;
use hyd_laws_at_scale::Scale;
use hyd_net::{List, Project};
use hyd_num::Span;
use hyd_stocks_at_scale::{Stock, carried_level};
use hyd_tank::{VolumeSpan, initial_stock, stock_at, tank_at};

/// How many shares a part of a volume tick has: a part of a flow tick for a second is one of them.
const SHARES: i128 = 864;

/// More than a tank takes or gives in `LONG` seconds, in flow ticks.
const GREAT_INFLOW: i128 = 1_000_000_000_000_000_000_000_000_000;

/// Some seconds.
const LONG: u32 = 100_000_000;

/// More than a tank holds, in parts of ticks.
const GREATEST_CONTENT: i128 = 1_100_000_000_000_000_000_000;

// The volumes that are kept of a tank at its minimum and at its maximum: those to which a great inflow empties and
// fills it.
fn kept_volumes(project: &Project, tank: u32) -> VolumeSpan
    requires sound { IsSound project.now }
    requires tank { tank < length project.now.tanks.list }
{
    let stock = initial_stock(project, tank);
    let either_way = Span {
        lo: -GREAT_INFLOW,
        hi: GREAT_INFLOW,
    };
    stock_at(project, tank, stock, either_way, LONG).volume
}

// A number of shares in whole parts, held from a least to a greatest number of ticks.
fn held_volume(scale: Scale, volumes: VolumeSpan, shares: i128) -> i128 {
    let least = scale.in_parts(i128::from(volumes.lo));
    let most = scale.in_parts(i128::from(volumes.hi));
    shares.div_euclid(SHARES).max(least).min(most)
}

// A volume that a tank may have.
fn within_tank(volume: i128) -> i128
    ensures { unsigned_abs result ≤ content_limit }
{
    volume.clamp(-GREATEST_CONTENT, GREATEST_CONTENT)
}

// The volume after some seconds, held within its bounds and rounded down.
fn volume_after(scale: Scale, volumes: VolumeSpan, volume: i128, inflow: i128, seconds: u32) -> i128
    ensures { unsigned_abs result ≤ content_limit }
{
    let gained = i128::from(seconds).saturating_mul(inflow);
    let shares = SHARES.saturating_mul(volume).saturating_add(gained);
    within_tank(held_volume(scale, volumes, shares))
}

// The stock of a tank with a volume curve after some seconds: its volume, and the level that goes with that.
fn stock_on_curve(
    project: &Project,
    tank: u32,
    scale: Scale,
    stock: Stock,
    inflow: i128,
    seconds: u32,
) -> Stock
    requires sound { IsSound project.now }
    requires tank { tank < length project.now.tanks.list }
{
    let volumes = kept_volumes(project, tank);
    let volume = volume_after(scale, volumes, stock.volume, inflow, seconds);
    let filled = Stock { level: 0, volume };
    Stock {
        level: carried_level(project, tank, scale, filled, 0, 0).whole,
        volume,
    }
}

// The stock of a tank after some seconds of an inflow, rounded down.
fn stock_after(
    project: &Project,
    tank: u32,
    scale: Scale,
    stock: Stock,
    inflow: i128,
    seconds: u32,
) -> Stock
    requires sound { IsSound project.now }
    requires tank { tank < length project.now.tanks.list }
    requires stock { IsSmallStock stock }
    requires inflow { unsigned_abs inflow ≤ inflow_limit }
{
    match tank_at(project, tank).shape {
        None => Stock {
            level: carried_level(project, tank, scale, stock, inflow, seconds).whole,
            volume: 0,
        },
        Some(_) => stock_on_curve(project, tank, scale, stock, inflow, seconds),
    }
}

// The stock of a tank with which the file begins.
fn stock_of_file(project: &Project, tank: u32, scale: Scale) -> Stock
    requires sound { IsSound project.now }
    requires tank { tank < length project.now.tanks.list }
{
    let stock = initial_stock(project, tank);
    Stock {
        level: scale.in_parts(i128::from(stock.level.lo)),
        volume: scale.in_parts(i128::from(stock.volume.lo)),
    }
}

// The stock that is kept of a tank.
fn stock_in(stocks: &[Stock], tank: u32) -> Stock
    requires there { tank < length stocks.now }
    requires small { All IsSmallStock stocks.now }
    ensures { IsSmallStock result }
{
    stocks[tank as usize]
}

// What is kept of the inflow of a tank.
fn inflow_in(inflows: &[i128], tank: u32) -> i128
    requires there { tank < length inflows.now }
    requires small { All IsSmallInflow inflows.now }
    ensures { unsigned_abs result ≤ inflow_limit }
{
    inflows[tank as usize]
}

// The stock of a tank where a course stands: the file's at the start, else that after the last period.
fn stock_here(project: &Project, standing: &Standing, tank: u32) -> Stock
    requires sound { IsSound project.now }
    requires standing { IsStanding project.now standing.now }
    requires tank { tank < length project.now.tanks.list }
{
    let scale = standing.scale;
    match standing.last {
        None => stock_of_file(project, tank, scale),
        Some(last) => {
            let stock = stock_in(&standing.stocks, tank);
            let inflow = inflow_in(&standing.inflows, tank);
            stock_after(project, tank, scale, stock, inflow, last.length)
        }
    }
}

// Writes the level and the volume of a tank.
fn put_stock(levels: &mut [i128], volumes: &mut [i128], tank: u32, stock: Stock)
    ensures levels { (count : ℕ) → AreValues count levels.old → AreValues count levels.new }
    ensures volumes { (count : ℕ) → AreValues count volumes.old → AreValues count volumes.new }
{
    put_value(levels, tank as usize, stock.level);
    put_value(volumes, tank as usize, stock.volume);
}

// Puts the level and the volume of each tank.
fn put_each_stock(project: &Project, standing: &Standing, levels: &mut [i128], volumes: &mut [i128])
    requires sound { IsSound project.now }
    requires standing { IsStanding project.now standing.now }
    ensures levels { (count : ℕ) → AreValues count levels.old → AreValues count levels.new }
    ensures volumes { (count : ℕ) → AreValues count volumes.old → AreValues count volumes.new }
{
    for tank in 0..project.tanks.len() as u32 {
        put_stock(levels, volumes, tank, stock_here(project, standing, tank));
    }
}

/// Puts the level and the volume of each tank where a course stands, rounded down or at a bound.
pub(crate) fn put_stocks(
    project: &Project,
    standing: &Standing,
    levels: &mut List<i128>,
    volumes: &mut List<i128>,
)
    requires sound { IsSound project.now }
    requires standing { IsStanding project.now standing.now }
    ensures levels { (count : ℕ) → AreValues count levels.old.list → AreValues count levels.new.list }
    ensures volumes { (count : ℕ) → AreValues count volumes.old.list → AreValues count volumes.new.list }
{
    put_each_stock(
        project,
        standing,
        levels.as_mut_slice(),
        volumes.as_mut_slice(),
    );
}
