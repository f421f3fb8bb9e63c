//! Stocks of a tank with a volume curve and its first seconds, against an independent program in exact arithmetic.
#![tactic(auto)]

ghost use Rattle.std.specs.Prelude.{◌≡◌, pos, slice_get, Some, IfSome, IsTrue};
ghost use Rattle.hyd_net.specs.Sound.{IsSound};
ghost use Rattle.hyd_spec.specs.ProgramTypes.{Tank};
ghost use Rattle.hyd_spec.specs.Tank.{walls_of};
ghost use Rattle.hyd_theorems_on_definitions.specs.LyingInIntervals.{IsWithin};
ghost use Rattle.hyd_tank.specs.StockIntervals.{AreHeld, IsInflow, stocks_of};
ghost use Rattle.hyd_tests_on_tanks_and_demands.specs.Basins.{knees, IsBasin, HasBasin};

use crate::networks_from_texts::{levels, read};
use hyd_net::{Project, Tank, VolumePoint};
use hyd_num::Span;
use hyd_tank::{Stock, VolumeSpan, first_stock, next_stock, stock_at};
use hyd_test_helpers::METRE;
use std::test::Fail;

/// A tank from 2 to 9 metres, with a curve that bends at 2, 4 and 8 metres.
const TEXT: &str = "[OPTIONS]\nUNITS CMD\nHEADLOSS C-M\n\
    [TANKS]\nT 10 5 2 9 20 0 C\n\
    [CURVES]\nC 0 0\nC 2 50\nC 4 120.5\nC 8 500\nC 10 1000\n";

/// Its curve.
const CURVE: [VolumePoint; 5] = [
    VolumePoint {
        level: 0,
        volume: 0,
    },
    VolumePoint {
        level: 2 * METRE,
        volume: 50_000_000_000,
    },
    VolumePoint {
        level: 4 * METRE,
        volume: 120_500_000_000,
    },
    VolumePoint {
        level: 8 * METRE,
        volume: 500_000_000_000,
    },
    VolumePoint {
        level: 10 * METRE,
        volume: 1_000_000_000_000,
    },
];

/// Levels and volumes, each from one to another.
type Content = ((i64, i64), (i64, i64));

/// A stock, an inflow, a time in seconds, the stock with which the next period begins, and the stock carried to it.
const MOVES: [(Content, (i128, i128), u32, Content, Content); 14] = [
    (
        (
            (40_000_000_000_000, 40_000_000_000_000),
            (120_500_000_000, 120_500_000_000),
        ),
        (0, 0),
        3_600,
        (
            (39_999_999_997_153, 40_000_000_001_065),
            (120_499_999_990, 120_500_000_010),
        ),
        (
            (40_000_000_000_000, 40_000_000_000_000),
            (120_500_000_000, 120_500_000_000),
        ),
    ),
    (
        (
            (40_000_000_000_000, 40_000_000_000_000),
            (120_500_000_000, 120_500_000_000),
        ),
        (1, 1),
        1,
        (
            (39_999_999_997_153, 40_000_000_001_170),
            (120_499_999_990, 120_500_000_011),
        ),
        (
            (40_000_000_000_000, 40_000_000_000_001),
            (120_500_000_000, 120_500_000_001),
        ),
    ),
    (
        (
            (40_000_000_000_000, 40_000_000_000_000),
            (120_500_000_000, 120_500_000_000),
        ),
        (-1, -1),
        1,
        (
            (39_999_999_996_869, 40_000_000_001_065),
            (120_499_999_989, 120_500_000_010),
        ),
        (
            (39_999_999_999_999, 40_000_000_000_000),
            (120_499_999_999, 120_500_000_000),
        ),
    ),
    (
        (
            (20_000_000_000_000, 20_000_000_000_000),
            (50_000_000_000, 50_000_000_000),
        ),
        (-1_000_000_000, -1_000_000_000),
        60,
        (
            (20_000_000_000_000, 20_000_000_000_000),
            (50_000_000_000, 50_000_000_000),
        ),
        (
            (20_000_000_000_000, 20_000_000_000_000),
            (50_000_000_000, 50_000_000_000),
        ),
    ),
    (
        (
            (90_000_000_000_000, 90_000_000_000_000),
            (750_000_000_000, 750_000_000_000),
        ),
        (1_000_000_000, 1_000_000_000),
        60,
        (
            (90_000_000_000_000, 90_000_000_000_000),
            (750_000_000_000, 750_000_000_000),
        ),
        (
            (90_000_000_000_000, 90_000_000_000_000),
            (750_000_000_000, 750_000_000_000),
        ),
    ),
    (
        (
            (20_000_000_000_000, 20_000_000_000_000),
            (50_000_000_000, 50_000_000_000),
        ),
        (24_000_000_000, 24_000_000_000),
        3_600,
        (
            (43_109_354_412_638, 43_109_354_414_767),
            (149_999_999_990, 150_000_000_010),
        ),
        (
            (43_109_354_413_702, 43_109_354_413_703),
            (150_000_000_000, 150_000_000_000),
        ),
    ),
    (
        (
            (90_000_000_000_000, 90_000_000_000_000),
            (750_000_000_000, 750_000_000_000),
        ),
        (-240_000_000, -240_000_000),
        1,
        (
            (89_999_988_888_470, 89_999_988_889_330),
            (749_999_722_212, 749_999_722_233),
        ),
        (
            (89_999_988_888_888, 89_999_988_888_889),
            (749_999_722_222, 749_999_722_223),
        ),
    ),
    (
        (
            (30_000_000_000_000, 30_000_000_000_000),
            (85_250_000_000, 85_250_000_000),
        ),
        (144_000_000_000, 144_000_000_000),
        3_600,
        (
            (87_409_999_999_590, 87_410_000_000_410),
            (685_249_999_990, 685_250_000_010),
        ),
        (
            (87_410_000_000_000, 87_410_000_000_000),
            (685_250_000_000, 685_250_000_000),
        ),
    ),
    (
        (
            (50_000_000_000_000, 60_000_000_000_000),
            (215_375_000_000, 310_250_000_000),
        ),
        (-20_000_000_000, 30_000_000_000),
        1_800,
        (
            (45_608_256_476_722, 66_587_615_284_332),
            (173_708_333_323, 372_750_000_010),
        ),
        (
            (45_608_256_477_821, 66_587_615_283_268),
            (173_708_333_333, 372_750_000_000),
        ),
    ),
    (
        (
            (50_000_000_000_000, 60_000_000_000_000),
            (215_375_000_000, 310_250_000_000),
        ),
        (-50_000_000_000, -40_000_000_000),
        7_200,
        (
            (20_000_000_000_000, 20_000_000_000_000),
            (50_000_000_000, 50_000_000_000),
        ),
        (
            (20_000_000_000_000, 20_000_000_000_000),
            (50_000_000_000, 50_000_000_000),
        ),
    ),
    (
        (
            (50_000_000_000_000, 50_000_000_000_000),
            (215_375_000_000, 215_375_000_000),
        ),
        (
            1_000_000_000_000_000_000_000_000_000,
            1_000_000_000_000_000_000_000_000_000,
        ),
        100_000_000,
        (
            (90_000_000_000_000, 90_000_000_000_000),
            (750_000_000_000, 750_000_000_000),
        ),
        (
            (90_000_000_000_000, 90_000_000_000_000),
            (750_000_000_000, 750_000_000_000),
        ),
    ),
    (
        (
            (50_000_000_000_000, 50_000_000_000_000),
            (215_375_000_000, 215_375_000_000),
        ),
        (
            -1_000_000_000_000_000_000_000_000_000,
            -1_000_000_000_000_000_000_000_000_000,
        ),
        100_000_000,
        (
            (20_000_000_000_000, 20_000_000_000_000),
            (50_000_000_000, 50_000_000_000),
        ),
        (
            (20_000_000_000_000, 20_000_000_000_000),
            (50_000_000_000, 50_000_000_000),
        ),
    ),
    (
        (
            (20_000_000_000_000, 90_000_000_000_000),
            (50_000_000_000, 750_000_000_000),
        ),
        (
            -1_000_000_000_000_000_000_000_000_000,
            1_000_000_000_000_000_000_000_000_000,
        ),
        1,
        (
            (20_000_000_000_000, 90_000_000_000_000),
            (50_000_000_000, 750_000_000_000),
        ),
        (
            (20_000_000_000_000, 90_000_000_000_000),
            (50_000_000_000, 750_000_000_000),
        ),
    ),
    (
        (
            (50_000_000_000_000, 50_000_000_000_000),
            (215_375_000_000, 215_375_000_000),
        ),
        (7_777_777_777, 7_777_777_777),
        0,
        (
            (49_999_999_998_935, 50_000_000_001_065),
            (215_374_999_990, 215_375_000_010),
        ),
        (
            (50_000_000_000_000, 50_000_000_000_000),
            (215_375_000_000, 215_375_000_000),
        ),
    ),
];

/// A stock, an inflow, a target, whether it is risen to, a cap, and the earliest and the latest first second.
const TARGETS: [(Content, (i128, i128), i64, bool, u32, (u32, u32)); 18] = [
    (
        (
            (50_000_000_000_000, 50_000_000_000_000),
            (215_375_000_000, 215_375_000_000),
        ),
        (24_000_000_000, 24_000_000_000),
        9 * METRE,
        true,
        100_000,
        (19_247, 19_247),
    ),
    (
        (
            (50_000_000_000_000, 50_000_000_000_000),
            (215_375_000_000, 215_375_000_000),
        ),
        (24_000_000_000, 24_000_000_000),
        9 * METRE,
        true,
        1_000,
        (1_000, 1_000),
    ),
    (
        (
            (50_000_000_000_000, 50_000_000_000_000),
            (215_375_000_000, 215_375_000_000),
        ),
        (24_000_000_000, 24_000_000_000),
        8 * METRE,
        true,
        100_000,
        (10_247, 10_247),
    ),
    (
        (
            (50_000_000_000_000, 50_000_000_000_000),
            (215_375_000_000, 215_375_000_000),
        ),
        (24_000_000_000, 24_000_000_000),
        8 * METRE + 1,
        true,
        100_000,
        (10_247, 10_247),
    ),
    (
        (
            (50_000_000_000_000, 50_000_000_000_000),
            (215_375_000_000, 215_375_000_000),
        ),
        (24_000_000_000, 24_000_000_000),
        5 * METRE,
        true,
        100_000,
        (1, 1),
    ),
    (
        (
            (50_000_000_000_000, 50_000_000_000_000),
            (215_375_000_000, 215_375_000_000),
        ),
        (24_000_000_000, 24_000_000_000),
        9 * METRE + 1,
        true,
        100_000,
        (100_000, 100_000),
    ),
    (
        (
            (50_000_000_000_000, 50_000_000_000_000),
            (215_375_000_000, 215_375_000_000),
        ),
        (24_000_000_000, 24_000_000_000),
        2 * METRE,
        true,
        100_000,
        (1, 1),
    ),
    (
        (
            (50_000_000_000_000, 50_000_000_000_000),
            (215_375_000_000, 215_375_000_000),
        ),
        (0, 0),
        6 * METRE,
        true,
        100_000,
        (100_000, 100_000),
    ),
    (
        (
            (50_000_000_000_000, 50_000_000_000_000),
            (215_375_000_000, 215_375_000_000),
        ),
        (-24_000_000_000, -24_000_000_000),
        2 * METRE,
        false,
        100_000,
        (5_954, 5_954),
    ),
    (
        (
            (50_000_000_000_000, 50_000_000_000_000),
            (215_375_000_000, 215_375_000_000),
        ),
        (-24_000_000_000, -24_000_000_000),
        4 * METRE,
        false,
        100_000,
        (3_416, 3_416),
    ),
    (
        (
            (50_000_000_000_000, 50_000_000_000_000),
            (215_375_000_000, 215_375_000_000),
        ),
        (-24_000_000_000, -24_000_000_000),
        4 * METRE - 1,
        false,
        100_000,
        (3_416, 3_416),
    ),
    (
        (
            (50_000_000_000_000, 50_000_000_000_000),
            (215_375_000_000, 215_375_000_000),
        ),
        (-24_000_000_000, -24_000_000_000),
        2 * METRE - 1,
        false,
        100_000,
        (100_000, 100_000),
    ),
    (
        (
            (50_000_000_000_000, 50_000_000_000_000),
            (215_375_000_000, 215_375_000_000),
        ),
        (-24_000_000_000, -24_000_000_000),
        9 * METRE,
        false,
        100_000,
        (1, 1),
    ),
    (
        (
            (50_000_000_000_000, 50_000_000_000_000),
            (215_375_000_000, 215_375_000_000),
        ),
        (
            1_000_000_000_000_000_000_000_000_000,
            1_000_000_000_000_000_000_000_000_000,
        ),
        9 * METRE,
        true,
        100_000_000,
        (1, 1),
    ),
    (
        (
            (50_000_000_000_000, 50_000_000_000_000),
            (215_375_000_000, 215_375_000_000),
        ),
        (
            -1_000_000_000_000_000_000_000_000_000,
            -1_000_000_000_000_000_000_000_000_000,
        ),
        2 * METRE,
        false,
        0,
        (0, 0),
    ),
    (
        (
            (50_000_000_000_000, 60_000_000_000_000),
            (215_375_000_000, 310_250_000_000),
        ),
        (10_000_000_000, 30_000_000_000),
        7 * METRE,
        true,
        100_000,
        (2_733, 16_395),
    ),
    (
        (
            (50_000_000_000_000, 60_000_000_000_000),
            (215_375_000_000, 310_250_000_000),
        ),
        (-30_000_000_000, 10_000_000_000),
        3 * METRE,
        false,
        100_000,
        (3_748, 100_000),
    ),
    (
        (
            (90_000_000_000_000, 90_000_000_000_000),
            (750_000_000_000, 750_000_000_000),
        ),
        (-10_000_000, -10_000_000),
        9 * METRE,
        true,
        100_000,
        (100_000, 100_000),
    ),
];

fn stock(content: Content) -> Stock {
    Stock {
        level: levels(content.0),
        volume: VolumeSpan {
            lo: content.1.0,
            hi: content.1.1,
        },
    }
}

// All inflows from one to another, where they are in range.
fn inflow(ends: (i128, i128)) -> Option<Span>
    ensures { IfSome result (λ inflow. IsInflow inflow) }
{
    let most = 1_000_000_000_000_000_000_000_000_000;
    if ends.0 > ends.1 || ends.0.unsigned_abs() > most || ends.1.unsigned_abs() > most {
        return None;
    }
    Some(Span {
        lo: ends.0,
        hi: ends.1,
    })
}

// Whether points are the curve.
fn is_curve(points: &[VolumePoint]) -> bool
    ensures { IsTrue result → points.now ≡ knees }
{
    points == CURVE.as_slice()
}

// Whether a tank is the one.
fn is_basin(tank: &Tank) -> bool
    ensures { IsTrue result → IsBasin tank.now }
{
    tank.minimum == 2 * METRE && tank.maximum == 9 * METRE && tank.shape == Some(0)
}

// Whether the network has this tank and this curve alone.
fn has_basin(project: &Project) -> bool
    ensures { IsTrue result → HasBasin project.now }
{
    let tanks = project.tanks.as_slice();
    let shapes = project.shapes.as_slice();
    if tanks.len() != 1 || shapes.len() != 1 {
        return false;
    }
    is_basin(&tanks[0]) && is_curve(shapes[0].as_slice())
}

// Whether both ends of a stock's levels and volumes lie within the bounds of this tank.
fn lies(stock: &Stock) -> bool
    ensures level { IsTrue result
        → IsWithin (record { least = pos 20000000000000; most = pos 90000000000000 }) (stocks_of stock.now).level }
    ensures volume { IsTrue result → IsWithin (record {
      least = pos 50000000000;
      most = pos 750000000000;
    }) (stocks_of stock.now).volume }
{
    let level = &stock.level;
    let volume = &stock.volume;
    2 * METRE <= level.lo
        && level.lo <= 9 * METRE
        && 2 * METRE <= level.hi
        && level.hi <= 9 * METRE
        && 50_000_000_000 <= volume.lo
        && volume.lo <= 750_000_000_000
        && 50_000_000_000 <= volume.hi
        && volume.hi <= 750_000_000_000
}

// Whether a stock lies within the bounds of the network's tank.
fn is_held(project: &Project, stock: &Stock) -> bool
    ensures { (each : Tank) → IsTrue result → slice_get project.now.tanks.list 0 ≡ Some each
        → AreHeld (walls_of project.now each) each (stocks_of stock.now) }
{
    if !has_basin(project) {
        return false;
    }
    lies(stock)
}

// The next stock and the carried one.
fn moved(
    project: &Project,
    content: Content,
    flow: (i128, i128),
    seconds: u32,
) -> Option<(Stock, Stock)>
    requires { IsSound project.now }
{
    let before = stock(content);
    let inflow = inflow(flow)?;
    if project.tanks.len() != 1 || seconds > 100_000_000 || !is_held(project, &before) {
        return None;
    }
    Some((
        next_stock(project, 0, before, inflow, seconds),
        stock_at(project, 0, before, inflow, seconds),
    ))
}

// Whether a stock is this content.
fn is_content(stock: &Stock, content: Content) -> bool {
    stock.level.lo == content.0.0
        && stock.level.hi == content.0.1
        && stock.volume.lo == content.1.0
        && stock.volume.hi == content.1.1
}

// Whether the stock moved is the one content, and the stock at an instant the other.
fn are_contents(answer: Option<(Stock, Stock)>, next: Content, carried: Content) -> bool {
    let Some((moved, at)) = answer else {
        return false;
    };
    is_content(&moved, next) && is_content(&at, carried)
}

#[test]
fn stocks_move_along_the_curve(rt: HostRuntime) -> Result<(), Fail> {
    let project = read(rt.alloc(), TEXT)?;
    for (place, row) in MOVES.iter().enumerate() {
        let answer = moved(&project, row.0, row.1, row.2);
        assert!(rt; are_contents(answer, row.3, row.4), "row {place}");
    }
    Ok(())
}

// The earliest and the latest first second.
fn met(
    project: &Project,
    content: Content,
    flow: (i128, i128),
    target: i64,
    rising: bool,
    cap: u32,
) -> Option<(u32, u32)>
    requires { IsSound project.now }
{
    let before = stock(content);
    let inflow = inflow(flow)?;
    if project.tanks.len() != 1
        || target.unsigned_abs() > 200_000_000_000_000_000
        || !is_held(project, &before)
    {
        return None;
    }
    Some(first_stock(project, 0, before, inflow, target, rising, cap))
}

#[test]
fn targets_are_met_along_the_curve(rt: HostRuntime) -> Result<(), Fail> {
    let project = read(rt.alloc(), TEXT)?;
    for (place, row) in TARGETS.iter().enumerate() {
        let answer = met(&project, row.0, row.1, row.2, row.3, row.4);
        assert_eq!(rt; answer, Some(row.5), "row {place}");
    }
    Ok(())
}
