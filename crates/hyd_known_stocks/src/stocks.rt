//! The stock of a tank whose level is known within limits.
#![tactic(auto)]

ghost use Rattle.std.specs.Prelude.{◌≡◌, ◌<◌, Some, length, slice_get};
ghost use Rattle.hyd_net.specs.NumberRanges.{Lies};
ghost use Rattle.hyd_net.specs.Sound.{IsSound};
ghost use Rattle.hyd_spec.specs.ProgramTypes.{Tank};
ghost use Rattle.hyd_spec.specs.Tank.{walls_of, shape_points};
ghost use Rattle.hyd_spec_certificates.specs.SpansAsIntervals.{levels_of};
ghost use Rattle.hyd_tank.specs.StockIntervals.{stocks_of, AreHeld, IsTankOf};
ghost use Rattle.hyd_known_stocks.specs.KnownStocks.{stocks_between};

use crate::volumes::volume_at;
use hyd_net::{Project, Tank, VolumePoint};
use hyd_spec_certificates::LevelSpan;
use hyd_tank::{Stock, VolumeSpan, tank_at};

/// The volume that is kept of a tank without a volume curve.
const NO_VOLUME: VolumeSpan = VolumeSpan { lo: 0, hi: 0 };

fn points_of(project: &Project, shape: u32) -> &[VolumePoint]
    requires { shape < length project.now.shapes.list }
    ensures { result.now ≡ shape_points project.now shape }
{
    project.shapes.as_slice()[shape as usize].as_slice()
}

fn stock_of(project: &Project, tank: &Tank, level: LevelSpan) -> Stock
    requires tank { IsTankOf project.now tank.now }
    requires lowest { Lies tank.now.minimum tank.now.maximum level.lo }
    requires highest { Lies tank.now.minimum tank.now.maximum level.hi }
    ensures { stocks_of result ≡ stocks_between (walls_of project.now tank.now) (levels_of level) }
{
    match tank.shape {
        None => Stock {
            level,
            volume: NO_VOLUME,
        },
        Some(shape) => {
            let points = points_of(project, shape);
            Stock {
                level,
                volume: VolumeSpan {
                    lo: volume_at(points, level.lo),
                    hi: volume_at(points, level.hi),
                },
            }
        }
    }
}

/// The stock of a tank, counted from 0, whose level (head ticks above its bottom) lies between two: those levels and,
/// with a volume curve, the volumes at both, cut to whole volume ticks. Both levels lie within the bounds of the tank.
/// The network is sound.
pub fn stock_between(project: &Project, tank: u32, level: LevelSpan) -> Stock
    requires sound { IsSound project.now }
    requires tank { tank < length project.now.tanks.list }
    requires lowest { (each : Tank) → slice_get project.now.tanks.list tank ≡ Some each
        → Lies each.minimum each.maximum level.lo }
    requires highest { (each : Tank) → slice_get project.now.tanks.list tank ≡ Some each
        → Lies each.minimum each.maximum level.hi }
    ensures value { (each : Tank) → slice_get project.now.tanks.list tank ≡ Some each
        → stocks_of result ≡ stocks_between (walls_of project.now each) (levels_of level) }
    ensures held { (each : Tank) → slice_get project.now.tanks.list tank ≡ Some each
        → AreHeld (walls_of project.now each) each (stocks_of result) }
{
    stock_of(project, &tank_at(project, tank), level)
}
