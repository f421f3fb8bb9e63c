//! The stocks at which a tank has met a level.
#![tactic(auto)]

ghost use Rattle.std.specs.Prelude.{◌≡◌, ◌<◌, pos, Some, length, slice_get};
ghost use Rattle.hyd_net.specs.NumberRanges.{Lies, volume_limit};
ghost use Rattle.hyd_net.specs.Sound.{IsSound};
ghost use Rattle.hyd_spec.specs.ProgramTypes.{Tank};
ghost use Rattle.hyd_spec.specs.Tank.{Curve, walls_of, shape_points, is_bound};
ghost use Rattle.hyd_spec_certificates.specs.Interval.{Interval};
ghost use Rattle.hyd_spec_open_ends.specs.StocksOverLengths.{goal_volume};
ghost use Rattle.hyd_tank.specs.StockIntervals.{volumes_of, cylinder, IsBasin, IsCylinder, IsTankOf};
ghost use Rattle.hyd_open_stocks.specs.Goals.{IsGoal};
ghost use Rattle.hyd_open_stocks.specs.LevelsInReach.{IsInReach};

use crate::ends_of_contents::NO_VOLUME;
use crate::lengths_and_arrivals::Arrival;
use crate::volumes_on_curve::volumes_at;
use hyd_net::{Project, Tank, VolumePoint};
use hyd_spec_certificates::LevelSpan;
use hyd_tank::{Stock, VolumeSpan, tank_at};

/// The stock at which a tank has met a level, held within the tank's bounds.
#[derive(Clone, Copy, Drop)]
pub(crate) struct Goal {
    pub(crate) stock: Stock,
    /// By how much the greatest volume at which the level is met exceeds that of the stock, in volume ticks.
    pub(crate) beyond: i64,
}

// Whether a level is the bound that is met this way.
fn is_bound(tank: &Tank, arrival: Arrival) -> bool
    ensures { result ≡ is_bound tank.now arrival.rising arrival.target }
{
    if arrival.rising {
        tank.maximum == arrival.target
    } else {
        tank.minimum == arrival.target
    }
}

// The volume at which a tank with a volume curve has met a level, rounded down and up.
fn goal_volume(tank: &Tank, points: &[VolumePoint], arrival: Arrival) -> VolumeSpan
    requires tank { IsBasin tank.now points.now }
    requires target { Lies tank.now.minimum tank.now.maximum arrival.target }
    ensures value { volumes_of result ≡ goal_volume points.now tank.now arrival.rising arrival.target }
    ensures least_small { Lies (pos 0) (pos volume_limit) result.lo }
    ensures greatest_small { Lies (pos 0) (pos volume_limit) result.hi }
{
    let volumes = volumes_at(points, arrival.target);
    if is_bound(tank, arrival) {
        return VolumeSpan {
            lo: volumes.lo,
            hi: volumes.lo,
        };
    }
    volumes
}

// The goal of a tank with a volume curve.
fn by_volume(tank: &Tank, points: &[VolumePoint], arrival: Arrival) -> Goal
    requires tank { IsBasin tank.now points.now }
    requires target { Lies tank.now.minimum tank.now.maximum arrival.target }
    ensures { IsGoal (Curve points.now) tank.now arrival.rising arrival.target result }
{
    let least = volumes_at(points, tank.minimum).lo;
    let most = volumes_at(points, tank.maximum).lo;
    let goal = goal_volume(tank, points, arrival);
    let hi = goal.hi.max(least).min(most);
    Goal {
        stock: Stock {
            level: LevelSpan {
                lo: arrival.target,
                hi: arrival.target,
            },
            volume: VolumeSpan {
                lo: goal.lo.max(least).min(most),
                hi,
            },
        },
        beyond: goal.hi - hi,
    }
}

// The goal of a tank without one.
fn by_level(tank: &Tank, arrival: Arrival) -> Goal
    requires { IsCylinder tank.now }
    ensures { IsGoal (cylinder tank.now) tank.now arrival.rising arrival.target result }
{
    let held = arrival.target.max(tank.minimum).min(tank.maximum);
    Goal {
        stock: Stock {
            level: LevelSpan { lo: held, hi: held },
            volume: NO_VOLUME,
        },
        beyond: 0,
    }
}

fn points_of(project: &Project, shape: u32) -> &[VolumePoint]
    requires { shape < length project.now.shapes.list }
    ensures { result.now ≡ shape_points project.now shape }
{
    project.shapes.as_slice()[shape as usize].as_slice()
}

fn goal_of(project: &Project, tank: &Tank, arrival: Arrival) -> Goal
    requires tank { IsTankOf project.now tank.now }
    requires reach { (inflow : Interval) × IsInReach (walls_of project.now tank.now) tank.now inflow arrival.target
        arrival.rising }
    ensures { IsGoal (walls_of project.now tank.now) tank.now arrival.rising arrival.target result }
{
    match tank.shape {
        None => by_level(tank, arrival),
        Some(shape) => by_volume(tank, points_of(project, shape), arrival),
    }
}

/// The goal of a tank, counted from 0, of a level that has just been reached and is in its reach.
pub(crate) fn goal_at(project: &Project, tank: u32, arrival: Arrival) -> Goal
    requires sound { IsSound project.now }
    requires tank { tank < length project.now.tanks.list }
    requires reach { (each : Tank) → slice_get project.now.tanks.list tank ≡ Some each
        → (inflow : Interval) × IsInReach (walls_of project.now each) each inflow arrival.target
        arrival.rising }
    ensures { (each : Tank) → slice_get project.now.tanks.list tank ≡ Some each
        → IsGoal (walls_of project.now each) each arrival.rising arrival.target result }
{
    goal_of(project, &tank_at(project, tank), arrival)
}
