//! The level by which a period may end, or not, in the first second at which it may.

use crate::stopped::DuePeriod;
use hyd_net::{Control, Project, Tank, When};
use hyd_spec_certificates::LevelSpan;

// The seconds of a day, which flows are measured by.
const DAY: i128 = 86_400;

// Head ticks that a flow tick for a day is on 10^-9 square metres.
const RISE: i128 = 1_000_000_000_000_000;

/// What a period ends by.
#[derive(Clone, Copy)]
pub(crate) enum Aim {
    /// The maximum of a tank.
    Maximum,
    /// The minimum of a tank.
    Minimum,
    /// The level of a control, by its number counted from 1.
    Control(u64),
}

/// A level of a tank that may have come to where a period ends, and may not.
#[derive(Clone, Copy)]
pub(crate) struct UndecidedEnd {
    /// The tank.
    pub tank: u32,
    /// Its least level, in head ticks above its bottom.
    pub lo: i128,
    /// Its greatest level.
    pub hi: i128,
    /// What the period ends by.
    pub aim: Aim,
    /// Where it does.
    pub target: i128,
}

/// Levels of a tank at the start of a period, and after some seconds of it.
#[derive(Clone, Copy)]
struct Carried {
    tank: u32,
    start: LevelSpan,
    lo: i128,
    hi: i128,
}

// How far a flow raises the level of a tank without a volume curve, cut.
fn rise(tank: &Tank, flow: i128, seconds: u32) -> Option<i128> {
    let breadth = DAY.checked_mul(i128::from(tank.area))?;
    let water = flow.checked_mul(i128::from(seconds))?;
    water.checked_mul(RISE)?.checked_div(breadth)
}

// The levels of a tank after some seconds; none of one with a volume curve.
fn levels_after(project: &Project, due: DuePeriod<'_>, tank: u32, seconds: u32) -> Option<Carried> {
    let found = project.tanks.as_slice().get(tank as usize)?;
    if found.shape.is_some() {
        return None;
    }
    let start = *due.levels.get(tank as usize)?;
    let inflow = due.inflows.get(tank as usize)?;
    let least = rise(found, inflow.lo, seconds)?;
    let greatest = rise(found, inflow.hi, seconds)?;
    Some(Carried {
        tank,
        start,
        lo: i128::from(start.lo).saturating_add(least).saturating_sub(1),
        hi: i128::from(start.hi)
            .saturating_add(greatest)
            .saturating_add(1),
    })
}

// The end by a level to which a tank rises or falls, where it may have been reached and may not.
fn end_at(carried: Carried, aim: Aim, target: i64, rising: bool) -> Option<UndecidedEnd> {
    let Carried {
        tank,
        start,
        lo,
        hi,
    } = carried;
    let wanted = i128::from(target);
    let is_open = if rising {
        start.lo < target && lo < wanted && wanted <= hi
    } else {
        target < start.hi && lo <= wanted && wanted < hi
    };
    if !is_open {
        return None;
    }
    Some(UndecidedEnd {
        tank,
        lo,
        hi,
        aim,
        target: wanted,
    })
}

// The end by a bound of a tank.
fn end_by_bound(project: &Project, carried: Carried) -> Option<UndecidedEnd> {
    let tank = project.tanks.as_slice().get(carried.tank as usize)?;
    match end_at(carried, Aim::Maximum, tank.maximum, true) {
        Some(end) => Some(end),
        None => end_at(carried, Aim::Minimum, tank.minimum, false),
    }
}

// The end by the bound of any tank.
fn end_by_bounds(project: &Project, due: DuePeriod<'_>, seconds: u32) -> Option<UndecidedEnd> {
    for (tank, _) in (0..u32::MAX).zip(project.tanks.as_slice()) {
        if let Some(carried) = levels_after(project, due, tank, seconds) {
            if let Some(end) = end_by_bound(project, carried) {
                return Some(end);
            }
        }
    }
    None
}

// The end by the level of a control, which has a number counted from 1.
fn end_by_control(
    project: &Project,
    due: DuePeriod<'_>,
    seconds: u32,
    control: &Control,
    number: u64,
) -> Option<UndecidedEnd> {
    let When::Level { tank, above, ticks } = control.when else {
        return None;
    };
    end_at(
        levels_after(project, due, tank, seconds)?,
        Aim::Control(number),
        ticks,
        above,
    )
}

// The end by the level of any control.
fn end_by_controls(project: &Project, due: DuePeriod<'_>, seconds: u32) -> Option<UndecidedEnd> {
    let mut number = 0_u64;
    for control in project.controls.as_slice() {
        number = number.saturating_add(1);
        if let Some(end) = end_by_control(project, due, seconds, control, number) {
            return Some(end);
        }
    }
    None
}

/// The level by which a period may end after so many seconds, or not; none where it is that of a tank with a volume
/// curve, or isn't found.
pub(crate) fn undecided_end(
    project: &Project,
    due: DuePeriod<'_>,
    seconds: u32,
) -> Option<UndecidedEnd> {
    match end_by_bounds(project, due, seconds) {
        Some(end) => Some(end),
        None => end_by_controls(project, due, seconds),
    }
}
