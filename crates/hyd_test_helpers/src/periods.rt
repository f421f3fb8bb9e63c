//! Nets put into periods, with the tanks at given levels.
#![tactic(auto)]

ghost use Rattle.std.specs.Prelude.{IfOk, IfSome, IsTrue, OnOk};
ghost use Rattle.hyd_net.specs.Sound.{IsSound};
ghost use Rattle.hyd_period_network.specs.NetAsPeriodNetwork.{grid_of};
ghost use Rattle.hyd_period_network.specs.SoundNets.{HasProblem};
ghost use Rattle.hyd_period_network.specs.NetsSetToPeriods.{AreLevels, IsNetOf, IsSpanOf};
ghost use Rattle.hyd_period_network.specs.LawsInSettings.{AreStates};
ghost use Rattle.hyd_theorems_on_definitions.specs.SoundLawsAndGrids.{TanksInOrder};

use crate::states::starts;
use hyd_net::{LinkState, OutOfMemory, Project, Tank};
use hyd_period_network::{Net, PeriodDemand};
use hyd_spec::TankState;
use hyd_spec_certificates::{LevelSpan, Problem};
use std::alloc::Global;

/// All levels from one to another.
pub fn span(ends: (i64, i64)) -> LevelSpan {
    LevelSpan {
        lo: ends.0,
        hi: ends.1,
    }
}

// Whether levels are some of a tank.
fn is_span(tank: &Tank, level: &LevelSpan) -> bool
    ensures { IsTrue result → IsSpanOf tank.now level.now }
{
    tank.minimum <= level.lo && level.lo <= level.hi && level.hi <= tank.maximum
}

// Whether each tank has levels of its own.
fn are_levels(project: &Project, levels: &[LevelSpan]) -> bool
    ensures { IsTrue result → AreLevels project.now levels.now }
{
    let tanks = project.tanks.as_slice();
    if levels.len() != tanks.len() {
        return false;
    }
    for k in 0..tanks.len() {
        if !is_span(&tanks[k], &levels[k]) {
            return false;
        }
    }
    true
}

/// Puts a net into a period, if there are levels and a state for each tank.
pub fn set(
    net: &mut Net,
    project: &Project,
    time: u32,
    states: &[LinkState],
    levels: &[LevelSpan],
    tanks: &[TankState],
) -> Option<Result<(), PeriodDemand>>
    requires sound { IsSound project.now }
    requires of { IsNetOf project.now net.old }
    requires states { AreStates project.now states.now }
    ensures stays { IsNetOf project.now net.new }
    ensures ordered { IfSome result (λ answer. OnOk answer (TanksInOrder (grid_of net.new))) }
{
    if tanks.len() != project.tanks.len() {
        return None;
    }
    if !are_levels(project, levels) {
        return None;
    }
    Some(net.set_period(project, time, states, levels, tanks))
}

// Levels of tanks.
fn spans(alloc: Global, levels: &[(i64, i64)]) -> Result<Vec<LevelSpan>, OutOfMemory> {
    let mut spans = Vec::new(alloc);
    for ends in levels {
        spans.push(span(*ends))?;
    }
    Ok(spans)
}

/// Puts a net into the period that begins at a time, with the links as at first and the tanks at these levels, neither
/// full nor empty, and says whether there is such a period.
pub fn put_at(
    alloc: Global,
    net: &mut Net,
    project: &Project,
    time: u32,
    levels: &[(i64, i64)],
) -> Result<bool, OutOfMemory>
    requires sound { IsSound project.now }
    requires of { IsNetOf project.now net.old }
    ensures { IfOk result (λ put. IsTrue put → TanksInOrder (grid_of net.new)) }
{
    let states = starts(alloc, project)?;
    let spans = spans(alloc, levels)?;
    let tanks = vec![in alloc; TankState::Between; levels.len()]?;
    match set(net, project, time, &states, &spans, &tanks) {
        Some(Ok(())) => Ok(true),
        _ => Ok(false),
    }
}

/// Whether a problem pins none but a tank of the net.
pub fn is_problem(net: &Net, problem: Problem) -> bool
    ensures { IsTrue result → HasProblem net.now problem }
{
    match problem {
        Problem::Main => true,
        Problem::Pinned(tank) => tank < net.tanks(),
    }
}
