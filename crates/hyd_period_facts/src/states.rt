//! States of all tanks.
#![tactic(auto)]

ghost use Rattle.std.specs.Prelude.{◌≡◌, ◌<◌, ◌≤◌, ◌+◌, ◌++◌, ◌∷◌, [], Some, length, map, slice_get, slice_index_or};
ghost use Rattle.std.specs.Prelude.{IfErr, OnOk};
ghost use Rattle.hyd_net.specs.Sound.{IsSound};
ghost use Rattle.hyd_spec.specs.ProgramTypes.{Tank as Each};
ghost use Rattle.hyd_spec.specs.NodeNumbers.{tank_count};
ghost use Rattle.hyd_spec_certificates.specs.SpansAsIntervals.{levels_of};
ghost use Rattle.hyd_spec_certificates.specs.Stocks.{state_of};
ghost use Rattle.hyd_spec_certificates.specs.Decided.{nowhere};
ghost use Rattle.hyd_spec_certificates.specs.Valid.{AreStates};
ghost use Rattle.hyd_period_facts.specs.TankStart.{IsFirstOpen};

use crate::levels_and_level_controls::level_at;
use hyd_net::{List, Project};
use hyd_spec::TankState;
use hyd_spec_certificates::LevelSpan;
use hyd_tank::{state_of, tank_at};

/// The first tank whose two ends of its level interval differ in state. Tanks are counted from 0.
#[derive(Clone, Copy, Drop)]
pub struct TankOpen {
    /// Its number among the tanks.
    pub tank: u32,
    /// The lower end of its level interval, in head ticks.
    pub lo: i64,
    /// The upper end.
    pub hi: i64,
}

// The state of one tank at its levels, where it is decided.
fn state_at(project: &Project, levels: &[LevelSpan], tank: u32) -> Option<TankState>
    requires sound { IsSound project.now }
    requires in_range { tank < length project.now.tanks.list }
    requires each_level { length levels.now ≡ tank_count project.now }
    ensures { (each : Each) → slice_get project.now.tanks.list tank ≡ Some each
        → result ≡ state_of each (slice_index_or (map levels_of levels.now) tank nowhere) }
{
    let here = tank_at(project, tank);
    let level = level_at(levels, tank);
    state_of(&here, level)
}

// Appends a state, for which there is room.
fn add_state(states: &mut List<TankState>, state: TankState)
    requires { 0 < states.old.spare }
    ensures list { states.new.list ≡ states.old.list ++ state ∷ [] }
    ensures spare { states.old.spare ≤ states.new.spare + 1 }
{
    states.push(state).unwrap();
}

// The tank of a number, with its levels.
fn open_at(levels: &[LevelSpan], tank: u32) -> TankOpen
    requires { tank < length levels.now }
    ensures tank { result.tank ≡ tank }
    ensures level { slice_get (map levels_of levels.now) tank ≡ Some (record { lo = result.lo; hi = result.hi }) }
{
    let level = levels[tank as usize];
    TankOpen {
        tank,
        lo: level.lo,
        hi: level.hi,
    }
}

/// Puts the states of tanks at their level intervals (head ticks above their bottoms). What the list held before goes.
/// It has room for an item for each tank, so no memory is taken. Fails with [`TankOpen`] exactly where the two ends of
/// some tank's interval differ in state; nothing is then said of the list but that it keeps its room.
pub fn put_states(
    project: &Project,
    levels: &[LevelSpan],
    states: &mut List<TankState>,
) -> Result<(), TankOpen>
    requires sound { IsSound project.now }
    requires each_level { length levels.now ≡ tank_count project.now }
    requires room { tank_count project.now ≤ length states.old.list + states.old.spare }
    ensures decided { OnOk result (AreStates project.now (map levels_of levels.now) states.new.list) }
    ensures open { IfErr result (IsFirstOpen project.now (map levels_of levels.now)) }
    ensures stay { length states.old.list + states.old.spare ≤ length states.new.list + states.new.spare }
{
    states.clear();
    for tank in 0..project.tanks.len() {
        match state_at(project, levels, tank as u32) {
            Some(state) => add_state(states, state),
            None => return Err(open_at(levels, tank as u32)),
        }
    }
    Ok(())
}
