//! Tanks that are open at levels.
#![tactic(auto)]

ghost use Rattle.std.specs.Prelude.{◌≡◌, ◌<◌, ◌≤◌, ◌+◌, Some, length, map, slice_get, IfErr, OnOk};
ghost use Rattle.hyd_net.specs.Sound.{IsSound};
ghost use Rattle.hyd_spec.specs.ProgramTypes.{Control};
ghost use Rattle.hyd_spec.specs.NodeNumbers.{tank_count};
ghost use Rattle.hyd_spec_certificates.specs.SpansAsIntervals.{levels_of};
ghost use Rattle.hyd_spec_certificates.specs.RecordAndStanding.{initial_standing};
ghost use Rattle.hyd_spec_certificates.specs.Valid.{AreStates, ControlsAreDecided};
ghost use Rattle.hyd_spec_spread.specs.Spreads.{IsSpread};
ghost use Rattle.hyd_spec_spread.specs.IntervalsOfData.{known_levels, known_volumes};
ghost use Rattle.hyd_spec_spread_runs.specs.RunsForSpreads.{StartIsDecided};
ghost use Rattle.hyd_spec_spread_starts.specs.StartsOfSpreads.{IsOpenTank};
ghost use Rattle.hyd_tank.specs.StockIntervals.{volumes_of};
ghost use Rattle.hyd_period_facts.specs.RoomForStocks.{HasRoom};
ghost use Rattle.hyd_period_end.specs.EndOfPeriod.{AreKeptIn};
ghost use Rattle.hyd_spread_rows.specs.SpreadsRead.{spread_of};
ghost use Rattle.hyd_spread_start.specs.StartsOver.{IsOfLevel, IsTankOf};

use crate::known_stocks::put_known;
use hyd_controls_and_rules::find_open;
use hyd_net::{List, Project, When};
use hyd_period_facts::{TankStart, put_states};
use hyd_spec::TankState;
use hyd_spec_certificates::LevelSpan;
use hyd_spread_rows::SpreadRows;

// The tank of a level control.
fn tank_of(project: &Project, number: u32) -> u32
    requires within { number < length project.now.controls.list }
    requires of_level { (control : Control) → slice_get project.now.controls.list number ≡ Some control
        → IsOfLevel control.when }
    ensures { IsTankOf project.now number result }
{
    match project.controls.as_slice()[number as usize].when {
        When::Level { tank, .. } => tank,
        When::Time(_) | When::Clock(_) => unreachable!(),
    }
}

// Puts the states of tanks at their level intervals, and tries each level control there. Fails with the tank that is
// open, counted from 0, exactly where a state or a level control is: the first whose state is, else that of the first
// control.
fn put_settled(
    project: &Project,
    levels: &[LevelSpan],
    states: &mut List<TankState>,
) -> Result<(), u32>
    requires sound { IsSound project.now }
    requires each_level { length levels.now ≡ tank_count project.now }
    requires room { tank_count project.now ≤ length states.old.list + states.old.spare }
    ensures states { OnOk result (AreStates project.now (map levels_of levels.now) states.new.list) }
    ensures controls { OnOk result (ControlsAreDecided project.now (map levels_of levels.now)) }
    ensures open { IfErr result (IsOpenTank project.now (map levels_of levels.now)) }
    ensures stay { length states.old.list + states.old.spare ≤ length states.new.list + states.new.spare }
{
    if let Err(open) = put_states(project, levels, states) {
        return Err(open.tank);
    }
    match find_open(project, levels) {
        Ok(()) => Ok(()),
        Err(open) => Err(tank_of(project, open.control)),
    }
}

/// Makes it what a run for a spread begins with: each tank has the levels that the spread allows, the volumes that are
/// kept at both ends, and the state that it has at all of them. What it was before goes; no memory is taken. Fails with
/// the tank that is open there, counted from 0, exactly where the spread leaves a doubt; nothing is then said of the
/// states.
pub(crate) fn begin_known(
    project: &Project,
    rows: &SpreadRows,
    stocks: &mut TankStart,
) -> Result<(), u32>
    requires sound { IsSound project.now }
    requires spread { IsSpread project.now (spread_of rows.now) }
    requires room { HasRoom project.now stocks.old }
    ensures levels { map levels_of stocks.new.levels.list ≡ known_levels project.now (spread_of rows.now) }
    ensures volumes { map volumes_of stocks.new.volumes.list ≡ known_volumes project.now (spread_of rows.now) }
    ensures held { AreKeptIn project.now stocks.new }
    ensures tanks { OnOk result (stocks.new.tanks.list ≡ (initial_standing project.now).tanks) }
    ensures decided { OnOk result (StartIsDecided project.now (spread_of rows.now)) }
    ensures open { IfErr result (IsOpenTank project.now (known_levels project.now (spread_of rows.now))) }
    ensures room { HasRoom project.now stocks.new }
{
    put_known(project, rows, &mut stocks.levels, &mut stocks.volumes);
    put_settled(project, stocks.levels.as_slice(), &mut stocks.tanks)
}
