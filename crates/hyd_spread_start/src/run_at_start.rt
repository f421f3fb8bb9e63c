//! The standing at which a run for a spread begins.
#![tactic(auto)]

ghost use Rattle.std.specs.Prelude.{◌≡◌, length, IfOk, IfErr, OnOk};
ghost use Rattle.hyd_net.specs.Sound.{IsSound};
ghost use Rattle.hyd_spec_open_ends.specs.OpenStandings.{initial_open_standing};
ghost use Rattle.hyd_spec_spread.specs.Spreads.{IsSpread};
ghost use Rattle.hyd_spec_spread.specs.IntervalsOfData.{known_levels};
ghost use Rattle.hyd_spec_spread_rows.specs.TextsOfSpreads.{HasNoFault, spread_in};
ghost use Rattle.hyd_spec_spread_runs.specs.RunsForSpreads.{StartIsDecided};
ghost use Rattle.hyd_spec_spread_starts.specs.StartsOfSpreads.{IsOpenTank, IsFaultAtStart};
ghost use Rattle.hyd_spec_open_spreads.specs.OpenRunsForSpreads.{open_standing_within};
ghost use Rattle.hyd_period_facts.specs.RoomForStocks.{HasRoom};
ghost use Rattle.hyd_open_sim_start.specs.StandingsOfOpenRuns.{IsStanding, standing_for};
ghost use Rattle.hyd_spread_rows.specs.SpreadsRead.{IfFault, spread_of};

use crate::open_tanks::begin_known;
use crate::start_faults::start_fault;
use hyd_net::{LinkState, Project};
use hyd_open_sim_start::{
    Standing, begin_run as begin_alone, first_standing as first_alone,
    standing_within as standing_alone,
};
use hyd_period_facts::TankStart;
use hyd_spread_rows::{SpreadRefused, SpreadRows};
use std::alloc::Global;

// Puts the stocks that a spread allows into the standing at which a run without one begins. Fails with the tank that
// is open there, counted from 0, exactly where the spread leaves a doubt.
fn put_stocks(project: &Project, rows: &SpreadRows, standing: &mut Standing) -> Result<(), u32>
    requires sound { IsSound project.now }
    requires spread { IsSpread project.now (spread_of rows.now) }
    requires initial { standing_for standing.old ≡ initial_open_standing project.now }
    requires room { HasRoom project.now standing.old.stocks }
    ensures initial { OnOk result (standing_for standing.new ≡ open_standing_within project.now (spread_of rows.now)) }
    ensures standing { OnOk result (IsStanding project.now standing.new) }
    ensures decided { OnOk result (StartIsDecided project.now (spread_of rows.now)) }
    ensures open { IfErr result (IsOpenTank project.now (known_levels project.now (spread_of rows.now))) }
{
    begin_known(project, rows, &mut standing.stocks)
}

/// The standing at which a run for the spread of a text begins. The text has no fault of its own. Fails exactly where
/// it leaves a tank's state or a level control open at the start, with that fault (Range, in the line of the row that
/// counts for the tank), or for want of memory.
pub fn first_standing(
    alloc: Global,
    project: &Project,
    rows: &SpreadRows,
    text: &[u8],
) -> Result<Standing, SpreadRefused>
    requires sound { IsSound project.now }
    requires no_fault { HasNoFault project.now text.now }
    requires rows { spread_of rows.now ≡ spread_in project.now text.now }
    ensures initial { IfOk result (λ standing. standing_for standing
        ≡ open_standing_within project.now (spread_of rows.now)) }
    ensures standing { IfOk result (IsStanding project.now) }
    ensures decided { IfOk result (λ _. StartIsDecided project.now (spread_of rows.now)) }
    ensures fault { IfErr result (λ refused.
        IfFault refused (λ f. IsFaultAtStart project.now text.now f.line f.cause)) }
{
    let mut standing = first_alone(alloc, project)?;
    match put_stocks(project, rows, &mut standing) {
        Ok(()) => Ok(standing),
        Err(tank) => Err(SpreadRefused::Fault(start_fault(project, text, tank))),
    }
}

/// Makes a standing of a run the one at which a run for a spread begins that leaves no doubt there. It takes no memory.
pub fn begin_run(project: &Project, rows: &SpreadRows, standing: &mut Standing)
    requires sound { IsSound project.now }
    requires spread { IsSpread project.now (spread_of rows.now) }
    requires decided { StartIsDecided project.now (spread_of rows.now) }
    requires standing { IsStanding project.now standing.old }
    ensures initial { standing_for standing.new ≡ open_standing_within project.now (spread_of rows.now) }
    ensures standing { IsStanding project.now standing.new }
{
    begin_alone(project, standing);
    if put_stocks(project, rows, standing).is_err() {
        unreachable!()
    }
}

/// The standing at which a run for a spread begins that leaves no doubt there, in room that holds whatever it did. It
/// takes no memory.
pub fn standing_within(
    project: &Project,
    rows: &SpreadRows,
    stocks: TankStart,
    commanded: Vec<LinkState>,
) -> Standing
    requires sound { IsSound project.now }
    requires spread { IsSpread project.now (spread_of rows.now) }
    requires decided { StartIsDecided project.now (spread_of rows.now) }
    requires room { HasRoom project.now stocks }
    requires each { length commanded.items ≡ length project.now.links.list }
    ensures initial { standing_for result ≡ open_standing_within project.now (spread_of rows.now) }
    ensures standing { IsStanding project.now result }
{
    let mut standing = standing_alone(project, stocks, commanded);
    begin_run(project, rows, &mut standing);
    standing
}
