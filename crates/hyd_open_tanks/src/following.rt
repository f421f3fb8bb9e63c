//! What follows a period whose length lies between two seconds.
#![tactic(auto)]

ghost use Rattle.std.specs.Prelude.{◌≡◌, ◌≤◌, ◌^◌, ℕ, Some, map, slice_get, IfErr, OnOk};
ghost use Rattle.std.specs.Option.{option_map};
ghost use Rattle.hyd_net.specs.Sound.{IsSound};
ghost use Rattle.hyd_spec.specs.ProgramTypes.{Tank};
ghost use Rattle.hyd_spec.specs.Tank.{walls_of};
ghost use Rattle.hyd_spec_certificates.specs.SpansAsIntervals.{levels_of};
ghost use Rattle.hyd_spec_certificates.specs.PeriodNetwork.{Grid};
ghost use Rattle.hyd_spec_certificates.specs.RecordAndStanding.{Standing};
ghost use Rattle.hyd_spec_certificates.specs.Valid.{AreStates, ControlsAreDecided};
ghost use Rattle.hyd_spec_open_ends.specs.OpenStandings.{OpenRecord};
ghost use Rattle.hyd_spec_open_ends.specs.OpenRecords.{levels_left, volumes_left};
ghost use Rattle.hyd_tank.specs.StockIntervals.{AreHeld, volumes_of};
ghost use Rattle.hyd_period_facts.specs.FactsBeforeEnd.{HaveTanks, AreStarted};
ghost use Rattle.hyd_period_facts.specs.TankStart.{stocks_among, IsUnsettled};
ghost use Rattle.hyd_period_facts.specs.RoomForStocks.{HasRoom};
ghost use Rattle.hyd_open_watches.specs.Candidates.{watch_for};
ghost use Rattle.hyd_open_tanks.specs.StocksLeft.{IsInReachOf};

use crate::left::put_left;
use crate::settled::put_settled;
use hyd_net::Project;
use hyd_open_stocks::Lengths;
use hyd_open_watches::Watch;
use hyd_period_facts::{Facts, TankStart, Unsettled};

/// Makes what a period begins with what follows a period of such lengths at whose end this level has just been reached,
/// if any: the stocks of tanks there, and their states. What it was before goes; no memory is taken. The facts hold the
/// stocks at the start of the period and what flows into its tanks; the level is in its tank's reach.
///
/// Fails with [`Unsettled`], the first matter that is open there, exactly where the state of a tank or a level control
/// is open; nothing is then said of the states.
pub fn follow_over(
    project: &Project,
    facts: &Facts,
    lengths: Lengths,
    reached: Option<Watch>,
    next: &mut TankStart,
) -> Result<(), Unsettled>
    requires sound { IsSound project.now }
    requires tanks { HaveTanks project.now facts.now }
    requires shortest { lengths.shortest ≤ 10 ^ 8 }
    requires longest { lengths.longest ≤ 10 ^ 8 }
    requires reach { IsInReachOf project.now facts.now reached }
    requires room { HasRoom project.now next.old }
    ensures levels { (grid : Grid) (standing : Standing) (found : OpenRecord)
        → AreStarted project.now grid standing found.row facts.now → found.shortest ≡ lengths.shortest
        → found.row.length ≡ lengths.longest → map levels_of next.new.levels.list
        ≡ levels_left project.now grid standing found (option_map watch_for reached) }
    ensures volumes { (grid : Grid) (standing : Standing) (found : OpenRecord)
        → AreStarted project.now grid standing found.row facts.now → found.shortest ≡ lengths.shortest
        → found.row.length ≡ lengths.longest → map volumes_of next.new.volumes.list
        ≡ volumes_left project.now grid standing found (option_map watch_for reached) }
    ensures held { (k : ℕ) (each : Tank) → slice_get project.now.tanks.list k ≡ Some each
        → AreHeld (walls_of project.now each) each (stocks_among next.new.levels.list next.new.volumes.list k) }
    ensures states { OnOk result (AreStates project.now (map levels_of next.new.levels.list) next.new.tanks.list) }
    ensures controls { OnOk result (ControlsAreDecided project.now (map levels_of next.new.levels.list)) }
    ensures open { IfErr result (IsUnsettled project.now next.new.levels.list) }
    ensures room { HasRoom project.now next.new }
{
    put_left(
        project,
        facts,
        lengths,
        reached,
        &mut next.levels,
        &mut next.volumes,
    );
    put_settled(project, next.levels.as_slice(), &mut next.tanks)
}
