//! What follows a period whose length lies between two seconds.
#![tactic(auto)]

ghost use Rattle.std.specs.Prelude.{◌≡◌, ◌≤◌, ◌^◌, map, IfErr, OnOk};
ghost use Rattle.std.specs.Option.{option_map};
ghost use Rattle.hyd_net.specs.Sound.{IsSound};
ghost use Rattle.hyd_spec_certificates.specs.SpansAsIntervals.{levels_of};
ghost use Rattle.hyd_spec_certificates.specs.PeriodNetwork.{Grid};
ghost use Rattle.hyd_spec_certificates.specs.RecordAndStanding.{Standing};
ghost use Rattle.hyd_spec_certificates.specs.Valid.{AreStates, ControlsAreDecided};
ghost use Rattle.hyd_spec_open_ends.specs.OpenStandings.{OpenRecord};
ghost use Rattle.hyd_spec_open_ends.specs.OpenRecords.{levels_left, volumes_left};
ghost use Rattle.hyd_tank.specs.StockIntervals.{volumes_of};
ghost use Rattle.hyd_period_facts.specs.FactsBeforeEnd.{HaveTanks, AreStarted};
ghost use Rattle.hyd_period_facts.specs.RoomForStocks.{HasRoom};
ghost use Rattle.hyd_period_end.specs.EndOfPeriod.{AreKeptIn};
ghost use Rattle.hyd_open_watches.specs.Candidates.{watch_for};
ghost use Rattle.hyd_open_tanks.specs.StocksLeft.{IsInReachOf};
ghost use Rattle.hyd_open_period_end.specs.OpenMatters.{IsOpenAmong};

use crate::matters::open_there;
use hyd_net::Project;
use hyd_open_stocks::Lengths;
use hyd_open_tanks::follow_over;
use hyd_open_watches::Watch;
use hyd_period_end::Open;
use hyd_period_facts::{Facts, TankStart};

/// What follows a period of such lengths at whose end this level has just been reached, if any. Fails with the tank or
/// the level control that is open there.
pub(crate) fn follow(
    project: &Project,
    facts: &Facts,
    lengths: Lengths,
    reached: Option<Watch>,
    next: &mut TankStart,
) -> Result<(), Open>
    requires sound { IsSound project.now }
    requires tanks { HaveTanks project.now facts.now }
    requires shortest { lengths.shortest ≤ 10 ^ 8 }
    requires longest { lengths.longest ≤ 10 ^ 8 }
    requires reach { IsInReachOf project.now facts.now reached }
    requires room { HasRoom project.now next.old }
    ensures levels { (grid : Grid) (standing : Standing) (found : OpenRecord)
        → AreStarted project.now grid standing found.row facts.now → found.shortest ≡ lengths.shortest
        → found.row.length ≡ lengths.longest → map levels_of next.new.levels.list
        ≡ levels_left project.now grid standing found (option_map watch_for reached) }
    ensures volumes { (grid : Grid) (standing : Standing) (found : OpenRecord)
        → AreStarted project.now grid standing found.row facts.now → found.shortest ≡ lengths.shortest
        → found.row.length ≡ lengths.longest → map volumes_of next.new.volumes.list
        ≡ volumes_left project.now grid standing found (option_map watch_for reached) }
    ensures held { AreKeptIn project.now next.new }
    ensures states { OnOk result (AreStates project.now (map levels_of next.new.levels.list) next.new.tanks.list) }
    ensures controls { OnOk result (ControlsAreDecided project.now (map levels_of next.new.levels.list)) }
    ensures open { IfErr result (IsOpenAmong project.now (map levels_of next.new.levels.list)) }
    ensures room { HasRoom project.now next.new }
{
    match follow_over(project, facts, lengths, reached, next) {
        Ok(()) => Ok(()),
        Err(found) => Err(open_there(found)),
    }
}
