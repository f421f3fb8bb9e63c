//! The start of a period of a run for a spread.
#![tactic(auto)]

ghost use Rattle.std.specs.Prelude.{◌≡◌, ℕ, length, IfErr, IsOk, OnOk};
ghost use Rattle.hyd_net.specs.Sound.{IsSound};
ghost use Rattle.hyd_spec_spread_runs.specs.RunsForSpreads.{AreDemandsInRange};
ghost use Rattle.hyd_spec_spread_stops.specs.StopsOfSpreads.{StopsOver};
ghost use Rattle.hyd_open_certificates.specs.OpenRowView.{open_header_of};
ghost use Rattle.hyd_period_facts.specs.ReservedMemory.{HasRoom};
ghost use Rattle.hyd_open_sim_start.specs.StandingsOfOpenRuns.{IsStanding, standing_for};
ghost use Rattle.hyd_sim.specs.NarrowRecordsAndStops.{SaysNone};
ghost use Rattle.hyd_spread_networks.specs.NetsOfSpreads.{AreNetsOf};
ghost use Rattle.hyd_spread_start.specs.StartsOver.{IsStartedOver};

use crate::stop_causes::demand_stop;
use hyd_net::{LinkState, Project};
use hyd_open_certificates::OpenRow;
use hyd_open_sim_start::{Standing, begin};
use hyd_period_facts::Facts;
use hyd_spec_certificates::StopCause;
use hyd_spread_networks::SpreadNets;

/// Puts the nets of both sides into the period that begins at a standing, and facts and links to its start, and into
/// its record its number, its first start, by how many seconds that is open, and no lengths. Fails with the stop where
/// an end of a demand is out of range, and only there.
pub fn start_period(
    project: &Project,
    standing: &Standing,
    nets: &mut SpreadNets,
    found: &mut OpenRow,
    facts: &mut Facts,
    links: &mut [LinkState],
) -> Result<(), StopCause>
    requires sound { IsSound project.now }
    requires standing { IsStanding project.now standing.now }
    requires of { AreNetsOf project.now nets.old }
    requires facts { HasRoom project.now facts.old }
    requires links { length links.old ≡ length project.now.links.list }
    ensures started { OnOk result (IsStartedOver project.now nets.old.spread (standing_for standing.now) nets.new
        found.new facts.new) }
    ensures in_range { AreDemandsInRange project.now nets.old.spread standing.now.time → IsOk result }
    ensures stops { (slack rounds : ℕ)
        → IfErr result (StopsOver project.now nets.old.spread (standing_for standing.now) slack rounds) }
    ensures no_vector { IfErr result (λ cause. SaysNone cause → ⊥) }
    ensures of { AreNetsOf project.now nets.new }
    ensures spread { nets.new.spread ≡ nets.old.spread }
    ensures header { open_header_of found.new ≡ open_header_of found.old }
    ensures facts { HasRoom project.now facts.new }
    ensures links { length links.new ≡ length links.old }
{
    begin(project, standing, links, facts);
    found.row.number = standing.number;
    found.row.time = standing.time;
    found.row.length = 0;
    found.late = standing.late;
    found.shortest = 0;
    match nets.set_period(
        project,
        standing.time,
        links,
        standing.stocks.levels.as_slice(),
        standing.stocks.tanks.as_slice(),
    ) {
        Ok(()) => Ok(()),
        Err(fault) => Err(demand_stop(standing.number, fault)),
    }
}
