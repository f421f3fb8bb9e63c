//! The start of a period.
#![tactic(auto)]

ghost use Rattle.std.specs.Prelude.{◌≡◌, ℕ, length, IfErr, IsOk, OnOk};
ghost use Rattle.hyd_net.specs.Sound.{IsSound};
ghost use Rattle.hyd_spec_certificates.specs.Valid.{DemandsAreInRange};
ghost use Rattle.hyd_spec_open_ends.specs.PromisesOfOpenRuns.{StopsOpenly};
ghost use Rattle.hyd_open_certificates.specs.OpenRowView.{open_header_of};
ghost use Rattle.hyd_period_facts.specs.ReservedMemory.{HasRoom};
ghost use Rattle.hyd_period_network.specs.NetsSetToPeriods.{IsNetOf};
ghost use Rattle.hyd_sim.specs.NarrowRecordsAndStops.{NamesStuck};
ghost use Rattle.hyd_open_sim_start.specs.StandingsOfOpenRuns.{IsStanding, known_for, standing_for};
ghost use Rattle.hyd_open_sim_start.specs.StartedPeriods.{IsStarted};

use crate::facts_and_links_at_start::begin;
use crate::standing::Standing;
use crate::stop_causes::demand_stop;
use hyd_net::{LinkState, Project};
use hyd_open_certificates::OpenRow;
use hyd_period_facts::Facts;
use hyd_period_network::Net;
use hyd_spec_certificates::StopCause;

/// Puts the net into the period that begins at a standing, and facts and links to its start, and into its record its
/// number, its first start, by how many seconds that is open, and no lengths. Fails with the stop where a demand is out
/// of range, and only there.
pub fn start_period(
    project: &Project,
    standing: &Standing,
    net: &mut Net,
    found: &mut OpenRow,
    facts: &mut Facts,
    links: &mut [LinkState],
) -> Result<(), StopCause>
    requires sound { IsSound project.now }
    requires standing { IsStanding project.now standing.now }
    requires of { IsNetOf project.now net.old }
    requires facts { HasRoom project.now facts.old }
    requires links { length links.old ≡ length project.now.links.list }
    ensures started { OnOk result (IsStarted project.now (standing_for standing.now) net.new found.new facts.new) }
    ensures in_range { (DemandsAreInRange project.now standing.now.time) → IsOk result }
    ensures stops { (slack rounds : ℕ)
        → IfErr result (StopsOpenly project.now (standing_for standing.now) slack rounds) }
    ensures stuck { (rounds : ℕ) → IfErr result (NamesStuck project.now (known_for standing.now) rounds) }
    ensures of { IsNetOf project.now net.new }
    ensures header { open_header_of found.new ≡ open_header_of found.old }
    ensures facts { HasRoom project.now facts.new }
    ensures links { length links.new ≡ length links.old }
{
    begin(project, standing, links, facts);
    found.row.number = standing.number;
    found.row.time = standing.time;
    found.row.length = 0;
    found.late = standing.late;
    found.shortest = 0;
    match net.set_period(
        project,
        standing.time,
        links,
        standing.stocks.levels.as_slice(),
        standing.stocks.tanks.as_slice(),
    ) {
        Ok(()) => Ok(()),
        Err(fault) => Err(demand_stop(standing.number, fault)),
    }
}
