//! What a period's vectors tell of it: what flows into tanks, and what rules look at.
#![tactic(auto)]

ghost use Rattle.std.specs.Prelude.{◌≡◌};
ghost use Rattle.hyd_net.specs.Sound.{IsSound};
ghost use Rattle.hyd_spec.specs.NodeNumbers.{tank_count};
ghost use Rattle.hyd_spec_certificates.specs.Valid.{AreCertificates};
ghost use Rattle.hyd_cert.specs.RecordView.{row_of};
ghost use Rattle.hyd_period_network.specs.NetAsPeriodNetwork.{grid_of};
ghost use Rattle.hyd_period_network.specs.NetsSetToPeriods.{IsNetOf};
ghost use Rattle.hyd_theorems_on_definitions.specs.SoundLawsAndGrids.{TanksInOrder};
ghost use Rattle.hyd_period_length.specs.ReservedMemory.{HasRoom};
ghost use Rattle.hyd_period_facts.specs.FactsBeforeEnd.{HaveTanks};
ghost use Rattle.hyd_period_end.specs.FactsBeforeVectors.{AreReady};
ghost use Rattle.hyd_open_period_end.specs.LookedAt.{AreLookedAt, AreReadings};

use hyd_cert::Record;
use hyd_net::Project;
use hyd_period_facts::{Facts, put_inflows};
use hyd_period_length::Readings;
use hyd_period_network::Net;

/// Puts what flows into tanks and what rules look at in a period of a network, by the vectors of its record, which are
/// certificates. It takes no memory.
pub fn look(project: &Project, net: &Net, row: &Record, readings: &mut Readings, facts: &mut Facts)
    requires sound { IsSound project.now }
    requires of { IsNetOf project.now net.now }
    requires order { TanksInOrder (grid_of net.now) }
    requires certificates { AreCertificates project.now (grid_of net.now) (row_of row.now) }
    requires tanks { row.now.tanks ≡ tank_count project.now }
    requires ready { AreReady project.now facts.old }
    requires room { HasRoom project.now readings.old }
    ensures looked { AreLookedAt project.now (grid_of net.now) (row_of row.now) facts.new readings.new }
    ensures readings { AreReadings project.now readings.new }
    ensures have { HaveTanks project.now facts.new }
    ensures ready { AreReady project.now facts.new }
    ensures keeps { facts.new ≡ record facts.old { inflows = facts.new.inflows } }
    ensures room { HasRoom project.now readings.new }
{
    // Certificates are ordered where the net is steady.
    let _junctions = net.junctions();
    put_inflows(project, net, row, &mut facts.inflows);
    readings.put(project, net, row);
}
