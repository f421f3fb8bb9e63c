//! What a period's vectors tell of it: what flows into tanks, and what rules look at.
#![tactic(auto)]

ghost use Rattle.std.specs.Prelude.{◌≡◌, length, All};
ghost use Rattle.hyd_net.specs.Sound.{IsSound};
ghost use Rattle.hyd_spec.specs.NodeNumbers.{nodes_before_tanks, tank_count};
ghost use Rattle.hyd_spec_certificates.specs.RecordAndStanding.{Standing};
ghost use Rattle.hyd_spec_certificates.specs.Valid.{AreCertificates};
ghost use Rattle.hyd_cert.specs.RecordView.{row_of};
ghost use Rattle.hyd_period_facts.specs.PassedOn.{IsBounded};
ghost use Rattle.hyd_period_network.specs.NetAsPeriodNetwork.{grid_of};
ghost use Rattle.hyd_period_network.specs.NetsSetToPeriods.{IsNetOf};
ghost use Rattle.hyd_theorems_on_definitions.specs.SoundLawsAndGrids.{TanksInOrder};
ghost use Rattle.hyd_period_facts.specs.ReservedMemory.{Takes};
ghost use Rattle.hyd_period_length.specs.ReservedMemory.{HasRoom};
ghost use Rattle.hyd_period_length.specs.Readings.{AreRead};
ghost use Rattle.hyd_period_facts.specs.FactsBeforeEnd.{AreStarted, HaveTanks};
ghost use Rattle.hyd_period_end.specs.FactsBeforeVectors.{AreBegun, AreReady};

use hyd_cert::Record;
use hyd_net::Project;
use hyd_period_facts::{Facts, put_inflows};
use hyd_period_length::Readings;
use hyd_period_network::Net;

/// Puts what flows into tanks and what rules look at in a period, by the vectors of its record, which are certificates.
pub(crate) fn look(
    project: &Project,
    net: &Net,
    row: &Record,
    readings: &mut Readings,
    facts: &mut Facts,
)
    requires sound { IsSound project.now }
    requires of { IsNetOf project.now net.now }
    requires order { TanksInOrder (grid_of net.now) }
    requires certificates { AreCertificates project.now (grid_of net.now) (row_of row.now) }
    requires tanks { row.now.tanks ≡ tank_count project.now }
    requires ready { AreReady project.now facts.old }
    requires room { HasRoom project.now readings.old }
    ensures read { AreRead (grid_of net.now) (row_of row.now) readings.new.low.list readings.new.high.list
        readings.new.flows.list }
    ensures bounded { All IsBounded readings.new.flows.list }
    ensures each_low { length readings.new.low.list ≡ nodes_before_tanks project.now }
    ensures each_high { length readings.new.high.list ≡ nodes_before_tanks project.now }
    ensures each_flow { length readings.new.flows.list ≡ length project.now.links.list }
    ensures have { HaveTanks project.now facts.new }
    ensures started { (standing : Standing) → AreBegun project.now standing facts.old
        → AreStarted project.now (grid_of net.now) standing (row_of row.now) facts.new }
    ensures keeps { facts.new ≡ record facts.old { inflows = facts.new.inflows } }
    ensures takes { Takes facts.new.inflows (tank_count project.now) }
    ensures room { HasRoom project.now readings.new }
{
    // Certificates are ordered where the net is steady.
    let _junctions = net.junctions();
    put_inflows(project, net, row, &mut facts.inflows);
    readings.put(project, net, row);
}
