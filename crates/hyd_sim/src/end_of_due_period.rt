//! The end of a period that is due, by the vectors of its record.
#![tactic(auto)]

ghost use Rattle.std.specs.Prelude.{◌≡◌, length, IfErr, OnOk};
ghost use Rattle.hyd_net.specs.Sound.{IsSound};
ghost use Rattle.hyd_spec.specs.NodeNumbers.{tank_count};
ghost use Rattle.hyd_spec_certificates.specs.Valid.{AreCertificates};
ghost use Rattle.hyd_cert.specs.RecordView.{header_of, row_of};
ghost use Rattle.hyd_period_facts.specs.ReservedMemory.{HasRoom};
ghost use Rattle.hyd_period_network.specs.NetAsPeriodNetwork.{grid_of};
ghost use Rattle.hyd_period_network.specs.NetsSetToPeriods.{IsNetOf};
ghost use Rattle.hyd_theorems_on_definitions.specs.SoundLawsAndGrids.{TanksInOrder};
ghost use Rattle.hyd_period_end.specs.FactsBeforeVectors.{AreBegun, AreReady};
ghost use Rattle.hyd_period_end.specs.EndOfPeriod.{HasRoom as HasCloseRoom};
ghost use Rattle.hyd_period_end.specs.declared.period_end.PeriodEnd as closes;
ghost use Rattle.hyd_period_end.specs.OpenMatters.{IsOpenAt, SharesVectors};
ghost use Rattle.hyd_spec_certificates.specs.RecordAndStanding.{Record as Row};
ghost use Rattle.hyd_sim.specs.RunView.{IsStanding, header_for, standing_for};
ghost use Rattle.hyd_sim.specs.PeriodAttempt.{IsOver};

use crate::standing_between_periods::Standing;
use hyd_cert::Record;
use hyd_net::Project;
use hyd_period_end::{Open, PeriodEnd};
use hyd_period_facts::{Facts, put_inflows};
use hyd_period_network::Net;

// Ends the period at the end of the run, which lasts no time and brings nothing.
fn end_run(project: &Project, standing: &Standing, net: &Net, row: &mut Record, facts: &mut Facts)
    requires sound { IsSound project.now }
    requires standing { IsStanding project.now standing.now }
    requires last { standing.now.time ≡ project.now.times.duration }
    requires of { IsNetOf project.now net.now }
    requires order { TanksInOrder (grid_of net.now) }
    requires certificates { AreCertificates project.now (grid_of net.now) (row_of row.old) }
    requires tanks { row.old.tanks ≡ tank_count project.now }
    requires begun { AreBegun project.now (standing_for standing.now) facts.old }
    requires ready { AreReady project.now facts.old }
    ensures over { (close : closes.PeriodEnd)
        → IsOver project.now standing.now (grid_of net.now) row.new facts.new close }
    ensures row { row.new ≡ record row.old { length = row.new.length } }
    ensures facts { HasRoom project.now facts.new }
    ensures links { facts.new.links ≡ facts.old.links }
{
    let _standing = standing;
    put_inflows(project, net, row, &mut facts.inflows);
    facts.events.clear();
    facts.length = 0;
    row.length = 0;
}

/// Ends a period by the vectors of its record, which are certificates. Fails with the first matter that they leave
/// open.
pub(crate) fn end_period(
    project: &Project,
    standing: &Standing,
    net: &Net,
    row: &mut Record,
    facts: &mut Facts,
    close: &mut PeriodEnd,
) -> Result<(), Open>
    requires sound { IsSound project.now }
    requires standing { IsStanding project.now standing.now }
    requires of { IsNetOf project.now net.now }
    requires order { TanksInOrder (grid_of net.now) }
    requires certificates { AreCertificates project.now (grid_of net.now) (row_of row.old) }
    requires header { header_of row.old ≡ header_for project.now }
    requires begun { AreBegun project.now (standing_for standing.now) facts.old }
    requires ready { AreReady project.now facts.old }
    requires close { HasCloseRoom project.now close.old }
    ensures over { OnOk result (IsOver project.now standing.now (grid_of net.now) row.new facts.new close.new) }
    ensures open { IfErr result (λ found. (other : Row) → SharesVectors other (row_of row.old)
        → IsOpenAt project.now (grid_of net.now) (standing_for standing.now) other found) }
    ensures row { row.new ≡ record row.old { length = row.new.length } }
    ensures facts { HasRoom project.now facts.new }
    ensures links { facts.new.links ≡ facts.old.links }
    ensures close { HasCloseRoom project.now close.new }
{
    if standing.time == project.times.duration {
        end_run(project, standing, net, row, facts);
        return Ok(());
    }
    close.finish(project, net, row, facts)
}
