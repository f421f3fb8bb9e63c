//! The end of a period that is due, by the vectors of its record.
#![tactic(auto)]

ghost use Rattle.std.specs.Prelude.{◌≡◌, ◌≤◌, ◌^◌, IfErr, OnErr, OnOk};
ghost use Rattle.hyd_net.specs.Sound.{IsSound};
ghost use Rattle.hyd_spec_certificates.specs.Stops.{IsTightRow};
ghost use Rattle.hyd_spec_certificates.specs.Valid.{AreCertificates};
ghost use Rattle.hyd_spec_open_ends.specs.OpenStandings.{OpenRecord};
ghost use Rattle.hyd_spec_open_refusals.specs.RefusedOpenRecords.{LeavesMatterOpen, HasLengths, HasOtherLengths};
ghost use Rattle.hyd_cert.specs.RecordView.{row_of};
ghost use Rattle.hyd_open_certificates.specs.OpenRowView.{open_header_of};
ghost use Rattle.hyd_period_facts.specs.ReservedMemory.{HasRoom};
ghost use Rattle.hyd_period_network.specs.NetAsPeriodNetwork.{grid_of};
ghost use Rattle.hyd_period_network.specs.NetsSetToPeriods.{IsNetOf};
ghost use Rattle.hyd_theorems_on_definitions.specs.SoundLawsAndGrids.{TanksInOrder};
ghost use Rattle.hyd_period_end.specs.FactsBeforeVectors.{AreBegun, AreReady};
ghost use Rattle.hyd_period_end.specs.OpenMatters.{SharesVectors};
ghost use Rattle.hyd_open_period_end.specs.EndOfOpenPeriod.{HasRoom as HasCloseRoom};
ghost use Rattle.hyd_open_period_end.specs.OpenMatters.{IsOpenlyOpenAt, IsLeftOpen};
ghost use Rattle.hyd_open_sim_start.specs.StandingsOfOpenRuns.{IsStanding, known_for, standing_for};
ghost use Rattle.hyd_open_sim.specs.EndedPeriods.{IsOver};
ghost use Rattle.hyd_open_sim.specs.RunView.{header_for};

use crate::ends_by_readings::end_by_readings;
use hyd_net::Project;
use hyd_open_certificates::OpenRow;
use hyd_open_period_end::{OpenPeriodEnd, look};
use hyd_open_sim_start::Standing;
use hyd_period_end::Open;
use hyd_period_facts::Facts;
use hyd_period_network::Net;

/// Ends a period by the vectors of its record, which are certificates, where its end may be open by at most the slack.
/// Fails with the first matter that they leave open.
pub(crate) fn end_period(
    project: &Project,
    standing: &Standing,
    net: &Net,
    slack: u32,
    found: &mut OpenRow,
    facts: &mut Facts,
    close: &mut OpenPeriodEnd,
) -> Result<(), Open>
    requires sound { IsSound project.now }
    requires standing { IsStanding project.now standing.now }
    requires of { IsNetOf project.now net.now }
    requires order { TanksInOrder (grid_of net.now) }
    requires certificates { AreCertificates project.now (grid_of net.now) (row_of found.old.row) }
    requires header { open_header_of found.old ≡ header_for project.now }
    requires begun { AreBegun project.now (known_for standing.now) facts.old }
    requires ready { AreReady project.now facts.old }
    requires close { HasCloseRoom project.now close.old }
    ensures over { OnOk result (IsOver project.now slack standing.now (grid_of net.now) found.new facts.new close.new) }
    ensures open { IfErr result (λ what. (other : OpenRecord) → SharesVectors other.row (row_of found.old.row)
        → IsOpenlyOpenAt project.now (grid_of net.now) (standing_for standing.now) slack other what) }
    ensures stops { IfErr result (λ what. IsTightRow project.now (known_for standing.now) (grid_of net.now)
        (row_of found.old.row) → IsLeftOpen project.now (standing_for standing.now) slack what) }
    ensures matter { 10 ^ 8 ≤ slack → OnErr result ((other : OpenRecord)
        → SharesVectors other.row (row_of found.old.row)
        → LeavesMatterOpen project.now (grid_of net.now) (standing_for standing.now) other) }
    ensures decided { OnOk result ((other : OpenRecord) → SharesVectors other.row (row_of found.old.row)
        → LeavesMatterOpen project.now (grid_of net.now) (standing_for standing.now) other → ⊥) }
    ensures lengths { OnOk result ((other : OpenRecord) → SharesVectors other.row (row_of found.old.row)
        → (HasLengths other found.new.shortest found.new.row.length → ⊥)
        → HasOtherLengths project.now (grid_of net.now) (standing_for standing.now) other) }
    ensures found { found.new ≡ record found.old {
      row = record found.old.row { length = found.new.row.length };
      shortest = found.new.shortest;
    } }
    ensures facts { HasRoom project.now facts.new }
    ensures links { facts.new.links ≡ facts.old.links }
    ensures close { HasCloseRoom project.now close.new }
{
    look(project, net, &found.row, &mut close.readings, facts);
    end_by_readings(project, standing, slack, found, facts, close)
}
