//! The end of a period that is due, by the vectors of its record.
#![tactic(auto)]

ghost use Rattle.std.specs.Prelude.{◌≡◌, ◌≤◌, ◌^◌, IfErr, OnErr, OnOk};
ghost use Rattle.hyd_net.specs.Sound.{IsSound};
ghost use Rattle.hyd_spec_open_ends.specs.OpenStandings.{OpenRecord};
ghost use Rattle.hyd_spec_open_refusals.specs.RefusedOpenRecords.{HasLengths};
ghost use Rattle.hyd_spec_spread_runs.specs.RunsForSpreads.{AreCertificatesOver};
ghost use Rattle.hyd_cert.specs.RecordView.{row_of};
ghost use Rattle.hyd_open_certificates.specs.OpenRowView.{open_header_of};
ghost use Rattle.hyd_period_facts.specs.ReservedMemory.{HasRoom};
ghost use Rattle.hyd_theorems_on_definitions.specs.SoundLawsAndGrids.{TanksInOrder};
ghost use Rattle.hyd_period_end.specs.FactsBeforeVectors.{AreBegun, AreReady};
ghost use Rattle.hyd_period_end.specs.OpenMatters.{SharesVectors};
ghost use Rattle.hyd_open_period_end.specs.EndOfOpenPeriod.{HasRoom as HasCloseRoom};
ghost use Rattle.hyd_open_sim_start.specs.StandingsOfOpenRuns.{IsStanding, known_for, standing_for};
ghost use Rattle.hyd_open_sim.specs.RunView.{header_for};
ghost use Rattle.hyd_spread_bounds.specs.BothSides.{IsOrderedPair};
ghost use Rattle.hyd_spread_networks.specs.NetsOfSpreads.{AreNetsOf, pair_of};
ghost use Rattle.hyd_spread_period_end.specs.EndedOverSpreads.{IsOverOnBoth, IsOpenOnBoth, LeavesOpenOnBoth};
ghost use Rattle.hyd_spread_period_end.specs.EndedOverSpreads.{HasOtherLengthsOnBoth};

use crate::inflows_and_readings::look;
use hyd_net::Project;
use hyd_open_certificates::OpenRow;
use hyd_open_period_end::OpenPeriodEnd;
use hyd_open_sim::end_by_readings;
use hyd_open_sim_start::Standing;
use hyd_period_end::Open;
use hyd_period_facts::Facts;
use hyd_spread_networks::SpreadNets;

/// Ends a period of a run for a spread by the vectors of its record, which are certificates on the nets of both sides,
/// where its end may be open by at most the slack; at the end of the run the period lasts no time and brings nothing.
/// Fails with the first matter that they leave open. The sides of the nets of a period are in order
/// (`outermost_in_order` of `hyd_spread_bounds`).
pub fn end_period(
    project: &Project,
    standing: &Standing,
    nets: &SpreadNets,
    slack: u32,
    found: &mut OpenRow,
    facts: &mut Facts,
    close: &mut OpenPeriodEnd,
) -> Result<(), Open>
    requires sound { IsSound project.now }
    requires standing { IsStanding project.now standing.now }
    requires of { AreNetsOf project.now nets.now }
    requires pair { IsOrderedPair (pair_of nets.now) }
    requires levels { TanksInOrder (pair_of nets.now).lower }
    requires certificates { AreCertificatesOver project.now (pair_of nets.now) (row_of found.old.row) }
    requires header { open_header_of found.old ≡ header_for project.now }
    requires begun { AreBegun project.now (known_for standing.now) facts.old }
    requires ready { AreReady project.now facts.old }
    requires close { HasCloseRoom project.now close.old }
    ensures over { OnOk result (IsOverOnBoth project.now slack standing.now (pair_of nets.now) found.new facts.new
        close.new) }
    ensures open { IfErr result (λ what. (other : OpenRecord) → SharesVectors other.row (row_of found.old.row)
        → IsOpenOnBoth project.now (pair_of nets.now) (standing_for standing.now) slack other what) }
    ensures matter { 10 ^ 8 ≤ slack → OnErr result ((other : OpenRecord)
        → SharesVectors other.row (row_of found.old.row)
        → LeavesOpenOnBoth project.now (pair_of nets.now) (standing_for standing.now) other) }
    ensures decided { OnOk result ((other : OpenRecord) → SharesVectors other.row (row_of found.old.row)
        → LeavesOpenOnBoth project.now (pair_of nets.now) (standing_for standing.now) other → ⊥) }
    ensures lengths { OnOk result ((other : OpenRecord) → SharesVectors other.row (row_of found.old.row)
        → (HasLengths other found.new.shortest found.new.row.length → ⊥)
        → HasOtherLengthsOnBoth project.now (pair_of nets.now) (standing_for standing.now) other) }
    ensures found { found.new ≡ record found.old {
      row = record found.old.row { length = found.new.row.length };
      shortest = found.new.shortest;
    } }
    ensures facts { HasRoom project.now facts.new }
    ensures links { facts.new.links ≡ facts.old.links }
    ensures close { HasCloseRoom project.now close.new }
{
    look(project, nets, &found.row, &mut close.readings, facts);
    end_by_readings(project, standing, slack, found, facts, close)
}
