//! An attempt at a period of a run for a spread: its vectors are sought, and it is ended by them.
#![tactic(auto)]

ghost use Rattle.std.specs.Prelude.{◌≡◌, true, false, length, IfErr, OnOk};
ghost use Rattle.hyd_net.specs.Sound.{IsSound};
ghost use Rattle.hyd_spec.specs.NodeNumbers.{tank_count};
ghost use Rattle.hyd_spec_certificates.specs.declared.Side.{Side};
ghost use Rattle.hyd_spec_spread.specs.Spreads.{IsSpread};
ghost use Rattle.hyd_spec_spread_reports.specs.TextsOfSpreadReports.{says_nothing};
ghost use Rattle.hyd_cert.specs.RecordView.{row_of};
ghost use Rattle.hyd_open_certificates.specs.OpenRowView.{open_header_of};
ghost use Rattle.hyd_period_facts.specs.ReservedMemory.{HasRoom};
ghost use Rattle.hyd_period_end.specs.OpenMatters.{SharesVectors};
ghost use Rattle.hyd_open_period_end.specs.EndOfOpenPeriod.{HasRoom as HasCloseRoom};
ghost use Rattle.hyd_open_sim_start.specs.StandingsOfOpenRuns.{IsStanding, standing_for};
ghost use Rattle.hyd_open_sim.specs.RunView.{header_for};
ghost use Rattle.hyd_period_vectors.specs.SoughtVectors.{OfEach};
ghost use Rattle.hyd_spread_networks.specs.NetsOfSpreads.{AreNetsOf, pair_of};
ghost use Rattle.hyd_spread_vectors.specs.VectorsOfBothNetworks.{KeepsSize, AreFoundOn, held_on, IsHeldIn};
ghost use Rattle.hyd_spread_start.specs.StartsOver.{IsStartedOver};
ghost use Rattle.hyd_spread_sim.specs.MadeOver.{IsMadeOver};
ghost use Rattle.hyd_spread_sim.specs.PeriodAttempt.{AreSoughtOver, IsFaultOver};

use crate::without_spread::{alike_without_spread, says_nothing};
use hyd_finders::Finder;
use hyd_net::Project;
use hyd_open_certificates::OpenRow;
use hyd_open_period_end::OpenPeriodEnd;
use hyd_open_sim_start::Standing;
use hyd_period_end::Open;
use hyd_period_facts::Facts;
use hyd_spec_certificates::Side;
use hyd_spread_bounds::outermost_in_order;
use hyd_spread_networks::SpreadNets;
use hyd_spread_period_end::end_period;
use hyd_spread_vectors::{SpreadLack, SpreadSearch, certificates_over};

/// Why an attempt failed.
#[derive(Clone, Copy, Drop)]
pub enum Fault {
    /// A vector is lacking on the net of a side.
    Lack(SpreadLack),
    /// The vectors leave a matter open.
    Open(Open),
}

/// Does a period of a run for a spread that was started, whose end may be open by at most the slack: finds the vectors
/// of its record on the nets of both sides, the tight ones or others, each net's by a finder of its own, and ends it by
/// them. Where there is no spread both nets are alike, and so is what both finders tell. Fails with the first net, problem and side that lacks a vector, or with the first matter that the vectors leave
/// open.
pub fn try_period<F: Finder, G: Finder>(
    project: &Project,
    standing: &Standing,
    slack: u32,
    nets: &SpreadNets,
    above: &mut F,
    below: &mut G,
    tight: bool,
    search: &mut SpreadSearch,
    found: &mut OpenRow,
    facts: &mut Facts,
    close: &mut OpenPeriodEnd,
) -> Result<(), Fault>
    requires sound { IsSound project.now }
    requires spread { IsSpread project.now nets.now.spread }
    requires standing { IsStanding project.now standing.now }
    requires unfinished { standing.now.finished ≡ false }
    requires of { AreNetsOf project.now nets.now }
    requires search { search.old.junctions ≡ length project.now.junctions.list }
    requires tanks { search.old.tanks ≡ tank_count project.now }
    requires header { open_header_of found.old ≡ header_for project.now }
    requires started { IsStartedOver project.now nets.now.spread (standing_for standing.now) nets.now found.old
        facts.old }
    requires close { HasCloseRoom project.now close.old }
    requires told { says_nothing nets.now.spread ≡ true → G.told below.old ≡ F.told above.old }
    ensures made { OnOk result (IsMadeOver project.now slack standing.now nets.now found.new facts.new close.new) }
    ensures sought { OnOk result (AreSoughtOver tight (record { above = F.told above.old; below = G.told below.old })
        (pair_of nets.now) (tank_count project.now) search.old.rounds (row_of found.new.row)) }
    ensures held { OnOk result ((network : Side) → AreFoundOn tight
        (record { above = F.told above.old; below = G.told below.old }) (pair_of nets.now) (tank_count project.now)
        search.old.rounds network (held_on network search.new.held)) }
    ensures same { OnOk result (OfEach (IsHeldIn search.new.held) (tank_count project.now) (row_of found.new.row)) }
    ensures alike { says_nothing nets.now.spread ≡ true
        → OnOk result (SharesVectors search.new.held.above search.new.held.below) }
    ensures fault { IfErr result (IsFaultOver tight (record { above = F.told above.old; below = G.told below.old })
        project.now (pair_of nets.now) (standing_for standing.now) slack search.old.rounds search.new.held
        (row_of found.new.row)) }
    ensures header { open_header_of found.new ≡ open_header_of found.old }
    ensures number { found.new.row.number ≡ found.old.row.number }
    ensures time { found.new.row.time ≡ found.old.row.time }
    ensures late { found.new.late ≡ found.old.late }
    ensures facts { HasRoom project.now facts.new }
    ensures close { HasCloseRoom project.now close.new }
    ensures search { KeepsSize search.old search.new }
    ensures told_above { F.told above.new ≡ F.told above.old }
    ensures told_below { G.told below.new ≡ G.told below.old }
{
    let upper = nets.on(Side::Upper);
    let lower = nets.on(Side::Lower);
    let alike = says_nothing(nets.spread());
    alike_without_spread();
    if let Err(lack) = search.find(upper, lower, above, below, alike, tight, &mut found.row) {
        return Err(Fault::Lack(lack));
    }
    outermost_in_order();
    certificates_over();
    match end_period(project, standing, nets, slack, found, facts, close) {
        Ok(()) => Ok(()),
        Err(what) => Err(Fault::Open(what)),
    }
}
