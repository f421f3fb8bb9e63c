//! An attempt at a period: its vectors are sought, and it is ended by them.
#![tactic(auto)]

ghost use Rattle.std.specs.Prelude.{◌≡◌, false, length, IfErr, OnOk};
ghost use Rattle.hyd_net.specs.Sound.{IsSound};
ghost use Rattle.hyd_spec.specs.NodeNumbers.{tank_count};
ghost use Rattle.hyd_cert.specs.RecordView.{row_of};
ghost use Rattle.hyd_open_certificates.specs.OpenRowView.{open_header_of};
ghost use Rattle.hyd_period_facts.specs.ReservedMemory.{HasRoom};
ghost use Rattle.hyd_period_network.specs.NetAsPeriodNetwork.{grid_of};
ghost use Rattle.hyd_period_network.specs.NetsSetToPeriods.{IsNetOf};
ghost use Rattle.hyd_open_period_end.specs.EndOfOpenPeriod.{HasRoom as HasCloseRoom};
ghost use Rattle.hyd_open_sim_start.specs.StandingsOfOpenRuns.{IsStanding, standing_for};
ghost use Rattle.hyd_open_sim_start.specs.StartedPeriods.{IsStarted};
ghost use Rattle.hyd_sim.specs.PeriodAttempt.{AreSought};
ghost use Rattle.hyd_open_sim.specs.EndedPeriods.{IsMade};
ghost use Rattle.hyd_open_sim.specs.PeriodAttempt.{IsFault};
ghost use Rattle.hyd_open_sim.specs.RunView.{header_for};

use crate::end_of_due_period::end_period;
use hyd_finders::Finder;
use hyd_net::Project;
use hyd_open_certificates::OpenRow;
use hyd_open_period_end::OpenPeriodEnd;
use hyd_open_sim_start::Standing;
use hyd_period_end::Open;
use hyd_period_facts::Facts;
use hyd_period_network::Net;
use hyd_period_vectors::{Lack, Search};

/// Why an attempt failed.
#[derive(Clone, Copy, Drop)]
pub(crate) enum Fault {
    /// A vector is lacking.
    Lack(Lack),
    /// The vectors leave a matter open.
    Open(Open),
}

/// Does a period that was started, whose end may be open by at most the slack: finds the vectors of its record, the
/// tight ones or others, and ends it by them.
/// Fails with the first problem and side that lacks a vector, or with the first matter that the vectors leave open.
pub(crate) fn try_period<F: Finder>(
    project: &Project,
    standing: &Standing,
    slack: u32,
    net: &Net,
    finder: &mut F,
    tight: bool,
    search: &mut Search,
    found: &mut OpenRow,
    facts: &mut Facts,
    close: &mut OpenPeriodEnd,
) -> Result<(), Fault>
    requires sound { IsSound project.now }
    requires standing { IsStanding project.now standing.now }
    requires unfinished { standing.now.finished ≡ false }
    requires of { IsNetOf project.now net.now }
    requires search { search.old.junctions ≡ length project.now.junctions.list }
    requires header { open_header_of found.old ≡ header_for project.now }
    requires started { IsStarted project.now (standing_for standing.now) net.now found.old facts.old }
    requires close { HasCloseRoom project.now close.old }
    ensures made { OnOk result (IsMade project.now slack standing.now net.now found.new facts.new close.new) }
    ensures sought { OnOk result (AreSought tight (F.told finder.old) (grid_of net.now) (tank_count project.now)
        search.old.rounds (row_of found.new.row)) }
    ensures fault { IfErr result (IsFault tight (F.told finder.old) project.now (grid_of net.now)
        (standing_for standing.now) slack search.old.rounds (row_of found.new.row)) }
    ensures header { open_header_of found.new ≡ open_header_of found.old }
    ensures number { found.new.row.number ≡ found.old.row.number }
    ensures time { found.new.row.time ≡ found.old.row.time }
    ensures late { found.new.late ≡ found.old.late }
    ensures facts { HasRoom project.now facts.new }
    ensures close { HasCloseRoom project.now close.new }
    ensures search { search.new ≡ search.old }
    ensures told { F.told finder.new ≡ F.told finder.old }
{
    if let Err(lack) = search.find(net, finder, tight, &mut found.row) {
        return Err(Fault::Lack(lack));
    }
    match end_period(project, standing, net, slack, found, facts, close) {
        Ok(()) => Ok(()),
        Err(what) => Err(Fault::Open(what)),
    }
}
