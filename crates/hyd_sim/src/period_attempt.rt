//! An attempt at a period: its vectors are sought, and it is ended by them.
#![tactic(auto)]

ghost use Rattle.std.specs.Prelude.{◌≡◌, false, length, IfErr, OnOk};
ghost use Rattle.hyd_net.specs.Sound.{IsSound};
ghost use Rattle.hyd_spec.specs.NodeNumbers.{tank_count};
ghost use Rattle.hyd_cert.specs.RecordView.{header_of, row_of};
ghost use Rattle.hyd_period_facts.specs.ReservedMemory.{HasRoom};
ghost use Rattle.hyd_period_network.specs.NetAsPeriodNetwork.{grid_of};
ghost use Rattle.hyd_period_network.specs.NetsSetToPeriods.{IsNetOf};
ghost use Rattle.hyd_period_end.specs.EndOfPeriod.{HasRoom as HasCloseRoom};
ghost use Rattle.hyd_sim.specs.RunView.{IsStanding, header_for, standing_for};
ghost use Rattle.hyd_sim.specs.PeriodAttempt.{AreSought, IsFault, IsMade, IsStarted};

use crate::end_of_due_period::end_period;
use crate::standing_between_periods::Standing;
use hyd_cert::Record;
use hyd_net::Project;
use hyd_period_end::{Open, PeriodEnd};
use hyd_period_facts::Facts;
use hyd_period_network::Net;
use hyd_period_vectors::{Finder, Lack, Search};

/// Why an attempt failed.
#[derive(Clone, Copy, Drop)]
pub(crate) enum Fault {
    /// A vector is lacking.
    Lack(Lack),
    /// The vectors leave a matter open.
    Open(Open),
}

/// Does a period that was started: finds the vectors of its record, the tight ones or others, and ends it by them.
/// Fails with the first problem and side that lacks a vector, or with the first matter that the vectors leave open.
pub(crate) fn try_period<F: Finder>(
    project: &Project,
    standing: &Standing,
    net: &Net,
    finder: &mut F,
    tight: bool,
    search: &mut Search,
    row: &mut Record,
    facts: &mut Facts,
    close: &mut PeriodEnd,
) -> Result<(), Fault>
    requires sound { IsSound project.now }
    requires standing { IsStanding project.now standing.now }
    requires unfinished { standing.now.finished ≡ false }
    requires of { IsNetOf project.now net.now }
    requires search { search.old.junctions ≡ length project.now.junctions.list }
    requires header { header_of row.old ≡ header_for project.now }
    requires started { IsStarted project.now standing.now net.now row.old facts.old }
    requires close { HasCloseRoom project.now close.old }
    ensures made { OnOk result (IsMade project.now standing.now net.now row.new facts.new close.new) }
    ensures sought { OnOk result (AreSought tight (F.told finder.old) (grid_of net.now) (tank_count project.now)
        search.old.rounds (row_of row.new)) }
    ensures fault { IfErr result (IsFault tight (F.told finder.old) project.now (grid_of net.now)
        (standing_for standing.now) search.old.rounds (row_of row.new)) }
    ensures header { header_of row.new ≡ header_of row.old }
    ensures number { row.new.number ≡ row.old.number }
    ensures time { row.new.time ≡ row.old.time }
    ensures facts { HasRoom project.now facts.new }
    ensures close { HasCloseRoom project.now close.new }
    ensures search { search.new ≡ search.old }
    ensures told { F.told finder.new ≡ F.told finder.old }
{
    if let Err(lack) = search.find(net, finder, tight, row) {
        return Err(Fault::Lack(lack));
    }
    match end_period(project, standing, net, row, facts, close) {
        Ok(()) => Ok(()),
        Err(found) => Err(Fault::Open(found)),
    }
}
