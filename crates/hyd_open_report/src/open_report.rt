//! The report of a period whose start or end may be open by some seconds.

ghost use Rattle.std.specs.Prelude.{ℕ, ◌≡◌, IsTrue};
ghost use Rattle.hyd_io.specs.Output.{OnCert};
ghost use Rattle.hyd_io.specs.TextPutIn.{Puts};
ghost use Rattle.hyd_net.specs.Sound.{IsSound};
ghost use Rattle.hyd_spec_open_ends.specs.OpenStandings.{OpenStanding, OpenRecord};
ghost use Rattle.hyd_spec_open_reports.specs.OpenReport.{IsOpenReport};
ghost use Rattle.hyd_cert.specs.RecordView.{row_of};
ghost use Rattle.hyd_period_network.specs.NetAsPeriodNetwork.{grid_of, states_of};
ghost use Rattle.hyd_period_network.specs.NetsSetToPeriods.{IsNetOf};
ghost use Rattle.hyd_period_network.specs.LawsInSettings.{AreStates};
ghost use Rattle.hyd_open_facts.specs.FactsOfOpenPeriod.{AreOpenFacts};
ghost use Rattle.hyd_report.specs.PeriodLines.{AreBounds, AreTankFacts};
ghost use Rattle.hyd_open_report.specs.OpenPeriodLines.{open_texts, open_lines_by};

use crate::late::Late;
use crate::start_and_end::{put_end, put_opened, put_start};
use hyd_cert::Record;
use hyd_io::{Desk, OutFault, Pen};
use hyd_net::Project;
use hyd_period_facts::Facts;
use hyd_period_network::Net;
use hyd_report::put_report;
use hyd_spec_certificates::Event;

/// Puts all lines of a period whose start or end may be open by some seconds: the changes by controls at its start,
/// with two times where that is open; the state of nodes and links where the start is known and a report time; and what
/// its end brings, events with two times where that is open. Rules end a period at a known second, so their lines have
/// one time.
///
/// Net, record and facts are those of one period: the net stands in the facts' link states, the vectors are its
/// certificates. The facts' length is that to the first end; they hold the events of an end that is known to the
/// second, and `events` those of one that is open. Its faults and its needs are those of `Pen::put`: after a fault,
/// what went out is a front of what was put in before and of these lines. It takes no memory.
pub fn put_open_report<D: Desk>(
    project: &Project,
    net: &Net,
    row: &Record,
    facts: &Facts,
    late: Late,
    events: &[Event],
    pen: &mut Pen,
    desk: &mut D,
) -> Result<(), OutFault>
    requires sound { IsSound project.now }
    requires of { IsNetOf project.now net.now }
    requires states { AreStates project.now (states_of net.now) }
    requires bounds { AreBounds net.now (row_of row.now) }
    requires tanks { AreTankFacts project.now facts.now }
    requires links { states_of net.now ≡ facts.now.links.list }
    requires ready { OnCert pen.old.to (IsTrue (D.ready desk.old)) }
    ensures report { (standing : OpenStanding) (found : OpenRecord) (first : ℕ) → late.start ≡ standing.late
        → found.row ≡ row_of row.now
        → AreOpenFacts project.now (grid_of net.now) standing found first late.end events.now facts.now
        → IsOpenReport project.now (grid_of net.now) standing found
        (open_lines_by project.now (grid_of net.now) (states_of net.now) (row_of row.now) facts.now late events.now) }
    ensures puts { Puts D.files D.rest D.written D.printed D.target D.ready D.counts D.openings
        (open_texts project.now
        (open_lines_by project.now (grid_of net.now) (states_of net.now) (row_of row.now) facts.now late events.now))
        result pen.old pen.new desk.old desk.new }
{
    if late.start == 0 {
        put_report(project, net, row, facts, pen, desk)?;
        return put_opened(project, facts, late.end, events, pen, desk);
    }
    put_start(project, facts, late.start, pen, desk)?;
    put_end(project, facts, late.end, events, pen, desk)
}
