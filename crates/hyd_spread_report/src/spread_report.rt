//! The report of a period of a run for a spread.

ghost use Rattle.std.specs.Prelude.{ℕ, ◌≡◌, IsTrue, None};
ghost use Rattle.hyd_io.specs.Output.{OnCert};
ghost use Rattle.hyd_io.specs.TextPutIn.{Puts};
ghost use Rattle.hyd_net.specs.Sound.{IsSound};
ghost use Rattle.hyd_spec_open_ends.specs.OpenStandings.{OpenStanding, OpenRecord};
ghost use Rattle.hyd_spec_spread_runs.specs.OutermostPairs.{spanned};
ghost use Rattle.hyd_spec_open_spreads.specs.OpenRunsForSpreads.{spanning_openly};
ghost use Rattle.hyd_spec_spread_reports.specs.SpreadReport.{IsSpreadReport};
ghost use Rattle.hyd_cert.specs.RecordView.{row_of};
ghost use Rattle.hyd_period_network.specs.LawsInSettings.{AreStates};
ghost use Rattle.hyd_period_network.specs.NetAsPeriodNetwork.{states_of};
ghost use Rattle.hyd_open_facts.specs.FactsOfOpenPeriod.{AreOpenFacts};
ghost use Rattle.hyd_report.specs.NodeAndLinkLines.{texts};
ghost use Rattle.hyd_report.specs.PeriodLines.{AreTankFacts};
ghost use Rattle.hyd_open_report.specs.OpenPeriodLines.{open_texts};
ghost use Rattle.hyd_spread_bounds.specs.BothSides.{IsOrderedPair};
ghost use Rattle.hyd_spread_networks.specs.NetsOfSpreads.{AreNetsOf, pair_of};
ghost use Rattle.hyd_spread_report.specs.LinesOverBothSides.{AreBoundsOver, middle_lines_over, spread_lines_by};

use crate::state::put_middle;
use hyd_cert::Record;
use hyd_io::{Desk, OutFault, Pen};
use hyd_net::Project;
use hyd_open_report::{Late, put_end, put_start};
use hyd_period_facts::Facts;
use hyd_spec_certificates::{Event, Side};
use hyd_spread_networks::SpreadNets;

/// Puts the lines of a report time by the nets of both sides, where the start is known to the second and the period is
/// reported.
fn put_told<D: Desk>(
    project: &Project,
    nets: &SpreadNets,
    row: &Record,
    facts: &Facts,
    late: u32,
    pen: &mut Pen,
    desk: &mut D,
) -> Result<(), OutFault>
    requires sound { IsSound project.now }
    requires of { AreNetsOf project.now nets.now }
    requires pair { IsOrderedPair (pair_of nets.now) }
    requires states { AreStates project.now (states_of nets.now.upper) }
    requires bounds { AreBoundsOver nets.now.upper nets.now.lower (row_of row.now) }
    requires tanks { AreTankFacts project.now facts.now }
    requires ready { OnCert pen.old.to (IsTrue (D.ready desk.old)) }
    requires unbroken { pen.old.fault ≡ None }
    ensures { Puts D.files D.rest D.written D.printed D.target D.ready D.counts D.openings
        (texts project.now (middle_lines_over project.now (pair_of nets.now) (states_of nets.now.upper)
        (row_of row.now) facts.now late))
        result pen.old pen.new desk.old desk.new }
{
    let upper = nets.on(Side::Upper);
    let lower = nets.on(Side::Lower);
    put_middle(project, upper, lower, row, facts, late, pen, desk)
}

/// Puts all lines of a period of a run for a spread, whose start or end may be open by some seconds: the changes by
/// controls at its start, with two times where that is open; the state of nodes and links where the start is known and
/// a report time; and what its end brings, events with two times where that is open. Each interval of the state holds
/// what the data within the spread leave open.
///
/// Nets, record and facts are those of one period: the nets stand in the facts' link states, the UPPER vectors are
/// certificates on the UPPER net and the LOWER ones on the LOWER net. The facts' length is that to the first end; they
/// hold the events of an end that is known to the second, and `events` those of one that is open. Its faults and its
/// needs are those of `Pen::put`: after a fault, what went out is a front of what was put in before and of these
/// lines. It takes no memory.
pub fn put_spread_report<D: Desk>(
    project: &Project,
    nets: &SpreadNets,
    row: &Record,
    facts: &Facts,
    late: Late,
    events: &[Event],
    pen: &mut Pen,
    desk: &mut D,
) -> Result<(), OutFault>
    requires sound { IsSound project.now }
    requires of { AreNetsOf project.now nets.now }
    requires pair { IsOrderedPair (pair_of nets.now) }
    requires states { AreStates project.now (states_of nets.now.upper) }
    requires bounds { AreBoundsOver nets.now.upper nets.now.lower (row_of row.now) }
    requires tanks { AreTankFacts project.now facts.now }
    requires links { states_of nets.now.upper ≡ facts.now.links.list }
    requires ready { OnCert pen.old.to (IsTrue (D.ready desk.old)) }
    ensures report { (standing : OpenStanding) (found : OpenRecord) (first : ℕ) → late.start ≡ standing.late
        → found.row ≡ row_of row.now
        → AreOpenFacts project.now (spanned (pair_of nets.now)) standing (spanning_openly (pair_of nets.now) found)
        first late.end events.now facts.now
        → IsSpreadReport project.now (pair_of nets.now) standing found
        (spread_lines_by project.now (pair_of nets.now) (states_of nets.now.upper) (row_of row.now) facts.now late
        events.now) }
    ensures puts { Puts D.files D.rest D.written D.printed D.target D.ready D.counts D.openings
        (open_texts project.now
        (spread_lines_by project.now (pair_of nets.now) (states_of nets.now.upper) (row_of row.now) facts.now late
        events.now))
        result pen.old pen.new desk.old desk.new }
{
    put_start(project, facts, late.start, pen, desk)?;
    put_told(project, nets, row, facts, late.start, pen, desk)?;
    put_end(project, facts, late.end, events, pen, desk)
}
