//! The lines of a report time.

ghost use Rattle.std.specs.Prelude.{◌≡◌, ◌==◌, ◌&&◌, ◌++◌, IsTrue, None};
ghost use Rattle.hyd_io.specs.Output.{OnCert};
ghost use Rattle.hyd_io.specs.TextPutIn.{Puts};
ghost use Rattle.hyd_net.specs.Sound.{IsSound};
ghost use Rattle.hyd_spec_certificates.specs.PrintedIntervals.{is_report_time};
ghost use Rattle.hyd_cert.specs.RecordView.{row_of};
ghost use Rattle.hyd_period_network.specs.GivenData.{IsNetButEmitters};
ghost use Rattle.hyd_period_network.specs.LawsInSettings.{AreStates};
ghost use Rattle.hyd_period_network.specs.NetAsPeriodNetwork.{states_of};
ghost use Rattle.hyd_spread_bounds.specs.BothSides.{pair_of, IsOrderedPair};
ghost use Rattle.hyd_report.specs.NodeAndLinkLines.{texts};
ghost use Rattle.hyd_report.specs.PeriodLines.{AreTankFacts};
ghost use Rattle.hyd_spread_report.specs.LinesOverBothSides.{AreBoundsOver, tank_lines_by, link_lines_over};
ghost use Rattle.hyd_spread_report.specs.LinesOverBothSides.{state_lines_over, middle_lines_over};

use crate::junctions::put_junctions;
use crate::links::put_links;
use crate::reservoirs::put_reservoirs;
use hyd_cert::Record;
use hyd_io::{Desk, OutFault, Pen};
use hyd_net::Project;
use hyd_period_facts::Facts;
use hyd_period_network::Net;
use hyd_report::{is_report_time, put_tanks, put_time};
use hyd_spec_certificates::{Problem, Side};

/// Puts the lines of tanks and links.
fn put_tanks_and_links<D: Desk>(
    project: &Project,
    upper: &Net,
    lower: &Net,
    row: &Record,
    facts: &Facts,
    pen: &mut Pen,
    desk: &mut D,
) -> Result<(), OutFault>
    requires sound { IsSound project.now }
    requires of { IsNetButEmitters project.now upper.now }
    requires pair { IsOrderedPair (pair_of upper.now lower.now) }
    requires states { AreStates project.now (states_of upper.now) }
    requires bounds { AreBoundsOver upper.now lower.now (row_of row.now) }
    requires tanks { AreTankFacts project.now facts.now }
    requires ready { OnCert pen.old.to (IsTrue (D.ready desk.old)) }
    requires unbroken { pen.old.fault ≡ None }
    ensures { Puts D.files D.rest D.written D.printed D.target D.ready D.counts D.openings
        (texts project.now (tank_lines_by project.now facts.now
        ++ link_lines_over project.now (pair_of upper.now lower.now) (states_of upper.now) (row_of row.now)))
        result pen.old pen.new desk.old desk.new }
{
    put_tanks(
        project,
        facts.levels.as_slice(),
        facts.inflows.as_slice(),
        facts.tanks.as_slice(),
        pen,
        desk,
    )?;
    let low = row.vector(Problem::Main, Side::Lower);
    let high = row.vector(Problem::Main, Side::Upper);
    put_links(project, upper, lower, low, high, pen, desk)
}

/// Puts the lines of a report time.
fn put_state<D: Desk>(
    project: &Project,
    upper: &Net,
    lower: &Net,
    row: &Record,
    facts: &Facts,
    pen: &mut Pen,
    desk: &mut D,
) -> Result<(), OutFault>
    requires sound { IsSound project.now }
    requires of { IsNetButEmitters project.now upper.now }
    requires pair { IsOrderedPair (pair_of upper.now lower.now) }
    requires states { AreStates project.now (states_of upper.now) }
    requires bounds { AreBoundsOver upper.now lower.now (row_of row.now) }
    requires tanks { AreTankFacts project.now facts.now }
    requires ready { OnCert pen.old.to (IsTrue (D.ready desk.old)) }
    ensures { Puts D.files D.rest D.written D.printed D.target D.ready D.counts D.openings
        (texts project.now (state_lines_over project.now (pair_of upper.now lower.now) (states_of upper.now)
        (row_of row.now) facts.now))
        result pen.old pen.new desk.old desk.new }
{
    let _above = upper.junctions();
    let _below = lower.junctions();
    let low = row.vector(Problem::Main, Side::Lower);
    let high = row.vector(Problem::Main, Side::Upper);
    put_time(facts.time, pen, desk)?;
    put_junctions(project, upper, lower, low, high, pen, desk)?;
    put_reservoirs(project, upper, lower, pen, desk)?;
    put_tanks_and_links(project, upper, lower, row, facts, pen, desk)
}

/// Whether the state is told of a period whose start is open by so many seconds.
fn tells_state(project: &Project, facts: &Facts, late: u32) -> bool
    requires { IsSound project.now }
    ensures { result ≡ (late == 0) && is_report_time project.now facts.now.time }
{
    late == 0 && is_report_time(project, facts.time)
}

/// Puts the lines of a report time, where the start is known to the second and the period is reported.
pub(crate) fn put_middle<D: Desk>(
    project: &Project,
    upper: &Net,
    lower: &Net,
    row: &Record,
    facts: &Facts,
    late: u32,
    pen: &mut Pen,
    desk: &mut D,
) -> Result<(), OutFault>
    requires sound { IsSound project.now }
    requires of { IsNetButEmitters project.now upper.now }
    requires pair { IsOrderedPair (pair_of upper.now lower.now) }
    requires states { AreStates project.now (states_of upper.now) }
    requires bounds { AreBoundsOver upper.now lower.now (row_of row.now) }
    requires tanks { AreTankFacts project.now facts.now }
    requires ready { OnCert pen.old.to (IsTrue (D.ready desk.old)) }
    requires unbroken { pen.old.fault ≡ None }
    ensures { Puts D.files D.rest D.written D.printed D.target D.ready D.counts D.openings
        (texts project.now (middle_lines_over project.now (pair_of upper.now lower.now) (states_of upper.now)
        (row_of row.now) facts.now late))
        result pen.old pen.new desk.old desk.new }
{
    if tells_state(project, facts, late) {
        return put_state(project, upper, lower, row, facts, pen, desk);
    }
    Ok(())
}
