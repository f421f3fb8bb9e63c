//! The report of a period.

ghost use Rattle.std.specs.Prelude.{◌≡◌, ◌+◌, ◌++◌, take, drop, IsTrue, None};
ghost use Rattle.hyd_io.specs.Output.{OnCert};
ghost use Rattle.hyd_net.specs.Sound.{IsSound};
ghost use Rattle.hyd_spec.specs.Lists.{map_from};
ghost use Rattle.hyd_spec_certificates.specs.Decided.{heads_below, heads_above};
ghost use Rattle.hyd_spec_certificates.specs.RecordAndStanding.{Standing};
ghost use Rattle.hyd_spec_reports.specs.Report.{IsReport};
ghost use Rattle.hyd_period_facts.specs.FactsOfPeriod.{AreFacts};
ghost use Rattle.hyd_period_network.specs.NetAsPeriodNetwork.{grid_of, states_of};
ghost use Rattle.hyd_period_network.specs.NetsSetToPeriods.{IsNetOf};
ghost use Rattle.hyd_period_network.specs.LawsInSettings.{AreStates};
ghost use Rattle.hyd_cert.specs.RecordView.{row_of};
ghost use Rattle.hyd_io.specs.TextPutIn.{Puts};
ghost use Rattle.hyd_report.specs.NodeAndLinkLines.{texts, tank_line, link_line};
ghost use Rattle.hyd_report.specs.EventTextsAndChangesByRules.{before_rules};
ghost use Rattle.hyd_report.specs.PeriodLines.{start_lines, state_lines, middle_lines, end_lines, lines_of};
ghost use Rattle.hyd_report.specs.PeriodLines.{AreTankFacts};
ghost use Rattle.hyd_report.specs.PeriodLines.{AreBounds};

use crate::changes::{before_rules, put_changes};
use crate::events::put_events;
use crate::junctions::put_junctions;
use crate::line_pieces::put_piece;
use crate::links::put_links;
use crate::report_time::{is_report_time, put_time};
use crate::reservoirs::put_reservoirs;
use crate::tanks::put_tanks;
use hyd_cert::Record;
use hyd_io::{Desk, OutFault, Pen};
use hyd_net::Project;
use hyd_period_facts::Facts;
use hyd_period_network::Net;
use hyd_spec::Change;
use hyd_spec_certificates::{Problem, Side};

/// The changes before the first one by a rule.
fn by_controls(facts: &Facts) -> &[Change]
    ensures { result.now ≡ take (before_rules facts.now.changes.list) facts.now.changes.list }
{
    let changes = facts.changes.rows();
    &changes[..before_rules(changes)]
}

/// The changes from the first one by a rule on.
fn by_rules(facts: &Facts) -> &[Change]
    ensures { result.now ≡ drop (before_rules facts.now.changes.list) facts.now.changes.list }
{
    let changes = facts.changes.rows();
    &changes[before_rules(changes)..]
}

/// Puts the lines of changes by controls at the start of a period.
fn put_start<D: Desk>(
    project: &Project,
    facts: &Facts,
    pen: &mut Pen,
    desk: &mut D,
) -> Result<(), OutFault>
    requires sound { IsSound project.now }
    requires ready { OnCert pen.old.to (IsTrue (D.ready desk.old)) }
    ensures { Puts D.files D.rest D.written D.printed D.target D.ready D.counts D.openings
        (texts project.now (start_lines facts.now))
        result pen.old pen.new desk.old desk.new }
{
    // A pen that has a fault answers it also where there are no lines.
    put_piece(b"", pen, desk)?;
    put_changes(
        project,
        u64::from(facts.time),
        by_controls(facts),
        pen,
        desk,
    )
}

/// When a period ends, in seconds.
fn end_of(facts: &Facts) -> u64
    ensures { result ≡ facts.now.time + facts.now.length }
{
    u64::from(facts.time) + u64::from(facts.length)
}

/// Puts the lines of events and of changes by rules at the end of a period.
fn put_end<D: Desk>(
    project: &Project,
    facts: &Facts,
    pen: &mut Pen,
    desk: &mut D,
) -> Result<(), OutFault>
    requires sound { IsSound project.now }
    requires ready { OnCert pen.old.to (IsTrue (D.ready desk.old)) }
    requires unbroken { pen.old.fault ≡ None }
    ensures { Puts D.files D.rest D.written D.printed D.target D.ready D.counts D.openings
        (texts project.now (end_lines facts.now))
        result pen.old pen.new desk.old desk.new }
{
    let time = end_of(facts);
    put_events(project, time, facts.events.as_slice(), pen, desk)?;
    put_changes(project, time, by_rules(facts), pen, desk)
}

/// Puts the lines of tanks and links.
fn put_tanks_and_links<D: Desk>(
    project: &Project,
    net: &Net,
    row: &Record,
    facts: &Facts,
    pen: &mut Pen,
    desk: &mut D,
) -> Result<(), OutFault>
    requires sound { IsSound project.now }
    requires of { IsNetOf project.now net.now }
    requires states { AreStates project.now (states_of net.now) }
    requires bounds { AreBounds net.now (row_of row.now) }
    requires tanks { AreTankFacts project.now facts.now }
    requires ready { OnCert pen.old.to (IsTrue (D.ready desk.old)) }
    requires unbroken { pen.old.fault ≡ None }
    ensures { Puts D.files D.rest D.written D.printed D.target D.ready D.counts D.openings
        (texts project.now (map_from (tank_line project.now facts.now.levels.list facts.now.inflows.list
        facts.now.tanks.list) 0 project.now.tanks.list
        ++ map_from (link_line project.now (grid_of net.now) (heads_below (grid_of net.now) (row_of row.now))
        (heads_above (grid_of net.now) (row_of row.now)) (states_of net.now)) 0 project.now.links.list))
        result pen.old pen.new desk.old desk.new }
{
    put_tanks(
        project,
        facts.levels.as_slice(),
        facts.inflows.as_slice(),
        facts.tanks.as_slice(),
        pen,
        desk,
    )?;
    let lower = row.vector(Problem::Main, Side::Lower);
    let upper = row.vector(Problem::Main, Side::Upper);
    put_links(project, net, lower, upper, pen, desk)
}

/// Puts the lines of a report time.
fn put_state<D: Desk>(
    project: &Project,
    net: &Net,
    row: &Record,
    facts: &Facts,
    pen: &mut Pen,
    desk: &mut D,
) -> Result<(), OutFault>
    requires sound { IsSound project.now }
    requires of { IsNetOf project.now net.now }
    requires states { AreStates project.now (states_of net.now) }
    requires bounds { AreBounds net.now (row_of row.now) }
    requires tanks { AreTankFacts project.now facts.now }
    requires ready { OnCert pen.old.to (IsTrue (D.ready desk.old)) }
    ensures { Puts D.files D.rest D.written D.printed D.target D.ready D.counts D.openings
        (texts project.now (state_lines project.now (grid_of net.now) (states_of net.now) (row_of row.now) facts.now))
        result pen.old pen.new desk.old desk.new }
{
    let lower = row.vector(Problem::Main, Side::Lower);
    let upper = row.vector(Problem::Main, Side::Upper);
    put_time(facts.time, pen, desk)?;
    put_junctions(project, net, lower, upper, pen, desk)?;
    put_reservoirs(project, net, pen, desk)?;
    put_tanks_and_links(project, net, row, facts, pen, desk)
}

/// Puts the lines of a report time, where the period is reported.
fn put_middle<D: Desk>(
    project: &Project,
    net: &Net,
    row: &Record,
    facts: &Facts,
    pen: &mut Pen,
    desk: &mut D,
) -> Result<(), OutFault>
    requires sound { IsSound project.now }
    requires of { IsNetOf project.now net.now }
    requires states { AreStates project.now (states_of net.now) }
    requires bounds { AreBounds net.now (row_of row.now) }
    requires tanks { AreTankFacts project.now facts.now }
    requires ready { OnCert pen.old.to (IsTrue (D.ready desk.old)) }
    requires unbroken { pen.old.fault ≡ None }
    ensures { Puts D.files D.rest D.written D.printed D.target D.ready D.counts D.openings
        (texts project.now (middle_lines project.now (grid_of net.now) (states_of net.now)
        (row_of row.now) facts.now))
        result pen.old pen.new desk.old desk.new }
{
    if is_report_time(project, facts.time) {
        return put_state(project, net, row, facts, pen, desk);
    }
    Ok(())
}

/// Puts all lines of a period: the changes by controls at its start, the state of nodes and links where it is a
/// report time, and the events and the changes by rules at its end. Net, record and facts are those of one period:
/// the net stands in the facts' link states, the vectors are its certificates. Its faults and its needs are those of
/// `Pen::put`: after a fault, what went out is a front of what was put in before and of these lines. It takes no
/// memory.
pub fn put_report<D: Desk>(
    project: &Project,
    net: &Net,
    row: &Record,
    facts: &Facts,
    pen: &mut Pen,
    desk: &mut D,
) -> Result<(), OutFault>
    requires sound { IsSound project.now }
    requires of { IsNetOf project.now net.now }
    requires states { AreStates project.now (states_of net.now) }
    requires bounds { AreBounds net.now (row_of row.now) }
    requires tanks { AreTankFacts project.now facts.now }
    requires links { states_of net.now ≡ facts.now.links.list }
    requires ready { OnCert pen.old.to (IsTrue (D.ready desk.old)) }
    ensures report { (standing : Standing) → AreFacts project.now (grid_of net.now) standing
        (row_of row.now) facts.now
        → IsReport project.now (grid_of net.now) standing (row_of row.now)
        (lines_of project.now (grid_of net.now) (states_of net.now) (row_of row.now) facts.now) }
    ensures puts { Puts D.files D.rest D.written D.printed D.target D.ready D.counts D.openings
        (texts project.now (lines_of project.now (grid_of net.now) (states_of net.now) (row_of row.now) facts.now))
        result pen.old pen.new desk.old desk.new }
{
    put_start(project, facts, pen, desk)?;
    put_middle(project, net, row, facts, pen, desk)?;
    put_end(project, facts, pen, desk)
}
