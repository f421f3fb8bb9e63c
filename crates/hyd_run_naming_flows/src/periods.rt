//! A period put out: its record and its part into the certificate, and then its report and its FLOW lines.

ghost use Rattle.std.specs.Prelude.{◌≡◌, List, IsTrue};
ghost use Rattle.hyd_cert.specs.FlowPartView.{part_of};
ghost use Rattle.hyd_cert.specs.RecordView.{row_of};
ghost use Rattle.hyd_io.specs.Output.{OnCert};
ghost use Rattle.hyd_io.specs.TextPutIn.{Puts};
ghost use Rattle.hyd_period_network.specs.NetAsPeriodNetwork.{grid_of};
ghost use Rattle.hyd_run.specs.Pens.{told, moment, AreOpen, PutsInOrder};
ghost use Rattle.hyd_sim.specs.RunView.{SimView};
ghost use Rattle.hyd_sim.specs.Steps.{IsPeriod};
ghost use Rattle.hyd_spec_certificates.specs.RecordAndStanding.{Standing};
ghost use Rattle.hyd_spec_reports_with_flows.specs.FlowLines.{FlowLine, AreFlowLines};
ghost use Rattle.hyd_spec_flows.specs.FlowParts.{IsFlowPart};
ghost use Rattle.hyd_spec_flows.specs.FlowTexts.{entry_text};
ghost use Rattle.hyd_run_naming_flows.specs.NamingRuns.{entry_with, lines_with};

use hyd_cert::{FlowPart, Record, put_flows, put_record};
use hyd_flow::put_flow_lines;
use hyd_io::{Desk, OutFault, Pen};
use hyd_report::put_report;
use hyd_run::Signs;
use hyd_sim::Sim;

/// Puts a record, and then the part behind it.
fn put_entry<D: Desk>(
    row: &Record,
    part: &FlowPart,
    pen: &mut Pen,
    desk: &mut D,
) -> Result<(), OutFault>
    requires { OnCert pen.old.to (IsTrue (D.ready desk.old)) }
    ensures { Puts D.files D.rest D.written D.printed D.target D.ready D.counts D.openings
        (entry_text (record { row = row_of row.now; part = part_of part.now }))
        result pen.old pen.new desk.old desk.new }
{
    match put_record(row, pen, desk) {
        Ok(()) => put_flows(part, pen, desk),
        Err(fault) => Err(fault),
    }
}

/// Puts the report of a period that was done, and then its FLOW lines, and empties the pen where that is due.
fn put_lines<D: Desk>(
    sim: &Sim,
    part: &FlowPart,
    signs: &mut Signs,
    pen: &mut Pen,
    desk: &mut D,
) -> Result<(), OutFault>
    requires period { (before : SimView) × IsPeriod before sim.now }
    requires part { IsFlowPart (grid_of sim.now.net) (row_of sim.now.row) (part_of part.now) }
    requires ready { OnCert pen.old.to (IsTrue (D.ready desk.old)) }
    ensures { (standing : Standing) → standing.time ≡ sim.now.row.time → (flows : List FlowLine)
        × (AreFlowLines sim.now.project (grid_of sim.now.net) standing (part_of part.now) flows
        × Puts D.files D.rest D.written D.printed D.target D.ready D.counts D.openings
        (lines_with sim.now flows) result pen.old pen.new desk.old desk.new) }
{
    let project = sim.project();
    let net = sim.net();
    let row = sim.row();
    let _junctions = net.junctions();
    put_report(project, net, row, sim.facts(), pen, desk)?;
    match put_flow_lines(project, net, row, part, pen, desk) {
        Ok(()) => signs.empty_when_due(pen, desk),
        Err(fault) => Err(fault),
    }
}

/// Puts the record of a period that was done with its part, and then its report with its FLOW lines, and empties the
/// report's pen where that is due.
pub(crate) fn put_period<D: Desk>(
    sim: &Sim,
    part: &FlowPart,
    signs: &mut Signs,
    certificate: &mut Pen,
    report: &mut Pen,
    desk: &mut D,
) -> Result<(), OutFault>
    requires period { (before : SimView) × IsPeriod before sim.now }
    requires part { IsFlowPart (grid_of sim.now.net) (row_of sim.now.row) (part_of part.now) }
    requires unbroken { AreOpen (moment certificate.old report.old
        (told D.files D.rest D.written D.printed D.target D.ready D.counts D.openings desk.old)) }
    ensures { (standing : Standing) → standing.time ≡ sim.now.row.time → (flows : List FlowLine)
        × (AreFlowLines sim.now.project (grid_of sim.now.net) standing (part_of part.now) flows
        × PutsInOrder (entry_text (entry_with sim.now (part_of part.now))) (lines_with sim.now flows) result
        (moment certificate.old report.old
        (told D.files D.rest D.written D.printed D.target D.ready D.counts D.openings desk.old))
        (moment certificate.new report.new
        (told D.files D.rest D.written D.printed D.target D.ready D.counts D.openings desk.new))) }
{
    match put_entry(sim.row(), part, certificate, desk) {
        Ok(()) => put_lines(sim, part, signs, report, desk),
        Err(fault) => Err(fault),
    }
}
