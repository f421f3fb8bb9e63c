//! The records of a certificate, one after another.
#![tactic(auto)]

ghost use Rattle.std.specs.Prelude.{◌≡◌, ◌++◌, None, IsTrue, OnOk, IfErr, [], List, All, length, map};
ghost use Rattle.hyd_io.specs.Output.{OnCert};
ghost use Rattle.hyd_io.specs.TextPutIn.{Puts};
ghost use Rattle.hyd_spec.specs.Lists.{joined};
ghost use Rattle.hyd_spec_certificates.specs.RecordAndStanding.{Standing};
ghost use Rattle.hyd_spec_reports_with_flows.specs.FlowLines.{FlowLine, AreFlowLines, flow_line_text};
ghost use Rattle.hyd_spec_flows.specs.FlowParts.{IsFlowPart, IsRefusedPart};
ghost use Rattle.hyd_spec_flows.specs.FlowTexts.{IsNamed};
ghost use Rattle.hyd_cert.specs.FlowPartView.{part_of};
ghost use Rattle.hyd_cert.specs.ReaderView.{ReaderView};
ghost use Rattle.hyd_cert.specs.RecordView.{header_of, row_of};
ghost use Rattle.hyd_period_network.specs.NetAsPeriodNetwork.{grid_of, states_of};
ghost use Rattle.hyd_run.specs.PassedOn.{texts};
ghost use Rattle.hyd_run.specs.PassedOn.{lines_of};
ghost use Rattle.hyd_run.specs.Pens.{told};
ghost use Rattle.hyd_sim.specs.Acceptance.{IsAccepted};
ghost use Rattle.hyd_sim.specs.RunView.{SimView, header_for, standing_of};
ghost use Rattle.hyd_cert_check.specs.ReaderAndPen.{CheckMoment, moment, IsOpen, PutIn};
ghost use Rattle.hyd_cert_check.specs.RecordByRecord.{CanGoOn, IsEnd, IsOfPeriod, IsRead, IsSo, TryGives, TurnGives};
ghost use Rattle.hyd_cert_check.specs.RecordByRecord.{TurnsGive};

use crate::outcome::{CheckFault, Conclusion};
use hyd_cert::{CertFault, CertNext, CertReader, FlowPart, Record};
use hyd_flow::{check_flows, put_flow_lines};
use hyd_io::{Desk, OutFault, Pen};
use hyd_run::put_report;
use hyd_sim::Sim;
use hyd_spec_flows::FlowFails;

// What an END line, the line of this number, says of the records before it.
fn judge_end(sim: &Sim, line: u64, periods: u32, finished: bool) -> Conclusion
    ensures { (before now : CheckMoment) → IsEnd sim.now.project periods finished before now → line ≡ now.reader.line
        → IsSo result sim.now.project (standing_of sim.now) before now }
{
    // So many periods aren't done.
    let _project = sim.project();
    if periods != sim.number() {
        return Conclusion::OtherEnd(line);
    }
    if finished != sim.is_finished() {
        return Conclusion::OtherEnd(line);
    }
    Conclusion::Accepted(finished)
}

// Checks the part behind the record of the last period of a run.
fn check_part(sim: &Sim, part: &FlowPart) -> Result<(), FlowFails>
    requires period { IsOfPeriod sim.now }
    requires named { All (IsNamed (length sim.now.project.junctions.list)) (part_of part.now) }
    ensures good { OnOk result (IsFlowPart (grid_of sim.now.net) (row_of sim.now.row) (part_of part.now)) }
    ensures refused { IfErr result (IsRefusedPart (grid_of sim.now.net) (row_of sim.now.row) (part_of part.now)) }
{
    // The net is of its network.
    let _project = sim.project();
    let net = sim.net();
    // Certificates are ordered where the net is steady.
    let _junctions = net.junctions();
    check_flows(net, sim.row(), part)
}

// Puts the report of the last period of a run: its lines, and the FLOW lines behind them.
fn put_period<D: Desk>(
    sim: &Sim,
    part: &FlowPart,
    pen: &mut Pen,
    desk: &mut D,
) -> Result<(), OutFault>
    requires period { IsOfPeriod sim.now }
    requires part { IsFlowPart (grid_of sim.now.net) (row_of sim.now.row) (part_of part.now) }
    requires ready { OnCert pen.old.to (IsTrue (D.ready desk.old)) }
    ensures { (standing : Standing) → standing.time ≡ sim.now.row.time → (lines : List FlowLine)
        × (AreFlowLines sim.now.project (grid_of sim.now.net) standing (part_of part.now) lines
        × Puts D.files D.rest D.written D.printed D.target D.ready D.counts D.openings
        (texts sim.now.project (lines_of sim.now.project (grid_of sim.now.net) (states_of sim.now.net)
        (row_of sim.now.row) sim.now.facts) ++ joined (map (flow_line_text sim.now.project) lines))
        result pen.old pen.new desk.old desk.new) }
{
    let project = sim.project();
    let net = sim.net();
    let row = sim.row();
    // Certificates are ordered where the net is steady.
    let _junctions = net.junctions();
    match put_report(project, net, row, sim.facts(), pen, desk) {
        Ok(()) => put_flow_lines(project, net, row, part, pen, desk),
        Err(fault) => Err(fault),
    }
}

// Reports a record that was accepted, or answers why its part is refused.
fn take_part<D: Desk>(
    sim: &Sim,
    part: &FlowPart,
    pen: &mut Pen,
    desk: &mut D,
) -> Result<Option<Conclusion>, OutFault>
    requires period { IsOfPeriod sim.now }
    requires named { All (IsNamed (length sim.now.project.junctions.list)) (part_of part.now) }
    requires unbroken { IsOpen pen.old }
    ensures { (before : CheckMoment) (earlier : SimView) (reader : ReaderView)
        → IsAccepted earlier sim.now
        → IsRead (header_for sim.now.project) (record { row = row_of sim.now.row; part = part_of part.now }) before
        (moment reader pen.old
        (told D.files D.rest D.written D.printed D.target D.ready D.counts D.openings desk.old))
        → PutIn [] before (moment reader pen.old
        (told D.files D.rest D.written D.printed D.target D.ready D.counts D.openings desk.old))
        → TryGives result earlier sim.now before (moment reader pen.new
        (told D.files D.rest D.written D.printed D.target D.ready D.counts D.openings desk.new)) }
{
    // The run stands behind a period of its network.
    let _project = sim.project();
    match check_part(sim, part) {
        Ok(()) => {}
        Err(cause) => return Ok(Some(Conclusion::RefusedPart(sim.row().number, cause))),
    }
    match put_period(sim, part, pen, desk) {
        Ok(()) => Ok(None),
        Err(fault) => Err(fault),
    }
}

// Tries a record as that of the period that is due, then the part behind it, and puts its report. Answers why one of
// them is refused.
fn try_record<D: Desk>(
    sim: &mut Sim,
    row: &Record,
    part: &FlowPart,
    pen: &mut Pen,
    desk: &mut D,
) -> Result<Option<Conclusion>, OutFault>
    requires running { sim.old.stopped ≡ None }
    requires header { header_of row.now ≡ header_for sim.old.project }
    requires named { All (IsNamed row.now.junctions) (part_of part.now) }
    requires unbroken { IsOpen pen.old }
    ensures tries { (before : CheckMoment) (reader : ReaderView)
        → IsRead (header_for sim.old.project) (record { row = row_of row.now; part = part_of part.now }) before
        (moment reader pen.old
        (told D.files D.rest D.written D.printed D.target D.ready D.counts D.openings desk.old))
        → PutIn [] before (moment reader pen.old
        (told D.files D.rest D.written D.printed D.target D.ready D.counts D.openings desk.old))
        → TryGives result sim.old sim.new before (moment reader pen.new
        (told D.files D.rest D.written D.printed D.target D.ready D.counts D.openings desk.new)) }
    ensures running { sim.new.stopped ≡ None }
    ensures project { sim.new.project ≡ sim.old.project }
    ensures settings { sim.new.settings ≡ sim.old.settings }
{
    match sim.accept(row) {
        Ok(()) => {}
        Err(cause) => return Ok(Some(Conclusion::Refused(cause))),
    }
    // The run stands behind a period of its network.
    let _project = sim.project();
    take_part(sim, part, pen, desk)
}

// Reads the next record and the part behind it, tries them as those of the period that is due, and puts its report.
// Answers what is found where there is none.
fn take_record<D: Desk>(
    sim: &mut Sim,
    reader: &mut CertReader,
    row: &mut Record,
    part: &mut FlowPart,
    pen: &mut Pen,
    desk: &mut D,
) -> Result<Option<Conclusion>, CheckFault>
    requires running { sim.old.stopped ≡ None }
    requires header { header_of row.old ≡ header_for sim.old.project }
    requires part { part.old.junctions ≡ row.old.junctions }
    requires going { CanGoOn (moment reader.old pen.old
        (told D.files D.rest D.written D.printed D.target D.ready D.counts D.openings desk.old)) }
    ensures gives { TurnGives result sim.old sim.new
        (moment reader.old pen.old
        (told D.files D.rest D.written D.printed D.target D.ready D.counts D.openings desk.old))
        (moment reader.new pen.new
        (told D.files D.rest D.written D.printed D.target D.ready D.counts D.openings desk.new)) }
    ensures running { sim.new.stopped ≡ None }
    ensures project { sim.new.project ≡ sim.old.project }
    ensures settings { sim.new.settings ≡ sim.old.settings }
    ensures header { header_of row.new ≡ header_of row.old }
    ensures part { part.new.junctions ≡ row.new.junctions }
{
    match reader.next_with(desk, row, part) {
        Ok(CertNext::Record) => {}
        Ok(CertNext::End { periods, finished }) => {
            return Ok(Some(judge_end(sim, reader.line(), periods, finished)));
        }
        Err(CertFault::Read) => return Err(CheckFault::Read),
        Err(CertFault::Grammar { line }) => return Ok(Some(Conclusion::Grammar(line))),
        Err(CertFault::Count { line }) => return Ok(Some(Conclusion::Counts(line))),
    }
    match try_record(sim, row, part, pen, desk) {
        Ok(answer) => Ok(answer),
        Err(fault) => Err(CheckFault::Output(fault)),
    }
}

/// Takes the records of a certificate, as many as are accepted. Answers what is found where they end.
pub(crate) fn take_records<D: Desk>(
    sim: &mut Sim,
    reader: &mut CertReader,
    row: &mut Record,
    part: &mut FlowPart,
    pen: &mut Pen,
    desk: &mut D,
) -> Result<Conclusion, CheckFault>
    requires running { sim.old.stopped ≡ None }
    requires header { header_of row.old ≡ header_for sim.old.project }
    requires part { part.old.junctions ≡ row.old.junctions }
    requires going { CanGoOn (moment reader.old pen.old
        (told D.files D.rest D.written D.printed D.target D.ready D.counts D.openings desk.old)) }
    ensures give { TurnsGive result sim.old sim.new
        (moment reader.old pen.old
        (told D.files D.rest D.written D.printed D.target D.ready D.counts D.openings desk.old))
        (moment reader.new pen.new
        (told D.files D.rest D.written D.printed D.target D.ready D.counts D.openings desk.new)) }
    ensures unbroken { OnOk result (IsOpen pen.new) }
    ensures project { sim.new.project ≡ sim.old.project }
    ensures settings { sim.new.settings ≡ sim.old.settings }
{
    // The network is sound.
    let _project = sim.project();
    loop {
        if let Some(conclusion) = take_record(sim, reader, row, part, pen, desk)? {
            return Ok(conclusion);
        }
    }
}
