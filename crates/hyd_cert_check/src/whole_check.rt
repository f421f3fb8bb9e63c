//! A whole check of a certificate.
#![tactic(auto)]

ghost use Rattle.std.specs.Prelude.{◌≡◌, ⊤, ℕ, List, None, Some, IfErr, IfOk, OnOk};
ghost use Rattle.hyd_spec.specs.ProgramTypes.{Project};
ghost use Rattle.hyd_spec_certificates.specs.RecordAndStanding.{initial_standing};
ghost use Rattle.hyd_cert.specs.ReaderView.{ReaderView, to_come};
ghost use Rattle.hyd_cert.specs.RecordView.{header_of};
ghost use Rattle.hyd_run.specs.Pens.{told};
ghost use Rattle.hyd_sim.specs.RunView.{header_for, standing_of};
ghost use Rattle.hyd_cert_check.specs.Checks.{CheckEnds, CheckBreaksOff};
ghost use Rattle.hyd_cert_check.specs.ReaderAndPen.{CheckMoment, moment, new_pen, IsAtStart, IsOpen, Rose};
ghost use Rattle.hyd_cert_check.specs.RecordByRecord.{AllRead, CheckPuts, IsPrinted, IsWhole, end_of};

use crate::last_report_line::put_conclusion;
use crate::outcome::{CheckFault, Conclusion};
use crate::records::take_records;
use hyd_cert::{CertReader, FlowPart, Record};
use hyd_io::{Desk, Pen};
use hyd_run::{empty, put_first};
use hyd_sim::Sim;
use hyd_spec_check_ends::CheckEnd;

// How a check ends with what is found.
fn end_of(conclusion: Conclusion) -> CheckEnd
    ensures { result ≡ end_of conclusion }
{
    match conclusion {
        Conclusion::Accepted(_) => CheckEnd::Accepted,
        _ => CheckEnd::Refused,
    }
}

// Puts the last line of a check whose records end.
fn put_ending<D: Desk>(
    sim: &Sim,
    conclusion: Conclusion,
    pen: &mut Pen,
    desk: &mut D,
) -> Result<CheckEnd, CheckFault>
    requires { IsOpen pen.old }
    ensures { (start : CheckMoment) (reader : ReaderView)
        → AllRead conclusion sim.now.project (standing_of sim.now).number start (moment reader pen.old
        (told D.files D.rest D.written D.printed D.target D.ready D.counts D.openings desk.old))
        → CheckPuts result sim.now.project start (moment reader pen.new
        (told D.files D.rest D.written D.printed D.target D.ready D.counts D.openings desk.new)) }
{
    match put_conclusion(sim.project(), sim.number(), &conclusion, pen, desk) {
        Ok(()) => Ok(end_of(conclusion)),
        Err(fault) => Err(CheckFault::Output(fault)),
    }
}

// Puts the report of a check in at the pen, from its first line to its last.
fn put_check<D: Desk>(
    sim: &mut Sim,
    reader: &mut CertReader,
    row: &mut Record,
    part: &mut FlowPart,
    pen: &mut Pen,
    desk: &mut D,
) -> Result<CheckEnd, CheckFault>
    requires start { standing_of sim.old ≡ initial_standing sim.old.project }
    requires running { sim.old.stopped ≡ None }
    requires reader { IsAtStart reader.old }
    requires header { header_of row.old ≡ header_for sim.old.project }
    requires part { part.old.junctions ≡ row.old.junctions }
    requires unbroken { IsOpen pen.old }
    ensures puts { CheckPuts result sim.old.project
        (moment reader.old pen.old
        (told D.files D.rest D.written D.printed D.target D.ready D.counts D.openings desk.old))
        (moment reader.new pen.new
        (told D.files D.rest D.written D.printed D.target D.ready D.counts D.openings desk.new)) }
    ensures project { sim.new.project ≡ sim.old.project }
    ensures settings { sim.new.settings ≡ sim.old.settings }
{
    // The network is sound.
    let _project = sim.project();
    match put_first(pen, desk) {
        Ok(()) => {}
        Err(fault) => return Err(CheckFault::Output(fault)),
    }
    match take_records(sim, reader, row, part, pen, desk) {
        Ok(conclusion) => put_ending(sim, conclusion, pen, desk),
        Err(fault) => Err(fault),
    }
}

// Empties the pen behind a report that was put in whole.
fn finish<D: Desk>(end: CheckEnd, pen: &mut Pen, desk: &mut D) -> Result<CheckEnd, CheckFault>
    requires { IsOpen pen.old }
    ensures puts { (project : Project) (start : CheckMoment) (reader : ReaderView)
        → IsWhole project end start (moment reader pen.old
        (told D.files D.rest D.written D.printed D.target D.ready D.counts D.openings desk.old))
        → CheckPuts result project start (moment reader pen.new
        (told D.files D.rest D.written D.printed D.target D.ready D.counts D.openings desk.new)) }
    ensures report { OnOk result (pen.new ≡ new_pen) }
{
    match empty(pen, desk) {
        Ok(()) => Ok(end),
        Err(fault) => Err(CheckFault::Output(fault)),
    }
}

/// Checks the certificate in the file that is being read: its header line, its records in order and its END line, each
/// record as that of the period that is due in a run of the network. A text of version 3 goes with any network of its
/// counts: it has a part behind each record, which is judged behind that record. Puts the report out through the pen as
/// it goes, the lines of a period when its record and its part are accepted, the FLOW lines behind the others, and a
/// last line that says how the check ends. Says to a person why a certificate is refused. Takes no memory. The pen is
/// empty at the end.
///
/// The run is at its start, the reader has passed no line (it may have read ahead), the record has the version and the counts of the network, and the part
/// was opened for its junctions.
///
/// - `Accepted`: the text is the certificate of a run of the network, whole or as far as it went, with the flows of the
///   links that it names.
/// - `Refused`: its lines, a record, a part or the END line aren't right; the last line says which.
/// - `Read`: a read failed, and the read faults rose by one.
/// - `Output`: a call that prints failed or took nothing, and its faults or the stalls rose by one.
///
/// After either fault nothing more is called, and what was printed is a front of the report. What was printed before
/// stays, also where the desk tells no text.
pub fn check<D: Desk>(
    sim: &mut Sim,
    reader: &mut CertReader,
    row: &mut Record,
    part: &mut FlowPart,
    report: &mut Pen,
    desk: &mut D,
) -> Result<CheckEnd, CheckFault>
    requires start { standing_of sim.old ≡ initial_standing sim.old.project }
    requires running { sim.old.stopped ≡ None }
    requires reader { IsAtStart reader.old }
    requires header { header_of row.old ≡ header_for sim.old.project }
    requires part { part.old.junctions ≡ row.old.junctions }
    requires report { report.old ≡ new_pen }
    ensures whole { (text : List ℕ) → to_come reader.old (D.rest desk.old) ≡ Some text → IfOk result (λ end.
        IsPrinted (λ printed. CheckEnds sim.old.project text printed end)
        (D.printed desk.old) (D.printed desk.new)) }
    ensures report_empty { OnOk result (report.new ≡ new_pen) }
    ensures broken_off { (text : List ℕ) → to_come reader.old (D.rest desk.old) ≡ Some text → IfErr result (λ fault.
        IsPrinted (CheckBreaksOff sim.old.project text) (D.printed desk.old) (D.printed desk.new)) }
    ensures prints { IsPrinted (λ printed. ⊤) (D.printed desk.old) (D.printed desk.new) }
    ensures cause { IfErr result (λ fault. Rose fault (D.counts desk.old) (D.counts desk.new)) }
    ensures steady { OnOk result (D.counts desk.new ≡ D.counts desk.old) }
    ensures files_stay { D.files desk.new ≡ D.files desk.old }
    ensures written_stays { D.written desk.new ≡ D.written desk.old }
    ensures target_stays { D.target desk.new ≡ D.target desk.old }
    ensures ready_stays { D.ready desk.new ≡ D.ready desk.old }
    ensures openings_stay { D.openings desk.new ≡ D.openings desk.old }
    ensures project { sim.new.project ≡ sim.old.project }
    ensures settings { sim.new.settings ≡ sim.old.settings }
{
    match put_check(sim, reader, row, part, report, desk) {
        Ok(end) => finish(end, report, desk),
        Err(fault) => Err(fault),
    }
}
