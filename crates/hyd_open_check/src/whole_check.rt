//! A whole check of a certificate of version 4.
#![tactic(auto)]

ghost use Rattle.std.specs.Prelude.{◌≡◌, ⊤, ℕ, List, None, Some, IfErr, IfOk, OnOk};
ghost use Rattle.hyd_spec_open_ends.specs.OpenStandings.{initial_open_standing};
ghost use Rattle.hyd_spec_open_checks.specs.OpenChecks.{CheckEndsOpenly, CheckBreaksOffOpenly};
ghost use Rattle.hyd_cert.specs.ReaderView.{to_come};
ghost use Rattle.hyd_cert.specs.declared.answers_of_reader.Stand.TheVariants as stand;
ghost use Rattle.hyd_open_certificates.specs.OpenRowView.{open_header_of};
ghost use Rattle.hyd_open_run.specs.PeriodsOfOpenRuns.{header_for, standing_of};
ghost use Rattle.hyd_run.specs.Pens.{told};
ghost use Rattle.hyd_cert_check.specs.ReaderAndPen.{moment, new_pen, IsOpen, Rose};
ghost use Rattle.hyd_cert_check.specs.RecordByRecord.{IsPrinted};
ghost use Rattle.hyd_open_check_so_far.specs.OpenCheckSoFar.{CheckPuts};

use crate::records::take_records;
use hyd_cert_check::{CheckEnd, CheckFault};
use hyd_io::{Desk, Pen};
use hyd_open_certificates::{OpenCertReader, OpenRow};
use hyd_open_check_so_far::{begin_check, end_check, finish_check};
use hyd_open_run::OpenSim;

// Puts the report of a check in at the pen, from its first line to its last.
fn put_check<D: Desk>(
    sim: &mut OpenSim,
    reader: &mut OpenCertReader,
    row: &mut OpenRow,
    pen: &mut Pen,
    desk: &mut D,
) -> Result<CheckEnd, CheckFault>
    requires start { standing_of sim.old ≡ initial_open_standing sim.old.project }
    requires running { sim.old.stopped ≡ None }
    requires reader { reader.old.stand ≡ stand.First }
    requires line { reader.old.line ≡ 0 }
    requires header { open_header_of row.old ≡ header_for sim.old.project }
    requires unbroken { IsOpen pen.old }
    ensures puts { CheckPuts result sim.old.project
        (moment reader.old pen.old
        (told D.files D.rest D.written D.printed D.target D.ready D.counts D.openings desk.old))
        (moment reader.new pen.new
        (told D.files D.rest D.written D.printed D.target D.ready D.counts D.openings desk.new)) }
    ensures project { sim.new.project ≡ sim.old.project }
    ensures settings { sim.new.settings ≡ sim.old.settings }
{
    begin_check(sim.project(), pen, desk)?;
    match take_records(sim, reader, row, pen, desk) {
        Ok(conclusion) => end_check(sim.project(), sim.number(), conclusion, pen, desk),
        Err(fault) => Err(fault),
    }
}

/// Checks a certificate of version 4 in the file that is being read, of which the reader may hold what it read ahead: its
/// header line, its records in order and its END line, each record as that of the period that is due in a run of the
/// network, by however many seconds its end is open. Puts the report out through the pen as it goes, the lines of a
/// period when its record is accepted, and a last line that says how the check ends. Says to a person why a certificate
/// is refused. Takes no memory. The pen is empty at the end.
///
/// The run is at its start, the reader stands before the first line and has passed none, and the record has the counts
/// of the network.
///
/// - `Accepted`: the text is the certificate of a run of the network, whole or as far as it went.
/// - `Refused`: its lines, a record or the END line aren't right; the last line says which.
/// - `Read`: a read failed, and the read faults rose by one.
/// - `Output`: a call that prints failed or took nothing, and its faults or the stalls rose by one.
///
/// After either fault nothing more is called, and what was printed is a front of the report. What was printed before
/// stays, also where the desk tells no text.
pub fn check_openly<D: Desk>(
    sim: &mut OpenSim,
    reader: &mut OpenCertReader,
    row: &mut OpenRow,
    report: &mut Pen,
    desk: &mut D,
) -> Result<CheckEnd, CheckFault>
    requires start { standing_of sim.old ≡ initial_open_standing sim.old.project }
    requires running { sim.old.stopped ≡ None }
    requires reader { reader.old.stand ≡ stand.First }
    requires line { reader.old.line ≡ 0 }
    requires header { open_header_of row.old ≡ header_for sim.old.project }
    requires report { report.old ≡ new_pen }
    ensures whole { (text : List ℕ) → to_come reader.old (D.rest desk.old) ≡ Some text → IfOk result (λ end.
        IsPrinted (λ printed. CheckEndsOpenly sim.old.project text printed end)
        (D.printed desk.old) (D.printed desk.new)) }
    ensures report_empty { OnOk result (report.new ≡ new_pen) }
    ensures broken_off { (text : List ℕ) → to_come reader.old (D.rest desk.old) ≡ Some text → IfErr result (λ fault.
        IsPrinted (CheckBreaksOffOpenly sim.old.project text) (D.printed desk.old) (D.printed desk.new)) }
    ensures prints { IsPrinted (λ printed. ⊤) (D.printed desk.old) (D.printed desk.new) }
    ensures cause { IfErr result (λ fault. Rose fault (D.counts desk.old) (D.counts desk.new)) }
    ensures steady { OnOk result (D.counts desk.new ≡ D.counts desk.old) }
    ensures files_stay { D.files desk.new ≡ D.files desk.old }
    ensures written_stays { D.written desk.new ≡ D.written desk.old }
    ensures target_stays { D.target desk.new ≡ D.target desk.old }
    ensures ready_stays { D.ready desk.new ≡ D.ready desk.old }
    ensures openings_stay { D.openings desk.new ≡ D.openings desk.old }
    ensures project { sim.new.project ≡ sim.old.project }
    ensures settings { sim.new.settings ≡ sim.old.settings }
{
    match put_check(sim, reader, row, report, desk) {
        Ok(end) => finish_check(end, report, desk),
        Err(fault) => Err(fault),
    }
}
