//! A check of a certificate as that of a run for the spread of a text, from the memory that it takes to the last line
//! of its report.

ghost use Rattle.std.specs.Prelude.{◌≡◌, ℕ, List, None, Some, IsTrue, IfOk};
ghost use Rattle.hyd_io.specs.DeskBytes.{IsTold};
ghost use Rattle.hyd_io.specs.DeskCounts.{with_opened};
ghost use Rattle.hyd_io.specs.declared.desk.Openings.{Openings};
ghost use Rattle.hyd_net.specs.Sound.{IsSound};
ghost use Rattle.hyd_spec_open_spreads.specs.OpenRunsForSpreads.{open_standing_within};
ghost use Rattle.hyd_spec_open_checks.specs.OpenChecks.{open_header_for};
ghost use Rattle.hyd_cert.specs.ReaderView.{to_come};
ghost use Rattle.hyd_cert_check.specs.ReaderAndPen.{IsAtStart};
ghost use Rattle.hyd_open_certificates.specs.OpenRowView.{open_header_of};
ghost use Rattle.hyd_spread_check.specs.PassedOn.{standing_of};
ghost use Rattle.hyd_command_answers.specs.DeskContents.{seen, OnlyPrintedSome};
ghost use Rattle.hyd_command_answers.specs.FaultsAndRefusals.{HasCause};
ghost use Rattle.hyd_spread_command.specs.SpreadChecks.{AnswersCertOver, AnswersCheckWithin, ReadsCertOver};
ghost use Rattle.hyd_spread_command.specs.SpreadChecks.{LeavesCertOver};
ghost use Rattle.hyd_check_command.specs.CheckAnswers.{LeavesCheck, ReadsCert};

use crate::opened_run::open_run;
use crate::whole_run::SpreadNames;
use hyd_check_command::{NO_OPEN_SEARCH, status_of_end, status_of_fault};
use hyd_command_answers::Status;
use hyd_io::{Channel, Desk, Pen};
use hyd_net::{OutOfMemory, Project};
use hyd_open_certificates::{OpenCertReader, OpenRow};
use hyd_spread_check::{SpreadSim, check_over};
use hyd_spread_files::refuse_spread;
use hyd_spread_rows::SpreadRefused;
use std::alloc::Global;

// Room for a record of a network.
fn row_for(alloc: Global, project: &Project) -> Result<OpenRow, OutOfMemory>
    requires { IsSound project.now }
    ensures { IfOk result (λ row. open_header_of row ≡ open_header_for project.now) }
{
    let junctions = project.junctions.len() as u32;
    let tanks = project.tanks.len() as u32;
    OpenRow::open(alloc, junctions, tanks)
}

// Checks the text that the reader is at the start of, by a run at its start, and prints the report.
fn check_text<D: Desk>(
    sim: &mut SpreadSim,
    reader: &mut OpenCertReader,
    row: &mut OpenRow,
    desk: &mut D,
) -> Status
    requires start { standing_of sim.old ≡ open_standing_within sim.old.project sim.old.nets.spread }
    requires running { sim.old.stopped ≡ None }
    requires reader { IsAtStart reader.old }
    requires header { open_header_of row.old ≡ open_header_for sim.old.project }
    ensures cause { HasCause result (D.counts desk.old) (D.counts desk.new) }
    ensures only_prints { OnlyPrintedSome
        (seen D.files D.written D.printed desk.old) (seen D.files D.written D.printed desk.new) }
    ensures leaves { LeavesCheck result
        (seen D.files D.written D.printed desk.old) (seen D.files D.written D.printed desk.new) }
    ensures answers { (certificate : List ℕ) → to_come reader.old (D.rest desk.old) ≡ Some certificate
        → AnswersCertOver sim.old.project sim.old.nets.spread certificate result
        (seen D.files D.written D.printed desk.old) (seen D.files D.written D.printed desk.new) }
    ensures opened { (before : Openings) → D.openings desk.old ≡ with_opened before
        → ReadsCert result before (D.openings desk.new) }
{
    let mut report = Pen::new(Channel::Report);
    match check_over(sim, reader, row, &mut report, desk) {
        Ok(end) => status_of_end(end),
        Err(fault) => status_of_fault(fault),
    }
}

// Opens CERT, and checks it by a run at its start.
fn check_opened<D: Desk>(sim: &mut SpreadSim, row: &mut OpenRow, cert: &str, desk: &mut D) -> Status
    requires start { standing_of sim.old ≡ open_standing_within sim.old.project sim.old.nets.spread }
    requires running { sim.old.stopped ≡ None }
    requires header { open_header_of row.old ≡ open_header_for sim.old.project }
    requires opens { IsTrue (D.may_open cert.now) }
    ensures cause { HasCause result (D.counts desk.old) (D.counts desk.new) }
    ensures only_prints { OnlyPrintedSome
        (seen D.files D.written D.printed desk.old) (seen D.files D.written D.printed desk.new) }
    ensures leaves { LeavesCheck result
        (seen D.files D.written D.printed desk.old) (seen D.files D.written D.printed desk.new) }
    ensures answers { (certificate : List ℕ) → IsTold (D.files desk.old) cert.now certificate
        → AnswersCertOver sim.old.project sim.old.nets.spread certificate result
        (seen D.files D.written D.printed desk.old) (seen D.files D.written D.printed desk.new) }
    ensures opened { ReadsCert result (D.openings desk.old) (D.openings desk.new) }
{
    if desk.open(cert).is_err() {
        return Status::ReadFault;
    }
    let mut reader = OpenCertReader::new();
    check_text(sim, &mut reader, row, desk)
}

// Checks CERT by a run at its start, which is closed.
fn check_by_run<D: Desk>(mut sim: SpreadSim, mut row: OpenRow, cert: &str, desk: &mut D) -> Status
    requires start { standing_of sim ≡ open_standing_within sim.project sim.nets.spread }
    requires running { sim.stopped ≡ None }
    requires header { open_header_of row ≡ open_header_for sim.project }
    requires opens { IsTrue (D.may_open cert.now) }
    ensures cause { HasCause result (D.counts desk.old) (D.counts desk.new) }
    ensures only_prints { OnlyPrintedSome
        (seen D.files D.written D.printed desk.old) (seen D.files D.written D.printed desk.new) }
    ensures leaves { LeavesCheck result
        (seen D.files D.written D.printed desk.old) (seen D.files D.written D.printed desk.new) }
    ensures answers { (certificate : List ℕ) → IsTold (D.files desk.old) cert.now certificate
        → AnswersCertOver sim.project sim.nets.spread certificate result
        (seen D.files D.written D.printed desk.old) (seen D.files D.written D.printed desk.new) }
    ensures opened { ReadsCert result (D.openings desk.old) (D.openings desk.new) }
{
    let status = check_opened(&mut sim, &mut row, cert, desk);
    sim.close();
    status
}

// Takes room for a record, and checks CERT.
fn check_in_room<D: Desk>(alloc: Global, sim: SpreadSim, cert: &str, desk: &mut D) -> Status
    requires start { standing_of sim ≡ open_standing_within sim.project sim.nets.spread }
    requires running { sim.stopped ≡ None }
    requires opens { IsTrue (D.may_open cert.now) }
    ensures cause { HasCause result (D.counts desk.old) (D.counts desk.new) }
    ensures only_prints { OnlyPrintedSome
        (seen D.files D.written D.printed desk.old) (seen D.files D.written D.printed desk.new) }
    ensures leaves { LeavesCheck result
        (seen D.files D.written D.printed desk.old) (seen D.files D.written D.printed desk.new) }
    ensures answers { (certificate : List ℕ) → IsTold (D.files desk.old) cert.now certificate
        → AnswersCertOver sim.project sim.nets.spread certificate result
        (seen D.files D.written D.printed desk.old) (seen D.files D.written D.printed desk.new) }
    ensures opened { ReadsCert result (D.openings desk.old) (D.openings desk.new) }
{
    match row_for(alloc, sim.project()) {
        Ok(row) => check_by_run(sim, row, cert, desk),
        Err(_) => {
            sim.close();
            Status::OutOfMemory
        }
    }
}

/// Checks CERT as the certificate of a run of a network for the spread of a text, and prints the report. All memory is
/// taken before CERT is opened.
///
/// - `Done`: the certificate was accepted.
/// - `CertificateRefused`: its lines, a record or its END line aren't right.
/// - `InputRefused`: the text of the spread has a fault, which the one line that is printed names.
/// - `OutOfMemory`: CERT wasn't opened, and nothing was printed.
/// - `ReadFault`, `WriteFault`, `Stalled`: a call on the desk failed or took nothing.
pub fn check_within<D: Desk>(
    alloc: Global,
    project: Project,
    text: &[u8],
    names: SpreadNames<'_>,
    desk: &mut D,
) -> Status
    requires sound { IsSound project }
    requires opens { IsTrue (D.may_open names.cert.now) }
    ensures cause { HasCause result (D.counts desk.old) (D.counts desk.new) }
    ensures only_prints { OnlyPrintedSome
        (seen D.files D.written D.printed desk.old) (seen D.files D.written D.printed desk.new) }
    ensures leaves { LeavesCertOver result
        (seen D.files D.written D.printed desk.old) (seen D.files D.written D.printed desk.new) }
    ensures answers { AnswersCheckWithin project text.now names.entry.cert.now result
        (seen D.files D.written D.printed desk.old) (seen D.files D.written D.printed desk.new) }
    ensures opened { ReadsCertOver result (D.openings desk.old) (D.openings desk.new) }
{
    match open_run(alloc, project, text, NO_OPEN_SEARCH) {
        Ok(sim) => check_in_room(alloc, sim, names.cert, desk),
        Err(SpreadRefused::OutOfMemory) => Status::OutOfMemory,
        Err(SpreadRefused::Fault(fault)) => refuse_spread(names.spread, text, fault, desk),
    }
}
