//! A check, from the memory that it takes to the last line of its report.

ghost use Rattle.std.specs.Prelude.{◌≡◌, ℕ, List, None, Some, IsTrue};
ghost use Rattle.hyd_io.specs.DeskBytes.{IsTold, prepend_known};
ghost use Rattle.hyd_io.specs.DeskCounts.{with_opened};
ghost use Rattle.hyd_io.specs.declared.desk.Openings.{Openings};
ghost use Rattle.hyd_net.specs.Sound.{IsSound};
ghost use Rattle.hyd_spec_certificates.specs.RecordAndStanding.{initial_standing};
ghost use Rattle.hyd_spec_open_ends.specs.OpenStandings.{initial_open_standing};
ghost use Rattle.hyd_cert.specs.ReaderView.{to_come};
ghost use Rattle.hyd_cert.specs.RecordView.{header_of};
ghost use Rattle.hyd_open_certificates.specs.OpenFaults.{HasOpenHeader, LacksOpenHeader};
ghost use Rattle.hyd_open_certificates.specs.OpenRowView.{open_header_of};
ghost use Rattle.hyd_sim.specs.RoomOfRuns.{HasParts};
ghost use Rattle.hyd_sim.specs.RunView.{header_for, standing_of};
ghost use Rattle.hyd_open_check.specs.OpenRunsChecked.{HasEventRoom};
ghost use Rattle.hyd_open_check.specs.OpenRunsChecked.{header_for as open_header_for, standing_of as open_standing_of};
ghost use Rattle.hyd_cert_check.specs.ReaderAndPen.{IsAtStart};
ghost use Rattle.hyd_command_answers.specs.DeskContents.{seen, OnlyPrintedSome};
ghost use Rattle.hyd_command_answers.specs.FaultsAndRefusals.{HasCause};
ghost use Rattle.hyd_check_command.specs.CheckAnswers.{AnswersCert, LeavesCheck, ReadsCert};
ghost use Rattle.hyd_check_command.specs.OpenCheckAnswers.{AnswersOpenCert};
ghost use Rattle.hyd_check_command.specs.RoomOfChecks.{IsRoomFor};

use crate::begun_reading::begin_reading;
use crate::ends::{status_of_end, status_of_fault};
use crate::room::{CheckRoom, room_for};
use hyd_cert::{CertReader, FlowPart, Record};
use hyd_cert_check::check;
use hyd_command_answers::Status;
use hyd_io::{Channel, Desk, Pen};
use hyd_line_reader::Source;
use hyd_net::Project;
use hyd_open_certificates::{OpenCertReader, OpenRow};
use hyd_open_check::{OpenSettings, OpenSim, check_openly};
use hyd_sim::{Settings, Sim, SimParts};
use hyd_spec_certificates::Event;
use std::alloc::Global;

/// A check finds no vectors, so it needs no rounds.
const NO_SEARCH: Settings = Settings {
    rounds: 0,
    width: 0,
    tight: false,
};

/// Nor does one with open ends; and it takes each as long as its certificate says, so it needs no slack.
pub const NO_OPEN_SEARCH: OpenSettings = OpenSettings {
    search: NO_SEARCH,
    slack: 0,
};

/// Checks a text that doesn't begin with a header line of version 4, of which these bytes were read, by the run at its
/// start, and prints the report.
fn check_text<D: Desk>(
    sim: &mut Sim,
    row: &mut Record,
    part: &mut FlowPart,
    ahead: Source,
    desk: &mut D,
) -> Status
    requires start { standing_of sim.old ≡ initial_standing sim.old.project }
    requires running { sim.old.stopped ≡ None }
    requires header { header_of row.old ≡ header_for sim.old.project }
    requires part { part.old.junctions ≡ row.old.junctions }
    ensures cause { HasCause result (D.counts desk.old) (D.counts desk.new) }
    ensures only_prints { OnlyPrintedSome
        (seen D.files D.written D.printed desk.old) (seen D.files D.written D.printed desk.new) }
    ensures leaves { LeavesCheck result
        (seen D.files D.written D.printed desk.old) (seen D.files D.written D.printed desk.new) }
    ensures answers { (certificate : List ℕ) → prepend_known ahead (D.rest desk.old) ≡ Some certificate
        → AnswersCert sim.old.project certificate result
        (seen D.files D.written D.printed desk.old) (seen D.files D.written D.printed desk.new) }
    ensures opened { (before : Openings) → D.openings desk.old ≡ with_opened before
        → ReadsCert result before (D.openings desk.new) }
{
    let mut reader = CertReader::behind(ahead);
    let mut report = Pen::new(Channel::Report);
    match check(sim, &mut reader, row, part, &mut report, desk) {
        Ok(end) => status_of_end(end),
        Err(fault) => status_of_fault(fault),
    }
}

/// Checks a text that begins with a header line of version 4, of which the reader may hold some bytes, by the run at its
/// start, and prints the report.
fn check_open_text<D: Desk>(
    sim: &mut OpenSim,
    reader: &mut OpenCertReader,
    row: &mut OpenRow,
    desk: &mut D,
) -> Status
    requires start { open_standing_of sim.old ≡ initial_open_standing sim.old.project }
    requires running { sim.old.stopped ≡ None }
    requires reader { IsAtStart reader.old }
    requires header { open_header_of row.old ≡ open_header_for sim.old.project }
    ensures cause { HasCause result (D.counts desk.old) (D.counts desk.new) }
    ensures only_prints { OnlyPrintedSome
        (seen D.files D.written D.printed desk.old) (seen D.files D.written D.printed desk.new) }
    ensures leaves { LeavesCheck result
        (seen D.files D.written D.printed desk.old) (seen D.files D.written D.printed desk.new) }
    ensures answers { (certificate : List ℕ) → to_come reader.old (D.rest desk.old) ≡ Some certificate
        → AnswersOpenCert sim.old.project certificate result
        (seen D.files D.written D.printed desk.old) (seen D.files D.written D.printed desk.new) }
    ensures opened { (before : Openings) → D.openings desk.old ≡ with_opened before
        → ReadsCert result before (D.openings desk.new) }
{
    // The network is sound.
    let _project = sim.project();
    let mut report = Pen::new(Channel::Report);
    match check_openly(sim, reader, row, &mut report, desk) {
        Ok(end) => status_of_end(end),
        Err(fault) => status_of_fault(fault),
    }
}

/// Checks a text that doesn't begin with a header line of version 4, of which these bytes were read, and closes the run.
fn check_by_run<D: Desk>(
    mut sim: Sim,
    mut row: Record,
    mut part: FlowPart,
    ahead: Source,
    desk: &mut D,
) -> Status
    requires start { standing_of sim ≡ initial_standing sim.project }
    requires running { sim.stopped ≡ None }
    requires header { header_of row ≡ header_for sim.project }
    requires part { part.junctions ≡ row.junctions }
    ensures cause { HasCause result (D.counts desk.old) (D.counts desk.new) }
    ensures only_prints { OnlyPrintedSome
        (seen D.files D.written D.printed desk.old) (seen D.files D.written D.printed desk.new) }
    ensures leaves { LeavesCheck result
        (seen D.files D.written D.printed desk.old) (seen D.files D.written D.printed desk.new) }
    ensures answers { (certificate : List ℕ) → prepend_known ahead (D.rest desk.old) ≡ Some certificate
        → AnswersCert sim.project certificate result
        (seen D.files D.written D.printed desk.old) (seen D.files D.written D.printed desk.new) }
    ensures opened { (before : Openings) → D.openings desk.old ≡ with_opened before
        → ReadsCert result before (D.openings desk.new) }
{
    let status = check_text(&mut sim, &mut row, &mut part, ahead, desk);
    sim.close();
    status
}

/// Makes a run whose ends of periods may be open, in the room of the one that was opened, checks a text by it that begins
/// with a header line of version 4, and closes it. It takes no memory.
fn check_by_open_run<D: Desk>(
    parts: SimParts,
    opened: hyd_net::List<Event>,
    row: Record,
    reader: &mut OpenCertReader,
    desk: &mut D,
) -> Status
    requires parts { HasParts parts.project 0 parts }
    requires events { HasEventRoom parts.project opened }
    requires header { header_of row ≡ header_for parts.project }
    requires reader { IsAtStart reader.old }
    ensures cause { HasCause result (D.counts desk.old) (D.counts desk.new) }
    ensures only_prints { OnlyPrintedSome
        (seen D.files D.written D.printed desk.old) (seen D.files D.written D.printed desk.new) }
    ensures leaves { LeavesCheck result
        (seen D.files D.written D.printed desk.old) (seen D.files D.written D.printed desk.new) }
    ensures answers { (certificate : List ℕ) → to_come reader.old (D.rest desk.old) ≡ Some certificate
        → AnswersOpenCert parts.project certificate result
        (seen D.files D.written D.printed desk.old) (seen D.files D.written D.printed desk.new) }
    ensures opened { (before : Openings) → D.openings desk.old ≡ with_opened before
        → ReadsCert result before (D.openings desk.new) }
{
    let mut found = OpenRow {
        row,
        late: 0,
        shortest: 0,
    };
    let mut sim = OpenSim::of(parts, opened, NO_OPEN_SEARCH);
    let status = check_open_text(&mut sim, reader, &mut found, desk);
    sim.close();
    status
}

/// Opens CERT, and checks it by the run at its start, or by one in its room whose ends of periods may be open.
fn check_opened<D: Desk>(sim: Sim, room: CheckRoom, cert: &str, desk: &mut D) -> Status
    requires start { standing_of sim ≡ initial_standing sim.project }
    requires running { sim.stopped ≡ None }
    requires settings { sim.settings.rounds ≡ 0 }
    requires room { IsRoomFor sim.project room }
    requires opens { IsTrue (D.may_open cert.now) }
    ensures cause { HasCause result (D.counts desk.old) (D.counts desk.new) }
    ensures only_prints { OnlyPrintedSome
        (seen D.files D.written D.printed desk.old) (seen D.files D.written D.printed desk.new) }
    ensures leaves { LeavesCheck result
        (seen D.files D.written D.printed desk.old) (seen D.files D.written D.printed desk.new) }
    ensures answers { (certificate : List ℕ) → IsTold (D.files desk.old) cert.now certificate
        → LacksOpenHeader (Some certificate) → AnswersCert sim.project certificate result
        (seen D.files D.written D.printed desk.old) (seen D.files D.written D.printed desk.new) }
    ensures answers_openly { (certificate : List ℕ) → IsTold (D.files desk.old) cert.now certificate
        → HasOpenHeader (Some certificate) → AnswersOpenCert sim.project certificate result
        (seen D.files D.written D.printed desk.old) (seen D.files D.written D.printed desk.new) }
    ensures opened { ReadsCert result (D.openings desk.old) (D.openings desk.new) }
{
    let mut reader = OpenCertReader::new();
    match begin_reading(&mut reader, cert, desk) {
        Ok(true) => check_by_open_run(sim.into_parts(), room.opened, room.row, &mut reader, desk),
        Ok(false) => check_by_run(sim, room.row, room.part, reader.into_read_ahead(), desk),
        Err(fault) => {
            sim.close();
            status_of_fault(fault)
        }
    }
}

/// Takes the room that a check needs besides its run, and checks CERT.
fn check_in_room<D: Desk>(alloc: Global, sim: Sim, cert: &str, desk: &mut D) -> Status
    requires start { standing_of sim ≡ initial_standing sim.project }
    requires running { sim.stopped ≡ None }
    requires settings { sim.settings.rounds ≡ 0 }
    requires opens { IsTrue (D.may_open cert.now) }
    ensures cause { HasCause result (D.counts desk.old) (D.counts desk.new) }
    ensures only_prints { OnlyPrintedSome
        (seen D.files D.written D.printed desk.old) (seen D.files D.written D.printed desk.new) }
    ensures leaves { LeavesCheck result
        (seen D.files D.written D.printed desk.old) (seen D.files D.written D.printed desk.new) }
    ensures answers { (certificate : List ℕ) → IsTold (D.files desk.old) cert.now certificate
        → LacksOpenHeader (Some certificate) → AnswersCert sim.project certificate result
        (seen D.files D.written D.printed desk.old) (seen D.files D.written D.printed desk.new) }
    ensures answers_openly { (certificate : List ℕ) → IsTold (D.files desk.old) cert.now certificate
        → HasOpenHeader (Some certificate) → AnswersOpenCert sim.project certificate result
        (seen D.files D.written D.printed desk.old) (seen D.files D.written D.printed desk.new) }
    ensures opened { ReadsCert result (D.openings desk.old) (D.openings desk.new) }
{
    match room_for(alloc, sim.project()) {
        Ok(room) => check_opened(sim, room, cert, desk),
        Err(_) => {
            sim.close();
            Status::OutOfMemory
        }
    }
}

/// Opens a run of a network, and checks CERT against it. All memory is taken before CERT is opened, whatever its version.
pub fn check_network<D: Desk>(alloc: Global, project: Project, cert: &str, desk: &mut D) -> Status
    requires sound { IsSound project }
    requires opens { IsTrue (D.may_open cert.now) }
    ensures cause { HasCause result (D.counts desk.old) (D.counts desk.new) }
    ensures only_prints { OnlyPrintedSome
        (seen D.files D.written D.printed desk.old) (seen D.files D.written D.printed desk.new) }
    ensures leaves { LeavesCheck result
        (seen D.files D.written D.printed desk.old) (seen D.files D.written D.printed desk.new) }
    ensures answers { (certificate : List ℕ) → IsTold (D.files desk.old) cert.now certificate
        → LacksOpenHeader (Some certificate) → AnswersCert project certificate result
        (seen D.files D.written D.printed desk.old) (seen D.files D.written D.printed desk.new) }
    ensures answers_openly { (certificate : List ℕ) → IsTold (D.files desk.old) cert.now certificate
        → HasOpenHeader (Some certificate) → AnswersOpenCert project certificate result
        (seen D.files D.written D.printed desk.old) (seen D.files D.written D.printed desk.new) }
    ensures opened { ReadsCert result (D.openings desk.old) (D.openings desk.new) }
{
    match Sim::open(alloc, project, NO_SEARCH) {
        Ok(sim) => check_in_room(alloc, sim, cert, desk),
        Err(_) => Status::OutOfMemory,
    }
}
