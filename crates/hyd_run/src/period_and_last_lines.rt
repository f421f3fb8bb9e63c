//! The record and the report of one period, and the last lines of a run. What is for the certificate comes first, and all
//! of it is out before the last line of the report is put in: a full disk leaves no whole report beside a part of its
//! certificate.
#![tactic(auto)]

ghost use Rattle.std.specs.Prelude.{◌≡◌, ◌<◌, [], OnOk};
ghost use Rattle.hyd_io.specs.Output.{OnCert};
ghost use Rattle.std.specs.Prelude.{IsTrue};
ghost use Rattle.hyd_net.specs.Sound.{IsSound};
ghost use Rattle.hyd_spec_certificates.specs.RecordAndStanding.{Standing};
ghost use Rattle.hyd_spec_certificates.specs.Valid.{AreCertificates};
ghost use Rattle.hyd_spec_certificates.specs.CertificateText.{record_text, end_line};
ghost use Rattle.hyd_spec_reports.specs.PromisesOfRunsAndChecks.{last_line, is_finished};
ghost use Rattle.hyd_cert.specs.RecordView.{row_of};
ghost use Rattle.hyd_theorems_on_definitions.specs.SoundLawsAndGrids.{TanksInOrder};
ghost use Rattle.hyd_period_network.specs.NetAsPeriodNetwork.{grid_of, states_of};
ghost use Rattle.hyd_period_network.specs.NetsSetToPeriods.{IsNetOf};
ghost use Rattle.hyd_period_network.specs.LawsInSettings.{AreStates};
ghost use Rattle.hyd_report.specs.NodeAndLinkLines.{texts};
ghost use Rattle.hyd_report.specs.PeriodLines.{AreBounds, AreTankFacts, lines_of};
ghost use Rattle.hyd_cert.specs.RecordView.{row_of};
ghost use Rattle.hyd_io.specs.TextPutIn.{Puts};
ghost use Rattle.hyd_run.specs.Pens.{told, moment, AreOpen, PutsInOrder, PutsLast};
ghost use Rattle.hyd_run.specs.Runs.{outcome_of};

use crate::first_lines_and_emptied_pens::empty;
use crate::outcome::{RunEnd, is_finished};
use crate::signs_of_life::Signs;
use hyd_cert::{Record, put_end, put_record};
use hyd_io::{Desk, OutFault, Pen};
use hyd_net::Project;
use hyd_period_network::Net;
use hyd_report::{put_done, put_report, put_stop};
use hyd_sim::Facts;

// Puts the report of a period, and empties the pen where that is due.
fn put_lines<D: Desk>(
    project: &Project,
    net: &Net,
    row: &Record,
    facts: &Facts,
    signs: &mut Signs,
    pen: &mut Pen,
    desk: &mut D,
) -> Result<(), OutFault>
    requires sound { IsSound project.now }
    requires of { IsNetOf project.now net.now }
    requires states { AreStates project.now (states_of net.now) }
    requires bounds { AreBounds net.now (row_of row.now) }
    requires tanks { AreTankFacts project.now facts.now }
    requires links { states_of net.now ≡ facts.now.links.list }
    requires ready { OnCert pen.old.to (IsTrue (D.ready desk.old)) }
    ensures { Puts D.files D.rest D.written D.printed D.target D.ready D.counts D.openings
        (texts project.now (lines_of project.now (grid_of net.now) (states_of net.now) (row_of row.now) facts.now))
        result pen.old pen.new desk.old desk.new }
{
    put_report(project, net, row, facts, pen, desk)?;
    signs.empty_when_due(pen, desk)
}

/// Puts the record of a period, and then its report, and empties the report's pen where that is due. Net, record and
/// facts are those of one period, and the vectors are its certificates.
pub(crate) fn put_period<D: Desk>(
    project: &Project,
    net: &Net,
    row: &Record,
    facts: &Facts,
    signs: &mut Signs,
    certificate: &mut Pen,
    report: &mut Pen,
    desk: &mut D,
) -> Result<(), OutFault>
    requires sound { IsSound project.now }
    requires of { IsNetOf project.now net.now }
    requires states { AreStates project.now (states_of net.now) }
    requires certificates { AreCertificates project.now (grid_of net.now) (row_of row.now) }
    requires order { TanksInOrder (grid_of net.now) }
    requires tanks { AreTankFacts project.now facts.now }
    requires links { states_of net.now ≡ facts.now.links.list }
    requires unbroken { AreOpen (moment certificate.old report.old
        (told D.files D.rest D.written D.printed D.target D.ready D.counts D.openings desk.old)) }
    ensures { PutsInOrder (record_text (row_of row.now))
        (texts project.now (lines_of project.now (grid_of net.now) (states_of net.now) (row_of row.now) facts.now))
        result
        (moment certificate.old report.old
        (told D.files D.rest D.written D.printed D.target D.ready D.counts D.openings desk.old))
        (moment certificate.new report.new
        (told D.files D.rest D.written D.printed D.target D.ready D.counts D.openings desk.new)) }
{
    // Certificates are ordered where the net is steady.
    let _junctions = net.junctions();
    put_record(row, certificate, desk)?;
    put_lines(project, net, row, facts, signs, report, desk)
}

/// Puts the last line of a report.
pub fn put_last_line<D: Desk>(
    project: &Project,
    time: u32,
    records: u32,
    end: RunEnd,
    pen: &mut Pen,
    desk: &mut D,
) -> Result<(), OutFault>
    requires sound { IsSound project.now }
    requires ready { OnCert pen.old.to (IsTrue (D.ready desk.old)) }
    ensures { (standing : Standing) → standing.time ≡ time
        → Puts D.files D.rest D.written D.printed D.target D.ready D.counts D.openings
        (last_line project.now standing records (outcome_of end)) result pen.old pen.new desk.old desk.new }
{
    match end {
        RunEnd::Finished => put_done(records, pen, desk),
        RunEnd::Stopped(cause) => put_stop(project, time, &cause, pen, desk),
    }
}

// Puts the END line, and empties the pen.
fn write_end<D: Desk>(
    records: u32,
    finished: bool,
    pen: &mut Pen,
    desk: &mut D,
) -> Result<(), OutFault>
    requires { OnCert pen.old.to (IsTrue (D.ready desk.old)) }
    ensures puts { Puts D.files D.rest D.written D.printed D.target D.ready D.counts D.openings
        (end_line records finished) result pen.old pen.new desk.old desk.new }
    ensures empty { OnOk result (pen.new.held ≡ []) }
{
    put_end(records, finished, pen, desk)?;
    empty(pen, desk)
}

/// Puts the END line, which goes out, and then the last line of a report, with the number of records and the time at
/// which the run stopped.
pub fn put_last<D: Desk>(
    project: &Project,
    time: u32,
    records: u32,
    end: RunEnd,
    certificate: &mut Pen,
    report: &mut Pen,
    desk: &mut D,
) -> Result<(), OutFault>
    requires sound { IsSound project.now }
    requires unbroken { AreOpen (moment certificate.old report.old
        (told D.files D.rest D.written D.printed D.target D.ready D.counts D.openings desk.old)) }
    ensures { (standing : Standing) → standing.time ≡ time
        → PutsLast (end_line records (is_finished (outcome_of end)))
        (last_line project.now standing records (outcome_of end)) result
        (moment certificate.old report.old
        (told D.files D.rest D.written D.printed D.target D.ready D.counts D.openings desk.old))
        (moment certificate.new report.new
        (told D.files D.rest D.written D.printed D.target D.ready D.counts D.openings desk.new)) }
{
    write_end(records, is_finished(end), certificate, desk)?;
    put_last_line(project, time, records, end, report, desk)
}
