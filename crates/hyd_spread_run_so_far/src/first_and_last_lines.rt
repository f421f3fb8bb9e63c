//! The first and the last lines of a run for a spread, and the emptying of its pens. What is for the certificate comes
//! first, and all of it is out before the last line of the report is put in.
#![tactic(auto)]

ghost use Rattle.std.specs.Prelude.{◌≡◌, ◌++◌, IsTrue, OnOk};
ghost use Rattle.hyd_io.specs.Output.{OnCert};
ghost use Rattle.hyd_io.specs.TextPutIn.{Puts};
ghost use Rattle.hyd_io.specs.declared.output.Channel.TheVariants.{Cert, Report};
ghost use Rattle.hyd_net.specs.Sound.{IsSound};
ghost use Rattle.hyd_spec.specs.ProgramTypes.{Project};
ghost use Rattle.hyd_spec_open_ends.specs.OpenStandings.{OpenStanding};
ghost use Rattle.hyd_cert.specs.Lines.{header_text};
ghost use Rattle.hyd_open_certificates.specs.OpenRowView.{open_header_of};
ghost use Rattle.hyd_spec_open_checks.specs.OpenChecks.{open_header_for};
ghost use Rattle.hyd_spec_spread_runs.specs.RunsForSpreads.{StartIsDecided};
ghost use Rattle.hyd_spec_spread_reports.specs.TextsOfSpreadReports.{second_line};
ghost use Rattle.hyd_spread_rows.specs.SpreadsRead.{spread_of};
ghost use Rattle.hyd_run.specs.Pens.{RunMoment, told, moment, AreOpen, PutsInOrder};
ghost use Rattle.hyd_run.specs.Runs.{first_line, fresh, outcome_of};
ghost use Rattle.hyd_spread_run_so_far.specs.SpreadRunSoFar.{Asked, IsEnd, IsSoFar, IsWhole, RunBegins, RunPuts};

use crate::second_line::put_second_line;
use hyd_io::{Desk, OutFault, Pen};
use hyd_net::Project;
use hyd_open_certificates::{OpenRow, put_open_header};
use hyd_run::{RunEnd, empty_both, put_first, put_last};
use hyd_spread_rows::SpreadRows;

/// Puts the first line of a report, and behind it the one that counts what a spread leaves open, where there is one.
/// Its faults and its needs are those of `Pen::put`: after a fault, a front of both went out.
pub fn put_first_lines<D: Desk>(
    project: &Project,
    rows: &SpreadRows,
    pen: &mut Pen,
    desk: &mut D,
) -> Result<(), OutFault>
    requires sound { IsSound project.now }
    requires ready { OnCert pen.old.to (IsTrue (D.ready desk.old)) }
    ensures { Puts D.files D.rest D.written D.printed D.target D.ready D.counts D.openings
        (first_line ++ second_line project.now (spread_of rows.now)) result pen.old pen.new desk.old desk.new }
{
    put_first(pen, desk)?;
    put_second_line(project, rows, pen, desk)
}

// Puts the header of a certificate of version 4, and then the first lines of a report.
fn put_front<D: Desk>(
    project: &Project,
    rows: &SpreadRows,
    found: &OpenRow,
    certificate: &mut Pen,
    report: &mut Pen,
    desk: &mut D,
) -> Result<(), OutFault>
    requires sound { IsSound project.now }
    requires unbroken { AreOpen (moment certificate.old report.old
        (told D.files D.rest D.written D.printed D.target D.ready D.counts D.openings desk.old)) }
    ensures { PutsInOrder (header_text (open_header_of found.now))
        (first_line ++ second_line project.now (spread_of rows.now)) result
        (moment certificate.old report.old
        (told D.files D.rest D.written D.printed D.target D.ready D.counts D.openings desk.old))
        (moment certificate.new report.new
        (told D.files D.rest D.written D.printed D.target D.ready D.counts D.openings desk.new)) }
{
    put_open_header(found, certificate, desk)?;
    put_first_lines(project, rows, report, desk)
}

/// Puts the first lines of a run of the network for a spread, whose records have the counts of this one: the header of
/// its certificate, and then the first line of its report and that of the spread. After a fault a front of these went
/// out.
pub fn begin_run<D: Desk>(
    project: &Project,
    rows: &SpreadRows,
    found: &OpenRow,
    certificate: &mut Pen,
    report: &mut Pen,
    desk: &mut D,
) -> Result<(), OutFault>
    requires sound { IsSound project.now }
    requires unbroken { AreOpen (moment certificate.old report.old
        (told D.files D.rest D.written D.printed D.target D.ready D.counts D.openings desk.old)) }
    ensures begins { (asked : Asked) → asked.spread ≡ spread_of rows.now
        → open_header_of found.now ≡ open_header_for project.now → StartIsDecided project.now asked.spread
        → RunBegins result project.now asked
        (moment certificate.old report.old
        (told D.files D.rest D.written D.printed D.target D.ready D.counts D.openings desk.old))
        (moment certificate.new report.new
        (told D.files D.rest D.written D.printed D.target D.ready D.counts D.openings desk.new)) }
    ensures unbroken { OnOk result (AreOpen (moment certificate.new report.new
        (told D.files D.rest D.written D.printed D.target D.ready D.counts D.openings desk.new))) }
{
    put_front(project, rows, found, certificate, report, desk)
}

/// Puts the last lines of a run that is over, after so many records: the END line, which goes out, and then the last
/// line of the report, with the first second of the period at which the run stopped.
pub fn end_run<D: Desk>(
    project: &Project,
    time: u32,
    records: u32,
    end: RunEnd,
    certificate: &mut Pen,
    report: &mut Pen,
    desk: &mut D,
) -> Result<RunEnd, OutFault>
    requires sound { IsSound project.now }
    requires unbroken { AreOpen (moment certificate.old report.old
        (told D.files D.rest D.written D.printed D.target D.ready D.counts D.openings desk.old)) }
    ensures { (asked : Asked) (left : OpenStanding) → left.known.time ≡ time → left.known.number ≡ records
        → IsEnd project.now asked left (outcome_of end) → (start : RunMoment)
        → IsSoFar project.now asked left start (moment certificate.old report.old
        (told D.files D.rest D.written D.printed D.target D.ready D.counts D.openings desk.old))
        → RunPuts result project.now asked start (moment certificate.new report.new
        (told D.files D.rest D.written D.printed D.target D.ready D.counts D.openings desk.new)) }
{
    match put_last(project, time, records, end, certificate, report, desk) {
        Ok(()) => Ok(end),
        Err(fault) => Err(fault),
    }
}

/// Empties the pens behind a run that was put in whole.
pub fn finish_run<D: Desk>(
    end: RunEnd,
    certificate: &mut Pen,
    report: &mut Pen,
    desk: &mut D,
) -> Result<RunEnd, OutFault>
    requires { AreOpen (moment certificate.old report.old
        (told D.files D.rest D.written D.printed D.target D.ready D.counts D.openings desk.old)) }
    ensures puts { (project : Project) (asked : Asked) (start : RunMoment)
        → IsWhole project asked (outcome_of end) start (moment certificate.old report.old
        (told D.files D.rest D.written D.printed D.target D.ready D.counts D.openings desk.old))
        → RunPuts result project asked start (moment certificate.new report.new
        (told D.files D.rest D.written D.printed D.target D.ready D.counts D.openings desk.new)) }
    ensures certificate { OnOk result (certificate.new ≡ fresh Cert) }
    ensures report { OnOk result (report.new ≡ fresh Report) }
{
    match empty_both(certificate, report, desk) {
        Ok(()) => Ok(end),
        Err(fault) => Err(fault),
    }
}
