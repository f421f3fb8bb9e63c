//! The end of the certificate, and the summary behind it.

ghost use Rattle.std.specs.Prelude.{◌≡◌, ◌++◌, [], length, IsTrue, OnOk};
ghost use Rattle.hyd_io.specs.Output.{OnCert};
ghost use Rattle.hyd_io.specs.TextPutIn.{Puts};
ghost use Rattle.hyd_io.specs.declared.output.Channel.TheVariants.{Report};
ghost use Rattle.hyd_net.specs.Sound.{IsSound};
ghost use Rattle.hyd_spec_certificates.specs.RecordAndStanding.{Standing};
ghost use Rattle.hyd_spec_certificates.specs.CertificateText.{end_line};
ghost use Rattle.hyd_spec_reports.specs.PromisesOfRunsAndChecks.{EndsSo, last_line, is_finished};
ghost use Rattle.hyd_spec_summary.specs.Summary.{summary_line};
ghost use Rattle.hyd_spec.specs.NodeNumbers.{junction_count};
ghost use Rattle.hyd_sim.specs.RunView.{standing_of};
ghost use Rattle.hyd_run.specs.Pens.{RunMoment, told, moment, AreOpen, PutsIn};
ghost use Rattle.hyd_run.specs.Runs.{fresh, outcome_of, sharpness_of, EndNames};
ghost use Rattle.hyd_summarised_run.specs.SummarisedRuns.{aside, SumsSoFar, RunSumsIn};

use crate::steps::Ended;
use crate::summary::{Counts, put_counts};
use hyd_cert::put_end;
use hyd_io::{Desk, OutFault, Pen};
use hyd_net::Project;
use hyd_run::{RunEnd, empty, is_finished, put_last_line};
use hyd_sim::Sim;

// Puts the END line, and empties the pen.
fn close_certificate<D: Desk>(
    records: u32,
    finished: bool,
    certificate: &mut Pen,
    desk: &mut D,
) -> Result<(), OutFault>
    requires { AreOpen (aside certificate.old
        (told D.files D.rest D.written D.printed D.target D.ready D.counts D.openings desk.old)) }
    ensures puts { PutsIn (end_line records finished) [] result
        (aside certificate.old (told D.files D.rest D.written D.printed D.target D.ready D.counts D.openings desk.old))
        (aside certificate.new
        (told D.files D.rest D.written D.printed D.target D.ready D.counts D.openings desk.new)) }
    ensures empty { OnOk result (certificate.new.held ≡ []) }
{
    put_end(records, finished, certificate, desk)?;
    empty(certificate, desk)
}

// Puts the summary, and empties the pen.
fn print_summary<D: Desk>(
    project: &Project,
    time: u32,
    records: u32,
    ended: Ended,
    report: &mut Pen,
    desk: &mut D,
) -> Result<(), OutFault>
    requires sound { IsSound project.now }
    requires ready { OnCert report.old.to (IsTrue (D.ready desk.old)) }
    ensures puts { (standing : Standing) → standing.time ≡ time
        → Puts D.files D.rest D.written D.printed D.target D.ready D.counts D.openings
        (summary_line (junction_count project.now) (length project.now.links.list) records ended.events
        ++ last_line project.now standing records (outcome_of ended.end))
        result report.old report.new desk.old desk.new }
    ensures empty { OnOk result (report.new.held ≡ []) }
{
    let junctions = project.junctions.len();
    let links = project.links.len();
    let counts = Counts {
        junctions,
        links,
        periods: records,
        events: ended.events,
    };
    put_counts(counts, report, desk)?;
    put_last_line(project, time, records, ended.end, report, desk)?;
    empty(report, desk)
}

/// Puts the last line of the certificate of a run that is over, and then its summary. Both pens are then empty.
pub(crate) fn put_ending<D: Desk>(
    sim: &Sim,
    ended: Ended,
    certificate: &mut Pen,
    report: &mut Pen,
    desk: &mut D,
) -> Result<RunEnd, OutFault>
    requires unbroken { AreOpen (aside certificate.old
        (told D.files D.rest D.written D.printed D.target D.ready D.counts D.openings desk.old)) }
    requires report { report.old ≡ fresh Report }
    ensures puts { EndsSo sim.now.project (standing_of sim.now) sim.now.settings.rounds (outcome_of ended.end)
        → EndNames sim.now.project (standing_of sim.now) sim.now.settings.rounds (outcome_of ended.end)
        → (start : RunMoment)
        → SumsSoFar sim.now.project (sharpness_of sim.now.settings) (standing_of sim.now) ended.events start
        (aside certificate.old (told D.files D.rest D.written D.printed D.target D.ready D.counts D.openings desk.old))
        → RunSumsIn result sim.now.project sim.now.settings start (moment certificate.new report.new
        (told D.files D.rest D.written D.printed D.target D.ready D.counts D.openings desk.new)) }
    ensures certificate { OnOk result (certificate.new.held ≡ []) }
    ensures report { OnOk result (report.new.held ≡ []) }
{
    let records = sim.number();
    close_certificate(records, is_finished(ended.end), certificate, desk)?;
    match print_summary(sim.project(), sim.time(), records, ended, report, desk) {
        Ok(()) => Ok(ended.end),
        Err(fault) => Err(fault),
    }
}
