//! A whole run, put out through two pens.
#![tactic(auto)]

ghost use Rattle.std.specs.Prelude.{◌≡◌, IsTrue, IfOk, IfErr, OnOk};
ghost use Rattle.hyd_io.specs.declared.output.Channel.TheVariants.{Cert, Report};
ghost use Rattle.hyd_spec_certificates.specs.RecordAndStanding.{initial_standing};
ghost use Rattle.hyd_sim.specs.RunView.{standing_of};
ghost use Rattle.hyd_net.specs.Sound.{IsSound};
ghost use Rattle.hyd_spec.specs.ProgramTypes.{Project};
ghost use Rattle.hyd_spec_reports.specs.PromisesOfRunsAndChecks.{EndsSo};
ghost use Rattle.hyd_sim.specs.declared.settings.Settings.{Settings};
ghost use Rattle.hyd_run.specs.Pens.{RunMoment, told, moment, AreOpen, OneRose, LeavesRest};
ghost use Rattle.hyd_run.specs.Runs.{fresh, outcome_of, sharpness_of, EndNames, IsSoFar, IsWhole, IsPutOut, IsBrokenOff};
ghost use Rattle.hyd_run.specs.Runs.{RunPuts};

use crate::first_lines_and_emptied_pens::{empty_both, put_front};
use crate::outcome::RunEnd;
use crate::period_and_last_lines::put_last;
use crate::steps::put_steps;
use hyd_io::{Desk, OutFault, Pen};
use hyd_sim::{Finder, Sim};

// Puts the last lines of a run that is over.
fn put_ending<D: Desk>(
    sim: &Sim,
    end: RunEnd,
    certificate: &mut Pen,
    report: &mut Pen,
    desk: &mut D,
) -> Result<RunEnd, OutFault>
    requires { AreOpen (moment certificate.old report.old
        (told D.files D.rest D.written D.printed D.target D.ready D.counts D.openings desk.old)) }
    ensures { EndsSo sim.now.project (standing_of sim.now) sim.now.settings.rounds (outcome_of end)
        → EndNames sim.now.project (standing_of sim.now) sim.now.settings.rounds (outcome_of end)
        → (start : RunMoment)
        → IsSoFar sim.now.project (sharpness_of sim.now.settings) (standing_of sim.now) start
        (moment certificate.old report.old
        (told D.files D.rest D.written D.printed D.target D.ready D.counts D.openings desk.old))
        → RunPuts result sim.now.project sim.now.settings start
        (moment certificate.new report.new
        (told D.files D.rest D.written D.printed D.target D.ready D.counts D.openings desk.new)) }
{
    match put_last(
        sim.project(),
        sim.time(),
        sim.number(),
        end,
        certificate,
        report,
        desk,
    ) {
        Ok(()) => Ok(end),
        Err(fault) => Err(fault),
    }
}

// Puts a run in at the pens, from its header to its last line.
fn put_run<D: Desk, F: Finder>(
    sim: &mut Sim,
    finder: &mut F,
    certificate: &mut Pen,
    report: &mut Pen,
    desk: &mut D,
) -> Result<RunEnd, OutFault>
    requires start { standing_of sim.old ≡ initial_standing sim.old.project }
    requires unbroken { AreOpen (moment certificate.old report.old
        (told D.files D.rest D.written D.printed D.target D.ready D.counts D.openings desk.old)) }
    ensures puts { RunPuts result sim.old.project sim.old.settings
        (moment certificate.old report.old
        (told D.files D.rest D.written D.printed D.target D.ready D.counts D.openings desk.old))
        (moment certificate.new report.new
        (told D.files D.rest D.written D.printed D.target D.ready D.counts D.openings desk.new)) }
    ensures sound { IsSound sim.old.project }
    ensures project { sim.new.project ≡ sim.old.project }
    ensures settings { sim.new.settings ≡ sim.old.settings }
{
    // The record stands under the header of the network.
    let _project = sim.project();
    put_front(sim.row(), certificate, report, desk)?;
    match put_steps(sim, finder, certificate, report, desk) {
        Ok(end) => put_ending(sim, end, certificate, report, desk),
        Err(fault) => Err(fault),
    }
}

// Empties the pens behind a run that was put in whole.
fn finish<D: Desk>(
    end: RunEnd,
    certificate: &mut Pen,
    report: &mut Pen,
    desk: &mut D,
) -> Result<RunEnd, OutFault>
    requires { AreOpen (moment certificate.old report.old
        (told D.files D.rest D.written D.printed D.target D.ready D.counts D.openings desk.old)) }
    ensures puts { (project : Project) (settings : Settings) (start : RunMoment)
        → IsWhole project settings (outcome_of end) start (moment certificate.old report.old
        (told D.files D.rest D.written D.printed D.target D.ready D.counts D.openings desk.old))
        → RunPuts result project settings start (moment certificate.new report.new
        (told D.files D.rest D.written D.printed D.target D.ready D.counts D.openings desk.new)) }
    ensures certificate { OnOk result (certificate.new ≡ fresh Cert) }
    ensures report { OnOk result (report.new ≡ fresh Report) }
{
    match empty_both(certificate, report, desk) {
        Ok(()) => Ok(end),
        Err(fault) => Err(fault),
    }
}

/// Runs a network from its start: puts its certificate out through one pen and its report through another as it goes,
/// each period when it is done, and takes no memory. Both pens are empty at the end. Answers how the run ended.
///
/// - `Fault`: a call that writes or prints failed, and its faults rose by one.
/// - `Stalled`: such a call took nothing, and the stalls rose by one.
///
/// After either nothing more is called, and what was written and printed are fronts of the certificate and of the
/// report of the run as far as it went. Of the last line nothing is printed unless all of the certificate was written.
pub fn run<D: Desk, F: Finder>(
    sim: &mut Sim,
    finder: &mut F,
    certificate: &mut Pen,
    report: &mut Pen,
    desk: &mut D,
) -> Result<RunEnd, OutFault>
    requires start { standing_of sim.old ≡ initial_standing sim.old.project }
    requires certificate { certificate.old ≡ fresh Cert }
    requires report { report.old ≡ fresh Report }
    requires ready { IsTrue (D.ready desk.old) }
    ensures whole { IfOk result (λ end. IsPutOut sim.old.project sim.old.settings (outcome_of end)
        (told D.files D.rest D.written D.printed D.target D.ready D.counts D.openings desk.old)
        (told D.files D.rest D.written D.printed D.target D.ready D.counts D.openings desk.new)) }
    ensures certificate_empty { OnOk result (certificate.new ≡ fresh Cert) }
    ensures report_empty { OnOk result (report.new ≡ fresh Report) }
    ensures broken_off { IfErr result (λ fault. IsBrokenOff sim.old.project sim.old.settings
        (told D.files D.rest D.written D.printed D.target D.ready D.counts D.openings desk.old)
        (told D.files D.rest D.written D.printed D.target D.ready D.counts D.openings desk.new)) }
    ensures cause { IfErr result (λ fault. OneRose fault (D.counts desk.old) (D.counts desk.new)) }
    ensures steady { OnOk result (D.counts desk.new ≡ D.counts desk.old) }
    ensures leaves { LeavesRest
        (told D.files D.rest D.written D.printed D.target D.ready D.counts D.openings desk.old)
        (told D.files D.rest D.written D.printed D.target D.ready D.counts D.openings desk.new) }
    ensures project { sim.new.project ≡ sim.old.project }
    ensures settings { sim.new.settings ≡ sim.old.settings }
{
    match put_run(sim, finder, certificate, report, desk) {
        Ok(end) => finish(end, certificate, report, desk),
        Err(fault) => Err(fault),
    }
}
