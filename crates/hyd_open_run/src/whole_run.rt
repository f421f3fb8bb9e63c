//! A whole run with a slack, put out through two pens.
#![tactic(auto)]

ghost use Rattle.std.specs.Prelude.{◌≡◌, IsTrue, IfOk, IfErr, OnOk};
ghost use Rattle.hyd_io.specs.declared.output.Channel.TheVariants.{Cert, Report};
ghost use Rattle.hyd_net.specs.Sound.{IsSound};
ghost use Rattle.hyd_spec_open_ends.specs.OpenStandings.{initial_open_standing};
ghost use Rattle.hyd_open_sim.specs.RunView.{standing_of};
ghost use Rattle.hyd_run.specs.Pens.{told, moment, AreOpen, OneRose, LeavesRest};
ghost use Rattle.hyd_run.specs.Runs.{fresh, outcome_of};
ghost use Rattle.hyd_open_run.specs.PeriodsOfOpenRuns.{asked_of};
ghost use Rattle.hyd_open_run_so_far.specs.OpenRunSoFar.{IsPutOutOpenly, IsBrokenOffOpenly, RunPuts};

use crate::steps::put_steps;
use hyd_finders::Finder;
use hyd_io::{Desk, OutFault, Pen};
use hyd_open_run_so_far::{begin_run, end_run, finish_run};
use hyd_open_sim::OpenSim;
use hyd_run::RunEnd;

// Puts a run in at the pens, from its header to its last line.
fn put_run<D: Desk, F: Finder>(
    sim: &mut OpenSim,
    finder: &mut F,
    certificate: &mut Pen,
    report: &mut Pen,
    desk: &mut D,
) -> Result<RunEnd, OutFault>
    requires start { standing_of sim.old ≡ initial_open_standing sim.old.project }
    requires unbroken { AreOpen (moment certificate.old report.old
        (told D.files D.rest D.written D.printed D.target D.ready D.counts D.openings desk.old)) }
    ensures puts { RunPuts result sim.old.project (asked_of sim.old.settings)
        (moment certificate.old report.old
        (told D.files D.rest D.written D.printed D.target D.ready D.counts D.openings desk.old))
        (moment certificate.new report.new
        (told D.files D.rest D.written D.printed D.target D.ready D.counts D.openings desk.new)) }
    ensures sound { IsSound sim.old.project }
    ensures project { sim.new.project ≡ sim.old.project }
    ensures settings { sim.new.settings ≡ sim.old.settings }
{
    // The record stands under the header of the network.
    let _project = sim.project();
    begin_run(sim.found(), certificate, report, desk)?;
    match put_steps(sim, finder, certificate, report, desk) {
        Ok(end) => end_run(
            sim.project(),
            sim.time(),
            sim.number(),
            end,
            certificate,
            report,
            desk,
        ),
        Err(fault) => Err(fault),
    }
}

/// Runs a network from its start, with ends of periods that may be open by as many seconds as the slack: puts its
/// certificate, of version 4, out through one pen and its report through another as it goes, each period when it is
/// done, and takes no memory. Both pens are empty at the end. Answers how the run ended.
///
/// - `Fault`: a call that writes or prints failed, and its faults rose by one.
/// - `Stalled`: such a call took nothing, and the stalls rose by one.
///
/// After either nothing more is called, and what was written and printed are fronts of the certificate and of the
/// report of the run as far as it went. Of the last line nothing is printed unless all of the certificate was written.
pub fn run_openly<D: Desk, F: Finder>(
    sim: &mut OpenSim,
    finder: &mut F,
    certificate: &mut Pen,
    report: &mut Pen,
    desk: &mut D,
) -> Result<RunEnd, OutFault>
    requires start { standing_of sim.old ≡ initial_open_standing sim.old.project }
    requires certificate { certificate.old ≡ fresh Cert }
    requires report { report.old ≡ fresh Report }
    requires ready { IsTrue (D.ready desk.old) }
    ensures whole { IfOk result (λ end. IsPutOutOpenly sim.old.project (asked_of sim.old.settings) (outcome_of end)
        (told D.files D.rest D.written D.printed D.target D.ready D.counts D.openings desk.old)
        (told D.files D.rest D.written D.printed D.target D.ready D.counts D.openings desk.new)) }
    ensures certificate_empty { OnOk result (certificate.new ≡ fresh Cert) }
    ensures report_empty { OnOk result (report.new ≡ fresh Report) }
    ensures broken_off { IfErr result (λ fault. IsBrokenOffOpenly sim.old.project (asked_of sim.old.settings)
        (told D.files D.rest D.written D.printed D.target D.ready D.counts D.openings desk.old)
        (told D.files D.rest D.written D.printed D.target D.ready D.counts D.openings desk.new)) }
    ensures cause { IfErr result (λ fault. OneRose fault (D.counts desk.old) (D.counts desk.new)) }
    ensures steady { OnOk result (D.counts desk.new ≡ D.counts desk.old) }
    ensures leaves { LeavesRest
        (told D.files D.rest D.written D.printed D.target D.ready D.counts D.openings desk.old)
        (told D.files D.rest D.written D.printed D.target D.ready D.counts D.openings desk.new) }
    ensures project { sim.new.project ≡ sim.old.project }
    ensures settings { sim.new.settings ≡ sim.old.settings }
{
    match put_run(sim, finder, certificate, report, desk) {
        Ok(end) => finish_run(end, certificate, report, desk),
        Err(fault) => Err(fault),
    }
}
