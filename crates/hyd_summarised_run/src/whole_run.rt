//! A whole run whose summary is printed in place of its report.

ghost use Rattle.std.specs.Prelude.{◌≡◌, [], IsTrue, IfOk, IfErr, OnOk};
ghost use Rattle.hyd_io.specs.declared.output.Channel.TheVariants.{Cert, Report};
ghost use Rattle.hyd_net.specs.Sound.{IsSound};
ghost use Rattle.hyd_spec_certificates.specs.RecordAndStanding.{initial_standing};
ghost use Rattle.hyd_sim.specs.RunView.{standing_of};
ghost use Rattle.hyd_run.specs.Pens.{told, moment, OneRose, LeavesRest};
ghost use Rattle.hyd_run.specs.Runs.{fresh, outcome_of};
ghost use Rattle.hyd_summarised_run.specs.SummarisedRuns.{IsSummed, IsSumBrokenOff, RunSumsIn};

use crate::end_line_and_summary::put_ending;
use crate::steps::put_steps;
use hyd_cert::put_header;
use hyd_finders::Finder;
use hyd_io::{Desk, OutFault, Pen};
use hyd_run::RunEnd;
use hyd_sim::Sim;

// Puts the certificate of a run and its summary in at the pens, and empties them.
fn put_run<D: Desk, F: Finder>(
    sim: &mut Sim,
    finder: &mut F,
    certificate: &mut Pen,
    report: &mut Pen,
    desk: &mut D,
) -> Result<RunEnd, OutFault>
    requires start { standing_of sim.old ≡ initial_standing sim.old.project }
    requires certificate { certificate.old ≡ fresh Cert }
    requires report { report.old ≡ fresh Report }
    requires ready { IsTrue (D.ready desk.old) }
    ensures puts { RunSumsIn result sim.old.project sim.old.settings
        (moment certificate.old report.old
        (told D.files D.rest D.written D.printed D.target D.ready D.counts D.openings desk.old))
        (moment certificate.new report.new
        (told D.files D.rest D.written D.printed D.target D.ready D.counts D.openings desk.new)) }
    ensures sound { IsSound sim.old.project }
    ensures certificate { OnOk result (certificate.new.held ≡ []) }
    ensures report { OnOk result (report.new.held ≡ []) }
{
    // The record stands under the header of the network.
    let _project = sim.project();
    put_header(sim.row(), certificate, desk)?;
    match put_steps(sim, finder, certificate, desk) {
        Ok(ended) => put_ending(sim, ended, certificate, report, desk),
        Err(fault) => Err(fault),
    }
}

/// Runs a network from its start: puts its certificate out through one pen as it goes, each period when it is done, and
/// then prints its summary through the other, in place of its report. Takes no memory. Answers how the run ended.
///
/// - `Fault`: a call that writes or prints failed, and its faults rose by one.
/// - `Stalled`: such a call took nothing, and the stalls rose by one.
///
/// After either nothing more is called, and what was written and printed are fronts of the certificate and of the
/// summary of the run as far as it went; nothing was printed unless the certificate was written whole.
pub fn run_summed<D: Desk, F: Finder>(
    sim: &mut Sim,
    finder: &mut F,
    certificate: &mut Pen,
    report: &mut Pen,
    desk: &mut D,
) -> Result<RunEnd, OutFault>
    requires start { standing_of sim.old ≡ initial_standing sim.old.project }
    requires certificate { certificate.old ≡ fresh Cert }
    requires report { report.old ≡ fresh Report }
    requires ready { IsTrue (D.ready desk.old) }
    ensures whole { IfOk result (λ end. IsSummed sim.old.project sim.old.settings (outcome_of end)
        (told D.files D.rest D.written D.printed D.target D.ready D.counts D.openings desk.old)
        (told D.files D.rest D.written D.printed D.target D.ready D.counts D.openings desk.new)) }
    ensures broken_off { IfErr result (λ fault. IsSumBrokenOff sim.old.project sim.old.settings
        (told D.files D.rest D.written D.printed D.target D.ready D.counts D.openings desk.old)
        (told D.files D.rest D.written D.printed D.target D.ready D.counts D.openings desk.new)) }
    ensures cause { IfErr result (λ fault. OneRose fault (D.counts desk.old) (D.counts desk.new)) }
    ensures steady { OnOk result (D.counts desk.new ≡ D.counts desk.old) }
    ensures leaves { LeavesRest
        (told D.files D.rest D.written D.printed D.target D.ready D.counts D.openings desk.old)
        (told D.files D.rest D.written D.printed D.target D.ready D.counts D.openings desk.new) }
{
    put_run(sim, finder, certificate, report, desk)
}
