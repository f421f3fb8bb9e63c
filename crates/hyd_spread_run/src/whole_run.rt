//! A whole run for a spread, put out through two pens.
#![tactic(auto)]

ghost use Rattle.std.specs.Prelude.{◌≡◌, true, IsTrue, IfOk, IfErr, OnOk};
ghost use Rattle.hyd_io.specs.declared.output.Channel.TheVariants.{Cert, Report};
ghost use Rattle.hyd_net.specs.Sound.{IsSound};
ghost use Rattle.hyd_spec_spread.specs.Spreads.{IsSpread};
ghost use Rattle.hyd_spec_open_spreads.specs.OpenRunsForSpreads.{open_standing_within};
ghost use Rattle.hyd_spec_spread_reports.specs.TextsOfSpreadReports.{says_nothing};
ghost use Rattle.hyd_spread_sim.specs.SpreadRunView.{standing_of};
ghost use Rattle.hyd_run.specs.Pens.{told, moment, AreOpen, OneRose, LeavesRest};
ghost use Rattle.hyd_run.specs.Runs.{fresh, outcome_of};
ghost use Rattle.hyd_spread_run.specs.PeriodsOfSpreadRuns.{asked_of};
ghost use Rattle.hyd_spread_run_so_far.specs.SpreadRunSoFar.{IsPutOutOver, IsBrokenOffOver, RunPuts};

use crate::steps::put_steps;
use hyd_finders::Finder;
use hyd_io::{Desk, OutFault, Pen};
use hyd_run::RunEnd;
use hyd_spread_run_so_far::{begin_run, end_run, finish_run};
use hyd_spread_sim::SpreadSim;

// Puts a run in at the pens, from its header to its last line.
fn put_run<D: Desk, F: Finder, G: Finder>(
    sim: &mut SpreadSim,
    above: &mut F,
    below: &mut G,
    certificate: &mut Pen,
    report: &mut Pen,
    desk: &mut D,
) -> Result<RunEnd, OutFault>
    requires start { standing_of sim.old ≡ open_standing_within sim.old.project sim.old.nets.spread }
    requires told { says_nothing sim.old.nets.spread ≡ true → G.told below.old ≡ F.told above.old }
    requires unbroken { AreOpen (moment certificate.old report.old
        (told D.files D.rest D.written D.printed D.target D.ready D.counts D.openings desk.old)) }
    ensures puts { RunPuts result sim.old.project (asked_of sim.old.settings sim.old.nets.spread)
        (moment certificate.old report.old
        (told D.files D.rest D.written D.printed D.target D.ready D.counts D.openings desk.old))
        (moment certificate.new report.new
        (told D.files D.rest D.written D.printed D.target D.ready D.counts D.openings desk.new)) }
    ensures sound { IsSound sim.old.project }
    ensures is_spread { IsSpread sim.old.project sim.old.nets.spread }
    ensures project { sim.new.project ≡ sim.old.project }
    ensures settings { sim.new.settings ≡ sim.old.settings }
    ensures spread { sim.new.nets.spread ≡ sim.old.nets.spread }
{
    // The record stands under the header of the network, and the spread leaves no doubt at the start.
    let project = sim.project();
    let rows = sim.nets().spread();
    begin_run(project, rows, sim.found(), certificate, report, desk)?;
    match put_steps(sim, above, below, certificate, report, desk) {
        Ok(end) => end_run(
            sim.project(),
            sim.time(),
            sim.number(),
            end,
            certificate,
            report,
            desk,
        ),
        Err(fault) => Err(fault),
    }
}

/// Runs a network for a spread from its start, with ends of periods that may be open by as many seconds as the slack:
/// puts its certificate, of version 4, out through one pen and its report through another as it goes, each period when
/// it is done, and takes no memory. Each outermost network has a finder of its own; where there is no spread both are
/// alike, only the first finder is asked, and the other tells what it does. Both pens are empty at the end. Answers
/// how the run ended.
///
/// - `Fault`: a call that writes or prints failed, and its faults rose by one.
/// - `Stalled`: such a call took nothing, and the stalls rose by one.
///
/// After either nothing more is called, and what was written and printed are fronts of the certificate and of the
/// report of the run as far as it went. Of the last line nothing is printed unless all of the certificate was written.
pub fn run_over<D: Desk, F: Finder, G: Finder>(
    sim: &mut SpreadSim,
    above: &mut F,
    below: &mut G,
    certificate: &mut Pen,
    report: &mut Pen,
    desk: &mut D,
) -> Result<RunEnd, OutFault>
    requires start { standing_of sim.old ≡ open_standing_within sim.old.project sim.old.nets.spread }
    requires told { says_nothing sim.old.nets.spread ≡ true → G.told below.old ≡ F.told above.old }
    requires certificate { certificate.old ≡ fresh Cert }
    requires report { report.old ≡ fresh Report }
    requires ready { IsTrue (D.ready desk.old) }
    ensures whole { IfOk result (λ end. IsPutOutOver sim.old.project (asked_of sim.old.settings sim.old.nets.spread)
        (outcome_of end)
        (told D.files D.rest D.written D.printed D.target D.ready D.counts D.openings desk.old)
        (told D.files D.rest D.written D.printed D.target D.ready D.counts D.openings desk.new)) }
    ensures certificate_empty { OnOk result (certificate.new ≡ fresh Cert) }
    ensures report_empty { OnOk result (report.new ≡ fresh Report) }
    ensures broken_off { IfErr result (λ fault. IsBrokenOffOver sim.old.project
        (asked_of sim.old.settings sim.old.nets.spread)
        (told D.files D.rest D.written D.printed D.target D.ready D.counts D.openings desk.old)
        (told D.files D.rest D.written D.printed D.target D.ready D.counts D.openings desk.new)) }
    ensures cause { IfErr result (λ fault. OneRose fault (D.counts desk.old) (D.counts desk.new)) }
    ensures steady { OnOk result (D.counts desk.new ≡ D.counts desk.old) }
    ensures leaves { LeavesRest
        (told D.files D.rest D.written D.printed D.target D.ready D.counts D.openings desk.old)
        (told D.files D.rest D.written D.printed D.target D.ready D.counts D.openings desk.new) }
    ensures project { sim.new.project ≡ sim.old.project }
    ensures settings { sim.new.settings ≡ sim.old.settings }
    ensures spread { sim.new.nets.spread ≡ sim.old.nets.spread }
{
    match put_run(sim, above, below, certificate, report, desk) {
        Ok(end) => finish_run(end, certificate, report, desk),
        Err(fault) => Err(fault),
    }
}
