//! The steps of a run for a spread, each put into the certificate and the report.
#![tactic(auto)]

ghost use Rattle.std.specs.Prelude.{◌≡◌, true, OnOk};
ghost use Rattle.hyd_spec_spread_reports.specs.TextsOfSpreadReports.{says_nothing};
ghost use Rattle.hyd_spread_sim.specs.SpreadRunView.{standing_of};
ghost use Rattle.hyd_run.specs.Pens.{told, moment, AreOpen};
ghost use Rattle.hyd_spread_run.specs.PeriodsOfSpreadRuns.{asked_of};
ghost use Rattle.hyd_spread_run_so_far.specs.SpreadRunSoFar.{StepPuts, StepsPut};

use crate::record_and_report::{has_small_numbers, put_period};
use hyd_finders::Finder;
use hyd_io::{Desk, OutFault, Pen};
use hyd_open_run_so_far::OpenSigns;
use hyd_run::{RunEnd, Step};
use hyd_spread_sim::SpreadSim;

// Does the period that is due and puts its record and its report. Answers how the run ended where none is due.
fn put_step<D: Desk, F: Finder, G: Finder>(
    sim: &mut SpreadSim,
    above: &mut F,
    below: &mut G,
    signs: &mut OpenSigns,
    certificate: &mut Pen,
    report: &mut Pen,
    desk: &mut D,
) -> Result<Option<RunEnd>, OutFault>
    requires told { says_nothing sim.old.nets.spread ≡ true → G.told below.old ≡ F.told above.old }
    requires unbroken { AreOpen (moment certificate.old report.old
        (told D.files D.rest D.written D.printed D.target D.ready D.counts D.openings desk.old)) }
    ensures puts { StepPuts result sim.old.project (asked_of sim.old.settings sim.old.nets.spread)
        (standing_of sim.old) (standing_of sim.new)
        (moment certificate.old report.old
        (told D.files D.rest D.written D.printed D.target D.ready D.counts D.openings desk.old))
        (moment certificate.new report.new
        (told D.files D.rest D.written D.printed D.target D.ready D.counts D.openings desk.new)) }
    ensures project { sim.new.project ≡ sim.old.project }
    ensures settings { sim.new.settings ≡ sim.old.settings }
    ensures spread { sim.new.nets.spread ≡ sim.old.nets.spread }
    ensures told_above { F.told above.new ≡ F.told above.old }
    ensures told_below { G.told below.new ≡ G.told below.old }
{
    match sim.step(above, below) {
        Step::Period => {}
        Step::Finished => {
            signs.say_low(sim.project(), desk);
            return Ok(Some(RunEnd::Finished));
        }
        Step::Stop(cause) => {
            let _project = sim.project();
            return Ok(Some(RunEnd::Stopped(cause)));
        }
    }
    let project = sim.project();
    signs.show(project, &sim.found().row, sim.time(), sim.number(), desk);
    has_small_numbers(sim.found());
    match put_period(sim, signs, certificate, report, desk) {
        Ok(()) => Ok(None),
        Err(fault) => Err(fault),
    }
}

/// Does the periods of a run, as many as there are, and puts the record and the report of each. Answers how the run
/// ended.
pub(crate) fn put_steps<D: Desk, F: Finder, G: Finder>(
    sim: &mut SpreadSim,
    above: &mut F,
    below: &mut G,
    certificate: &mut Pen,
    report: &mut Pen,
    desk: &mut D,
) -> Result<RunEnd, OutFault>
    requires told { says_nothing sim.old.nets.spread ≡ true → G.told below.old ≡ F.told above.old }
    requires unbroken { AreOpen (moment certificate.old report.old
        (told D.files D.rest D.written D.printed D.target D.ready D.counts D.openings desk.old)) }
    ensures puts { StepsPut result sim.old.project (asked_of sim.old.settings sim.old.nets.spread)
        (standing_of sim.old) (standing_of sim.new)
        (moment certificate.old report.old
        (told D.files D.rest D.written D.printed D.target D.ready D.counts D.openings desk.old))
        (moment certificate.new report.new
        (told D.files D.rest D.written D.printed D.target D.ready D.counts D.openings desk.new)) }
    ensures unbroken { OnOk result (AreOpen (moment certificate.new report.new
        (told D.files D.rest D.written D.printed D.target D.ready D.counts D.openings desk.new))) }
    ensures project { sim.new.project ≡ sim.old.project }
    ensures settings { sim.new.settings ≡ sim.old.settings }
    ensures spread { sim.new.nets.spread ≡ sim.old.nets.spread }
{
    let mut signs = OpenSigns::new(desk);
    loop {
        if let Some(end) = put_step(sim, above, below, &mut signs, certificate, report, desk)? {
            return Ok(end);
        }
    }
}
