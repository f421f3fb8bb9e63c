//! The steps of a run with a slack, each put into the certificate and the report.
#![tactic(auto)]

ghost use Rattle.std.specs.Prelude.{◌≡◌, OnOk};
ghost use Rattle.hyd_open_sim.specs.RunView.{standing_of};
ghost use Rattle.hyd_run.specs.Pens.{told, moment, AreOpen};
ghost use Rattle.hyd_open_run.specs.PeriodsOfOpenRuns.{asked_of};
ghost use Rattle.hyd_open_run_so_far.specs.OpenRunSoFar.{StepPuts, StepsPut};

use crate::record_and_report::{has_small_numbers, put_period};
use hyd_finders::Finder;
use hyd_io::{Desk, OutFault, Pen};
use hyd_open_run_so_far::OpenSigns;
use hyd_open_sim::OpenSim;
use hyd_run::{RunEnd, Step};

// Does the period that is due and puts its record and its report. Answers how the run ended where none is due.
fn put_step<D: Desk, F: Finder>(
    sim: &mut OpenSim,
    finder: &mut F,
    signs: &mut OpenSigns,
    certificate: &mut Pen,
    report: &mut Pen,
    desk: &mut D,
) -> Result<Option<RunEnd>, OutFault>
    requires { AreOpen (moment certificate.old report.old
        (told D.files D.rest D.written D.printed D.target D.ready D.counts D.openings desk.old)) }
    ensures puts { StepPuts result sim.old.project (asked_of sim.old.settings)
        (standing_of sim.old) (standing_of sim.new)
        (moment certificate.old report.old
        (told D.files D.rest D.written D.printed D.target D.ready D.counts D.openings desk.old))
        (moment certificate.new report.new
        (told D.files D.rest D.written D.printed D.target D.ready D.counts D.openings desk.new)) }
    ensures project { sim.new.project ≡ sim.old.project }
    ensures settings { sim.new.settings ≡ sim.old.settings }
{
    match sim.step(finder) {
        Step::Period => {}
        Step::Finished => {
            signs.say_low(sim.project(), desk);
            return Ok(Some(RunEnd::Finished));
        }
        Step::Stop(cause) => {
            let _project = sim.project();
            return Ok(Some(RunEnd::Stopped(cause)));
        }
    }
    let project = sim.project();
    signs.show(project, &sim.found().row, sim.time(), sim.number(), desk);
    has_small_numbers(sim.found());
    match put_period(sim, signs, certificate, report, desk) {
        Ok(()) => Ok(None),
        Err(fault) => Err(fault),
    }
}

/// Does the periods of a run, as many as there are, and puts the record and the report of each. Answers how the run
/// ended.
pub(crate) fn put_steps<D: Desk, F: Finder>(
    sim: &mut OpenSim,
    finder: &mut F,
    certificate: &mut Pen,
    report: &mut Pen,
    desk: &mut D,
) -> Result<RunEnd, OutFault>
    requires { AreOpen (moment certificate.old report.old
        (told D.files D.rest D.written D.printed D.target D.ready D.counts D.openings desk.old)) }
    ensures puts { StepsPut result sim.old.project (asked_of sim.old.settings)
        (standing_of sim.old) (standing_of sim.new)
        (moment certificate.old report.old
        (told D.files D.rest D.written D.printed D.target D.ready D.counts D.openings desk.old))
        (moment certificate.new report.new
        (told D.files D.rest D.written D.printed D.target D.ready D.counts D.openings desk.new)) }
    ensures unbroken { OnOk result (AreOpen (moment certificate.new report.new
        (told D.files D.rest D.written D.printed D.target D.ready D.counts D.openings desk.new))) }
    ensures project { sim.new.project ≡ sim.old.project }
    ensures settings { sim.new.settings ≡ sim.old.settings }
{
    let mut signs = OpenSigns::new(desk);
    loop {
        if let Some(end) = put_step(sim, finder, &mut signs, certificate, report, desk)? {
            return Ok(end);
        }
    }
}
