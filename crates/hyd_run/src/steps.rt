//! The steps of a run, each put into the certificate and the report.
#![tactic(auto)]

ghost use Rattle.std.specs.Prelude.{◌≡◌, OnOk};
ghost use Rattle.hyd_run.specs.Pens.{told, moment, AreOpen};
ghost use Rattle.hyd_run.specs.Runs.{StepPuts, StepsPut};

use crate::outcome::RunEnd;
use crate::period_and_last_lines::put_period;
use crate::signs_of_life::Signs;
use hyd_cert::has_small_numbers;
use hyd_io::{Desk, OutFault, Pen};
use hyd_sim::{Finder, Sim, Step};

// Does the period that is due and puts its record and its report. Answers how the run ended where none is due.
fn put_step<D: Desk, F: Finder>(
    sim: &mut Sim,
    finder: &mut F,
    signs: &mut Signs,
    certificate: &mut Pen,
    report: &mut Pen,
    desk: &mut D,
) -> Result<Option<RunEnd>, OutFault>
    requires { AreOpen (moment certificate.old report.old
        (told D.files D.rest D.written D.printed D.target D.ready D.counts D.openings desk.old)) }
    ensures puts { StepPuts result sim.old sim.new
        (moment certificate.old report.old
        (told D.files D.rest D.written D.printed D.target D.ready D.counts D.openings desk.old))
        (moment certificate.new report.new
        (told D.files D.rest D.written D.printed D.target D.ready D.counts D.openings desk.new)) }
    ensures project { sim.new.project ≡ sim.old.project }
    ensures settings { sim.new.settings ≡ sim.old.settings }
{
    match sim.step(finder) {
        Step::Period => {}
        Step::Finished => {
            let _project = sim.project();
            signs.say_low(sim, desk);
            return Ok(Some(RunEnd::Finished));
        }
        Step::Stop(cause) => {
            let _project = sim.project();
            return Ok(Some(RunEnd::Stopped(cause)));
        }
    }
    signs.show(sim, desk);
    let project = sim.project();
    let row = sim.row();
    has_small_numbers(row);
    match put_period(
        project,
        sim.net(),
        row,
        sim.facts(),
        signs,
        certificate,
        report,
        desk,
    ) {
        Ok(()) => Ok(None),
        Err(fault) => Err(fault),
    }
}

/// Does the periods of a run, as many as there are, and puts the record and the report of each. Answers how the run
/// ended.
pub(crate) fn put_steps<D: Desk, F: Finder>(
    sim: &mut Sim,
    finder: &mut F,
    certificate: &mut Pen,
    report: &mut Pen,
    desk: &mut D,
) -> Result<RunEnd, OutFault>
    requires { AreOpen (moment certificate.old report.old
        (told D.files D.rest D.written D.printed D.target D.ready D.counts D.openings desk.old)) }
    ensures puts { StepsPut result sim.old sim.new
        (moment certificate.old report.old
        (told D.files D.rest D.written D.printed D.target D.ready D.counts D.openings desk.old))
        (moment certificate.new report.new
        (told D.files D.rest D.written D.printed D.target D.ready D.counts D.openings desk.new)) }
    ensures unbroken { OnOk result (AreOpen (moment certificate.new report.new
        (told D.files D.rest D.written D.printed D.target D.ready D.counts D.openings desk.new))) }
    ensures project { sim.new.project ≡ sim.old.project }
    ensures settings { sim.new.settings ≡ sim.old.settings }
{
    let mut signs = Signs::new(desk);
    loop {
        if let Some(end) = put_step(sim, finder, &mut signs, certificate, report, desk)? {
            return Ok(end);
        }
    }
}
