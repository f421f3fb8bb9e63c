//! The steps of a run, each put into the certificate and counted in the summary.

ghost use Rattle.std.specs.Prelude.{◌≡◌, ◌<◌, ◌^◌, OnOk};
ghost use Rattle.hyd_run.specs.Pens.{told, AreOpen};
ghost use Rattle.hyd_summarised_run.specs.SummarisedRuns.{aside, StepSums, StepsSum};

use hyd_cert::{has_small_numbers, put_record};
use hyd_finders::Finder;
use hyd_io::{Desk, OutFault, Pen};
use hyd_run::RunEnd;
use hyd_sim::{Sim, Step};

/// What a step did.
#[derive(Clone, Copy, Drop)]
pub(crate) enum Turn {
    /// It did the period that was due, which had so many events.
    Period(usize),
    /// None was due: the run is over.
    Over(RunEnd),
}

/// How a run ended, and how many events it had.
#[derive(Clone, Copy, Drop)]
pub(crate) struct Ended {
    pub(crate) end: RunEnd,
    /// Wide enough for any number of events a period.
    pub(crate) events: u128,
}

// A count of what lies in memory is below 2^64.
fn is_count(count: usize)
    ensures { count < 2 ^ 64 }
{
    let _ = count;
}

// Does the period that is due and puts its record, or answers how the run ended.
fn put_step<D: Desk, F: Finder>(
    sim: &mut Sim,
    finder: &mut F,
    certificate: &mut Pen,
    desk: &mut D,
) -> Result<Turn, OutFault>
    requires { AreOpen (aside certificate.old
        (told D.files D.rest D.written D.printed D.target D.ready D.counts D.openings desk.old)) }
    ensures puts { StepSums result sim.old sim.new
        (aside certificate.old (told D.files D.rest D.written D.printed D.target D.ready D.counts D.openings desk.old))
        (aside certificate.new
        (told D.files D.rest D.written D.printed D.target D.ready D.counts D.openings desk.new)) }
    ensures project { sim.new.project ≡ sim.old.project }
    ensures settings { sim.new.settings ≡ sim.old.settings }
{
    match sim.step(finder) {
        Step::Period => {}
        Step::Finished => {
            let _project = sim.project();
            return Ok(Turn::Over(RunEnd::Finished));
        }
        Step::Stop(cause) => {
            let _project = sim.project();
            return Ok(Turn::Over(RunEnd::Stopped(cause)));
        }
    }
    let _project = sim.project();
    let row = sim.row();
    has_small_numbers(row);
    let events = sim.facts().events.len();
    match put_record(row, certificate, desk) {
        Ok(()) => Ok(Turn::Period(events)),
        Err(fault) => Err(fault),
    }
}

/// Does the periods of a run, as many as there are, and puts the record of each. Answers how the run ended and how many
/// events it had.
pub(crate) fn put_steps<D: Desk, F: Finder>(
    sim: &mut Sim,
    finder: &mut F,
    certificate: &mut Pen,
    desk: &mut D,
) -> Result<Ended, OutFault>
    requires { AreOpen (aside certificate.old
        (told D.files D.rest D.written D.printed D.target D.ready D.counts D.openings desk.old)) }
    ensures puts { StepsSum result sim.old sim.new
        (aside certificate.old (told D.files D.rest D.written D.printed D.target D.ready D.counts D.openings desk.old))
        (aside certificate.new
        (told D.files D.rest D.written D.printed D.target D.ready D.counts D.openings desk.new)) }
    ensures unbroken { OnOk result (AreOpen (aside certificate.new
        (told D.files D.rest D.written D.printed D.target D.ready D.counts D.openings desk.new))) }
    ensures project { sim.new.project ≡ sim.old.project }
    ensures settings { sim.new.settings ≡ sim.old.settings }
{
    let mut events = 0;
    loop {
        match put_step(sim, finder, certificate, desk)? {
            Turn::Period(more) => {
                is_count(more);
                events += more as u128;
            }
            Turn::Over(end) => return Ok(Ended { end, events }),
        }
    }
}
