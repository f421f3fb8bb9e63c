//! The steps of a run that names links, each put into the certificate and the report.

ghost use Rattle.std.specs.Prelude.{◌≡◌, OnOk};
ghost use Rattle.hyd_cert.specs.FlowPartView.{part_of};
ghost use Rattle.hyd_run.specs.Pens.{told, moment, AreOpen};
ghost use Rattle.hyd_spec.specs.NodeNumbers.{junction_count};
ghost use Rattle.hyd_spec_flows.specs.FlowParts.{names_of};
ghost use Rattle.hyd_spec_named_links.specs.NamedLinks.{MayBeNamed};
ghost use Rattle.hyd_run_naming_flows.specs.NamingRuns.{StepPutsNaming, StepsPutNaming};

use crate::periods::put_period;
use crate::vectors::find_vectors;
use hyd_cert::{FlowPart, has_small_numbers};
use hyd_finders::Finder;
use hyd_flow::FlowSearch;
use hyd_io::{Desk, OutFault, Pen};
use hyd_run::{RunEnd, Signs};
use hyd_sim::{Sim, Step};

/// Does the period that is due, finds the vectors of the named links in it, and puts it out. Answers how the run ended
/// where none is due.
fn put_step<D: Desk, F: Finder>(
    sim: &mut Sim,
    finder: &mut F,
    search: &mut FlowSearch,
    part: &mut FlowPart,
    signs: &mut Signs,
    certificate: &mut Pen,
    report: &mut Pen,
    desk: &mut D,
) -> Result<Option<RunEnd>, OutFault>
    requires unbroken { AreOpen (moment certificate.old report.old
        (told D.files D.rest D.written D.printed D.target D.ready D.counts D.openings desk.old)) }
    requires named { MayBeNamed sim.old.project (names_of (part_of part.old)) }
    requires junctions { part.old.junctions ≡ junction_count sim.old.project }
    requires room { search.old ≡ junction_count sim.old.project }
    ensures puts { StepPutsNaming (names_of (part_of part.old)) result sim.old sim.new
        (moment certificate.old report.old
        (told D.files D.rest D.written D.printed D.target D.ready D.counts D.openings desk.old))
        (moment certificate.new report.new
        (told D.files D.rest D.written D.printed D.target D.ready D.counts D.openings desk.new)) }
    ensures project { sim.new.project ≡ sim.old.project }
    ensures settings { sim.new.settings ≡ sim.old.settings }
    ensures names { names_of (part_of part.new) ≡ names_of (part_of part.old) }
    ensures junctions { part.new.junctions ≡ part.old.junctions }
    ensures room { search.new ≡ search.old }
{
    match sim.step(finder) {
        Step::Period => {}
        Step::Finished => {
            let _project = sim.project();
            signs.say_low(sim, desk);
            return Ok(Some(RunEnd::Finished));
        }
        Step::Stop(cause) => {
            let _project = sim.project();
            return Ok(Some(RunEnd::Stopped(cause)));
        }
    }
    let _project = sim.project();
    has_small_numbers(sim.row());
    signs.show(sim, desk);
    find_vectors(sim, search, part);
    match put_period(sim, part, signs, certificate, report, desk) {
        Ok(()) => Ok(None),
        Err(fault) => Err(fault),
    }
}

/// Does the periods of a run, as many as there are, and puts each out with the named links. Answers how the run ended.
pub(crate) fn put_steps<D: Desk, F: Finder>(
    sim: &mut Sim,
    finder: &mut F,
    search: &mut FlowSearch,
    part: &mut FlowPart,
    certificate: &mut Pen,
    report: &mut Pen,
    desk: &mut D,
) -> Result<RunEnd, OutFault>
    requires unbroken { AreOpen (moment certificate.old report.old
        (told D.files D.rest D.written D.printed D.target D.ready D.counts D.openings desk.old)) }
    requires named { MayBeNamed sim.old.project (names_of (part_of part.old)) }
    requires junctions { part.old.junctions ≡ junction_count sim.old.project }
    requires room { search.old ≡ junction_count sim.old.project }
    ensures puts { StepsPutNaming (names_of (part_of part.old)) result sim.old sim.new
        (moment certificate.old report.old
        (told D.files D.rest D.written D.printed D.target D.ready D.counts D.openings desk.old))
        (moment certificate.new report.new
        (told D.files D.rest D.written D.printed D.target D.ready D.counts D.openings desk.new)) }
    ensures unbroken { OnOk result (AreOpen (moment certificate.new report.new
        (told D.files D.rest D.written D.printed D.target D.ready D.counts D.openings desk.new))) }
    ensures project { sim.new.project ≡ sim.old.project }
    ensures settings { sim.new.settings ≡ sim.old.settings }
    ensures names { names_of (part_of part.new) ≡ names_of (part_of part.old) }
    ensures junctions { part.new.junctions ≡ part.old.junctions }
    ensures room { search.new ≡ search.old }
{
    let mut signs = Signs::new(desk);
    loop {
        if let Some(end) = put_step(
            sim,
            finder,
            search,
            part,
            &mut signs,
            certificate,
            report,
            desk,
        )? {
            return Ok(end);
        }
    }
}
