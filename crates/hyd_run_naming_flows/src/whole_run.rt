//! A whole run that names links, put out through two pens.

ghost use Rattle.std.specs.Prelude.{◌≡◌, ℕ, List, IsTrue, IfOk, IfErr, OnOk};
ghost use Rattle.hyd_cert.specs.FlowPartView.{part_of};
ghost use Rattle.hyd_cert.specs.Lines.{header_text};
ghost use Rattle.hyd_cert.specs.PlacesWithFlows.{with_flows};
ghost use Rattle.hyd_cert.specs.RecordView.{header_of};
ghost use Rattle.hyd_io.specs.declared.output.Channel.TheVariants.{Cert, Report};
ghost use Rattle.hyd_net.specs.Sound.{IsSound};
ghost use Rattle.hyd_run.specs.Pens.{RunMoment, told, moment, AreOpen, PutsInOrder, OneRose, LeavesRest};
ghost use Rattle.hyd_run.specs.Runs.{fresh, first_line, outcome_of, EndNames};
ghost use Rattle.hyd_sim.specs.RunView.{standing_of};
ghost use Rattle.hyd_sim.specs.declared.settings.Settings.{Settings};
ghost use Rattle.hyd_spec.specs.NodeNumbers.{junction_count};
ghost use Rattle.hyd_spec.specs.ProgramTypes.{Project};
ghost use Rattle.hyd_spec_certificates.specs.RecordAndStanding.{initial_standing};
ghost use Rattle.hyd_spec_flows.specs.FlowParts.{names_of};
ghost use Rattle.hyd_spec_named_links.specs.NamedLinks.{MayBeNamed};
ghost use Rattle.hyd_spec_reports.specs.PromisesOfRunsAndChecks.{EndsSo};
ghost use Rattle.hyd_run_naming_flows.specs.NamingRuns.{IsPutOutNaming, IsBrokenOffNaming, IsSoFarNaming};
ghost use Rattle.hyd_run_naming_flows.specs.NamingRuns.{IsWholeNaming, RunPutsNaming};

use crate::steps::put_steps;
use hyd_cert::{FlowPart, Record, put_flows_header};
use hyd_finders::Finder;
use hyd_flow::FlowSearch;
use hyd_io::{Desk, OutFault, Pen};
use hyd_run::{RunEnd, empty_both, put_first, put_last};
use hyd_sim::Sim;

/// Puts the header of a certificate with flows, and then the first line of a report.
fn put_front<D: Desk>(
    row: &Record,
    certificate: &mut Pen,
    report: &mut Pen,
    desk: &mut D,
) -> Result<(), OutFault>
    requires { AreOpen (moment certificate.old report.old
        (told D.files D.rest D.written D.printed D.target D.ready D.counts D.openings desk.old)) }
    ensures { PutsInOrder (header_text (with_flows (header_of row.now))) first_line result
        (moment certificate.old report.old
        (told D.files D.rest D.written D.printed D.target D.ready D.counts D.openings desk.old))
        (moment certificate.new report.new
        (told D.files D.rest D.written D.printed D.target D.ready D.counts D.openings desk.new)) }
{
    match put_flows_header(row, certificate, desk) {
        Ok(()) => put_first(report, desk),
        Err(fault) => Err(fault),
    }
}

/// Puts the last lines of a run that is over.
fn put_ending<D: Desk>(
    sim: &Sim,
    end: RunEnd,
    certificate: &mut Pen,
    report: &mut Pen,
    desk: &mut D,
) -> Result<RunEnd, OutFault>
    requires { AreOpen (moment certificate.old report.old
        (told D.files D.rest D.written D.printed D.target D.ready D.counts D.openings desk.old)) }
    ensures { EndsSo sim.now.project (standing_of sim.now) sim.now.settings.rounds (outcome_of end)
        → EndNames sim.now.project (standing_of sim.now) sim.now.settings.rounds (outcome_of end)
        → (named : List ℕ) (start : RunMoment)
        → IsSoFarNaming sim.now.project sim.now.settings named (standing_of sim.now) start
        (moment certificate.old report.old
        (told D.files D.rest D.written D.printed D.target D.ready D.counts D.openings desk.old))
        → RunPutsNaming result sim.now.project sim.now.settings named start
        (moment certificate.new report.new
        (told D.files D.rest D.written D.printed D.target D.ready D.counts D.openings desk.new)) }
{
    match put_last(
        sim.project(),
        sim.time(),
        sim.number(),
        end,
        certificate,
        report,
        desk,
    ) {
        Ok(()) => Ok(end),
        Err(fault) => Err(fault),
    }
}

/// Puts a run in at the pens, from its header to its last line.
fn put_run<D: Desk, F: Finder>(
    sim: &mut Sim,
    finder: &mut F,
    search: &mut FlowSearch,
    part: &mut FlowPart,
    certificate: &mut Pen,
    report: &mut Pen,
    desk: &mut D,
) -> Result<RunEnd, OutFault>
    requires start { standing_of sim.old ≡ initial_standing sim.old.project }
    requires unbroken { AreOpen (moment certificate.old report.old
        (told D.files D.rest D.written D.printed D.target D.ready D.counts D.openings desk.old)) }
    requires named { MayBeNamed sim.old.project (names_of (part_of part.old)) }
    requires junctions { part.old.junctions ≡ junction_count sim.old.project }
    requires room { search.old ≡ junction_count sim.old.project }
    ensures puts { RunPutsNaming result sim.old.project sim.old.settings (names_of (part_of part.old))
        (moment certificate.old report.old
        (told D.files D.rest D.written D.printed D.target D.ready D.counts D.openings desk.old))
        (moment certificate.new report.new
        (told D.files D.rest D.written D.printed D.target D.ready D.counts D.openings desk.new)) }
    ensures sound { IsSound sim.old.project }
    ensures project { sim.new.project ≡ sim.old.project }
    ensures settings { sim.new.settings ≡ sim.old.settings }
    ensures names { names_of (part_of part.new) ≡ names_of (part_of part.old) }
    ensures junctions { part.new.junctions ≡ part.old.junctions }
    ensures room { search.new ≡ search.old }
{
    // The record stands under the header of the network.
    let _project = sim.project();
    put_front(sim.row(), certificate, report, desk)?;
    match put_steps(sim, finder, search, part, certificate, report, desk) {
        Ok(end) => put_ending(sim, end, certificate, report, desk),
        Err(fault) => Err(fault),
    }
}

/// Empties the pens behind a run that was put in whole.
fn finish<D: Desk>(
    end: RunEnd,
    certificate: &mut Pen,
    report: &mut Pen,
    desk: &mut D,
) -> Result<RunEnd, OutFault>
    requires { AreOpen (moment certificate.old report.old
        (told D.files D.rest D.written D.printed D.target D.ready D.counts D.openings desk.old)) }
    ensures puts { (project : Project) (settings : Settings) (named : List ℕ) (start : RunMoment)
        → IsWholeNaming project settings named (outcome_of end) start (moment certificate.old report.old
        (told D.files D.rest D.written D.printed D.target D.ready D.counts D.openings desk.old))
        → RunPutsNaming result project settings named start (moment certificate.new report.new
        (told D.files D.rest D.written D.printed D.target D.ready D.counts D.openings desk.new)) }
    ensures certificate { OnOk result (certificate.new ≡ fresh Cert) }
    ensures report { OnOk result (report.new ≡ fresh Report) }
{
    match empty_both(certificate, report, desk) {
        Ok(()) => Ok(end),
        Err(fault) => Err(fault),
    }
}

/// Runs a network from its start and names links: puts its certificate out through one pen and its report through
/// another as it goes, each period when it is done. Behind each record stands the part of the links that `part` names,
/// with their vectors in that period, which the rounds of the run's settings find; behind the lines of a period that
/// begins at a report time stand their FLOW lines. The links join two junctions each, none is named twice, and there
/// are 1 to 16 of them; part and search were opened for the network's junctions. Takes no memory. Both pens are empty
/// at the end. Answers how the run ended.
///
/// - `Fault`: a call that writes or prints failed, and its faults rose by one.
/// - `Stalled`: such a call took nothing, and the stalls rose by one.
///
/// After either nothing more is called, and what was written and printed are fronts of the certificate and of the
/// report of the run as far as it went. Of the last line nothing is printed unless all of the certificate was written.
pub fn run_naming<D: Desk, F: Finder>(
    sim: &mut Sim,
    finder: &mut F,
    search: &mut FlowSearch,
    part: &mut FlowPart,
    certificate: &mut Pen,
    report: &mut Pen,
    desk: &mut D,
) -> Result<RunEnd, OutFault>
    requires start { standing_of sim.old ≡ initial_standing sim.old.project }
    requires certificate { certificate.old ≡ fresh Cert }
    requires report { report.old ≡ fresh Report }
    requires ready { IsTrue (D.ready desk.old) }
    requires named { MayBeNamed sim.old.project (names_of (part_of part.old)) }
    requires junctions { part.old.junctions ≡ junction_count sim.old.project }
    requires room { search.old ≡ junction_count sim.old.project }
    ensures whole { IfOk result (λ end. IsPutOutNaming sim.old.project sim.old.settings (names_of (part_of part.old))
        (outcome_of end)
        (told D.files D.rest D.written D.printed D.target D.ready D.counts D.openings desk.old)
        (told D.files D.rest D.written D.printed D.target D.ready D.counts D.openings desk.new)) }
    ensures certificate_empty { OnOk result (certificate.new ≡ fresh Cert) }
    ensures report_empty { OnOk result (report.new ≡ fresh Report) }
    ensures broken_off { IfErr result (λ fault. IsBrokenOffNaming sim.old.project sim.old.settings
        (names_of (part_of part.old))
        (told D.files D.rest D.written D.printed D.target D.ready D.counts D.openings desk.old)
        (told D.files D.rest D.written D.printed D.target D.ready D.counts D.openings desk.new)) }
    ensures cause { IfErr result (λ fault. OneRose fault (D.counts desk.old) (D.counts desk.new)) }
    ensures steady { OnOk result (D.counts desk.new ≡ D.counts desk.old) }
    ensures leaves { LeavesRest
        (told D.files D.rest D.written D.printed D.target D.ready D.counts D.openings desk.old)
        (told D.files D.rest D.written D.printed D.target D.ready D.counts D.openings desk.new) }
    ensures project { sim.new.project ≡ sim.old.project }
    ensures settings { sim.new.settings ≡ sim.old.settings }
    ensures names { names_of (part_of part.new) ≡ names_of (part_of part.old) }
    ensures junctions { part.new.junctions ≡ part.old.junctions }
    ensures room { search.new ≡ search.old }
{
    match put_run(sim, finder, search, part, certificate, report, desk) {
        Ok(end) => finish(end, certificate, report, desk),
        Err(fault) => Err(fault),
    }
}
