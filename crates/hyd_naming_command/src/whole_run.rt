//! A run with the flows of links, from the memory that it takes to its last line.

ghost use Rattle.std.specs.Prelude.{◌≡◌, IsTrue};
ghost use Rattle.hyd_cert.specs.FlowPartView.{part_of};
ghost use Rattle.hyd_net.specs.Sound.{IsSound};
ghost use Rattle.hyd_sim.specs.RunView.{standing_of};
ghost use Rattle.hyd_spec.specs.NodeNumbers.{junction_count};
ghost use Rattle.hyd_spec_certificates.specs.RecordAndStanding.{initial_standing};
ghost use Rattle.hyd_spec_flows.specs.FlowParts.{names_of};
ghost use Rattle.hyd_spec_named_links.specs.NamedLinks.{MayBeNamed};
ghost use Rattle.hyd_command_answers.specs.DeskContents.{seen, ChangesOnly};
ghost use Rattle.hyd_command_answers.specs.FaultsAndRefusals.{HasCause};
ghost use Rattle.hyd_command_answers.specs.OpeningsOfRuns.{OpensCert};
ghost use Rattle.hyd_naming_command.specs.NamingAnswers.{AnswersRunNaming};

use crate::run_ends::{say_end, status_of_end};
use hyd_cert::FlowPart;
use hyd_command_answers::{Status, fault_status};
use hyd_finders::{Finder, Gradient};
use hyd_flow::FlowSearch;
use hyd_io::{Channel, Desk, Pen};
use hyd_net::Project;
use hyd_run_naming_flows::run_naming;
use hyd_sim::{Settings, Sim};
use std::alloc::Global;

/// Creates CERT, and puts a run out with the flows of the links that the part names.
fn put_run<D: Desk, F: Finder>(
    sim: &mut Sim,
    finder: &mut F,
    search: &mut FlowSearch,
    part: &mut FlowPart,
    cert: &str,
    desk: &mut D,
) -> Status
    requires start { standing_of sim.old ≡ initial_standing sim.old.project }
    requires named { MayBeNamed sim.old.project (names_of (part_of part.old)) }
    requires junctions { part.old.junctions ≡ junction_count sim.old.project }
    requires room { search.old ≡ junction_count sim.old.project }
    requires creates { IsTrue (D.may_create cert.now) }
    ensures cause { HasCause result (D.counts desk.old) (D.counts desk.new) }
    ensures answers { AnswersRunNaming sim.old.project (names_of (part_of part.old)) sim.old.settings cert.now result
        (seen D.files D.written D.printed desk.old) (seen D.files D.written D.printed desk.new) }
    ensures others { ChangesOnly cert.now
        (seen D.files D.written D.printed desk.old) (seen D.files D.written D.printed desk.new) }
    ensures opens { OpensCert result (D.openings desk.old) (D.openings desk.new) }
{
    if desk.create(cert).is_err() {
        return Status::WriteFault;
    }
    let mut certificate = Pen::new(Channel::Cert);
    let mut report = Pen::new(Channel::Report);
    match run_naming(
        sim,
        finder,
        search,
        part,
        &mut certificate,
        &mut report,
        desk,
    ) {
        Ok(end) => {
            say_end(sim, end, desk);
            status_of_end(end)
        }
        Err(fault) => fault_status(fault),
    }
}

/// Opens the gradient method, and puts that run out.
fn run_by_gradient<D: Desk>(
    alloc: Global,
    sim: &mut Sim,
    search: &mut FlowSearch,
    part: &mut FlowPart,
    cert: &str,
    desk: &mut D,
) -> Status
    requires start { standing_of sim.old ≡ initial_standing sim.old.project }
    requires named { MayBeNamed sim.old.project (names_of (part_of part.old)) }
    requires junctions { part.old.junctions ≡ junction_count sim.old.project }
    requires room { search.old ≡ junction_count sim.old.project }
    requires creates { IsTrue (D.may_create cert.now) }
    ensures cause { HasCause result (D.counts desk.old) (D.counts desk.new) }
    ensures answers { AnswersRunNaming sim.old.project (names_of (part_of part.old)) sim.old.settings cert.now result
        (seen D.files D.written D.printed desk.old) (seen D.files D.written D.printed desk.new) }
    ensures others { ChangesOnly cert.now
        (seen D.files D.written D.printed desk.old) (seen D.files D.written D.printed desk.new) }
    ensures opens { OpensCert result (D.openings desk.old) (D.openings desk.new) }
{
    match Gradient::open(alloc, sim.net()) {
        Ok(mut finder) => put_run(sim, &mut finder, search, part, cert, desk),
        Err(_) => Status::OutOfMemory,
    }
}

/// Takes room for the search of the links' vectors, and puts that run out.
fn run_by_search<D: Desk>(
    alloc: Global,
    sim: &mut Sim,
    part: &mut FlowPart,
    cert: &str,
    desk: &mut D,
) -> Status
    requires start { standing_of sim.old ≡ initial_standing sim.old.project }
    requires named { MayBeNamed sim.old.project (names_of (part_of part.old)) }
    requires junctions { part.old.junctions ≡ junction_count sim.old.project }
    requires creates { IsTrue (D.may_create cert.now) }
    ensures cause { HasCause result (D.counts desk.old) (D.counts desk.new) }
    ensures answers { AnswersRunNaming sim.old.project (names_of (part_of part.old)) sim.old.settings cert.now result
        (seen D.files D.written D.printed desk.old) (seen D.files D.written D.printed desk.new) }
    ensures others { ChangesOnly cert.now
        (seen D.files D.written D.printed desk.old) (seen D.files D.written D.printed desk.new) }
    ensures opens { OpensCert result (D.openings desk.old) (D.openings desk.new) }
{
    let junctions = sim.project().junctions.len() as u32;
    match FlowSearch::open(alloc, sim.net(), junctions) {
        Ok(mut search) => run_by_gradient(alloc, sim, &mut search, part, cert, desk),
        Err(_) => Status::OutOfMemory,
    }
}

/// Takes room for the vectors of the links of these numbers, and puts a run out with their flows.
fn run_naming_numbers<D: Desk>(
    alloc: Global,
    sim: &mut Sim,
    links: &[u32],
    cert: &str,
    desk: &mut D,
) -> Status
    requires start { standing_of sim.old ≡ initial_standing sim.old.project }
    requires named { MayBeNamed sim.old.project links.now }
    requires creates { IsTrue (D.may_create cert.now) }
    ensures cause { HasCause result (D.counts desk.old) (D.counts desk.new) }
    ensures answers { AnswersRunNaming sim.old.project links.now sim.old.settings cert.now result
        (seen D.files D.written D.printed desk.old) (seen D.files D.written D.printed desk.new) }
    ensures others { ChangesOnly cert.now
        (seen D.files D.written D.printed desk.old) (seen D.files D.written D.printed desk.new) }
    ensures opens { OpensCert result (D.openings desk.old) (D.openings desk.new) }
{
    let junctions = sim.project().junctions.len() as u32;
    match FlowPart::open(alloc, junctions) {
        Ok(mut part) => {
            part.name(links);
            run_by_search(alloc, sim, &mut part, cert, desk)
        }
        Err(_) => Status::OutOfMemory,
    }
}

/// Opens a run of a network, puts it out with the flows of the links of these numbers, and closes it. All memory is
/// taken before CERT is created.
pub(crate) fn run_network<D: Desk>(
    alloc: Global,
    project: Project,
    links: &[u32],
    settings: Settings,
    cert: &str,
    desk: &mut D,
) -> Status
    requires sound { IsSound project }
    requires named { MayBeNamed project links.now }
    requires creates { IsTrue (D.may_create cert.now) }
    ensures cause { HasCause result (D.counts desk.old) (D.counts desk.new) }
    ensures answers { AnswersRunNaming project links.now settings cert.now result
        (seen D.files D.written D.printed desk.old) (seen D.files D.written D.printed desk.new) }
    ensures others { ChangesOnly cert.now
        (seen D.files D.written D.printed desk.old) (seen D.files D.written D.printed desk.new) }
    ensures opens { OpensCert result (D.openings desk.old) (D.openings desk.new) }
{
    match Sim::open(alloc, project, settings) {
        Ok(mut sim) => {
            let status = run_naming_numbers(alloc, &mut sim, links, cert, desk);
            sim.close();
            status
        }
        Err(_) => Status::OutOfMemory,
    }
}
