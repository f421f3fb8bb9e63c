//! A run with a slack, from the memory that it takes to its last line.

ghost use Rattle.std.specs.Prelude.{◌≡◌, IsTrue};
ghost use Rattle.hyd_net.specs.Sound.{IsSound};
ghost use Rattle.hyd_spec_open_ends.specs.OpenStandings.{initial_open_standing};
ghost use Rattle.hyd_open_run.specs.PeriodsOfOpenRuns.{standing_of};
ghost use Rattle.hyd_open_run.specs.PeriodsOfOpenRuns.{asked_of};
ghost use Rattle.hyd_command_answers.specs.DeskContents.{seen, ChangesOnly};
ghost use Rattle.hyd_command_answers.specs.FaultsAndRefusals.{HasCause};
ghost use Rattle.hyd_command_answers.specs.OpeningsOfRuns.{OpensCert};
ghost use Rattle.hyd_open_command.specs.OpenAnswers.{AnswersRunOpenly};

use crate::run_ends::say_end;
use hyd_command_answers::{Status, fault_status};
use hyd_finders::{Finder, Gradient};
use hyd_io::{Channel, Desk, Pen};
use hyd_naming_command::status_of_end;
use hyd_net::Project;
use hyd_open_run::{OpenSettings, OpenSim, run_openly};
use std::alloc::Global;

/// Creates CERT, and puts a run out, the certificate into it and the report on standard output.
fn put_run<D: Desk, F: Finder>(
    sim: &mut OpenSim,
    finder: &mut F,
    cert: &str,
    desk: &mut D,
) -> Status
    requires start { standing_of sim.old ≡ initial_open_standing sim.old.project }
    requires creates { IsTrue (D.may_create cert.now) }
    ensures cause { HasCause result (D.counts desk.old) (D.counts desk.new) }
    ensures answers { AnswersRunOpenly sim.old.project (asked_of sim.old.settings) cert.now result
        (seen D.files D.written D.printed desk.old) (seen D.files D.written D.printed desk.new) }
    ensures others { ChangesOnly cert.now
        (seen D.files D.written D.printed desk.old) (seen D.files D.written D.printed desk.new) }
    ensures opens { OpensCert result (D.openings desk.old) (D.openings desk.new) }
{
    if desk.create(cert).is_err() {
        return Status::WriteFault;
    }
    let mut certificate = Pen::new(Channel::Cert);
    let mut report = Pen::new(Channel::Report);
    match run_openly(sim, finder, &mut certificate, &mut report, desk) {
        Ok(end) => {
            say_end(sim, end, desk);
            status_of_end(end)
        }
        Err(fault) => fault_status(fault),
    }
}

/// Opens the gradient method for a run at its start, and puts the run out.
fn run_by_gradient<D: Desk>(alloc: Global, sim: &mut OpenSim, cert: &str, desk: &mut D) -> Status
    requires start { standing_of sim.old ≡ initial_open_standing sim.old.project }
    requires creates { IsTrue (D.may_create cert.now) }
    ensures cause { HasCause result (D.counts desk.old) (D.counts desk.new) }
    ensures answers { AnswersRunOpenly sim.old.project (asked_of sim.old.settings) cert.now result
        (seen D.files D.written D.printed desk.old) (seen D.files D.written D.printed desk.new) }
    ensures others { ChangesOnly cert.now
        (seen D.files D.written D.printed desk.old) (seen D.files D.written D.printed desk.new) }
    ensures opens { OpensCert result (D.openings desk.old) (D.openings desk.new) }
{
    match Gradient::open(alloc, sim.net()) {
        Ok(mut finder) => put_run(sim, &mut finder, cert, desk),
        Err(_) => Status::OutOfMemory,
    }
}

/// Opens a run of a network, puts it out, and closes it. All memory is taken before CERT is created.
pub fn run_network<D: Desk>(
    alloc: Global,
    project: Project,
    settings: OpenSettings,
    cert: &str,
    desk: &mut D,
) -> Status
    requires sound { IsSound project }
    requires creates { IsTrue (D.may_create cert.now) }
    ensures cause { HasCause result (D.counts desk.old) (D.counts desk.new) }
    ensures answers { AnswersRunOpenly project (asked_of settings) cert.now result
        (seen D.files D.written D.printed desk.old) (seen D.files D.written D.printed desk.new) }
    ensures others { ChangesOnly cert.now
        (seen D.files D.written D.printed desk.old) (seen D.files D.written D.printed desk.new) }
    ensures opens { OpensCert result (D.openings desk.old) (D.openings desk.new) }
{
    match OpenSim::open(alloc, project, settings) {
        Ok(mut sim) => {
            let status = run_by_gradient(alloc, &mut sim, cert, desk);
            sim.close();
            status
        }
        Err(_) => Status::OutOfMemory,
    }
}
