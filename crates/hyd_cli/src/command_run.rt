//! The command `run`: a network is run, and its certificate and report are put out.

ghost use Rattle.std.specs.Prelude.{◌≡◌, ◌≢◌, ℕ, List, Some, IsTrue};
ghost use Rattle.hyd_io.specs.DeskBytes.{IsTold};
ghost use Rattle.hyd_net.specs.declared.refusal_cause.Cause.{Cause};
ghost use Rattle.hyd_spec_input.specs.Faults.{IsFault, HasNoFault};
ghost use Rattle.hyd_spec_certificates.specs.RecordAndStanding.{initial_standing};
ghost use Rattle.hyd_sim.specs.RunView.{standing_of};
ghost use Rattle.hyd_command_answers.specs.DeskContents.{seen, ChangesOnly};
ghost use Rattle.hyd_command_answers.specs.FaultsAndRefusals.{HasCause, AnswersRefused};
ghost use Rattle.hyd_command_words.specs.CommandGrammar.{run};
ghost use Rattle.hyd_command_words.specs.CommandView.{run_seen};
ghost use Rattle.hyd_cli.specs.Answers.{LeavesRun, Leaves};
ghost use Rattle.hyd_cli.specs.Commands.{AnswersPlainOrder, DoesRun};
ghost use Rattle.hyd_command_answers.specs.OpeningsOfRuns.{OpensCert, OpensOnce};
ghost use Rattle.hyd_command_answers.specs.WrittenCertificates.{Holds};
ghost use Rattle.hyd_cli.specs.RunAnswers.{AnswersRun, AnswersText};
ghost use Rattle.hyd_command_answers.specs.declared.status.Status.TheVariants.{Usage};

use crate::run_settings::{open_settings_of, settings_of};
use crate::task_with_network::{Task, do_with_network};
use hyd_command_answers::{Status, Unread, fault_status, read_network, refuse_text};
use hyd_command_words::RunWords;
use hyd_finders::{Finder, Gradient};
use hyd_io::{Channel, Desk, Pen};
use hyd_open_command::{run_naming_links, run_with_slack, say_end, status_of_end};
use hyd_run::run;
use hyd_sim::{Settings, Sim};
use std::alloc::Global;

/// Creates CERT, and puts a run out, the certificate into it and the report on standard output.
fn put_run<D: Desk, F: Finder>(sim: &mut Sim, finder: &mut F, cert: &str, desk: &mut D) -> Status
    requires start { standing_of sim.old ≡ initial_standing sim.old.project }
    requires creates { IsTrue (D.may_create cert.now) }
    ensures cause { HasCause result (D.counts desk.old) (D.counts desk.new) }
    ensures answers { AnswersRun sim.old.project sim.old.settings cert.now result
        (seen D.files D.written D.printed desk.old) (seen D.files D.written D.printed desk.new) }
    ensures others { ChangesOnly cert.now
        (seen D.files D.written D.printed desk.old) (seen D.files D.written D.printed desk.new) }
    ensures opens { OpensCert result (D.openings desk.old) (D.openings desk.new) }
{
    if desk.create(cert).is_err() {
        return Status::WriteFault;
    }
    let mut certificate = Pen::new(Channel::Cert);
    let mut report = Pen::new(Channel::Report);
    match run(sim, finder, &mut certificate, &mut report, desk) {
        Ok(end) => {
            say_end(sim, end, desk);
            status_of_end(end)
        }
        Err(fault) => fault_status(fault),
    }
}

/// Opens the gradient method for a run at its start, and puts the run out.
pub(crate) fn run_by_gradient<D: Desk>(
    alloc: Global,
    sim: &mut Sim,
    cert: &str,
    desk: &mut D,
) -> Status
    requires start { standing_of sim.old ≡ initial_standing sim.old.project }
    requires creates { IsTrue (D.may_create cert.now) }
    ensures cause { HasCause result (D.counts desk.old) (D.counts desk.new) }
    ensures answers { AnswersRun sim.old.project sim.old.settings cert.now result
        (seen D.files D.written D.printed desk.old) (seen D.files D.written D.printed desk.new) }
    ensures others { ChangesOnly cert.now
        (seen D.files D.written D.printed desk.old) (seen D.files D.written D.printed desk.new) }
    ensures opens { OpensCert result (D.openings desk.old) (D.openings desk.new) }
{
    match Gradient::open(alloc, sim.net()) {
        Ok(mut finder) => put_run(sim, &mut finder, cert, desk),
        Err(_) => Status::OutOfMemory,
    }
}

/// Reads NET, runs its network, and writes CERT and prints the report.
fn run_files<D: Desk>(
    alloc: Global,
    net: &str,
    cert: &str,
    settings: Settings,
    desk: &mut D,
) -> Status
    requires opens { IsTrue (D.may_open net.now) }
    requires creates { IsTrue (D.may_create cert.now) }
    ensures cause { HasCause result (D.counts desk.old) (D.counts desk.new) }
    ensures leaves { LeavesRun result
        (seen D.files D.written D.printed desk.old) (seen D.files D.written D.printed desk.new) }
    ensures never_usage { result ≢ Usage }
    ensures refused { (text : List ℕ) (line : ℕ) (why : Cause) → IsTold (D.files desk.old) net.now text
        → IsFault text line why → AnswersRefused line why result
        (seen D.files D.written D.printed desk.old) (seen D.files D.written D.printed desk.new) }
    ensures run { (text : List ℕ) → IsTold (D.files desk.old) net.now text → HasNoFault text
        → AnswersText text settings cert.now result
        (seen D.files D.written D.printed desk.old) (seen D.files D.written D.printed desk.new) }
    ensures holds { Holds result cert.now
        (seen D.files D.written D.printed desk.old) (seen D.files D.written D.printed desk.new) }
    ensures others { ChangesOnly cert.now
        (seen D.files D.written D.printed desk.old) (seen D.files D.written D.printed desk.new) }
    ensures once { OpensOnce result (D.openings desk.old) (D.openings desk.new) }
{
    match read_network(alloc, net, desk) {
        Ok(project) => do_with_network(alloc, project, Task::Run { cert, settings }, desk),
        Err(Unread::Fault(fault)) => refuse_text(fault.line, fault.cause, desk),
        Err(Unread::Ended(status)) => status,
    }
}

/// The command `run` without flows of links: where no end of a period may be open, or where one may.
fn run_without_flows<D: Desk>(alloc: Global, words: &RunWords<'_>, desk: &mut D) -> Status
    requires opens { IsTrue (D.may_open words.now.files.net.now) }
    requires creates { IsTrue (D.may_create words.now.files.cert.now) }
    ensures cause { HasCause result (D.counts desk.old) (D.counts desk.new) }
    ensures leaves { LeavesRun result
        (seen D.files D.written D.printed desk.old) (seen D.files D.written D.printed desk.new) }
    ensures never_usage { result ≢ Usage }
    ensures refused { (text : List ℕ) (line : ℕ) (why : Cause) → IsTold (D.files desk.old) words.now.files.net.now text
        → IsFault text line why → AnswersRefused line why result
        (seen D.files D.written D.printed desk.old) (seen D.files D.written D.printed desk.new) }
    ensures run { (text : List ℕ) → IsTold (D.files desk.old) words.now.files.net.now text → HasNoFault text
        → AnswersPlainOrder text (run_seen words.now) words.now.slack result
        (seen D.files D.written D.printed desk.old) (seen D.files D.written D.printed desk.new) }
    ensures holds { Holds result words.now.files.cert.now
        (seen D.files D.written D.printed desk.old) (seen D.files D.written D.printed desk.new) }
    ensures others { ChangesOnly words.now.files.cert.now
        (seen D.files D.written D.printed desk.old) (seen D.files D.written D.printed desk.new) }
    ensures once { OpensOnce result (D.openings desk.old) (D.openings desk.new) }
{
    let files = words.files;
    if words.slack == 0 {
        return run_files(alloc, files.net, files.cert, settings_of(words), desk);
    }
    run_with_slack(alloc, files.net, files.cert, open_settings_of(words), desk)
}

/// The command `run`, with or without the flows of links.
pub(crate) fn run_words<D: Desk>(alloc: Global, words: &RunWords<'_>, desk: &mut D) -> Status
    requires opens { IsTrue (D.may_open words.now.files.net.now) }
    requires creates { IsTrue (D.may_create words.now.files.cert.now) }
    ensures cause { HasCause result (D.counts desk.old) (D.counts desk.new) }
    ensures leaves { Leaves (Some (run (run_seen words.now))) result
        (seen D.files D.written D.printed desk.old) (seen D.files D.written D.printed desk.new) }
    ensures never_usage { result ≢ Usage }
    ensures does { DoesRun (run_seen words.now) result
        (seen D.files D.written D.printed desk.old) (seen D.files D.written D.printed desk.new)
        (D.openings desk.old) (D.openings desk.new) }
{
    if words.flows.is_empty() {
        return run_without_flows(alloc, words, desk);
    }
    let files = words.files;
    let settings = settings_of(words);
    run_naming_links(alloc, files.net, files.cert, &words.flows, settings, desk)
}
