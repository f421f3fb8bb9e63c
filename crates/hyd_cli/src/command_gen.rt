//! The command `gen`: a network is made, written and run.

ghost use Rattle.std.specs.Prelude.{◌≡◌, ◌≢◌, ◌⊎◌, ℕ, false, Some, IsTrue, IfOk, IfErr, OnOk, OnErr};
ghost use Rattle.hyd_io.specs.declared.output.Channel.TheVariants.{Cert};
ghost use Rattle.hyd_io.specs.DeskCounts.{with_created};
ghost use Rattle.hyd_io.specs.Output.{HasOutCause};
ghost use Rattle.hyd_io.specs.DeskBytes.{append_known, PutOut};
ghost use Rattle.hyd_net.specs.declared.refusal_cause.Cause.{Cause};
ghost use Rattle.hyd_spec_certificates.specs.RecordAndStanding.{initial_standing};
ghost use Rattle.hyd_spec_input.specs.Faults.{IsFault, HasNoFault};
ghost use Rattle.hyd_sim.specs.RunView.{standing_of};
ghost use Rattle.hyd_run.specs.Pens.{told, OneRose, LeavesRest};
ghost use Rattle.hyd_run.specs.Runs.{outcome_of};
ghost use Rattle.hyd_command_words.specs.CommandGrammar.{GenOrder, gen};
ghost use Rattle.hyd_command_words.specs.CommandView.{files_seen, gen_seen};
ghost use Rattle.hyd_command_answers.specs.DeskContents.{seen, IsUntouched, ChangesOnly};
ghost use Rattle.hyd_command_answers.specs.FaultsAndRefusals.{HasCause, AnswersRefused};
ghost use Rattle.hyd_cli.specs.Answers.{Leaves};
ghost use Rattle.hyd_cli.specs.GenAnswers.{text_of, usual_settings, TextWritten, TextCutShort, Generated};
ghost use Rattle.hyd_cli.specs.GenAnswers.{GenBreaksOff, AnswersGenerated, AnswersGen, ChangesBoth, CreatesBoth};
ghost use Rattle.hyd_cli.specs.GenAnswers.{KeepsCert, KeepsNet};
ghost use Rattle.hyd_command_answers.specs.Statuses.{status_of_outcome};
ghost use Rattle.hyd_command_answers.specs.declared.status.Status.TheVariants.{Usage};

use crate::task_with_network::{Task, do_with_network};
use hyd_command_answers::{Status, Unread, fault_status, network_told, refuse_text};
use hyd_command_words::{Files, GenWords};
use hyd_finders::{Finder, Gradient};
use hyd_gen::generate;
use hyd_io::{Channel, Desk, OutFault, Pen};
use hyd_open_command::{say_end, status_of_end};
use hyd_run::RunEnd;
use hyd_sim::Sim;
use hyd_summarised_run::run_summed;
use std::alloc::Global;

/// Writes the text into the file created last.
fn put_text<D: Desk>(text: &[u8], desk: &mut D) -> Result<(), OutFault>
    requires { IsTrue (D.ready desk.old) }
    ensures whole { OnOk result (D.written desk.new ≡ append_known (D.written desk.old) text.now) }
    ensures front { OnErr result (PutOut (D.written desk.old) (D.written desk.new) text.now) }
    ensures cause { IfErr result (λ fault. HasOutCause Cert fault (D.counts desk.old) (D.counts desk.new)) }
    ensures steady { OnOk result (D.counts desk.new ≡ D.counts desk.old) }
    ensures printed_stays { D.printed desk.new ≡ D.printed desk.old }
    ensures leaves { LeavesRest
        (told D.files D.rest D.written D.printed D.target D.ready D.counts D.openings desk.old)
        (told D.files D.rest D.written D.printed D.target D.ready D.counts D.openings desk.new) }
{
    let mut pen = Pen::new(Channel::Cert);
    pen.put(desk, text)?;
    pen.flush(desk)
}

/// Creates NET and writes the text into it.
fn write_text<D: Desk>(net: &str, text: &[u8], desk: &mut D) -> Result<(), OutFault>
    requires { IsTrue (D.may_create net.now) }
    ensures whole { OnOk result (TextWritten text.now net.now
        (seen D.files D.written D.printed desk.old) (seen D.files D.written D.printed desk.new)) }
    ensures cut_off { OnErr result ((IsUntouched
        (seen D.files D.written D.printed desk.old) (seen D.files D.written D.printed desk.new)
        × (D.ready desk.new ≡ false))
        ⊎ TextCutShort text.now net.now
        (seen D.files D.written D.printed desk.old) (seen D.files D.written D.printed desk.new)) }
    ensures cause { IfErr result (λ fault. HasOutCause Cert fault (D.counts desk.old) (D.counts desk.new)) }
    ensures steady { OnOk result (D.counts desk.new ≡ D.counts desk.old) }
    ensures others { ChangesOnly net.now
        (seen D.files D.written D.printed desk.old) (seen D.files D.written D.printed desk.new) }
    ensures creates { D.openings desk.new ≡ with_created (D.openings desk.old) }
{
    if desk.create(net).is_err() {
        return Err(OutFault::Fault);
    }
    put_text(text, desk)
}

/// Writes NET, and then runs its network: the certificate goes to CERT, and the summary is printed.
fn put_generated<D: Desk, F: Finder>(
    sim: &mut Sim,
    finder: &mut F,
    text: &[u8],
    files: Files<'_>,
    desk: &mut D,
) -> Result<RunEnd, OutFault>
    requires start { standing_of sim.old ≡ initial_standing sim.old.project }
    requires usual { sim.old.settings ≡ usual_settings }
    requires creates_net { IsTrue (D.may_create files.net.now) }
    requires creates_cert { IsTrue (D.may_create files.cert.now) }
    requires apart { files.net.now ≢ files.cert.now }
    ensures whole { IfOk result (λ end. Generated sim.old.project text.now (files_seen files.entry)
        (status_of_outcome (outcome_of end))
        (seen D.files D.written D.printed desk.old) (seen D.files D.written D.printed desk.new)) }
    ensures broken_off { OnErr result (GenBreaksOff sim.old.project text.now (files_seen files.entry)
        (seen D.files D.written D.printed desk.old) (seen D.files D.written D.printed desk.new)
        (D.openings desk.old) (D.openings desk.new) (D.ready desk.new)) }
    ensures cause { IfErr result (λ fault. OneRose fault (D.counts desk.old) (D.counts desk.new)) }
    ensures steady { OnOk result (D.counts desk.new ≡ D.counts desk.old) }
    ensures others { ChangesBoth (files_seen files.entry)
        (seen D.files D.written D.printed desk.old) (seen D.files D.written D.printed desk.new) }
    ensures creates { OnOk result (D.openings desk.new ≡ with_created (with_created (D.openings desk.old))) }
    ensures creates_once { OnErr result ((D.openings desk.new ≡ with_created (D.openings desk.old))
        ⊎ (D.openings desk.new ≡ with_created (with_created (D.openings desk.old)))) }
    ensures keeps_cert { KeepsCert text.now (files_seen files.entry)
        (seen D.files D.written D.printed desk.old) (seen D.files D.written D.printed desk.new)
        (D.openings desk.old) (D.openings desk.new) }
    ensures keeps_net { KeepsNet (files_seen files.entry)
        (seen D.files D.written D.printed desk.old) (seen D.files D.written D.printed desk.new)
        (D.openings desk.old) (D.openings desk.new) }
{
    write_text(files.net, text, desk)?;
    if desk.create(files.cert).is_err() {
        return Err(OutFault::Fault);
    }
    let mut certificate = Pen::new(Channel::Cert);
    let mut report = Pen::new(Channel::Report);
    run_summed(sim, finder, &mut certificate, &mut report, desk)
}

/// Writes NET and runs its network, and answers how that ended.
fn run_generated<D: Desk, F: Finder>(
    sim: &mut Sim,
    finder: &mut F,
    text: &[u8],
    files: Files<'_>,
    desk: &mut D,
) -> Status
    requires start { standing_of sim.old ≡ initial_standing sim.old.project }
    requires usual { sim.old.settings ≡ usual_settings }
    requires creates_net { IsTrue (D.may_create files.net.now) }
    requires creates_cert { IsTrue (D.may_create files.cert.now) }
    requires apart { files.net.now ≢ files.cert.now }
    ensures cause { HasCause result (D.counts desk.old) (D.counts desk.new) }
    ensures answers { AnswersGenerated sim.old.project text.now (files_seen files.entry) result
        (seen D.files D.written D.printed desk.old) (seen D.files D.written D.printed desk.new)
        (D.openings desk.old) (D.openings desk.new) (D.ready desk.new) }
    ensures others { ChangesBoth (files_seen files.entry)
        (seen D.files D.written D.printed desk.old) (seen D.files D.written D.printed desk.new) }
    ensures once { CreatesBoth result (D.openings desk.old) (D.openings desk.new) }
    ensures keeps_cert { KeepsCert text.now (files_seen files.entry)
        (seen D.files D.written D.printed desk.old) (seen D.files D.written D.printed desk.new)
        (D.openings desk.old) (D.openings desk.new) }
    ensures keeps_net { KeepsNet (files_seen files.entry)
        (seen D.files D.written D.printed desk.old) (seen D.files D.written D.printed desk.new)
        (D.openings desk.old) (D.openings desk.new) }
{
    match put_generated(sim, finder, text, files, desk) {
        Ok(end) => {
            say_end(sim, end, desk);
            status_of_end(end)
        }
        Err(fault) => fault_status(fault),
    }
}

/// Opens the gradient method for a run at its start, and then writes NET and runs its network.
pub(crate) fn write_and_run<D: Desk>(
    alloc: Global,
    sim: &mut Sim,
    text: &[u8],
    files: Files<'_>,
    desk: &mut D,
) -> Status
    requires start { standing_of sim.old ≡ initial_standing sim.old.project }
    requires usual { sim.old.settings ≡ usual_settings }
    requires creates_net { IsTrue (D.may_create files.net.now) }
    requires creates_cert { IsTrue (D.may_create files.cert.now) }
    requires apart { files.net.now ≢ files.cert.now }
    ensures cause { HasCause result (D.counts desk.old) (D.counts desk.new) }
    ensures answers { AnswersGenerated sim.old.project text.now (files_seen files.entry) result
        (seen D.files D.written D.printed desk.old) (seen D.files D.written D.printed desk.new)
        (D.openings desk.old) (D.openings desk.new) (D.ready desk.new) }
    ensures others { ChangesBoth (files_seen files.entry)
        (seen D.files D.written D.printed desk.old) (seen D.files D.written D.printed desk.new) }
    ensures once { CreatesBoth result (D.openings desk.old) (D.openings desk.new) }
    ensures keeps_cert { KeepsCert text.now (files_seen files.entry)
        (seen D.files D.written D.printed desk.old) (seen D.files D.written D.printed desk.new)
        (D.openings desk.old) (D.openings desk.new) }
    ensures keeps_net { KeepsNet (files_seen files.entry)
        (seen D.files D.written D.printed desk.old) (seen D.files D.written D.printed desk.new)
        (D.openings desk.old) (D.openings desk.new) }
{
    match Gradient::open(alloc, sim.net()) {
        Ok(mut finder) => run_generated(sim, &mut finder, text, files, desk),
        Err(_) => Status::OutOfMemory,
    }
}

/// Reads the text's network, and then writes the text to NET and runs it. A text with a fault is refused as any other.
fn run_text<D: Desk>(alloc: Global, text: &[u8], files: Files<'_>, desk: &mut D) -> Status
    requires creates_net { IsTrue (D.may_create files.net.now) }
    requires creates_cert { IsTrue (D.may_create files.cert.now) }
    requires apart { files.net.now ≢ files.cert.now }
    ensures cause { HasCause result (D.counts desk.old) (D.counts desk.new) }
    ensures leaves { (order : GenOrder) → Leaves (Some (gen order)) result
        (seen D.files D.written D.printed desk.old) (seen D.files D.written D.printed desk.new) }
    ensures never_usage { result ≢ Usage }
    ensures refused { (line : ℕ) (why : Cause) → IsFault text.now line why → AnswersRefused line why result
        (seen D.files D.written D.printed desk.old) (seen D.files D.written D.printed desk.new) }
    ensures answers { HasNoFault text.now → AnswersGen text.now (files_seen files.entry) result
        (seen D.files D.written D.printed desk.old) (seen D.files D.written D.printed desk.new)
        (D.openings desk.old) (D.openings desk.new) (D.ready desk.new) }
    ensures others { ChangesBoth (files_seen files.entry)
        (seen D.files D.written D.printed desk.old) (seen D.files D.written D.printed desk.new) }
    ensures once { CreatesBoth result (D.openings desk.old) (D.openings desk.new) }
    ensures keeps_cert { KeepsCert text.now (files_seen files.entry)
        (seen D.files D.written D.printed desk.old) (seen D.files D.written D.printed desk.new)
        (D.openings desk.old) (D.openings desk.new) }
    ensures keeps_net { KeepsNet (files_seen files.entry)
        (seen D.files D.written D.printed desk.old) (seen D.files D.written D.printed desk.new)
        (D.openings desk.old) (D.openings desk.new) }
{
    match network_told(alloc, files.net, text, desk) {
        Ok(project) => do_with_network(alloc, project, Task::Gen { text, files }, desk),
        Err(Unread::Fault(fault)) => refuse_text(fault.line, fault.cause, desk),
        Err(Unread::Ended(status)) => status,
    }
}

/// Makes the network, writes it to NET, and runs it: its certificate goes to CERT, and a summary is printed. All memory
/// is taken before NET is created.
pub(crate) fn generate_network<D: Desk>(alloc: Global, words: &GenWords<'_>, desk: &mut D) -> Status
    requires creates_net { IsTrue (D.may_create words.now.files.net.now) }
    requires creates_cert { IsTrue (D.may_create words.now.files.cert.now) }
    requires apart { words.now.files.net.now ≢ words.now.files.cert.now }
    ensures cause { HasCause result (D.counts desk.old) (D.counts desk.new) }
    ensures leaves { (order : GenOrder) → Leaves (Some (gen order)) result
        (seen D.files D.written D.printed desk.old) (seen D.files D.written D.printed desk.new) }
    ensures never_usage { result ≢ Usage }
    ensures refused { (line : ℕ) (why : Cause) → IsFault (text_of (gen_seen words.now)) line why
        → AnswersRefused line why result
        (seen D.files D.written D.printed desk.old) (seen D.files D.written D.printed desk.new) }
    ensures answers { HasNoFault (text_of (gen_seen words.now))
        → AnswersGen (text_of (gen_seen words.now)) (gen_seen words.now).files result
        (seen D.files D.written D.printed desk.old) (seen D.files D.written D.printed desk.new)
        (D.openings desk.old) (D.openings desk.new) (D.ready desk.new) }
    ensures others { ChangesBoth (gen_seen words.now).files
        (seen D.files D.written D.printed desk.old) (seen D.files D.written D.printed desk.new) }
    ensures once { CreatesBoth result (D.openings desk.old) (D.openings desk.new) }
    ensures keeps_cert { KeepsCert (text_of (gen_seen words.now)) (gen_seen words.now).files
        (seen D.files D.written D.printed desk.old) (seen D.files D.written D.printed desk.new)
        (D.openings desk.old) (D.openings desk.new) }
    ensures keeps_net { KeepsNet (gen_seen words.now).files
        (seen D.files D.written D.printed desk.old) (seen D.files D.written D.printed desk.new)
        (D.openings desk.old) (D.openings desk.new) }
{
    match generate(alloc, words.seed, words.junctions) {
        Ok(text) => run_text(alloc, &text, words.files, desk),
        Err(_) => Status::OutOfMemory,
    }
}
