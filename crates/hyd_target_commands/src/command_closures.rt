//! The command `closures`: which junctions keep a target pressure while each pipe is shut alone.

ghost use Rattle.std.specs.Prelude.{◌≡◌, ◌≢◌, ℕ, List, IsTrue, IfErr, OnOk, OnErr};
ghost use Rattle.hyd_io.specs.declared.output.Channel.TheVariants.{Report};
ghost use Rattle.hyd_io.specs.Output.{HasOutCause};
ghost use Rattle.hyd_io.specs.DeskBytes.{IsTold};
ghost use Rattle.hyd_net.specs.Sound.{IsSound};
ghost use Rattle.hyd_net.specs.declared.refusal_cause.Cause.{Cause};
ghost use Rattle.hyd_spec_certificates.specs.Valid.{DemandsAreInRange};
ghost use Rattle.hyd_spec_input.specs.Faults.{IsFault, HasNoFault};
ghost use Rattle.hyd_spec_pressure_targets.specs.PromisesOfTargets.{FindsClosures, ClosuresBreakOff};
ghost use Rattle.hyd_targets.specs.Inquiries.{IsOpen, target_for};
ghost use Rattle.hyd_command_words.specs.CommandView.{closures_seen};
ghost use Rattle.hyd_command_answers.specs.DeskContents.{seen, OnlyPrintedSome};
ghost use Rattle.hyd_command_answers.specs.FaultsAndRefusals.{HasCause, AnswersRefused};
ghost use Rattle.hyd_command_answers.specs.declared.status.Status.TheVariants.{Usage};
ghost use Rattle.hyd_target_commands.specs.PrintedTexts.{Prints};
ghost use Rattle.hyd_target_commands.specs.BracketAnswers.{target_in};
ghost use Rattle.hyd_target_commands.specs.ClosuresAnswers.{AnswersClosures, AnswersClosuresText};
ghost use Rattle.hyd_target_commands.specs.CommandsOnTargets.{LeavesNet, OpensNet};

use crate::printed_demand::stop_by_demand;
use hyd_command_answers::{Status, Unread, fault_status, read_network, refuse_text};
use hyd_command_words::ClosuresWords;
use hyd_io::{Channel, Desk, OutFault, Pen};
use hyd_net::Project;
use hyd_targets::{Inquiry, put_closures};
use std::alloc::Global;

/// Shuts each pipe alone in the first period, and prints the lines of the closures.
fn print_closures<D: Desk>(
    project: &Project,
    inquiry: &mut Inquiry,
    rounds: u32,
    desk: &mut D,
) -> Result<(), OutFault>
    requires sound { IsSound project.now }
    requires open { IsOpen project.now inquiry.old }
    requires in_range { DemandsAreInRange project.now 0 }
    ensures whole { OnOk result (Prints (FindsClosures project.now (target_for project.now inquiry.old) rounds)
        (seen D.files D.written D.printed desk.old) (seen D.files D.written D.printed desk.new)) }
    ensures cut_off { OnErr result (Prints (ClosuresBreakOff project.now (target_for project.now inquiry.old) rounds)
        (seen D.files D.written D.printed desk.old) (seen D.files D.written D.printed desk.new)) }
    ensures cause { IfErr result (λ fault. HasOutCause Report fault (D.counts desk.old) (D.counts desk.new)) }
    ensures steady { OnOk result (D.counts desk.new ≡ D.counts desk.old) }
    ensures openings_stay { D.openings desk.new ≡ D.openings desk.old }
{
    let mut pen = Pen::new(Channel::Report);
    put_closures(project, inquiry, rounds, &mut pen, desk)?;
    pen.flush(desk)
}

/// Prints these lines, and answers so, or by the fault that broke them off.
fn answer_closures<D: Desk>(
    project: &Project,
    inquiry: &mut Inquiry,
    rounds: u32,
    desk: &mut D,
) -> Status
    requires sound { IsSound project.now }
    requires open { IsOpen project.now inquiry.old }
    requires in_range { DemandsAreInRange project.now 0 }
    ensures cause { HasCause result (D.counts desk.old) (D.counts desk.new) }
    ensures answers { AnswersClosures project.now (target_for project.now inquiry.old) rounds result
        (seen D.files D.written D.printed desk.old) (seen D.files D.written D.printed desk.new) }
    ensures openings_stay { D.openings desk.new ≡ D.openings desk.old }
{
    match print_closures(project, inquiry, rounds, desk) {
        Ok(()) => Status::Done,
        Err(fault) => fault_status(fault),
    }
}

/// Sets the net to the first period and answers the closures, or stops at a demand out of range.
fn ask_closures<D: Desk>(
    project: &Project,
    inquiry: &mut Inquiry,
    rounds: u32,
    desk: &mut D,
) -> Status
    requires sound { IsSound project.now }
    requires open { IsOpen project.now inquiry.old }
    ensures cause { HasCause result (D.counts desk.old) (D.counts desk.new) }
    ensures answers { AnswersClosures project.now (target_for project.now inquiry.old) rounds result
        (seen D.files D.written D.printed desk.old) (seen D.files D.written D.printed desk.new) }
    ensures openings_stay { D.openings desk.new ≡ D.openings desk.old }
{
    match inquiry.start(project) {
        Ok(()) => answer_closures(project, inquiry, rounds, desk),
        Err(demand) => stop_by_demand(project, demand, desk),
    }
}

/// Takes all memory, and asks for the closures.
fn closures_of<D: Desk>(
    alloc: Global,
    project: &Project,
    words: &ClosuresWords<'_>,
    desk: &mut D,
) -> Status
    requires sound { IsSound project.now }
    ensures cause { HasCause result (D.counts desk.old) (D.counts desk.new) }
    ensures answers { AnswersClosures project.now (target_in project.now words.now.pressure.nano) words.now.rounds
        result (seen D.files D.written D.printed desk.old) (seen D.files D.written D.printed desk.new) }
    ensures openings_stay { D.openings desk.new ≡ D.openings desk.old }
{
    match Inquiry::open(alloc, project, words.pressure) {
        Ok(mut inquiry) => ask_closures(project, &mut inquiry, words.rounds, desk),
        Err(_) => Status::OutOfMemory,
    }
}

/// Shuts each pipe of a network that was read, which isn't needed any more, and prints the lines of the closures; or
/// stops at a demand out of range.
///
/// - `Done`, `Demand`: which of these were printed.
/// - `OutOfMemory`: nothing was printed.
/// - `WriteFault`, `Stalled`: a call on the desk failed or took nothing.
pub fn closures_in<D: Desk>(
    alloc: Global,
    project: Project,
    words: &ClosuresWords<'_>,
    desk: &mut D,
) -> Status
    requires sound { IsSound project }
    ensures cause { HasCause result (D.counts desk.old) (D.counts desk.new) }
    ensures answers { AnswersClosures project (target_in project words.now.pressure.nano) words.now.rounds
        result (seen D.files D.written D.printed desk.old) (seen D.files D.written D.printed desk.new) }
    ensures openings_stay { D.openings desk.new ≡ D.openings desk.old }
{
    closures_of(alloc, &project, words, desk)
}

/// Reads NET, shuts each of its pipes alone in the first period, and prints `SHUT id` of each, then `JUNCTION id WORD`
/// of each junction whose pressure isn't shown to stay above the target, and `DONE n` behind all.
///
/// - `Done`: these lines were printed.
/// - `InputRefused`: the text has a fault.
/// - `Demand`: a demand of the first period is out of range, which is printed.
/// - `OutOfMemory`: nothing was printed.
/// - `ReadFault`, `WriteFault`, `Stalled`: a call on the desk failed or took nothing.
pub fn close_pipes<D: Desk>(alloc: Global, words: &ClosuresWords<'_>, desk: &mut D) -> Status
    requires opens { IsTrue (D.may_open words.now.net.now) }
    ensures cause { HasCause result (D.counts desk.old) (D.counts desk.new) }
    ensures leaves { LeavesNet result
        (seen D.files D.written D.printed desk.old) (seen D.files D.written D.printed desk.new) }
    ensures never_usage { result ≢ Usage }
    ensures refused { (text : List ℕ) (line : ℕ) (why : Cause) → IsTold (D.files desk.old) words.now.net.now text
        → IsFault text line why → AnswersRefused line why result
        (seen D.files D.written D.printed desk.old) (seen D.files D.written D.printed desk.new) }
    ensures closes { (text : List ℕ) → IsTold (D.files desk.old) words.now.net.now text → HasNoFault text
        → AnswersClosuresText text (closures_seen words.now) result
        (seen D.files D.written D.printed desk.old) (seen D.files D.written D.printed desk.new) }
    ensures only_prints { OnlyPrintedSome
        (seen D.files D.written D.printed desk.old) (seen D.files D.written D.printed desk.new) }
    ensures once { OpensNet result (D.openings desk.old) (D.openings desk.new) }
{
    match read_network(alloc, words.net, desk) {
        Ok(project) => closures_in(alloc, project, words, desk),
        Err(Unread::Fault(fault)) => refuse_text(fault.line, fault.cause, desk),
        Err(Unread::Ended(status)) => status,
    }
}
