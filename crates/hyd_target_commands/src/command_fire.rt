//! The command `fire`: how much may be drawn at a junction with a target pressure there.

ghost use Rattle.std.specs.Prelude.{◌≡◌, ◌≢◌, ◌<◌, ℕ, List, length, IsTrue, IfErr, OnOk, OnErr};
ghost use Rattle.hyd_io.specs.declared.output.Channel.TheVariants.{Report};
ghost use Rattle.hyd_io.specs.Output.{HasOutCause};
ghost use Rattle.hyd_io.specs.DeskBytes.{IsTold};
ghost use Rattle.hyd_net.specs.Sound.{IsSound};
ghost use Rattle.hyd_net.specs.declared.refusal_cause.Cause.{Cause};
ghost use Rattle.hyd_spec_certificates.specs.Valid.{DemandsAreInRange};
ghost use Rattle.hyd_spec_input.specs.Faults.{IsFault, HasNoFault};
ghost use Rattle.hyd_spec_pressure_targets.specs.FirstPeriod.{IsFirstGrid};
ghost use Rattle.hyd_spec_pressure_targets.specs.PromisesOfTargets.{IsJunctionNamed, FindsBracket};
ghost use Rattle.hyd_period_network.specs.NetAsPeriodNetwork.{grid_of};
ghost use Rattle.hyd_targets.specs.Inquiries.{IsOpen, target_for};
ghost use Rattle.hyd_command_words.specs.CommandView.{fire_seen};
ghost use Rattle.hyd_command_answers.specs.DeskContents.{seen, OnlyPrintedSome};
ghost use Rattle.hyd_command_answers.specs.FaultsAndRefusals.{HasCause, AnswersRefused};
ghost use Rattle.hyd_command_answers.specs.declared.status.Status.TheVariants.{Usage};
ghost use Rattle.hyd_target_commands.specs.PrintedTexts.{Prints, PrintsFront};
ghost use Rattle.hyd_target_commands.specs.BracketAnswers.{AnswersFire, AnswersFireText, target_in};
ghost use Rattle.hyd_target_commands.specs.CommandsOnTargets.{LeavesNet, OpensNet};

use crate::junction_names::{junction_named, refuse_name};
use crate::printed_demand::stop_by_demand;
use hyd_command_answers::{Status, Unread, fault_status, read_network, refuse_text};
use hyd_command_words::FireWords;
use hyd_io::{Channel, Desk, OutFault, Pen};
use hyd_net::Project;
use hyd_targets::{Inquiry, put_bracket};
use std::alloc::Global;

/// Finds the bracket of a junction in the first period, to which the net is set, and prints its line.
fn print_bracket<D: Desk>(
    project: &Project,
    inquiry: &mut Inquiry,
    junction: u32,
    rounds: u32,
    desk: &mut D,
) -> Result<(), OutFault>
    requires sound { IsSound project.now }
    requires open { IsOpen project.now inquiry.old }
    requires grid { IsFirstGrid project.now (grid_of inquiry.old.first.net) }
    requires inside { junction < length project.now.junctions.list }
    ensures whole { (name : List ℕ) → IsJunctionNamed project.now name junction
        → OnOk result (Prints (FindsBracket project.now name (target_for project.now inquiry.old) rounds)
        (seen D.files D.written D.printed desk.old) (seen D.files D.written D.printed desk.new)) }
    ensures front { (name : List ℕ) → IsJunctionNamed project.now name junction
        → OnErr result (PrintsFront (FindsBracket project.now name (target_for project.now inquiry.old) rounds)
        (seen D.files D.written D.printed desk.old) (seen D.files D.written D.printed desk.new)) }
    ensures cause { IfErr result (λ fault. HasOutCause Report fault (D.counts desk.old) (D.counts desk.new)) }
    ensures steady { OnOk result (D.counts desk.new ≡ D.counts desk.old) }
    ensures openings_stay { D.openings desk.new ≡ D.openings desk.old }
{
    let mut pen = Pen::new(Channel::Report);
    put_bracket(project, inquiry, junction, rounds, &mut pen, desk)?;
    pen.flush(desk)
}

/// Finds that bracket, prints its line, and answers so, or by the fault that kept it from being printed.
fn answer_bracket<D: Desk>(
    project: &Project,
    inquiry: &mut Inquiry,
    junction: u32,
    rounds: u32,
    desk: &mut D,
) -> Status
    requires sound { IsSound project.now }
    requires open { IsOpen project.now inquiry.old }
    requires grid { IsFirstGrid project.now (grid_of inquiry.old.first.net) }
    requires in_range { DemandsAreInRange project.now 0 }
    requires inside { junction < length project.now.junctions.list }
    ensures cause { HasCause result (D.counts desk.old) (D.counts desk.new) }
    ensures answers { (name : List ℕ) → IsJunctionNamed project.now name junction
        → AnswersFire project.now name (target_for project.now inquiry.old) rounds result
        (seen D.files D.written D.printed desk.old) (seen D.files D.written D.printed desk.new) }
    ensures openings_stay { D.openings desk.new ≡ D.openings desk.old }
{
    match print_bracket(project, inquiry, junction, rounds, desk) {
        Ok(()) => Status::Done,
        Err(fault) => fault_status(fault),
    }
}

/// Sets the net to the first period and answers the bracket of a junction, or stops at a demand out of range.
fn ask_bracket<D: Desk>(
    project: &Project,
    inquiry: &mut Inquiry,
    junction: u32,
    rounds: u32,
    desk: &mut D,
) -> Status
    requires sound { IsSound project.now }
    requires open { IsOpen project.now inquiry.old }
    requires inside { junction < length project.now.junctions.list }
    ensures cause { HasCause result (D.counts desk.old) (D.counts desk.new) }
    ensures answers { (name : List ℕ) → IsJunctionNamed project.now name junction
        → AnswersFire project.now name (target_for project.now inquiry.old) rounds result
        (seen D.files D.written D.printed desk.old) (seen D.files D.written D.printed desk.new) }
    ensures openings_stay { D.openings desk.new ≡ D.openings desk.old }
{
    match inquiry.start(project) {
        Ok(()) => answer_bracket(project, inquiry, junction, rounds, desk),
        Err(demand) => stop_by_demand(project, demand, desk),
    }
}

/// Takes all memory, and asks for the bracket of a junction.
fn bracket_at<D: Desk>(
    alloc: Global,
    project: &Project,
    junction: u32,
    words: &FireWords<'_>,
    desk: &mut D,
) -> Status
    requires sound { IsSound project.now }
    requires inside { junction < length project.now.junctions.list }
    ensures cause { HasCause result (D.counts desk.old) (D.counts desk.new) }
    ensures answers { (name : List ℕ) → IsJunctionNamed project.now name junction
        → AnswersFire project.now name (target_in project.now words.now.pressure.nano) words.now.rounds result
        (seen D.files D.written D.printed desk.old) (seen D.files D.written D.printed desk.new) }
    ensures openings_stay { D.openings desk.new ≡ D.openings desk.old }
{
    match Inquiry::open(alloc, project, words.pressure) {
        Ok(mut inquiry) => ask_bracket(project, &mut inquiry, junction, words.rounds, desk),
        Err(_) => Status::OutOfMemory,
    }
}

/// Looks the junction up, and asks for its bracket, or refuses its name.
fn bracket_of_name<D: Desk>(
    alloc: Global,
    project: &Project,
    words: &FireWords<'_>,
    desk: &mut D,
) -> Status
    requires sound { IsSound project.now }
    ensures cause { HasCause result (D.counts desk.old) (D.counts desk.new) }
    ensures answers { AnswersFire project.now words.now.junction.now
        (target_in project.now words.now.pressure.nano) words.now.rounds result
        (seen D.files D.written D.printed desk.old) (seen D.files D.written D.printed desk.new) }
    ensures openings_stay { D.openings desk.new ≡ D.openings desk.old }
{
    match junction_named(project, words.junction) {
        Some(junction) => bracket_at(alloc, project, junction, words, desk),
        None => refuse_name(words, desk),
    }
}

/// Finds the bracket of a junction of a network that was read, which isn't needed any more, and prints its line; or
/// refuses the junction's name, or stops at a demand out of range.
///
/// - `Done`, `InputRefused`, `Demand`: which of these lines was printed.
/// - `OutOfMemory`: nothing was printed.
/// - `WriteFault`, `Stalled`: a call on the desk failed or took nothing.
pub fn bracket_in<D: Desk>(
    alloc: Global,
    project: Project,
    words: &FireWords<'_>,
    desk: &mut D,
) -> Status
    requires sound { IsSound project }
    ensures cause { HasCause result (D.counts desk.old) (D.counts desk.new) }
    ensures answers { AnswersFire project words.now.junction.now
        (target_in project words.now.pressure.nano) words.now.rounds result
        (seen D.files D.written D.printed desk.old) (seen D.files D.written D.printed desk.new) }
    ensures openings_stay { D.openings desk.new ≡ D.openings desk.old }
{
    bracket_of_name(alloc, &project, words, desk)
}

/// Reads NET, and prints how much may be drawn at the junction beside its demand in the first period, with the target
/// pressure there: the line `FIRE id a b`. With a draw up to a the pressure is above the target, with one from b on it
/// is below.
///
/// - `Done`: that line was printed.
/// - `InputRefused`: the text has a fault, or no junction has the name (then the line says 0, cause 5).
/// - `Demand`: a demand of the first period is out of range, which is printed.
/// - `OutOfMemory`: nothing was printed.
/// - `ReadFault`, `WriteFault`, `Stalled`: a call on the desk failed or took nothing.
pub fn find_bracket<D: Desk>(alloc: Global, words: &FireWords<'_>, desk: &mut D) -> Status
    requires opens { IsTrue (D.may_open words.now.net.now) }
    ensures cause { HasCause result (D.counts desk.old) (D.counts desk.new) }
    ensures leaves { LeavesNet result
        (seen D.files D.written D.printed desk.old) (seen D.files D.written D.printed desk.new) }
    ensures never_usage { result ≢ Usage }
    ensures refused { (text : List ℕ) (line : ℕ) (why : Cause) → IsTold (D.files desk.old) words.now.net.now text
        → IsFault text line why → AnswersRefused line why result
        (seen D.files D.written D.printed desk.old) (seen D.files D.written D.printed desk.new) }
    ensures fires { (text : List ℕ) → IsTold (D.files desk.old) words.now.net.now text → HasNoFault text
        → AnswersFireText text (fire_seen words.now) result
        (seen D.files D.written D.printed desk.old) (seen D.files D.written D.printed desk.new) }
    ensures only_prints { OnlyPrintedSome
        (seen D.files D.written D.printed desk.old) (seen D.files D.written D.printed desk.new) }
    ensures once { OpensNet result (D.openings desk.old) (D.openings desk.new) }
{
    match read_network(alloc, words.net, desk) {
        Ok(project) => bracket_in(alloc, project, words, desk),
        Err(Unread::Fault(fault)) => refuse_text(fault.line, fault.cause, desk),
        Err(Unread::Ended(status)) => status,
    }
}
