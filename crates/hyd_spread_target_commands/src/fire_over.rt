//! The bracket of a junction within the spread of a text.

ghost use Rattle.std.specs.Prelude.{◌≡◌, ◌<◌, ℕ, List, length, IfErr, OnOk, OnErr};
ghost use Rattle.hyd_io.specs.declared.output.Channel.TheVariants.{Report};
ghost use Rattle.hyd_io.specs.Output.{HasOutCause};
ghost use Rattle.hyd_net.specs.Sound.{IsSound};
ghost use Rattle.hyd_spec_pressure_targets.specs.PromisesOfTargets.{IsJunctionNamed};
ghost use Rattle.hyd_spec_spread_runs.specs.RunsForSpreads.{AreDemandsInRange};
ghost use Rattle.hyd_spec_spread_targets.specs.FirstPeriodWithin.{IsFirstPair};
ghost use Rattle.hyd_spec_targets_within.specs.PromisesWithinSpreads.{FindsBracketWithin};
ghost use Rattle.hyd_spread_networks.specs.NetsOfSpreads.{pair_of};
ghost use Rattle.hyd_spread_targets.specs.InquiriesWithin.{IsOpenWithin, spread_for, target_within};
ghost use Rattle.hyd_command_answers.specs.DeskContents.{seen};
ghost use Rattle.hyd_command_answers.specs.FaultsAndRefusals.{HasCause};
ghost use Rattle.hyd_target_commands.specs.BracketAnswers.{target_in};
ghost use Rattle.hyd_target_commands.specs.PrintedTexts.{Prints, PrintsFront};
ghost use Rattle.hyd_spread_target_commands.specs.AnswersByTexts.{AnswersWithin};
ghost use Rattle.hyd_spread_target_commands.specs.SpreadBrackets.{AnswersFireOver};

use crate::demand_over::stop_by_demand;
use crate::opened_inquiry::open_inquiry;
use hyd_command_answers::{Status, fault_status};
use hyd_command_words::{FireWords, SpreadFireWords};
use hyd_io::{Channel, Desk, OutFault, Pen};
use hyd_net::Project;
use hyd_spread_files::refuse_spread;
use hyd_spread_rows::SpreadRefused;
use hyd_spread_targets::{SpreadInquiry, put_bracket_within};
use hyd_target_commands::{junction_named, refuse_name};
use std::alloc::Global;

// Finds the bracket of a junction in the first period, to which the nets are set, and prints its line.
fn print_bracket<D: Desk>(
    project: &Project,
    inquiry: &mut SpreadInquiry,
    junction: u32,
    rounds: u32,
    desk: &mut D,
) -> Result<(), OutFault>
    requires sound { IsSound project.now }
    requires open { IsOpenWithin project.now inquiry.old }
    requires pair { IsFirstPair project.now (spread_for inquiry.old) (pair_of inquiry.old.first.nets) }
    requires inside { junction < length project.now.junctions.list }
    ensures whole { (name : List ℕ) → IsJunctionNamed project.now name junction
        → OnOk result (Prints (FindsBracketWithin project.now (spread_for inquiry.old) name
        (target_within project.now inquiry.old) rounds)
        (seen D.files D.written D.printed desk.old) (seen D.files D.written D.printed desk.new)) }
    ensures front { (name : List ℕ) → IsJunctionNamed project.now name junction
        → OnErr result (PrintsFront (FindsBracketWithin project.now (spread_for inquiry.old) name
        (target_within project.now inquiry.old) rounds)
        (seen D.files D.written D.printed desk.old) (seen D.files D.written D.printed desk.new)) }
    ensures cause { IfErr result (λ fault. HasOutCause Report fault (D.counts desk.old) (D.counts desk.new)) }
    ensures steady { OnOk result (D.counts desk.new ≡ D.counts desk.old) }
    ensures openings_stay { D.openings desk.new ≡ D.openings desk.old }
{
    let mut pen = Pen::new(Channel::Report);
    put_bracket_within(project, inquiry, junction, rounds, &mut pen, desk)?;
    pen.flush(desk)
}

// Finds that bracket, prints its line, and answers so, or by the fault that kept it from being printed.
fn answer_bracket<D: Desk>(
    project: &Project,
    inquiry: &mut SpreadInquiry,
    junction: u32,
    rounds: u32,
    desk: &mut D,
) -> Status
    requires sound { IsSound project.now }
    requires open { IsOpenWithin project.now inquiry.old }
    requires pair { IsFirstPair project.now (spread_for inquiry.old) (pair_of inquiry.old.first.nets) }
    requires in_range { AreDemandsInRange project.now (spread_for inquiry.old) 0 }
    requires inside { junction < length project.now.junctions.list }
    ensures cause { HasCause result (D.counts desk.old) (D.counts desk.new) }
    ensures answers { (name : List ℕ) → IsJunctionNamed project.now name junction
        → AnswersFireOver project.now name (target_within project.now inquiry.old) rounds (spread_for inquiry.old)
        result (seen D.files D.written D.printed desk.old) (seen D.files D.written D.printed desk.new) }
    ensures openings_stay { D.openings desk.new ≡ D.openings desk.old }
{
    match print_bracket(project, inquiry, junction, rounds, desk) {
        Ok(()) => Status::Done,
        Err(fault) => fault_status(fault),
    }
}

// Sets the nets to the first period and answers the bracket of a junction, or stops at a demand of which an end is out
// of range.
fn ask_bracket<D: Desk>(
    project: &Project,
    inquiry: &mut SpreadInquiry,
    junction: u32,
    rounds: u32,
    desk: &mut D,
) -> Status
    requires sound { IsSound project.now }
    requires open { IsOpenWithin project.now inquiry.old }
    requires inside { junction < length project.now.junctions.list }
    ensures cause { HasCause result (D.counts desk.old) (D.counts desk.new) }
    ensures answers { (name : List ℕ) → IsJunctionNamed project.now name junction
        → AnswersFireOver project.now name (target_within project.now inquiry.old) rounds (spread_for inquiry.old)
        result (seen D.files D.written D.printed desk.old) (seen D.files D.written D.printed desk.new) }
    ensures openings_stay { D.openings desk.new ≡ D.openings desk.old }
{
    match inquiry.start(project) {
        Ok(()) => answer_bracket(project, inquiry, junction, rounds, desk),
        Err(demand) => stop_by_demand(project, demand, desk),
    }
}

// Looks the junction up, and asks for its bracket, or refuses its name.
fn bracket_of_name<D: Desk>(
    project: &Project,
    inquiry: &mut SpreadInquiry,
    words: &FireWords<'_>,
    desk: &mut D,
) -> Status
    requires sound { IsSound project.now }
    requires open { IsOpenWithin project.now inquiry.old }
    ensures cause { HasCause result (D.counts desk.old) (D.counts desk.new) }
    ensures answers { AnswersFireOver project.now words.now.junction.now (target_within project.now inquiry.old)
        words.now.rounds (spread_for inquiry.old) result
        (seen D.files D.written D.printed desk.old) (seen D.files D.written D.printed desk.new) }
    ensures openings_stay { D.openings desk.new ≡ D.openings desk.old }
{
    match junction_named(project, words.junction) {
        Some(junction) => ask_bracket(project, inquiry, junction, words.rounds, desk),
        None => refuse_name(words, desk),
    }
}

/// Takes all memory, and asks for the bracket of a junction within the spread of a text; or refuses the text with its
/// fault.
pub(crate) fn bracket_within<D: Desk>(
    alloc: Global,
    project: &Project,
    text: &[u8],
    words: &SpreadFireWords<'_>,
    desk: &mut D,
) -> Status
    requires sound { IsSound project.now }
    ensures cause { HasCause result (D.counts desk.old) (D.counts desk.new) }
    ensures answers { AnswersWithin (AnswersFireOver project.now words.now.fire.junction.now
        (target_in project.now words.now.fire.pressure.nano) words.now.fire.rounds) project.now text.now result
        (seen D.files D.written D.printed desk.old) (seen D.files D.written D.printed desk.new) }
    ensures openings_stay { D.openings desk.new ≡ D.openings desk.old }
{
    match open_inquiry(alloc, project, text, words.fire.pressure) {
        Ok(mut inquiry) => bracket_of_name(project, &mut inquiry, &words.fire, desk),
        Err(SpreadRefused::OutOfMemory) => Status::OutOfMemory,
        Err(SpreadRefused::Fault(fault)) => refuse_spread(words.spread, text, fault, desk),
    }
}
