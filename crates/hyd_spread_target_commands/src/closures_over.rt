//! The closures of pipes within the spread of a text.

ghost use Rattle.std.specs.Prelude.{◌≡◌, IfErr, OnOk, OnErr};
ghost use Rattle.hyd_io.specs.declared.output.Channel.TheVariants.{Report};
ghost use Rattle.hyd_io.specs.Output.{HasOutCause};
ghost use Rattle.hyd_net.specs.Sound.{IsSound};
ghost use Rattle.hyd_spec_spread_runs.specs.RunsForSpreads.{AreDemandsInRange};
ghost use Rattle.hyd_spec_targets_within.specs.PromisesWithinSpreads.{FindsClosuresWithin, ClosuresWithinBreakOff};
ghost use Rattle.hyd_spread_targets.specs.InquiriesWithin.{IsOpenWithin, spread_for, target_within};
ghost use Rattle.hyd_command_answers.specs.DeskContents.{seen};
ghost use Rattle.hyd_command_answers.specs.FaultsAndRefusals.{HasCause};
ghost use Rattle.hyd_target_commands.specs.BracketAnswers.{target_in};
ghost use Rattle.hyd_target_commands.specs.PrintedTexts.{Prints};
ghost use Rattle.hyd_spread_target_commands.specs.AnswersByTexts.{AnswersWithin};
ghost use Rattle.hyd_spread_target_commands.specs.SpreadClosures.{AnswersClosuresOver};

use crate::demand_over::stop_by_demand;
use crate::opened_inquiry::open_inquiry;
use hyd_command_answers::{Status, fault_status};
use hyd_command_words::SpreadClosuresWords;
use hyd_io::{Channel, Desk, OutFault, Pen};
use hyd_net::Project;
use hyd_spread_files::refuse_spread;
use hyd_spread_rows::SpreadRefused;
use hyd_spread_targets::{SpreadInquiry, put_closures_within};
use std::alloc::Global;

// Shuts each pipe alone in the first period, and prints the lines of the closures.
fn print_closures<D: Desk>(
    project: &Project,
    inquiry: &mut SpreadInquiry,
    rounds: u32,
    desk: &mut D,
) -> Result<(), OutFault>
    requires sound { IsSound project.now }
    requires open { IsOpenWithin project.now inquiry.old }
    requires in_range { AreDemandsInRange project.now (spread_for inquiry.old) 0 }
    ensures whole { OnOk result (Prints (FindsClosuresWithin project.now (spread_for inquiry.old)
        (target_within project.now inquiry.old) rounds)
        (seen D.files D.written D.printed desk.old) (seen D.files D.written D.printed desk.new)) }
    ensures cut_off { OnErr result (Prints (ClosuresWithinBreakOff project.now (spread_for inquiry.old)
        (target_within project.now inquiry.old) rounds)
        (seen D.files D.written D.printed desk.old) (seen D.files D.written D.printed desk.new)) }
    ensures cause { IfErr result (λ fault. HasOutCause Report fault (D.counts desk.old) (D.counts desk.new)) }
    ensures steady { OnOk result (D.counts desk.new ≡ D.counts desk.old) }
    ensures openings_stay { D.openings desk.new ≡ D.openings desk.old }
{
    let mut pen = Pen::new(Channel::Report);
    put_closures_within(project, inquiry, rounds, &mut pen, desk)?;
    pen.flush(desk)
}

// Prints these lines, and answers so, or by the fault that broke them off.
fn answer_closures<D: Desk>(
    project: &Project,
    inquiry: &mut SpreadInquiry,
    rounds: u32,
    desk: &mut D,
) -> Status
    requires sound { IsSound project.now }
    requires open { IsOpenWithin project.now inquiry.old }
    requires in_range { AreDemandsInRange project.now (spread_for inquiry.old) 0 }
    ensures cause { HasCause result (D.counts desk.old) (D.counts desk.new) }
    ensures answers { AnswersClosuresOver project.now (target_within project.now inquiry.old) rounds
        (spread_for inquiry.old) result
        (seen D.files D.written D.printed desk.old) (seen D.files D.written D.printed desk.new) }
    ensures openings_stay { D.openings desk.new ≡ D.openings desk.old }
{
    match print_closures(project, inquiry, rounds, desk) {
        Ok(()) => Status::Done,
        Err(fault) => fault_status(fault),
    }
}

// Sets the nets to the first period and answers the closures, or stops at a demand of which an end is out of range.
fn ask_closures<D: Desk>(
    project: &Project,
    inquiry: &mut SpreadInquiry,
    rounds: u32,
    desk: &mut D,
) -> Status
    requires sound { IsSound project.now }
    requires open { IsOpenWithin project.now inquiry.old }
    ensures cause { HasCause result (D.counts desk.old) (D.counts desk.new) }
    ensures answers { AnswersClosuresOver project.now (target_within project.now inquiry.old) rounds
        (spread_for inquiry.old) result
        (seen D.files D.written D.printed desk.old) (seen D.files D.written D.printed desk.new) }
    ensures openings_stay { D.openings desk.new ≡ D.openings desk.old }
{
    match inquiry.start(project) {
        Ok(()) => answer_closures(project, inquiry, rounds, desk),
        Err(demand) => stop_by_demand(project, demand, desk),
    }
}

/// Takes all memory, and asks for the closures within the spread of a text; or refuses the text with its fault.
pub(crate) fn closures_within<D: Desk>(
    alloc: Global,
    project: &Project,
    text: &[u8],
    words: &SpreadClosuresWords<'_>,
    desk: &mut D,
) -> Status
    requires sound { IsSound project.now }
    ensures cause { HasCause result (D.counts desk.old) (D.counts desk.new) }
    ensures answers { AnswersWithin (AnswersClosuresOver project.now
        (target_in project.now words.now.closures.pressure.nano) words.now.closures.rounds) project.now text.now result
        (seen D.files D.written D.printed desk.old) (seen D.files D.written D.printed desk.new) }
    ensures openings_stay { D.openings desk.new ≡ D.openings desk.old }
{
    match open_inquiry(alloc, project, text, words.closures.pressure) {
        Ok(mut inquiry) => ask_closures(project, &mut inquiry, words.closures.rounds, desk),
        Err(SpreadRefused::OutOfMemory) => Status::OutOfMemory,
        Err(SpreadRefused::Fault(fault)) => refuse_spread(words.spread, text, fault, desk),
    }
}
