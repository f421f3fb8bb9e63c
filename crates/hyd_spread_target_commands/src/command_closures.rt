//! The command `closures` for a spread, on files.

ghost use Rattle.std.specs.Prelude.{◌≢◌, ℕ, List, IsTrue};
ghost use Rattle.hyd_io.specs.DeskBytes.{IsTold};
ghost use Rattle.hyd_net.specs.Sound.{IsSound};
ghost use Rattle.hyd_command_words.specs.CommandView.{closures_seen, spread_closures_seen};
ghost use Rattle.hyd_command_answers.specs.DeskContents.{seen};
ghost use Rattle.hyd_command_answers.specs.FaultsAndRefusals.{HasCause};
ghost use Rattle.hyd_command_answers.specs.declared.status.Status.TheVariants.{Usage};
ghost use Rattle.hyd_target_commands.specs.CommandsOnTargets.{OpensNet};
ghost use Rattle.hyd_spread_target_commands.specs.AnswersByTexts.{UnlessUnread};
ghost use Rattle.hyd_spread_target_commands.specs.SpreadClosures.{AnswersClosuresByText, LeavesClosuresOver};
ghost use Rattle.hyd_spread_target_commands.specs.SpreadTargetOrders.{DoesSpreadClosures, LeavesTargetsOver};

use crate::closures_over::closures_within;
use hyd_command_answers::{Status, Unread, read_network, refuse_text};
use hyd_command_words::SpreadClosuresWords;
use hyd_io::Desk;
use hyd_net::Project;
use hyd_spread_files::{SpreadFile, read_spread_file, refuse_spread};
use hyd_spread_rows::TEXT_TOO_LONG;
use hyd_target_commands::closures_in;
use std::alloc::Global;

// Reads the file of a spread, and shuts each pipe of a network within it; without a spread as `closures` does.
fn close_project<D: Desk>(
    alloc: Global,
    project: Project,
    words: &SpreadClosuresWords<'_>,
    desk: &mut D,
) -> Status
    requires sound { IsSound project }
    requires opens { IsTrue (D.may_open words.now.spread.now) }
    ensures cause { HasCause result (D.counts desk.old) (D.counts desk.new) }
    ensures answers { (text : List ℕ) → IsTold (D.files desk.old) words.now.spread.now text
        → UnlessUnread (AnswersClosuresByText project text (closures_seen words.now.closures)) result
        (seen D.files D.written D.printed desk.old) (seen D.files D.written D.printed desk.new) }
    ensures leaves { LeavesClosuresOver result
        (seen D.files D.written D.printed desk.old) (seen D.files D.written D.printed desk.new) }
    ensures once { OpensNet result (D.openings desk.old) (D.openings desk.new) }
{
    match read_spread_file(alloc, words.spread, desk) {
        Ok(SpreadFile::NoRows) => closures_in(alloc, project, &words.closures, desk),
        Ok(SpreadFile::Rows(text)) => closures_within(alloc, &project, &text, words, desk),
        Ok(SpreadFile::TooLong) => refuse_spread(words.spread, b"", TEXT_TOO_LONG, desk),
        Err(status) => status,
    }
}

/// Reads NET and the file of a spread, shuts each pipe alone in the first period of every network within the spread,
/// and prints `SHUT id` of each, then `JUNCTION id WORD` of each junction whose pressure isn't shown to stay above the
/// target in all of them, and `DONE n` behind all. Where the file has no rows there is no spread.
///
/// - `Done`: these lines were printed.
/// - `InputRefused`: the text of NET or of the spread has a fault, which the one line that is printed names.
/// - `Demand`: an end of a demand of the first period is out of range, which is printed.
/// - `OutOfMemory`: nothing was printed.
/// - `ReadFault`, `WriteFault`, `Stalled`: a call on the desk failed or took nothing.
pub fn close_pipes_for_spread<D: Desk>(
    alloc: Global,
    words: &SpreadClosuresWords<'_>,
    desk: &mut D,
) -> Status
    requires opens_net { IsTrue (D.may_open words.now.closures.net.now) }
    requires opens_spread { IsTrue (D.may_open words.now.spread.now) }
    ensures cause { HasCause result (D.counts desk.old) (D.counts desk.new) }
    ensures leaves { LeavesTargetsOver result
        (seen D.files D.written D.printed desk.old) (seen D.files D.written D.printed desk.new) }
    ensures never_usage { result ≢ Usage }
    ensures does { DoesSpreadClosures (spread_closures_seen words.now) result
        (seen D.files D.written D.printed desk.old) (seen D.files D.written D.printed desk.new)
        (D.openings desk.old) (D.openings desk.new) }
{
    match read_network(alloc, words.closures.net, desk) {
        Ok(project) => close_project(alloc, project, words, desk),
        Err(Unread::Fault(fault)) => refuse_text(fault.line, fault.cause, desk),
        Err(Unread::Ended(status)) => status,
    }
}
