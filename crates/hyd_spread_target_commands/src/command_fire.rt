//! The command `fire` for a spread, on files.

ghost use Rattle.std.specs.Prelude.{◌≢◌, ℕ, List, IsTrue};
ghost use Rattle.hyd_io.specs.DeskBytes.{IsTold};
ghost use Rattle.hyd_net.specs.Sound.{IsSound};
ghost use Rattle.hyd_command_words.specs.CommandView.{fire_seen, spread_fire_seen};
ghost use Rattle.hyd_command_answers.specs.DeskContents.{seen};
ghost use Rattle.hyd_command_answers.specs.FaultsAndRefusals.{HasCause};
ghost use Rattle.hyd_command_answers.specs.declared.status.Status.TheVariants.{Usage};
ghost use Rattle.hyd_target_commands.specs.CommandsOnTargets.{OpensNet};
ghost use Rattle.hyd_spread_target_commands.specs.AnswersByTexts.{UnlessUnread};
ghost use Rattle.hyd_spread_target_commands.specs.SpreadBrackets.{AnswersFireByText, LeavesFireOver};
ghost use Rattle.hyd_spread_target_commands.specs.SpreadTargetOrders.{DoesSpreadFire, LeavesTargetsOver};

use crate::fire_over::bracket_within;
use hyd_command_answers::{Status, Unread, read_network, refuse_text};
use hyd_command_words::SpreadFireWords;
use hyd_io::Desk;
use hyd_net::Project;
use hyd_spread_files::{SpreadFile, read_spread_file, refuse_spread};
use hyd_spread_rows::TEXT_TOO_LONG;
use hyd_target_commands::bracket_in;
use std::alloc::Global;

// Reads the file of a spread, and finds the bracket of a junction within it; without a spread as `fire` does.
fn fire_project<D: Desk>(
    alloc: Global,
    project: Project,
    words: &SpreadFireWords<'_>,
    desk: &mut D,
) -> Status
    requires sound { IsSound project }
    requires opens { IsTrue (D.may_open words.now.spread.now) }
    ensures cause { HasCause result (D.counts desk.old) (D.counts desk.new) }
    ensures answers { (text : List ℕ) → IsTold (D.files desk.old) words.now.spread.now text
        → UnlessUnread (AnswersFireByText project text (fire_seen words.now.fire)) result
        (seen D.files D.written D.printed desk.old) (seen D.files D.written D.printed desk.new) }
    ensures leaves { LeavesFireOver project words.now.fire.junction.now result
        (seen D.files D.written D.printed desk.old) (seen D.files D.written D.printed desk.new) }
    ensures once { OpensNet result (D.openings desk.old) (D.openings desk.new) }
{
    match read_spread_file(alloc, words.spread, desk) {
        Ok(SpreadFile::NoRows) => bracket_in(alloc, project, &words.fire, desk),
        Ok(SpreadFile::Rows(text)) => bracket_within(alloc, &project, &text, words, desk),
        Ok(SpreadFile::TooLong) => refuse_spread(words.spread, b"", TEXT_TOO_LONG, desk),
        Err(status) => status,
    }
}

/// Reads NET and the file of a spread, and prints how much may be drawn at the junction beside its demand in the first
/// period of every network within the spread, with the target pressure there: the line `FIRE id a b`. With a draw up to
/// a the pressure is above the target in all of them, with one from b on it is below in all of them. Where the file has
/// no rows there is no spread.
///
/// - `Done`: that line was printed.
/// - `InputRefused`: the text of NET or of the spread has a fault, or no junction has the name (then the line says 0,
///   cause 5). The line of it is printed.
/// - `Demand`: an end of a demand of the first period is out of range, which is printed.
/// - `OutOfMemory`: nothing was printed.
/// - `ReadFault`, `WriteFault`, `Stalled`: a call on the desk failed or took nothing.
pub fn find_bracket_for_spread<D: Desk>(
    alloc: Global,
    words: &SpreadFireWords<'_>,
    desk: &mut D,
) -> Status
    requires opens_net { IsTrue (D.may_open words.now.fire.net.now) }
    requires opens_spread { IsTrue (D.may_open words.now.spread.now) }
    ensures cause { HasCause result (D.counts desk.old) (D.counts desk.new) }
    ensures leaves { LeavesTargetsOver result
        (seen D.files D.written D.printed desk.old) (seen D.files D.written D.printed desk.new) }
    ensures never_usage { result ≢ Usage }
    ensures does { DoesSpreadFire (spread_fire_seen words.now) result
        (seen D.files D.written D.printed desk.old) (seen D.files D.written D.printed desk.new)
        (D.openings desk.old) (D.openings desk.new) }
{
    match read_network(alloc, words.fire.net, desk) {
        Ok(project) => fire_project(alloc, project, words, desk),
        Err(Unread::Fault(fault)) => refuse_text(fault.line, fault.cause, desk),
        Err(Unread::Ended(status)) => status,
    }
}
