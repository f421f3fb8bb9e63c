//! The command `run` for a spread.

ghost use Rattle.std.specs.Prelude.{◌≡◌, ◌≢◌, ℕ, List, IsTrue};
ghost use Rattle.hyd_io.specs.DeskBytes.{IsTold};
ghost use Rattle.hyd_net.specs.Sound.{IsSound};
ghost use Rattle.hyd_command_words.specs.CommandView.{run_seen, spread_run_seen};
ghost use Rattle.hyd_command_answers.specs.DeskContents.{seen, ChangesOnly};
ghost use Rattle.hyd_command_answers.specs.FaultsAndRefusals.{HasCause};
ghost use Rattle.hyd_command_answers.specs.OpeningsOfRuns.{OpensCert, OpensOnce};
ghost use Rattle.hyd_command_answers.specs.WrittenCertificates.{Holds};
ghost use Rattle.hyd_command_answers.specs.declared.status.Status.TheVariants.{Usage};
ghost use Rattle.hyd_spread_command.specs.SpreadAnswers.{LeavesOver, LeavesRunOver};
ghost use Rattle.hyd_cli.specs.SpreadRuns.{AnswersAlone, AnswersSpreadText, DoesSpreadRun};

use crate::run_settings::{open_settings_of, settings_of};
use crate::task_with_network::{Task, do_with_network};
use hyd_command_answers::{Status, Unread, read_network, refuse_text};
use hyd_command_words::{RunWords, SpreadRunWords};
use hyd_io::Desk;
use hyd_net::Project;
use hyd_open_command::run_network;
use hyd_spread_command::{
    SpreadFile, SpreadNames, TEXT_TOO_LONG, read_spread_file, refuse_spread, run_within,
};
use std::alloc::Global;

// Runs a network without a spread: where no end of a period may be open, or where one may.
fn run_alone<D: Desk>(alloc: Global, project: Project, words: &RunWords<'_>, desk: &mut D) -> Status
    requires sound { IsSound project }
    requires creates { IsTrue (D.may_create words.now.files.cert.now) }
    ensures cause { HasCause result (D.counts desk.old) (D.counts desk.new) }
    ensures answers { AnswersAlone project (run_seen words.now) words.now.slack result
        (seen D.files D.written D.printed desk.old) (seen D.files D.written D.printed desk.new) }
    ensures others { ChangesOnly words.now.files.cert.now
        (seen D.files D.written D.printed desk.old) (seen D.files D.written D.printed desk.new) }
    ensures opens { OpensCert result (D.openings desk.old) (D.openings desk.new) }
{
    let cert = words.files.cert;
    if words.slack == 0 {
        let settings = settings_of(words);
        return do_with_network(alloc, project, Task::Run { cert, settings }, desk);
    }
    run_network(alloc, project, open_settings_of(words), cert, desk)
}

// Reads the file of a spread, and runs a network for it.
fn run_project<D: Desk>(
    alloc: Global,
    project: Project,
    words: &SpreadRunWords<'_>,
    desk: &mut D,
) -> Status
    requires sound { IsSound project }
    requires opens { IsTrue (D.may_open words.now.spread.now) }
    requires creates { IsTrue (D.may_create words.now.run.files.cert.now) }
    ensures cause { HasCause result (D.counts desk.old) (D.counts desk.new) }
    ensures answers { (text : List ℕ) → IsTold (D.files desk.old) words.now.spread.now text
        → AnswersSpreadText project text (run_seen words.now.run) result
        (seen D.files D.written D.printed desk.old) (seen D.files D.written D.printed desk.new) }
    ensures leaves { LeavesRunOver result
        (seen D.files D.written D.printed desk.old) (seen D.files D.written D.printed desk.new) }
    ensures holds { Holds result words.now.run.files.cert.now
        (seen D.files D.written D.printed desk.old) (seen D.files D.written D.printed desk.new) }
    ensures others { ChangesOnly words.now.run.files.cert.now
        (seen D.files D.written D.printed desk.old) (seen D.files D.written D.printed desk.new) }
    ensures once { OpensOnce result (D.openings desk.old) (D.openings desk.new) }
{
    let spread = words.spread;
    let cert = words.run.files.cert;
    match read_spread_file(alloc, spread, desk) {
        Ok(SpreadFile::NoRows) => run_alone(alloc, project, &words.run, desk),
        Ok(SpreadFile::Rows(text)) => {
            let settings = open_settings_of(&words.run);
            run_within(
                alloc,
                project,
                &text,
                settings,
                SpreadNames { spread, cert },
                desk,
            )
        }
        Ok(SpreadFile::TooLong) => refuse_spread(spread, b"", TEXT_TOO_LONG, desk),
        Err(status) => status,
    }
}

/// The command `run` for a spread: reads NET and the file of the spread, runs the network for it, writes CERT and
/// prints the report. Where the file has no rows there is no spread, and it does what `run` does without one.
pub(crate) fn run_for_spread<D: Desk>(
    alloc: Global,
    words: &SpreadRunWords<'_>,
    desk: &mut D,
) -> Status
    requires opens_net { IsTrue (D.may_open words.now.run.files.net.now) }
    requires opens_spread { IsTrue (D.may_open words.now.spread.now) }
    requires creates { IsTrue (D.may_create words.now.run.files.cert.now) }
    ensures cause { HasCause result (D.counts desk.old) (D.counts desk.new) }
    ensures leaves { LeavesOver result
        (seen D.files D.written D.printed desk.old) (seen D.files D.written D.printed desk.new) }
    ensures never_usage { result ≢ Usage }
    ensures does { DoesSpreadRun (spread_run_seen words.now) result
        (seen D.files D.written D.printed desk.old) (seen D.files D.written D.printed desk.new)
        (D.openings desk.old) (D.openings desk.new) }
{
    match read_network(alloc, words.run.files.net, desk) {
        Ok(project) => run_project(alloc, project, words, desk),
        Err(Unread::Fault(fault)) => refuse_text(fault.line, fault.cause, desk),
        Err(Unread::Ended(status)) => status,
    }
}
