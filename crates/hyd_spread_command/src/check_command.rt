//! The command `check` for a spread, on files.

ghost use Rattle.std.specs.Prelude.{◌≡◌, ◌≢◌, ◌⊎◌, ℕ, List, IsTrue};
ghost use Rattle.hyd_io.specs.DeskBytes.{IsTold};
ghost use Rattle.hyd_net.specs.Sound.{IsSound};
ghost use Rattle.hyd_command_words.specs.CommandView.{spread_check_seen};
ghost use Rattle.hyd_command_answers.specs.DeskContents.{seen, OnlyPrintedSome};
ghost use Rattle.hyd_command_answers.specs.FaultsAndRefusals.{HasCause};
ghost use Rattle.hyd_command_answers.specs.declared.status.Status.TheVariants.{Usage};
ghost use Rattle.hyd_check_command.specs.CheckAnswers.{ReadsBoth};
ghost use Rattle.hyd_spread_command.specs.SpreadChecks.{LeavesCertOver, LeavesCheckOver};
ghost use Rattle.hyd_spread_command.specs.SpreadOrders.{AnswersSpreadCert, DoesSpreadCheck};

use crate::whole_check::check_within;
use crate::whole_run::SpreadNames;
use hyd_check_command::check_network;
use hyd_command_answers::{Status, Unread, read_network, refuse_text};
use hyd_command_words::SpreadCheckWords;
use hyd_io::Desk;
use hyd_net::Project;
use hyd_spread_files::{SpreadFile, read_spread_file, refuse_spread};
use hyd_spread_rows::TEXT_TOO_LONG;
use std::alloc::Global;

// Reads the file of a spread, and checks CERT for it; without a spread as `check` does.
fn check_project<D: Desk>(
    alloc: Global,
    project: Project,
    names: SpreadNames<'_>,
    desk: &mut D,
) -> Status
    requires sound { IsSound project }
    requires opens_spread { IsTrue (D.may_open names.spread.now) }
    requires opens_cert { IsTrue (D.may_open names.cert.now) }
    ensures cause { HasCause result (D.counts desk.old) (D.counts desk.new) }
    ensures only_prints { OnlyPrintedSome
        (seen D.files D.written D.printed desk.old) (seen D.files D.written D.printed desk.new) }
    ensures leaves { LeavesCertOver result
        (seen D.files D.written D.printed desk.old) (seen D.files D.written D.printed desk.new) }
    ensures answers { (text : List ℕ) → IsTold (D.files desk.old) names.entry.spread.now text
        → AnswersSpreadCert project text names.entry.cert.now result
        (seen D.files D.written D.printed desk.old) (seen D.files D.written D.printed desk.new) }
    ensures once { ReadsBoth result (D.openings desk.old) (D.openings desk.new) }
{
    match read_spread_file(alloc, names.spread, desk) {
        Ok(SpreadFile::NoRows) => check_network(alloc, project, names.cert, desk),
        Ok(SpreadFile::Rows(text)) => check_within(alloc, project, &text, names, desk),
        Ok(SpreadFile::TooLong) => refuse_spread(names.spread, b"", TEXT_TOO_LONG, desk),
        Err(status) => status,
    }
}

/// Reads NET and the file of a spread, checks CERT as the certificate of a run for the spread, and prints the report.
/// Where the file has no rows there is no spread.
///
/// - `Done`: the certificate was accepted.
/// - `CertificateRefused`: its lines, a record or its END line aren't right.
/// - `InputRefused`: the text of NET or of the spread has a fault, which the one line that is printed names.
/// - `OutOfMemory`: CERT wasn't opened, and nothing was printed.
/// - `ReadFault`, `WriteFault`, `Stalled`: a call on the desk failed or took nothing.
pub fn check_for_spread<D: Desk>(
    alloc: Global,
    words: &SpreadCheckWords<'_>,
    desk: &mut D,
) -> Status
    requires opens_net { IsTrue (D.may_open words.now.files.net.now) }
    requires opens_spread { IsTrue (D.may_open words.now.spread.now) }
    requires opens_cert { IsTrue (D.may_open words.now.files.cert.now) }
    ensures cause { HasCause result (D.counts desk.old) (D.counts desk.new) }
    ensures leaves { LeavesCheckOver result
        (seen D.files D.written D.printed desk.old) (seen D.files D.written D.printed desk.new) }
    ensures never_usage { result ≢ Usage }
    ensures does { DoesSpreadCheck (spread_check_seen words.now) result
        (seen D.files D.written D.printed desk.old) (seen D.files D.written D.printed desk.new)
        (D.openings desk.old) (D.openings desk.new) }
{
    let names = SpreadNames {
        spread: words.spread,
        cert: words.files.cert,
    };
    match read_network(alloc, words.files.net, desk) {
        Ok(project) => check_project(alloc, project, names, desk),
        Err(Unread::Fault(fault)) => refuse_text(fault.line, fault.cause, desk),
        Err(Unread::Ended(status)) => status,
    }
}
