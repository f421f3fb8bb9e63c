//! The command on files.

ghost use Rattle.std.specs.Prelude.{◌≡◌, ◌≢◌, ℕ, List, IsTrue};
ghost use Rattle.hyd_io.specs.DeskBytes.{IsTold};
ghost use Rattle.hyd_net.specs.declared.refusal_cause.Cause.{Cause};
ghost use Rattle.hyd_spec_input.specs.Faults.{IsFault, HasNoFault};
ghost use Rattle.hyd_open_run.specs.PeriodsOfOpenRuns.{asked_of};
ghost use Rattle.hyd_command_answers.specs.DeskContents.{seen, ChangesOnly};
ghost use Rattle.hyd_command_answers.specs.FaultsAndRefusals.{HasCause, AnswersRefused};
ghost use Rattle.hyd_command_answers.specs.OpeningsOfRuns.{OpensOnce};
ghost use Rattle.hyd_command_answers.specs.WrittenCertificates.{Holds};
ghost use Rattle.hyd_command_answers.specs.declared.status.Status.TheVariants.{Usage};
ghost use Rattle.hyd_open_command.specs.OpenAnswers.{AnswersTextOpenly, LeavesOpenly};

use crate::whole_run::run_network;
use hyd_command_answers::{Status, Unread, read_network, refuse_text};
use hyd_io::Desk;
use hyd_open_run::OpenSettings;
use std::alloc::Global;

/// Reads NET, and runs its network with the slack of the settings: writes CERT, of version 4, and prints the report.
///
/// - `Done`, `Undecided`, `RoundsSpent`, `Demand`: how the run ended.
/// - `InputRefused`: the text has a fault.
/// - `OutOfMemory`: nothing was created or printed.
/// - `ReadFault`, `WriteFault`, `Stalled`: a call on the desk failed or took nothing.
pub fn run_with_slack<D: Desk>(
    alloc: Global,
    net: &str,
    cert: &str,
    settings: OpenSettings,
    desk: &mut D,
) -> Status
    requires opens { IsTrue (D.may_open net.now) }
    requires creates { IsTrue (D.may_create cert.now) }
    ensures cause { HasCause result (D.counts desk.old) (D.counts desk.new) }
    ensures leaves { LeavesOpenly result
        (seen D.files D.written D.printed desk.old) (seen D.files D.written D.printed desk.new) }
    ensures never_usage { result ≢ Usage }
    ensures refused { (text : List ℕ) (line : ℕ) (why : Cause) → IsTold (D.files desk.old) net.now text
        → IsFault text line why → AnswersRefused line why result
        (seen D.files D.written D.printed desk.old) (seen D.files D.written D.printed desk.new) }
    ensures run { (text : List ℕ) → IsTold (D.files desk.old) net.now text → HasNoFault text
        → AnswersTextOpenly text (asked_of settings) cert.now result
        (seen D.files D.written D.printed desk.old) (seen D.files D.written D.printed desk.new) }
    ensures holds { Holds result cert.now
        (seen D.files D.written D.printed desk.old) (seen D.files D.written D.printed desk.new) }
    ensures others { ChangesOnly cert.now
        (seen D.files D.written D.printed desk.old) (seen D.files D.written D.printed desk.new) }
    ensures once { OpensOnce result (D.openings desk.old) (D.openings desk.new) }
{
    match read_network(alloc, net, desk) {
        Ok(project) => run_network(alloc, project, settings, cert, desk),
        Err(Unread::Fault(fault)) => refuse_text(fault.line, fault.cause, desk),
        Err(Unread::Ended(status)) => status,
    }
}
