//! The command on files.

ghost use Rattle.std.specs.Prelude.{◌≡◌, ◌≢◌, ℕ, List, Some, IsTrue};
ghost use Rattle.hyd_io.specs.DeskBytes.{IsTold};
ghost use Rattle.hyd_net.specs.declared.refusal_cause.Cause.{Cause};
ghost use Rattle.hyd_spec_input.specs.Faults.{IsFault, HasNoFault};
ghost use Rattle.hyd_open_certificates.specs.OpenFaults.{HasOpenHeader, LacksOpenHeader};
ghost use Rattle.hyd_command_answers.specs.DeskContents.{seen, OnlyPrintedSome};
ghost use Rattle.hyd_command_answers.specs.FaultsAndRefusals.{HasCause, AnswersRefused};
ghost use Rattle.hyd_command_answers.specs.declared.status.Status.TheVariants.{Usage, InputRefused};
ghost use Rattle.hyd_check_command.specs.CheckAnswers.{AnswersCheck, LeavesCheck, ReadsBoth};
ghost use Rattle.hyd_check_command.specs.OpenCheckAnswers.{AnswersOpenCheck};

use crate::whole_check::check_network;
use hyd_command_answers::{Status, Unread, read_network, refuse_text};
use hyd_io::Desk;
use std::alloc::Global;

/// Reads NET, checks CERT against its network, and prints the report. Where CERT begins with a header line of version 4
/// it is the certificate of a run whose ends of periods may be open by some seconds; else of one where none is.
///
/// - `Done`: the certificate was accepted.
/// - `CertificateRefused`: its lines, a record, the part behind one or its END line aren't right.
/// - `InputRefused`: the text of NET has a fault.
/// - `OutOfMemory`: CERT wasn't opened, and nothing was printed.
/// - `ReadFault`, `WriteFault`, `Stalled`: a call on the desk failed or took nothing.
pub fn check_files<D: Desk>(alloc: Global, net: &str, cert: &str, desk: &mut D) -> Status
    requires opens_net { IsTrue (D.may_open net.now) }
    requires opens_cert { IsTrue (D.may_open cert.now) }
    ensures cause { HasCause result (D.counts desk.old) (D.counts desk.new) }
    ensures only_prints { OnlyPrintedSome
        (seen D.files D.written D.printed desk.old) (seen D.files D.written D.printed desk.new) }
    ensures leaves { LeavesCheck result
        (seen D.files D.written D.printed desk.old) (seen D.files D.written D.printed desk.new) }
    ensures never_usage { result ≢ Usage }
    ensures refused { (text : List ℕ) (line : ℕ) (why : Cause) → IsTold (D.files desk.old) net.now text
        → IsFault text line why → AnswersRefused line why result
        (seen D.files D.written D.printed desk.old) (seen D.files D.written D.printed desk.new) }
    ensures answers { (text certificate : List ℕ) → IsTold (D.files desk.old) net.now text → HasNoFault text
        → IsTold (D.files desk.old) cert.now certificate → LacksOpenHeader (Some certificate)
        → AnswersCheck text certificate result
        (seen D.files D.written D.printed desk.old) (seen D.files D.written D.printed desk.new) }
    ensures answers_openly { (text certificate : List ℕ) → IsTold (D.files desk.old) net.now text → HasNoFault text
        → IsTold (D.files desk.old) cert.now certificate → HasOpenHeader (Some certificate)
        → AnswersOpenCheck text certificate result
        (seen D.files D.written D.printed desk.old) (seen D.files D.written D.printed desk.new) }
    ensures not_refused { (text : List ℕ) → IsTold (D.files desk.old) net.now text → HasNoFault text
        → result ≢ InputRefused }
    ensures once { ReadsBoth result (D.openings desk.old) (D.openings desk.new) }
{
    match read_network(alloc, net, desk) {
        Ok(project) => check_network(alloc, project, cert, desk),
        Err(Unread::Fault(fault)) => refuse_text(fault.line, fault.cause, desk),
        Err(Unread::Ended(status)) => status,
    }
}
