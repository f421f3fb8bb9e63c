//! The command `witness`: a witness is sought for a certificate, and written.

ghost use Rattle.std.specs.Prelude.{◌≡◌, ◌≢◌, ℕ, List, IsTrue};
ghost use Rattle.hyd_io.specs.DeskBytes.{IsTold};
ghost use Rattle.hyd_net.specs.declared.refusal_cause.Cause.{Cause};
ghost use Rattle.hyd_spec_input.specs.Faults.{IsFault, HasNoFault};
ghost use Rattle.hyd_command_answers.specs.DeskContents.{seen, ChangesOnly};
ghost use Rattle.hyd_command_answers.specs.FaultsAndRefusals.{HasCause, AnswersRefused};
ghost use Rattle.hyd_command_answers.specs.declared.status.Status.TheVariants.{Usage, InputRefused};
ghost use Rattle.hyd_written_witnesses.specs.CommandWitness.{LeavesSearch, HoldsWitness, OpensForSearch};
ghost use Rattle.hyd_written_witnesses.specs.WitnessAnswers.{AnswersWitnessSearch};

use crate::writing::write_of_network;
use hyd_command_answers::{Status, Unread, read_network, refuse_text};
use hyd_command_words::WitnessWords;
use hyd_io::Desk;
use std::alloc::Global;

/// Reads NET and CERT, a certificate of its network, and writes a witness to OUT: the certificate's records are accepted
/// one after another as by `check`, a moment is found for each that is met as the next period, and put into OUT. Prints
/// one line: `WITNESS n` where there is one for each of the n records, `NOWITNESS period p` where none was found for the
/// record of period p, or the last line of `check` where the certificate is refused. OUT is then a witness of the periods
/// before that.
///
/// CERT is read and OUT created once to three times, in turn: in halves of ticks and, where that ends for want of a
/// moment, in finer parts, and where that does too, in halves again. All memory is taken before.
///
/// - `Done`, `Undecided`, `CertificateRefused`: those lines.
/// - `InputRefused`: the text of NET has a fault.
/// - `OutOfMemory`: nothing was created, written or printed.
/// - `ReadFault`, `WriteFault`, `Stalled`: a call on the desk failed or took nothing. Nothing more was called then.
pub fn write_witness<D: Desk>(alloc: Global, words: &WitnessWords<'_>, desk: &mut D) -> Status
    requires opens_net { IsTrue (D.may_open words.now.files.net.now) }
    requires opens_cert { IsTrue (D.may_open words.now.files.cert.now) }
    requires creates { IsTrue (D.may_create words.now.out.now) }
    ensures cause { HasCause result (D.counts desk.old) (D.counts desk.new) }
    ensures leaves { LeavesSearch result
        (seen D.files D.written D.printed desk.old) (seen D.files D.written D.printed desk.new) }
    ensures never_usage { result ≢ Usage }
    ensures refused { (text : List ℕ) (line : ℕ) (why : Cause) → IsTold (D.files desk.old) words.now.files.net.now text
        → IsFault text line why → AnswersRefused line why result
        (seen D.files D.written D.printed desk.old) (seen D.files D.written D.printed desk.new) }
    ensures searches { (text certificate : List ℕ) → IsTold (D.files desk.old) words.now.files.net.now text
        → HasNoFault text → IsTold (D.files desk.old) words.now.files.cert.now certificate
        → AnswersWitnessSearch text certificate words.now.out.now result
        (seen D.files D.written D.printed desk.old) (seen D.files D.written D.printed desk.new) }
    ensures not_refused { (text : List ℕ) → IsTold (D.files desk.old) words.now.files.net.now text → HasNoFault text
        → result ≢ InputRefused }
    ensures holds { HoldsWitness result words.now.out.now
        (seen D.files D.written D.printed desk.old) (seen D.files D.written D.printed desk.new) }
    ensures others { ChangesOnly words.now.out.now
        (seen D.files D.written D.printed desk.old) (seen D.files D.written D.printed desk.new) }
    ensures opens_in_turn { OpensForSearch result (D.openings desk.old) (D.openings desk.new) }
{
    match read_network(alloc, words.files.net, desk) {
        Ok(project) => write_of_network(alloc, project, words.files.cert, words.out, desk),
        Err(Unread::Fault(fault)) => refuse_text(fault.line, fault.cause, desk),
        Err(Unread::Ended(status)) => status,
    }
}
