//! The reading of NET.

ghost use Rattle.std.specs.Prelude.{◌≡◌, ◌⊎◌, ◌<◌, ◌≤◌, List, ℕ, IsTrue, IfOk, IfErr, IfSome, IfNone, OnOk, length};
ghost use Rattle.hyd_io.specs.DeskBytes.{IsTold};
ghost use Rattle.hyd_io.specs.DeskCounts.{with_opened};
ghost use Rattle.hyd_spec_lines.specs.Lines.{items_of, rows_in};
ghost use Rattle.hyd_net.specs.Sound.{IsSound};
ghost use Rattle.hyd_spec_input.specs.Faults.{IsFault, HasNoFault};
ghost use Rattle.hyd_spec_input.specs.Project.{IsProject};
ghost use Rattle.hyd_command_answers.specs.DeskContents.{seen, IsUntouched};
ghost use Rattle.hyd_command_answers.specs.FaultsAndRefusals.{HasCause};
ghost use Rattle.hyd_command_answers.specs.NetworkOrFault.{IfFault, IfEnded, HasReadCause};
ghost use Rattle.hyd_command_answers.specs.declared.status.Status.TheVariants.{ReadFault, OutOfMemory};

use crate::status::Status;
use hyd_inp::{InpFault, InpRefused, LONGEST_TEXT, TEXT_TOO_LONG, read_project};
use hyd_io::{Desk, InFault, read_all};
use hyd_net::Project;
use hyd_sentences::RefusedText;
use std::alloc::Global;

/// Why there is no network.
#[derive(Clone, Copy, Drop)]
pub enum Unread {
    /// The text has a fault.
    Fault(InpFault),
    /// The command ends so: a read failed, or memory ran out.
    Ended(Status),
}

/// Opens and reads the whole of a file, at most 64 MiB; there is no text where it is longer. Answers a status where a
/// read failed or memory ran out.
pub fn read_text<D: Desk>(
    alloc: Global,
    file: &str,
    desk: &mut D,
) -> Result<Option<Vec<u8>>, Status>
    requires { IsTrue (D.may_open file.now) }
    ensures text { (text : List ℕ) → IsTold (D.files desk.old) file.now text
        → IfOk result (λ got. IfSome got (λ bytes. bytes.items ≡ text)) }
    ensures long { (text : List ℕ) → IsTold (D.files desk.old) file.now text
        → IfOk result (λ got. IfNone got (LONGEST_TEXT < length text)) }
    ensures short { IfOk result (λ got. IfSome got (λ bytes. length bytes.items ≤ LONGEST_TEXT)) }
    ensures cause { IfErr result (λ status. HasCause status (D.counts desk.old) (D.counts desk.new)) }
    ensures steady { OnOk result (D.counts desk.new ≡ D.counts desk.old) }
    ensures why { IfErr result (λ status. (status ≡ ReadFault) ⊎ (status ≡ OutOfMemory)) }
    ensures untouched { IsUntouched
        (seen D.files D.written D.printed desk.old) (seen D.files D.written D.printed desk.new) }
    ensures opened { D.openings desk.new ≡ with_opened (D.openings desk.old) }
{
    if desk.open(file).is_err() {
        return Err(Status::ReadFault);
    }
    match read_all(alloc, desk, LONGEST_TEXT) {
        Ok(text) => Ok(Some(text)),
        Err(InFault::TooLong) => Ok(None),
        Err(InFault::Fault) => Err(Status::ReadFault),
        Err(InFault::OutOfMemory) => Err(Status::OutOfMemory),
    }
}

// Says why a text is refused.
fn say_fault<D: Desk>(net: &str, text: &[u8], unread: Unread, desk: &D) {
    if let Unread::Fault(fault) = unread {
        desk.say(&RefusedText {
            file: net,
            text,
            line: fault.line,
            cause: fault.cause,
        });
    }
}

/// The network of a text, or why there is none.
fn network_of(alloc: Global, text: &[u8]) -> Result<Project, Unread>
    ensures no_fault { IfOk result (λ _. HasNoFault text.now) }
    ensures project { IfOk result (IsProject (rows_in (items_of text.now))) }
    ensures sound { IfOk result IsSound }
    ensures fault { IfErr result (λ unread. IfFault unread (λ fault. IsFault text.now fault.line fault.cause)) }
    ensures ended { IfErr result (λ unread. IfEnded unread (λ status. status ≡ OutOfMemory)) }
{
    match read_project(alloc, text) {
        Ok(project) => Ok(project),
        Err(InpRefused::OutOfMemory) => Err(Unread::Ended(Status::OutOfMemory)),
        Err(InpRefused::Fault(fault)) => Err(Unread::Fault(fault)),
    }
}

/// The same, and says to a person why a text is refused: `net` is the name of its file.
pub fn network_told<D: Desk>(
    alloc: Global,
    net: &str,
    text: &[u8],
    desk: &D,
) -> Result<Project, Unread>
    ensures no_fault { IfOk result (λ _. HasNoFault text.now) }
    ensures project { IfOk result (IsProject (rows_in (items_of text.now))) }
    ensures sound { IfOk result IsSound }
    ensures fault { IfErr result (λ unread. IfFault unread (λ fault. IsFault text.now fault.line fault.cause)) }
    ensures ended { IfErr result (λ unread. IfEnded unread (λ status. status ≡ OutOfMemory)) }
{
    match network_of(alloc, text) {
        Ok(project) => Ok(project),
        Err(unread) => {
            say_fault(net, text, unread, desk);
            Err(unread)
        }
    }
}

/// Opens and reads the whole of NET: its network, or why there is none, which is said to a person where the text is
/// refused.
pub fn read_network<D: Desk>(alloc: Global, net: &str, desk: &mut D) -> Result<Project, Unread>
    requires { IsTrue (D.may_open net.now) }
    ensures no_fault { (text : List ℕ) → IsTold (D.files desk.old) net.now text
        → IfOk result (λ _. HasNoFault text) }
    ensures project { (text : List ℕ) → IsTold (D.files desk.old) net.now text
        → IfOk result (IsProject (rows_in (items_of text))) }
    ensures sound { IfOk result IsSound }
    ensures fault { (text : List ℕ) → IsTold (D.files desk.old) net.now text
        → IfErr result (λ unread. IfFault unread (λ fault. IsFault text fault.line fault.cause)) }
    ensures why { IfErr result (λ unread. IfEnded unread (λ status. (status ≡ ReadFault) ⊎ (status ≡ OutOfMemory))) }
    ensures cause { HasReadCause result (D.counts desk.old) (D.counts desk.new) }
    ensures untouched { IsUntouched
        (seen D.files D.written D.printed desk.old) (seen D.files D.written D.printed desk.new) }
    ensures opened { D.openings desk.new ≡ with_opened (D.openings desk.old) }
{
    match read_text(alloc, net, desk) {
        Ok(Some(text)) => network_told(alloc, net, &text, desk),
        Ok(None) => {
            say_fault(net, b"", Unread::Fault(TEXT_TOO_LONG), desk);
            Err(Unread::Fault(TEXT_TOO_LONG))
        }
        Err(status) => Err(Unread::Ended(status)),
    }
}
