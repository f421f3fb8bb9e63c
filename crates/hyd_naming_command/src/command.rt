//! The command on files.

ghost use Rattle.std.specs.Prelude.{◌≡◌, ◌≢◌, ℕ, List, [], IsTrue};
ghost use Rattle.hyd_io.specs.DeskBytes.{IsTold};
ghost use Rattle.hyd_net.specs.Sound.{IsSound};
ghost use Rattle.hyd_net.specs.declared.refusal_cause.Cause.{Cause};
ghost use Rattle.hyd_spec_input.specs.Faults.{IsFault, HasNoFault};
ghost use Rattle.hyd_command_words.specs.CommandView.{names_seen};
ghost use Rattle.hyd_command_answers.specs.DeskContents.{seen, ChangesOnly};
ghost use Rattle.hyd_command_answers.specs.FaultsAndRefusals.{HasCause, AnswersRefused};
ghost use Rattle.hyd_command_answers.specs.OpeningsOfRuns.{OpensCert, OpensOnce};
ghost use Rattle.hyd_command_answers.specs.WrittenCertificates.{Holds};
ghost use Rattle.hyd_command_answers.specs.declared.status.Status.TheVariants.{Usage};
ghost use Rattle.hyd_naming_command.specs.NamingAnswers.{AnswersNames, AnswersTextNaming, LeavesNaming};

use crate::refused_name::refuse_name;
use crate::whole_run::run_network;
use hyd_command_answers::{Status, Unread, read_network, refuse_text};
use hyd_command_words::LinkNames;
use hyd_io::Desk;
use hyd_link_names::find_links;
use hyd_net::Project;
use hyd_sim::Settings;
use std::alloc::Global;

/// Looks the links up by their names, and runs the network with their flows, or refuses the first name that doesn't fit.
fn run_named<D: Desk>(
    alloc: Global,
    project: Project,
    names: &LinkNames<'_>,
    settings: Settings,
    cert: &str,
    desk: &mut D,
) -> Status
    requires sound { IsSound project }
    requires some { names_seen names.now ≢ [] }
    requires creates { IsTrue (D.may_create cert.now) }
    ensures cause { HasCause result (D.counts desk.old) (D.counts desk.new) }
    ensures answers { AnswersNames project (names_seen names.now) settings cert.now result
        (seen D.files D.written D.printed desk.old) (seen D.files D.written D.printed desk.new) }
    ensures others { ChangesOnly cert.now
        (seen D.files D.written D.printed desk.old) (seen D.files D.written D.printed desk.new) }
    ensures opens { OpensCert result (D.openings desk.old) (D.openings desk.new) }
{
    match find_links(&project, names) {
        Ok(links) => run_network(alloc, project, links.as_slice(), settings, cert, desk),
        Err(refused) => refuse_name(names, refused, desk),
    }
}

/// Reads NET, and runs its network with the flows of the links that are named: writes CERT and prints the report. The
/// first name that no link has, or whose link doesn't join two junctions, is refused before CERT is created.
///
/// - `Done`, `Undecided`, `RoundsSpent`, `Demand`: how the run ended.
/// - `InputRefused`: the text has a fault, or a name is refused.
/// - `OutOfMemory`: nothing was created or printed.
/// - `ReadFault`, `WriteFault`, `Stalled`: a call on the desk failed or took nothing.
pub fn run_naming_links<D: Desk>(
    alloc: Global,
    net: &str,
    cert: &str,
    names: &LinkNames<'_>,
    settings: Settings,
    desk: &mut D,
) -> Status
    requires opens { IsTrue (D.may_open net.now) }
    requires creates { IsTrue (D.may_create cert.now) }
    requires some { names_seen names.now ≢ [] }
    ensures cause { HasCause result (D.counts desk.old) (D.counts desk.new) }
    ensures leaves { LeavesNaming (names_seen names.now) result
        (seen D.files D.written D.printed desk.old) (seen D.files D.written D.printed desk.new) }
    ensures never_usage { result ≢ Usage }
    ensures refused { (text : List ℕ) (line : ℕ) (why : Cause) → IsTold (D.files desk.old) net.now text
        → IsFault text line why → AnswersRefused line why result
        (seen D.files D.written D.printed desk.old) (seen D.files D.written D.printed desk.new) }
    ensures run { (text : List ℕ) → IsTold (D.files desk.old) net.now text → HasNoFault text
        → AnswersTextNaming text (names_seen names.now) settings cert.now result
        (seen D.files D.written D.printed desk.old) (seen D.files D.written D.printed desk.new) }
    ensures holds { Holds result cert.now
        (seen D.files D.written D.printed desk.old) (seen D.files D.written D.printed desk.new) }
    ensures others { ChangesOnly cert.now
        (seen D.files D.written D.printed desk.old) (seen D.files D.written D.printed desk.new) }
    ensures once { OpensOnce result (D.openings desk.old) (D.openings desk.new) }
{
    match read_network(alloc, net, desk) {
        Ok(project) => run_named(alloc, project, names, settings, cert, desk),
        Err(Unread::Fault(fault)) => refuse_text(fault.line, fault.cause, desk),
        Err(Unread::Ended(status)) => status,
    }
}
