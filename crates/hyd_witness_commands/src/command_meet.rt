//! The command `meet`: a witness is tried against a network.

ghost use Rattle.std.specs.Prelude.{◌≡◌, ◌≢◌, ℕ, List, IsTrue};
ghost use Rattle.hyd_io.specs.DeskBytes.{IsTold};
ghost use Rattle.hyd_net.specs.Sound.{IsSound};
ghost use Rattle.hyd_net.specs.declared.refusal_cause.Cause.{Cause};
ghost use Rattle.hyd_spec_input.specs.Faults.{IsFault, HasNoFault};
ghost use Rattle.hyd_spec_witnesses.specs.WitnessText.{counts_of};
ghost use Rattle.hyd_course.specs.Courses.{IsCourse};
ghost use Rattle.hyd_witness_texts.specs.MomentView.{HasCounts, moment_of};
ghost use Rattle.hyd_command_answers.specs.DeskContents.{seen, OnlyPrintedSome};
ghost use Rattle.hyd_command_answers.specs.FaultsAndRefusals.{HasCause, AnswersRefused};
ghost use Rattle.hyd_command_answers.specs.declared.status.Status.TheVariants.{Usage, InputRefused};
ghost use Rattle.hyd_target_commands.specs.CommandsOnTargets.{LeavesNet};
ghost use Rattle.hyd_witness_commands.specs.MeetAnswers.{AnswersMeet};
ghost use Rattle.hyd_witness_commands.specs.CommandMeet.{OpensBoth, TriesWitness};

use crate::answer::answer_finding;
use hyd_command_answers::{Status, Unread, read_network, refuse_text};
use hyd_command_words::MeetWords;
use hyd_course::Course;
use hyd_io::Desk;
use hyd_laws_at_scale::Scale;
use hyd_net::Project;
use hyd_witness_texts::{Moment, WitnessReader};
use hyd_witness_trials::{counts_of, find};
use std::alloc::Global;

/// Opens FILE, tries its periods against the network, and prints what is found.
fn try_file<D: Desk>(
    project: &Project,
    course: &mut Course,
    moment: &mut Moment,
    file: &str,
    desk: &mut D,
) -> Status
    requires sound { IsSound project.now }
    requires course { IsCourse project.now course.old }
    requires lists { HasCounts (counts_of project.now) (moment_of moment.old) }
    requires opens { IsTrue (D.may_open file.now) }
    ensures cause { HasCause result (D.counts desk.old) (D.counts desk.new) }
    ensures tries { TriesWitness project.now file.now result
        (seen D.files D.written D.printed desk.old) (seen D.files D.written D.printed desk.new)
        (D.openings desk.old) (D.openings desk.new) }
{
    if desk.open(file).is_err() {
        return Status::ReadFault;
    }
    let mut reader = WitnessReader::open(counts_of(project));
    match find(project, &mut reader, course, moment, desk) {
        Ok(finding) => answer_finding(project, finding, desk),
        Err(_) => Status::ReadFault,
    }
}

/// Takes room for the periods that are tried, and tries FILE.
fn try_on_course<D: Desk>(
    alloc: Global,
    project: &Project,
    moment: &mut Moment,
    file: &str,
    desk: &mut D,
) -> Status
    requires sound { IsSound project.now }
    requires lists { HasCounts (counts_of project.now) (moment_of moment.old) }
    requires opens { IsTrue (D.may_open file.now) }
    ensures cause { HasCause result (D.counts desk.old) (D.counts desk.new) }
    ensures tries { TriesWitness project.now file.now result
        (seen D.files D.written D.printed desk.old) (seen D.files D.written D.printed desk.new)
        (D.openings desk.old) (D.openings desk.new) }
{
    // The scale is that of FILE, once its header line was read.
    match Course::open(alloc, project, Scale { power: 0 }) {
        Ok(mut course) => try_file(project, &mut course, moment, file, desk),
        Err(_) => Status::OutOfMemory,
    }
}

/// Takes room for a period that is read, and tries FILE.
fn try_witness<D: Desk>(alloc: Global, project: &Project, file: &str, desk: &mut D) -> Status
    requires sound { IsSound project.now }
    requires opens { IsTrue (D.may_open file.now) }
    ensures cause { HasCause result (D.counts desk.old) (D.counts desk.new) }
    ensures tries { TriesWitness project.now file.now result
        (seen D.files D.written D.printed desk.old) (seen D.files D.written D.printed desk.new)
        (D.openings desk.old) (D.openings desk.new) }
{
    match Moment::open(alloc, counts_of(project)) {
        Ok(mut moment) => try_on_course(alloc, project, &mut moment, file, desk),
        Err(_) => Status::OutOfMemory,
    }
}

/// The same of a network that isn't needed any more.
fn try_against<D: Desk>(alloc: Global, project: Project, file: &str, desk: &mut D) -> Status
    requires sound { IsSound project }
    requires opens { IsTrue (D.may_open file.now) }
    ensures cause { HasCause result (D.counts desk.old) (D.counts desk.new) }
    ensures tries { TriesWitness project file.now result
        (seen D.files D.written D.printed desk.old) (seen D.files D.written D.printed desk.new)
        (D.openings desk.old) (D.openings desk.new) }
{
    try_witness(alloc, &project, file, desk)
}

/// Reads NET and then FILE, a witness, and prints one line: `MEETS n` where each of its n periods is met as the one that
/// comes next, `UNMET period p CLAUSE id` at the first that isn't, with its first clause that fails and the link or
/// junction at which it does, or `BADWIT line n` at the first line with which, the end of the text counted in, FILE
/// begins no witness of the network. It reads as it goes: what comes first is what it says. All memory is taken before
/// FILE is opened.
///
/// - `Done`: all periods are met.
/// - `Undecided`: one isn't.
/// - `CertificateRefused`: a line can't be so.
/// - `InputRefused`: the text of NET has a fault.
/// - `OutOfMemory`: nothing was printed.
/// - `ReadFault`, `WriteFault`, `Stalled`: a call on the desk failed or took nothing.
pub fn meet_file<D: Desk>(alloc: Global, words: &MeetWords<'_>, desk: &mut D) -> Status
    requires opens_net { IsTrue (D.may_open words.now.net.now) }
    requires opens_file { IsTrue (D.may_open words.now.witness.now) }
    ensures cause { HasCause result (D.counts desk.old) (D.counts desk.new) }
    ensures leaves { LeavesNet result
        (seen D.files D.written D.printed desk.old) (seen D.files D.written D.printed desk.new) }
    ensures never_usage { result ≢ Usage }
    ensures refused { (text : List ℕ) (line : ℕ) (why : Cause) → IsTold (D.files desk.old) words.now.net.now text
        → IsFault text line why → AnswersRefused line why result
        (seen D.files D.written D.printed desk.old) (seen D.files D.written D.printed desk.new) }
    ensures meets { (text witness : List ℕ) → IsTold (D.files desk.old) words.now.net.now text → HasNoFault text
        → IsTold (D.files desk.old) words.now.witness.now witness → AnswersMeet text witness result
        (seen D.files D.written D.printed desk.old) (seen D.files D.written D.printed desk.new) }
    ensures not_refused { (text : List ℕ) → IsTold (D.files desk.old) words.now.net.now text → HasNoFault text
        → result ≢ InputRefused }
    ensures only_prints { OnlyPrintedSome
        (seen D.files D.written D.printed desk.old) (seen D.files D.written D.printed desk.new) }
    ensures once { OpensBoth result (D.openings desk.old) (D.openings desk.new) }
{
    match read_network(alloc, words.net, desk) {
        Ok(project) => try_against(alloc, project, words.witness, desk),
        Err(Unread::Fault(fault)) => refuse_text(fault.line, fault.cause, desk),
        Err(Unread::Ended(status)) => status,
    }
}
