//! The line of what is found of a witness, and the answer of the command.

ghost use Rattle.std.specs.Prelude.{◌≡◌, List, ℕ, IfErr, OnOk, OnErr};
ghost use Rattle.hyd_io.specs.declared.output.Channel.TheVariants.{Report};
ghost use Rattle.hyd_io.specs.Output.{HasOutCause};
ghost use Rattle.hyd_net.specs.Sound.{IsSound};
ghost use Rattle.hyd_command_answers.specs.DeskContents.{seen, OnlyPrinted, OnlyPrintedFront};
ghost use Rattle.hyd_command_answers.specs.FaultsAndRefusals.{HasCause};
ghost use Rattle.hyd_witness_trials.specs.Findings.{finding_line, IsFound};
ghost use Rattle.hyd_witness_commands.specs.MeetAnswers.{AnswersWitness};
ghost use Rattle.hyd_witness_commands.specs.Statuses.{status_of_finding};
ghost use Rattle.hyd_witness_commands.specs.CommandMeet.{LeavesWitness, IsAnswer};

use crate::lines::put_finding;
use hyd_command_answers::{Status, fault_status};
use hyd_io::{Channel, Desk, OutFault, Pen};
use hyd_net::Project;
use hyd_witness_sentences::{BadLine, UnmetPeriod};
use hyd_witness_trials::Finding;

/// How the command ends where its line is printed.
fn status_of(finding: Finding) -> Status
    ensures { result ≡ status_of_finding finding }
{
    match finding {
        Finding::Meets(_) => Status::Done,
        Finding::Fails(_, _) => Status::Undecided,
        Finding::BadLine(_) => Status::CertificateRefused,
    }
}

/// Prints the line of what is found.
fn print_finding<D: Desk>(project: &Project, finding: Finding, desk: &mut D) -> Result<(), OutFault>
    requires { IsSound project.now }
    ensures whole { OnOk result (OnlyPrinted (finding_line project.now finding)
        (seen D.files D.written D.printed desk.old) (seen D.files D.written D.printed desk.new)) }
    ensures front { OnErr result (OnlyPrintedFront (finding_line project.now finding)
        (seen D.files D.written D.printed desk.old) (seen D.files D.written D.printed desk.new)) }
    ensures cause { IfErr result (λ fault. HasOutCause Report fault (D.counts desk.old) (D.counts desk.new)) }
    ensures steady { OnOk result (D.counts desk.new ≡ D.counts desk.old) }
    ensures openings_stay { D.openings desk.new ≡ D.openings desk.old }
{
    let mut pen = Pen::new(Channel::Report);
    put_finding(project, finding, &mut pen, desk)?;
    pen.flush(desk)
}

// Says to a person what of a witness isn't so.
fn say_finding<D: Desk>(project: &Project, finding: Finding, desk: &D)
    requires { IsSound project.now }
{
    match finding {
        Finding::Meets(_) => {}
        Finding::Fails(period, unmet) => desk.say(&UnmetPeriod {
            project,
            period,
            unmet,
        }),
        Finding::BadLine(line) => desk.say(&BadLine { line }),
    }
}

/// Prints that line, says to a person what of a witness isn't so, and answers how the command ends, or by the fault that
/// kept the line from being printed.
pub(crate) fn answer_finding<D: Desk>(project: &Project, finding: Finding, desk: &mut D) -> Status
    requires { IsSound project.now }
    ensures cause { HasCause result (D.counts desk.old) (D.counts desk.new) }
    ensures answers { (witness : List ℕ) → IsFound project.now witness finding
        → AnswersWitness project.now witness result
        (seen D.files D.written D.printed desk.old) (seen D.files D.written D.printed desk.new) }
    ensures leaves { LeavesWitness result
        (seen D.files D.written D.printed desk.old) (seen D.files D.written D.printed desk.new) }
    ensures is_answer { IsAnswer result }
    ensures openings_stay { D.openings desk.new ≡ D.openings desk.old }
{
    match print_finding(project, finding, desk) {
        Ok(()) => {
            say_finding(project, finding, desk);
            status_of(finding)
        }
        Err(fault) => fault_status(fault),
    }
}
