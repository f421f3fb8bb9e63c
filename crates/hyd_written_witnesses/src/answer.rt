//! The line of the end of a search, and the answer of the command.

ghost use Rattle.std.specs.Prelude.{◌≡◌, IfErr, OnOk, OnErr};
ghost use Rattle.hyd_io.specs.declared.output.Channel.TheVariants.{Report};
ghost use Rattle.hyd_io.specs.Output.{HasOutCause};
ghost use Rattle.hyd_net.specs.Sound.{IsSound};
ghost use Rattle.hyd_command_answers.specs.DeskContents.{seen, OnlyPrinted, OnlyPrintedFront};
ghost use Rattle.hyd_command_answers.specs.FaultsAndRefusals.{HasCause};
ghost use Rattle.hyd_witness_stream.specs.SearchEnds.{halt_line};
ghost use Rattle.hyd_written_witnesses.specs.Statuses.{SaysHalt};

use crate::lines::put_halt;
use crate::statuses::status_of_halt;
use hyd_command_answers::{Status, fault_status};
use hyd_io::{Channel, Desk, OutFault, Pen};
use hyd_net::Project;
use hyd_sentences::{LineFault, RefusedFlow, RefusedLine, RefusedRecord};
use hyd_witness_sentences::UnfoundPeriod;
use hyd_witness_stream::{Halt, SearchEnd};

/// Prints the line of the end of a search.
fn print_halt<D: Desk>(project: &Project, end: SearchEnd, desk: &mut D) -> Result<(), OutFault>
    requires { IsSound project.now }
    ensures whole { OnOk result (OnlyPrinted (halt_line project.now end.periods end.halt)
        (seen D.files D.written D.printed desk.old) (seen D.files D.written D.printed desk.new)) }
    ensures front { OnErr result (OnlyPrintedFront (halt_line project.now end.periods end.halt)
        (seen D.files D.written D.printed desk.old) (seen D.files D.written D.printed desk.new)) }
    ensures cause { IfErr result (λ fault. HasOutCause Report fault (D.counts desk.old) (D.counts desk.new)) }
    ensures steady { OnOk result (D.counts desk.new ≡ D.counts desk.old) }
    ensures openings_stay { D.openings desk.new ≡ D.openings desk.old }
{
    let mut pen = Pen::new(Channel::Report);
    put_halt(project, end, &mut pen, desk)?;
    pen.flush(desk)
}

// Says what of a line isn't so.
fn say_line<D: Desk>(line: u64, fault: LineFault, desk: &D) {
    desk.say(&RefusedLine { line, fault });
}

// Says to a person why the periods of a witness end before the run does.
fn say_halt<D: Desk>(project: &Project, end: SearchEnd, desk: &D)
    requires { IsSound project.now }
{
    match end.halt {
        Halt::Accepted => {}
        Halt::NoMoment => desk.say(&UnfoundPeriod {
            period: end.periods,
        }),
        Halt::Refused(cause) => desk.say(&RefusedRecord { project, cause }),
        Halt::RefusedPart(period, cause) => desk.say(&RefusedFlow {
            project,
            period,
            cause,
        }),
        Halt::OtherEnd(line) => say_line(line, LineFault::End, desk),
        Halt::Grammar(line) => say_line(line, LineFault::Grammar, desk),
        Halt::Counts(line) => say_line(line, LineFault::Counts, desk),
    }
}

/// Prints that line, says to a person what isn't so, and answers how the command ends, or by the fault that kept the
/// line from being printed.
pub(crate) fn answer_end<D: Desk>(project: &Project, end: SearchEnd, desk: &mut D) -> Status
    requires { IsSound project.now }
    ensures cause { HasCause result (D.counts desk.old) (D.counts desk.new) }
    ensures says { SaysHalt end result (halt_line project.now end.periods end.halt)
        (seen D.files D.written D.printed desk.old) (seen D.files D.written D.printed desk.new) }
    ensures openings_stay { D.openings desk.new ≡ D.openings desk.old }
{
    match print_halt(project, end, desk) {
        Ok(()) => {
            say_halt(project, end, desk);
            status_of_halt(end.halt)
        }
        Err(fault) => fault_status(fault),
    }
}
