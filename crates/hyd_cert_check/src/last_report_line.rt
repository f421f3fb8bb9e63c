//! The last line of a check's report.
#![tactic(auto)]

ghost use Rattle.std.specs.Prelude.{IsTrue};
ghost use Rattle.hyd_io.specs.Output.{OnCert};
ghost use Rattle.hyd_net.specs.Sound.{IsSound};
ghost use Rattle.hyd_io.specs.TextPutIn.{Puts};
ghost use Rattle.hyd_spec_reports.specs.PromisesOfRunsAndChecks.{accepted_line};
ghost use Rattle.hyd_cert_check.specs.RecordByRecord.{conclusion_line};

use crate::outcome::Conclusion;
use crate::refusals_by_a_line::{put_counts, put_grammar};
use hyd_io::{Desk, OutFault, Pen};
use hyd_net::Project;
use hyd_run::{put_done, put_partial, put_refused, put_refused_end, put_refused_flow};
use hyd_sentences::{LineFault, RefusedFlow, RefusedLine, RefusedRecord};

// Puts the last line on a certificate of so many records that is accepted.
fn put_accepted<D: Desk>(
    records: u32,
    finished: bool,
    pen: &mut Pen,
    desk: &mut D,
) -> Result<(), OutFault>
    requires { OnCert pen.old.to (IsTrue (D.ready desk.old)) }
    ensures { Puts D.files D.rest D.written D.printed D.target D.ready D.counts D.openings
        (accepted_line records finished) result pen.old pen.new desk.old desk.new }
{
    if finished {
        return put_done(records, pen, desk);
    }
    put_partial(records, pen, desk)
}

// Says what of a line isn't so.
fn say_line<D: Desk>(line: u64, fault: LineFault, desk: &D) {
    desk.say(&RefusedLine { line, fault });
}

// Says to a person what isn't so of a certificate that is refused.
fn say_refusal<D: Desk>(project: &Project, conclusion: &Conclusion, desk: &D)
    requires { IsSound project.now }
{
    match *conclusion {
        Conclusion::Accepted(_) => {}
        Conclusion::Refused(cause) => desk.say(&RefusedRecord { project, cause }),
        Conclusion::RefusedPart(period, cause) => {
            desk.say(&RefusedFlow {
                project,
                period,
                cause,
            });
        }
        Conclusion::OtherEnd(line) => say_line(line, LineFault::End, desk),
        Conclusion::Grammar(line) => say_line(line, LineFault::Grammar, desk),
        Conclusion::Counts(line) => say_line(line, LineFault::Counts, desk),
    }
}

/// Puts the last line of a report on so many records, and says to a person what of a certificate that is refused isn't
/// so.
pub(crate) fn put_conclusion<D: Desk>(
    project: &Project,
    records: u32,
    conclusion: &Conclusion,
    pen: &mut Pen,
    desk: &mut D,
) -> Result<(), OutFault>
    requires sound { IsSound project.now }
    requires ready { OnCert pen.old.to (IsTrue (D.ready desk.old)) }
    ensures { Puts D.files D.rest D.written D.printed D.target D.ready D.counts D.openings
        (conclusion_line project.now records conclusion.now) result pen.old pen.new desk.old desk.new }
{
    say_refusal(project, conclusion, desk);
    match conclusion {
        Conclusion::Accepted(finished) => put_accepted(records, *finished, pen, desk),
        Conclusion::Refused(cause) => put_refused(project, cause, pen, desk),
        Conclusion::RefusedPart(period, cause) => {
            put_refused_flow(project, *period, cause, pen, desk)
        }
        Conclusion::OtherEnd(line) => put_refused_end(*line, pen, desk),
        Conclusion::Grammar(line) => put_grammar(*line, pen, desk),
        Conclusion::Counts(line) => put_counts(*line, pen, desk),
    }
}
