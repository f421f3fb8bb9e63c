//! The line of a refused network.

ghost use Rattle.std.specs.Prelude.{◌≡◌, ℕ, List, IfErr, OnOk, OnErr};
ghost use Rattle.hyd_io.specs.declared.output.Channel.TheVariants.{Report};
ghost use Rattle.hyd_io.specs.Output.{HasOutCause};
ghost use Rattle.hyd_io.specs.DeskBytes.{append_known, file_at, PutOut};
ghost use Rattle.hyd_report.specs.RefusedText.{refused_text_line};
ghost use Rattle.hyd_command_answers.specs.DeskContents.{seen};
ghost use Rattle.hyd_command_answers.specs.FaultsAndRefusals.{HasCause, AnswersRefused};
ghost use Rattle.hyd_command_answers.specs.OpeningsOfRuns.{OpensCert};

use crate::status::{Status, fault_status};
use hyd_io::{Channel, Desk, OutFault, Pen};
use hyd_net::Cause;
use hyd_report::put_refused_text;

/// Prints the line of a text that is refused.
pub fn print_refusal<D: Desk>(line: u32, cause: Cause, desk: &mut D) -> Result<(), OutFault>
    ensures whole { OnOk result
        (D.printed desk.new ≡ append_known (D.printed desk.old) (refused_text_line line cause)) }
    ensures front { OnErr result
        (PutOut (D.printed desk.old) (D.printed desk.new) (refused_text_line line cause)) }
    ensures cause { IfErr result (λ fault. HasOutCause Report fault (D.counts desk.old) (D.counts desk.new)) }
    ensures steady { OnOk result (D.counts desk.new ≡ D.counts desk.old) }
    ensures files_stay { D.files desk.new ≡ D.files desk.old }
    ensures written_stays { D.written desk.new ≡ D.written desk.old }
    ensures openings_stay { D.openings desk.new ≡ D.openings desk.old }
{
    let mut pen = Pen::new(Channel::Report);
    put_refused_text(line, cause, &mut pen, desk)?;
    pen.flush(desk)
}

/// Prints that line, and answers the status of a refused text or of the fault that kept it from being printed.
pub fn refuse_text<D: Desk>(line: u32, cause: Cause, desk: &mut D) -> Status
    ensures cause { HasCause result (D.counts desk.old) (D.counts desk.new) }
    ensures answers { AnswersRefused line cause result
        (seen D.files D.written D.printed desk.old) (seen D.files D.written D.printed desk.new) }
    ensures opens { OpensCert result (D.openings desk.old) (D.openings desk.new) }
    ensures openings_stay { D.openings desk.new ≡ D.openings desk.old }
    ensures others { (other : List ℕ) → file_at (D.files desk.new) other ≡ file_at (D.files desk.old) other }
{
    match print_refusal(line, cause, desk) {
        Ok(()) => Status::InputRefused,
        Err(fault) => fault_status(fault),
    }
}
