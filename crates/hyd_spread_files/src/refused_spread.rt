//! The line of a spread that is refused.

ghost use Rattle.std.specs.Prelude.{◌≡◌, ℕ, List, IfErr, OnOk, OnErr};
ghost use Rattle.hyd_io.specs.declared.output.Channel.TheVariants.{Report};
ghost use Rattle.hyd_io.specs.Output.{HasOutCause};
ghost use Rattle.hyd_io.specs.DeskBytes.{append_known, file_at, PutOut};
ghost use Rattle.hyd_report.specs.RefusedText.{refused_spread_line};
ghost use Rattle.hyd_command_answers.specs.DeskContents.{seen};
ghost use Rattle.hyd_command_answers.specs.FaultsAndRefusals.{HasCause};
ghost use Rattle.hyd_command_answers.specs.OpeningsOfRuns.{OpensCert};
ghost use Rattle.hyd_spread_files.specs.RefusedSpreads.{AnswersSpreadRefused};

use crate::sentence::say_fault;
use hyd_command_answers::{Status, fault_status};
use hyd_io::{Channel, Desk, OutFault, Pen};
use hyd_report::put_refused_spread;
use hyd_spread_rows::SpreadFault;

// Prints the line of a spread that is refused.
fn print_refusal<D: Desk>(fault: SpreadFault, desk: &mut D) -> Result<(), OutFault>
    ensures whole { OnOk result
        (D.printed desk.new ≡ append_known (D.printed desk.old) (refused_spread_line fault.line fault.cause)) }
    ensures front { OnErr result
        (PutOut (D.printed desk.old) (D.printed desk.new) (refused_spread_line fault.line fault.cause)) }
    ensures cause { IfErr result (λ fault. HasOutCause Report fault (D.counts desk.old) (D.counts desk.new)) }
    ensures steady { OnOk result (D.counts desk.new ≡ D.counts desk.old) }
    ensures files_stay { D.files desk.new ≡ D.files desk.old }
    ensures written_stays { D.written desk.new ≡ D.written desk.old }
    ensures openings_stay { D.openings desk.new ≡ D.openings desk.old }
{
    let mut pen = Pen::new(Channel::Report);
    put_refused_spread(fault.line, fault.cause, &mut pen, desk)?;
    pen.flush(desk)
}

/// Says to a person why the text of a file is refused, prints that line, and answers the status of a refused text or of
/// the fault that kept the line from being printed.
pub fn refuse_spread<D: Desk>(file: &str, text: &[u8], fault: SpreadFault, desk: &mut D) -> Status
    ensures cause { HasCause result (D.counts desk.old) (D.counts desk.new) }
    ensures answers { AnswersSpreadRefused fault.line fault.cause result
        (seen D.files D.written D.printed desk.old) (seen D.files D.written D.printed desk.new) }
    ensures opens { OpensCert result (D.openings desk.old) (D.openings desk.new) }
    ensures openings_stay { D.openings desk.new ≡ D.openings desk.old }
    ensures others { (other : List ℕ) → file_at (D.files desk.new) other ≡ file_at (D.files desk.old) other }
{
    say_fault(file, text, fault, desk);
    match print_refusal(fault, desk) {
        Ok(()) => Status::InputRefused,
        Err(fault) => fault_status(fault),
    }
}
