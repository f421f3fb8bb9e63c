//! The line of a name that is refused.

ghost use Rattle.std.specs.Prelude.{◌≡◌, ◌≢◌, ℕ, List, IfErr, OnOk, OnErr};
ghost use Rattle.hyd_io.specs.declared.output.Channel.TheVariants.{Report};
ghost use Rattle.hyd_io.specs.Output.{HasOutCause};
ghost use Rattle.hyd_io.specs.DeskBytes.{append_known, file_at, PutOut};
ghost use Rattle.hyd_spec_named_links.specs.RefusedNames.{refused_name_line};
ghost use Rattle.hyd_command_answers.specs.DeskContents.{seen};
ghost use Rattle.hyd_command_answers.specs.FaultsAndRefusals.{HasCause};
ghost use Rattle.hyd_command_answers.specs.OpeningsOfRuns.{OpensCert};
ghost use Rattle.hyd_naming_command.specs.NamingAnswers.{AnswersRefusedName};

use hyd_command_answers::{Status, fault_status};
use hyd_command_words::LinkNames;
use hyd_io::{Channel, Desk, OutFault, Pen};
use hyd_link_names::{RefusedName, put_refused_name};

/// Prints the line of a name that is refused.
fn print_name<D: Desk>(refused: RefusedName, desk: &mut D) -> Result<(), OutFault>
    ensures whole { OnOk result (D.printed desk.new
        ≡ append_known (D.printed desk.old) (refused_name_line refused.place refused.cause)) }
    ensures front { OnErr result
        (PutOut (D.printed desk.old) (D.printed desk.new) (refused_name_line refused.place refused.cause)) }
    ensures cause { IfErr result (λ fault. HasOutCause Report fault (D.counts desk.old) (D.counts desk.new)) }
    ensures steady { OnOk result (D.counts desk.new ≡ D.counts desk.old) }
    ensures files_stay { D.files desk.new ≡ D.files desk.old }
    ensures written_stays { D.written desk.new ≡ D.written desk.old }
    ensures openings_stay { D.openings desk.new ≡ D.openings desk.old }
{
    let mut pen = Pen::new(Channel::Report);
    put_refused_name(refused.place, refused.cause, &mut pen, desk)?;
    pen.flush(desk)
}

/// Says to a person why a name is refused.
fn say_name<D: Desk>(names: &LinkNames<'_>, refused: RefusedName, desk: &D) {
    if let Some(name) = names.name(refused.place.saturating_sub(1)) {
        desk.say(&hyd_sentences::RefusedName {
            name,
            cause: refused.cause,
        });
    }
}

/// Prints that line, and answers the status of a refused name or of the fault that kept it from being printed.
pub(crate) fn refuse_name<D: Desk>(
    names: &LinkNames<'_>,
    refused: RefusedName,
    desk: &mut D,
) -> Status
    ensures cause { HasCause result (D.counts desk.old) (D.counts desk.new) }
    ensures answers { AnswersRefusedName refused.place refused.cause result
        (seen D.files D.written D.printed desk.old) (seen D.files D.written D.printed desk.new) }
    ensures opens { OpensCert result (D.openings desk.old) (D.openings desk.new) }
    ensures others { (other : List ℕ) → file_at (D.files desk.new) other ≡ file_at (D.files desk.old) other }
{
    say_name(names, refused, desk);
    match print_name(refused, desk) {
        Ok(()) => Status::InputRefused,
        Err(fault) => fault_status(fault),
    }
}
