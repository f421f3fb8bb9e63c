//! The junction that is asked of.

ghost use Rattle.std.specs.Prelude.{◌≡◌, IfSome, IfNone};
ghost use Rattle.hyd_net.specs.Sound.{IsSound};
ghost use Rattle.hyd_net.specs.declared.refusal_cause.Cause.TheVariants.{UnknownName};
ghost use Rattle.hyd_spec_pressure_targets.specs.PromisesOfTargets.{IsJunctionNamed, NamesNoJunction};
ghost use Rattle.hyd_command_answers.specs.DeskContents.{seen};
ghost use Rattle.hyd_command_answers.specs.FaultsAndRefusals.{HasCause, AnswersRefused};
ghost use Rattle.hyd_command_answers.specs.OpeningsOfRuns.{OpensCert};

use hyd_command_answers::{Status, refuse_text};
use hyd_command_words::FireWords;
use hyd_io::Desk;
use hyd_net::{Cause, Project};
use hyd_sentences::NoJunction;

/// The number of the junction of this name, if there is one.
pub fn junction_named(project: &Project, name: &str) -> Option<u32>
    requires { IsSound project.now }
    ensures there { IfSome result (IsJunctionNamed project.now name.now) }
    ensures none { IfNone result (NamesNoJunction project.now name.now) }
{
    match project.node_ids.number(name.as_bytes()) {
        Some(node) => {
            if node < project.junctions.len() as u32 {
                Some(node)
            } else {
                None
            }
        }
        None => None,
    }
}

/// Says to a person that NET has no junction J, and refuses the name: the line says 0, cause 5.
pub fn refuse_name<D: Desk>(words: &FireWords<'_>, desk: &mut D) -> Status
    ensures cause { HasCause result (D.counts desk.old) (D.counts desk.new) }
    ensures answers { AnswersRefused 0 UnknownName result
        (seen D.files D.written D.printed desk.old) (seen D.files D.written D.printed desk.new) }
    ensures opens { OpensCert result (D.openings desk.old) (D.openings desk.new) }
    ensures openings_stay { D.openings desk.new ≡ D.openings desk.old }
{
    desk.say(&NoJunction {
        file: words.net,
        name: words.junction,
    });
    refuse_text(0, Cause::UnknownName, desk)
}
