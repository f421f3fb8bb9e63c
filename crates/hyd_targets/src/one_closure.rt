//! The closure of one pipe, put out.
#![tactic(auto)]

ghost use Rattle.std.specs.Prelude.{◌≡◌, ◌<◌, ℕ, List, length, map, IsTrue, None};
ghost use Rattle.hyd_io.specs.Output.{OnCert};
ghost use Rattle.hyd_io.specs.TextPutIn.{Puts};
ghost use Rattle.hyd_net.specs.Sound.{IsSound};
ghost use Rattle.hyd_spec.specs.Lists.{joined, map_from};
ghost use Rattle.hyd_spec_certificates.specs.Valid.{DemandsAreInRange};
ghost use Rattle.hyd_spec_pressure_targets.specs.LinesOfTargets.{word_line};
ghost use Rattle.hyd_spec_pressure_targets.specs.PromisesOfTargets.{Closure, IsClosure, closure_text};
ghost use Rattle.hyd_targets.specs.Inquiries.{IsOpen, target_for};
ghost use Rattle.hyd_targets.specs.ClosuresPutOut.{words_by};

use crate::inquiry::Inquiry;
use hyd_fire::{Sides, Study, close, word_of};
use hyd_io::{Desk, OutFault, Pen};
use hyd_net::Project;
use hyd_spec_certificates::LevelSpan;
use hyd_target_lines::{put_shut, put_word};

/// Puts the lines of junctions, in order, by what a closure left with these targets, one for each junction: those of
/// the words of `word_of`. Its faults and its needs are those of `Pen::put`; besides no put at the pen has failed yet.
pub fn put_words<D: Desk>(
    project: &Project,
    study: &Study,
    sides: Sides,
    targets: &[LevelSpan],
    pen: &mut Pen,
    desk: &mut D,
) -> Result<(), OutFault>
    requires sound { IsSound project.now }
    requires study { length study.now.upper ≡ length project.now.junctions.list }
    requires targets { length targets.now ≡ length project.now.junctions.list }
    requires ready { OnCert pen.old.to (IsTrue (D.ready desk.old)) }
    requires unbroken { pen.old.fault ≡ None }
    ensures { Puts D.files D.rest D.written D.printed D.target D.ready D.counts D.openings
        (joined (map_from (word_line project.now) 0 (words_by study.now sides targets.now)))
        result pen.old pen.new desk.old desk.new }
{
    let count = project.junctions.len() as u32;
    for junction in 0..count {
        let word = word_of(study, sides, junction, targets[junction as usize]);
        put_word(project, junction, word, pen, desk)?;
    }
    Ok(())
}

/// Shuts a pipe, finds the words of all junctions, and puts the lines of the closure. Its faults and its needs are those
/// of `Pen::put`.
pub(crate) fn put_closure<D: Desk>(
    project: &Project,
    inquiry: &mut Inquiry,
    pipe: u32,
    rounds: u32,
    pen: &mut Pen,
    desk: &mut D,
) -> Result<(), OutFault>
    requires sound { IsSound project.now }
    requires open { IsOpen project.now inquiry.old }
    requires in_range { DemandsAreInRange project.now 0 }
    requires inside { pipe < length project.now.links.list }
    requires ready { OnCert pen.old.to (IsTrue (D.ready desk.old)) }
    ensures puts { (closure : Closure)
        × (IsClosure project.now (target_for project.now inquiry.old) rounds pipe closure
        × Puts D.files D.rest D.written D.printed D.target D.ready D.counts D.openings
        (closure_text project.now closure) result pen.old pen.new desk.old desk.new) }
    ensures open { IsOpen project.now inquiry.new }
    ensures pressure { inquiry.new.pressure ≡ inquiry.old.pressure }
{
    inquiry.first.start_with_shut(project, pipe);
    let net = inquiry.first.net();
    let sides = close(
        net,
        net,
        &mut inquiry.study,
        &mut inquiry.finder,
        &inquiry.targets,
        rounds,
    );
    put_shut(project, pipe, pen, desk)?;
    put_words(project, &inquiry.study, sides, &inquiry.targets, pen, desk)
}
