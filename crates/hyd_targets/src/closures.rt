//! The closures of all pipes, put out one after another.
#![tactic(auto)]

ghost use Rattle.std.specs.Prelude.{◌≡◌, ◌<◌, ◌≤◌, ℕ, List, Ok, Err, length, IsTrue, IfErr, OnOk, None};
ghost use Rattle.hyd_io.specs.Output.{OnCert};
ghost use Rattle.hyd_io.specs.TextPutIn.{Puts};
ghost use Rattle.hyd_net.specs.Sound.{IsSound};
ghost use Rattle.hyd_spec_certificates.specs.Valid.{DemandsAreInRange};
ghost use Rattle.hyd_spec_pressure_targets.specs.FirstPeriod.{is_pipe};
ghost use Rattle.hyd_spec_pressure_targets.specs.PromisesOfTargets.{FindsClosures};
ghost use Rattle.hyd_targets.specs.Inquiries.{IsOpen, target_for};
ghost use Rattle.hyd_targets.specs.ClosuresPutOut.{AreSoFar};

use crate::inquiry::Inquiry;
use crate::one_closure::put_closure;
use crate::signs_of_life::Signs;
use hyd_io::{Desk, OutFault, Pen};
use hyd_net::{Link, LinkKind, Project};
use hyd_report::put_done;

/// Whether a link is a pipe, which closures shut: one with a check valve is too.
pub fn is_pipe(kind: &LinkKind) -> bool
    ensures { result ≡ is_pipe kind.now }
{
    match kind {
        LinkKind::Pipe(_) | LinkKind::CheckPipe(_) => true,
        _ => false,
    }
}

/// How many pipes there are among links, for what `Signs` shows of them.
pub fn pipe_count(links: &[Link]) -> u32 {
    let mut count = 0u32;
    for link in links {
        if is_pipe(&link.kind) {
            count = count.saturating_add(1);
        }
    }
    count
}

/// Shuts each pipe alone in the first period, in order, and puts the lines of each closure, and their number behind
/// them. Its faults and its needs are those of `Pen::put`.
pub fn put_closures<D: Desk>(
    project: &Project,
    inquiry: &mut Inquiry,
    rounds: u32,
    pen: &mut Pen,
    desk: &mut D,
) -> Result<(), OutFault>
    requires sound { IsSound project.now }
    requires open { IsOpen project.now inquiry.old }
    requires in_range { DemandsAreInRange project.now 0 }
    requires ready { OnCert pen.old.to (IsTrue (D.ready desk.old)) }
    requires unbroken { pen.old.fault ≡ None }
    ensures whole { OnOk result ((text : List ℕ)
        × (FindsClosures project.now (target_for project.now inquiry.old) rounds text
        × Puts D.files D.rest D.written D.printed D.target D.ready D.counts D.openings
        text result pen.old pen.new desk.old desk.new)) }
    ensures cut_off { IfErr result (λ _. (text : List ℕ)
        × (AreSoFar project.now (target_for project.now inquiry.old) rounds text
        × Puts D.files D.rest D.written D.printed D.target D.ready D.counts D.openings
        text result pen.old pen.new desk.old desk.new)) }
{
    let links = project.links.as_slice();
    let mut signs = Signs::new(pipe_count(links), desk);
    let mut count = 0;
    for link in 0..links.len() as u32 {
        if is_pipe(&links[link as usize].kind) {
            signs.show(count, desk);
            put_closure(project, inquiry, link, rounds, pen, desk)?;
            count += 1;
        }
    }
    put_done(count, pen, desk)
}
