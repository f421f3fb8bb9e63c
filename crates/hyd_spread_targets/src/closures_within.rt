//! The closures of all pipes for a spread, put out one after another.
#![tactic(auto)]

ghost use Rattle.std.specs.Prelude.{◌≡◌, ◌<◌, ◌≤◌, ℕ, List, Ok, Err, length, IsTrue, IfErr, OnOk, None};
ghost use Rattle.hyd_io.specs.Output.{OnCert};
ghost use Rattle.hyd_io.specs.TextPutIn.{Puts};
ghost use Rattle.hyd_net.specs.Sound.{IsSound};
ghost use Rattle.hyd_spec_spread_runs.specs.RunsForSpreads.{AreDemandsInRange};
ghost use Rattle.hyd_spec_targets_within.specs.PromisesWithinSpreads.{FindsClosuresWithin};
ghost use Rattle.hyd_spread_targets.specs.InquiriesWithin.{IsOpenWithin, spread_for, target_within};
ghost use Rattle.hyd_spread_targets.specs.ClosuresPutOutWithin.{AreSoFarWithin};

use crate::closure_within::put_closure_within;
use crate::spread_inquiry::SpreadInquiry;
use hyd_io::{Desk, OutFault, Pen};
use hyd_net::Project;
use hyd_report::put_done;
use hyd_targets::{Signs, is_pipe, pipe_count};

/// Shuts each pipe alone in the first period, in order, and puts the lines of each closure for a spread, and their
/// number behind them. Its faults and its needs are those of `Pen::put`.
pub fn put_closures_within<D: Desk>(
    project: &Project,
    inquiry: &mut SpreadInquiry,
    rounds: u32,
    pen: &mut Pen,
    desk: &mut D,
) -> Result<(), OutFault>
    requires sound { IsSound project.now }
    requires open { IsOpenWithin project.now inquiry.old }
    requires in_range { AreDemandsInRange project.now (spread_for inquiry.old) 0 }
    requires ready { OnCert pen.old.to (IsTrue (D.ready desk.old)) }
    requires unbroken { pen.old.fault ≡ None }
    ensures whole { OnOk result ((text : List ℕ)
        × (FindsClosuresWithin project.now (spread_for inquiry.old) (target_within project.now inquiry.old) rounds text
        × Puts D.files D.rest D.written D.printed D.target D.ready D.counts D.openings
        text result pen.old pen.new desk.old desk.new)) }
    ensures cut_off { IfErr result (λ _. (text : List ℕ)
        × (AreSoFarWithin project.now (spread_for inquiry.old) (target_within project.now inquiry.old) rounds text
        × Puts D.files D.rest D.written D.printed D.target D.ready D.counts D.openings
        text result pen.old pen.new desk.old desk.new)) }
{
    let links = project.links.as_slice();
    let mut signs = Signs::new(pipe_count(links), desk);
    let mut count = 0;
    for link in 0..links.len() as u32 {
        if is_pipe(&links[link as usize].kind) {
            signs.show(count, desk);
            put_closure_within(project, inquiry, link, rounds, pen, desk)?;
            count += 1;
        }
    }
    put_done(count, pen, desk)
}
