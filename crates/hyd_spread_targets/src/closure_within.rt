//! The closure of one pipe for a spread, put out.
#![tactic(auto)]

ghost use Rattle.std.specs.Prelude.{◌≡◌, ◌<◌, length, IsTrue};
ghost use Rattle.hyd_io.specs.Output.{OnCert};
ghost use Rattle.hyd_io.specs.TextPutIn.{Puts};
ghost use Rattle.hyd_net.specs.Sound.{IsSound};
ghost use Rattle.hyd_spec_spread_runs.specs.RunsForSpreads.{AreDemandsInRange};
ghost use Rattle.hyd_spec_targets_within.specs.PromisesWithinSpreads.{ClosureWithin, IsClosureWithin, closure_text};
ghost use Rattle.hyd_spread_targets.specs.InquiriesWithin.{IsOpenWithin, spread_for, target_within};

use crate::spread_inquiry::SpreadInquiry;
use hyd_fire::close;
use hyd_io::{Desk, OutFault, Pen};
use hyd_net::Project;
use hyd_spec_certificates::Side;
use hyd_target_lines::put_shut;
use hyd_targets::put_words;

/// Shuts a pipe, finds the words of all junctions for a spread, and puts the lines of the closure. Its faults and its
/// needs are those of `Pen::put`.
pub(crate) fn put_closure_within<D: Desk>(
    project: &Project,
    inquiry: &mut SpreadInquiry,
    pipe: u32,
    rounds: u32,
    pen: &mut Pen,
    desk: &mut D,
) -> Result<(), OutFault>
    requires sound { IsSound project.now }
    requires open { IsOpenWithin project.now inquiry.old }
    requires in_range { AreDemandsInRange project.now (spread_for inquiry.old) 0 }
    requires inside { pipe < length project.now.links.list }
    requires ready { OnCert pen.old.to (IsTrue (D.ready desk.old)) }
    ensures puts { (closure : ClosureWithin)
        × (IsClosureWithin project.now (spread_for inquiry.old) (target_within project.now inquiry.old) rounds pipe
        closure × Puts D.files D.rest D.written D.printed D.target D.ready D.counts D.openings
        (closure_text project.now closure) result pen.old pen.new desk.old desk.new) }
    ensures open { IsOpenWithin project.now inquiry.new }
    ensures spread { spread_for inquiry.new ≡ spread_for inquiry.old }
    ensures pressure { inquiry.new.pressure ≡ inquiry.old.pressure }
{
    inquiry.first.start_with_shut(project, pipe);
    let sides = close(
        inquiry.first.net(Side::Upper),
        inquiry.first.net(Side::Lower),
        &mut inquiry.study,
        &mut inquiry.finder,
        &inquiry.targets,
        rounds,
    );
    put_shut(project, pipe, pen, desk)?;
    put_words(project, &inquiry.study, sides, &inquiry.targets, pen, desk)
}
