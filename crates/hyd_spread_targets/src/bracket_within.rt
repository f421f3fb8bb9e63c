//! The bracket of what may be drawn at a junction for a spread, put out.
#![tactic(auto)]

ghost use Rattle.std.specs.Prelude.{◌≡◌, ◌<◌, ℕ, List, length, IsTrue};
ghost use Rattle.hyd_io.specs.Output.{OnCert};
ghost use Rattle.hyd_io.specs.TextPutIn.{Puts};
ghost use Rattle.hyd_net.specs.Sound.{IsSound};
ghost use Rattle.hyd_spec_reports.specs.ReportLine.{node_id};
ghost use Rattle.hyd_spec_spread_targets.specs.FirstPeriodWithin.{IsFirstPair};
ghost use Rattle.hyd_spec_targets_within.specs.PromisesWithinSpreads.{FindsBracketWithin};
ghost use Rattle.hyd_spread_networks.specs.NetsOfSpreads.{pair_of};
ghost use Rattle.hyd_spread_targets.specs.InquiriesWithin.{IsOpenWithin, spread_for, target_within};

use crate::spread_inquiry::SpreadInquiry;
use hyd_fire::available;
use hyd_io::{Desk, OutFault, Pen};
use hyd_net::Project;
use hyd_spec_certificates::Side;
use hyd_target_lines::put_fire;

/// Finds the bracket of a junction in the first period for a spread, to which the nets are set, and puts its line. Its
/// faults and its needs are those of `Pen::put`.
pub fn put_bracket_within<D: Desk>(
    project: &Project,
    inquiry: &mut SpreadInquiry,
    junction: u32,
    rounds: u32,
    pen: &mut Pen,
    desk: &mut D,
) -> Result<(), OutFault>
    requires sound { IsSound project.now }
    requires open { IsOpenWithin project.now inquiry.old }
    requires pair { IsFirstPair project.now (spread_for inquiry.old) (pair_of inquiry.old.first.nets) }
    requires inside { junction < length project.now.junctions.list }
    requires ready { OnCert pen.old.to (IsTrue (D.ready desk.old)) }
    ensures { (name : List ℕ) → node_id project.now junction ≡ name → (text : List ℕ)
        × (FindsBracketWithin project.now (spread_for inquiry.old) name (target_within project.now inquiry.old) rounds
        text × Puts D.files D.rest D.written D.printed D.target D.ready D.counts D.openings
        text result pen.old pen.new desk.old desk.new) }
{
    let target = inquiry.target(project, junction);
    let bracket = available(
        inquiry.first.net(Side::Upper),
        inquiry.first.net(Side::Lower),
        &mut inquiry.study,
        &mut inquiry.finder,
        junction,
        target,
        rounds,
    );
    put_fire(project, junction, &bracket, pen, desk)
}
