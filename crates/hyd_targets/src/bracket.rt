//! The bracket of what may be drawn at a junction, put out.
#![tactic(auto)]

ghost use Rattle.std.specs.Prelude.{◌≡◌, ◌<◌, ℕ, List, length, IsTrue};
ghost use Rattle.hyd_io.specs.Output.{OnCert};
ghost use Rattle.hyd_io.specs.TextPutIn.{Puts};
ghost use Rattle.hyd_net.specs.Sound.{IsSound};
ghost use Rattle.hyd_spec_reports.specs.ReportLine.{node_id};
ghost use Rattle.hyd_spec_pressure_targets.specs.FirstPeriod.{IsFirstGrid};
ghost use Rattle.hyd_spec_pressure_targets.specs.PromisesOfTargets.{FindsBracket};
ghost use Rattle.hyd_period_network.specs.NetAsPeriodNetwork.{grid_of};
ghost use Rattle.hyd_targets.specs.Inquiries.{IsOpen, target_for};

use crate::inquiry::Inquiry;
use hyd_fire::available;
use hyd_io::{Desk, OutFault, Pen};
use hyd_net::Project;
use hyd_target_lines::put_fire;

/// Finds the bracket of a junction in the first period, to which the net is set, and puts its line. Its faults and its
/// needs are those of `Pen::put`.
pub fn put_bracket<D: Desk>(
    project: &Project,
    inquiry: &mut Inquiry,
    junction: u32,
    rounds: u32,
    pen: &mut Pen,
    desk: &mut D,
) -> Result<(), OutFault>
    requires sound { IsSound project.now }
    requires open { IsOpen project.now inquiry.old }
    requires grid { IsFirstGrid project.now (grid_of inquiry.old.first.net) }
    requires inside { junction < length project.now.junctions.list }
    requires ready { OnCert pen.old.to (IsTrue (D.ready desk.old)) }
    ensures { (name : List ℕ) → node_id project.now junction ≡ name → (text : List ℕ)
        × (FindsBracket project.now name (target_for project.now inquiry.old) rounds text
        × Puts D.files D.rest D.written D.printed D.target D.ready D.counts D.openings
        text result pen.old pen.new desk.old desk.new) }
{
    let target = inquiry.target(project, junction);
    let net = inquiry.first.net();
    let bracket = available(
        net,
        net,
        &mut inquiry.study,
        &mut inquiry.finder,
        junction,
        target,
        rounds,
    );
    put_fire(project, junction, &bracket, pen, desk)
}
