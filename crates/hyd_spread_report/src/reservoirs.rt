//! The lines of reservoirs.

ghost use Rattle.std.specs.Prelude.{◌≡◌, ◌<◌, length, slice_get, IsTrue, IfSome, None};
ghost use Rattle.hyd_io.specs.Output.{OnCert};
ghost use Rattle.hyd_io.specs.TextPutIn.{Puts};
ghost use Rattle.hyd_net.specs.Sound.{IsSound};
ghost use Rattle.hyd_spec.specs.Assignment.{head_at};
ghost use Rattle.hyd_spec.specs.Lists.{map_from};
ghost use Rattle.hyd_spec_reports.specs.ReportLine.{line_text};
ghost use Rattle.hyd_period_network.specs.NetAsPeriodNetwork.{grid_of};
ghost use Rattle.hyd_spread_bounds.specs.BothSides.{pair_of, IsOrderedPair};
ghost use Rattle.hyd_report.specs.NodeAndLinkLines.{texts};
ghost use Rattle.hyd_spread_report.specs.LinesOverBothSides.{reservoir_line_over};

use hyd_io::{Desk, OutFault, Pen};
use hyd_net::Project;
use hyd_period_network::Net;
use hyd_report::put_reservoir_line;
use hyd_spec_certificates::{Problem, Side};

/// The head of a reservoir in a net, in head ticks. It is the same on both sides of one net.
fn head_in(net: &Net, reservoir: u32) -> i64
    requires { reservoir < length net.now.reservoirs }
    ensures { result ≡ head_at net.now.reservoirs reservoir }
{
    let _nodes = net.nodes();
    net.fixed(Problem::Main, Side::Lower, net.junctions() + reservoir)
}

/// Puts the line of a reservoir.
fn put_reservoir<D: Desk>(
    project: &Project,
    upper: &Net,
    lower: &Net,
    reservoir: u32,
    pen: &mut Pen,
    desk: &mut D,
) -> Result<(), OutFault>
    requires sound { IsSound project.now }
    requires pair { IsOrderedPair (pair_of upper.now lower.now) }
    requires in_range { reservoir < length upper.now.reservoirs }
    requires ready { OnCert pen.old.to (IsTrue (D.ready desk.old)) }
    ensures { IfSome (slice_get (grid_of upper.now).reservoirs reservoir) (λ greatest.
        Puts D.files D.rest D.written D.printed D.target D.ready D.counts D.openings
        (line_text project.now (reservoir_line_over project.now (pair_of upper.now lower.now) reservoir greatest))
        result pen.old pen.new desk.old desk.new) }
{
    let least = head_in(lower, reservoir);
    let greatest = head_in(upper, reservoir);
    put_reservoir_line(project, reservoir, least, greatest, pen, desk)
}

/// Puts the lines of all reservoirs.
pub(crate) fn put_reservoirs<D: Desk>(
    project: &Project,
    upper: &Net,
    lower: &Net,
    pen: &mut Pen,
    desk: &mut D,
) -> Result<(), OutFault>
    requires sound { IsSound project.now }
    requires pair { IsOrderedPair (pair_of upper.now lower.now) }
    requires ready { OnCert pen.old.to (IsTrue (D.ready desk.old)) }
    requires unbroken { pen.old.fault ≡ None }
    ensures { Puts D.files D.rest D.written D.printed D.target D.ready D.counts D.openings
        (texts project.now (map_from (reservoir_line_over project.now (pair_of upper.now lower.now)) 0
        (grid_of upper.now).reservoirs))
        result pen.old pen.new desk.old desk.new }
{
    let count = upper.nodes() - upper.junctions() - upper.tanks();
    for r in 0..count {
        put_reservoir(project, upper, lower, r, pen, desk)?;
    }
    Ok(())
}
