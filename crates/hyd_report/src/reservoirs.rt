//! The lines of reservoirs.

ghost use Rattle.std.specs.Prelude.{◌≡◌, ◌<◌, length, slice_get, IsTrue, IfSome, None};
ghost use Rattle.hyd_io.specs.Output.{OnCert};
ghost use Rattle.hyd_net.specs.Sound.{IsSound};
ghost use Rattle.hyd_spec.specs.Lists.{map_from};
ghost use Rattle.hyd_spec_certificates.specs.Interval.{Interval};
ghost use Rattle.hyd_spec_reports.specs.ReportLine.{ReservoirLine, line_text};
ghost use Rattle.hyd_period_network.specs.NetAsPeriodNetwork.{grid_of};
ghost use Rattle.hyd_io.specs.TextPutIn.{Puts};
ghost use Rattle.hyd_report.specs.PrintedIntervals.{ArePrinted};
ghost use Rattle.hyd_report.specs.NodeAndLinkLines.{texts, reservoir_between, reservoir_line};

use crate::ids::reservoir_id;
use crate::line_pieces::put_pieces;
use crate::printed_intervals::{Ends, print_heads};
use hyd_io::{Desk, OutFault, Pen};
use hyd_net::Project;
use hyd_period_network::Net;
use hyd_spec_certificates::{Problem, Side};

/// Puts the line of a reservoir by its printed head.
fn put_parts<D: Desk>(
    project: &Project,
    reservoir: u32,
    head: &Ends,
    pen: &mut Pen,
    desk: &mut D,
) -> Result<(), OutFault>
    requires sound { IsSound project.now }
    requires ready { OnCert pen.old.to (IsTrue (D.ready desk.old)) }
    ensures { (h : Interval) → ArePrinted h head.now
        → Puts D.files D.rest D.written D.printed D.target D.ready D.counts D.openings
        (line_text project.now (ReservoirLine reservoir h)) result pen.old pen.new desk.old desk.new }
{
    put_pieces(
        &[
            b"RESERVOIR ".as_slice(),
            reservoir_id(project, reservoir),
            b" head ",
            head.low.bytes(),
            b" ",
            head.high.bytes(),
            b"\n",
        ],
        pen,
        desk,
    )
}

/// Puts the line of a reservoir by its number and two of its heads, in head ticks. Its faults and its needs are those
/// of `Pen::put`. It takes no memory.
pub fn put_reservoir_line<D: Desk>(
    project: &Project,
    reservoir: u32,
    lower: i64,
    upper: i64,
    pen: &mut Pen,
    desk: &mut D,
) -> Result<(), OutFault>
    requires sound { IsSound project.now }
    requires ready { OnCert pen.old.to (IsTrue (D.ready desk.old)) }
    ensures { Puts D.files D.rest D.written D.printed D.target D.ready D.counts D.openings
        (line_text project.now (reservoir_between project.now reservoir (record { lo = lower; hi = upper })))
        result pen.old pen.new desk.old desk.new }
{
    let head = print_heads(project, lower, upper);
    put_parts(project, reservoir, &head, pen, desk)
}

/// Puts the line of a reservoir.
fn put_reservoir<D: Desk>(
    project: &Project,
    net: &Net,
    reservoir: u32,
    pen: &mut Pen,
    desk: &mut D,
) -> Result<(), OutFault>
    requires sound { IsSound project.now }
    requires in_range { reservoir < length net.now.reservoirs }
    requires ready { OnCert pen.old.to (IsTrue (D.ready desk.old)) }
    ensures { IfSome (slice_get (grid_of net.now).reservoirs reservoir) (λ height.
        Puts D.files D.rest D.written D.printed D.target D.ready D.counts D.openings
        (line_text project.now (reservoir_line project.now reservoir height)) result pen.old pen.new desk.old
        desk.new) }
{
    let _nodes = net.nodes();
    let height = net.fixed(Problem::Main, Side::Lower, net.junctions() + reservoir);
    put_reservoir_line(project, reservoir, height, height, pen, desk)
}

/// Puts the lines of all reservoirs.
pub(crate) fn put_reservoirs<D: Desk>(
    project: &Project,
    net: &Net,
    pen: &mut Pen,
    desk: &mut D,
) -> Result<(), OutFault>
    requires sound { IsSound project.now }
    requires ready { OnCert pen.old.to (IsTrue (D.ready desk.old)) }
    requires unbroken { pen.old.fault ≡ None }
    ensures { Puts D.files D.rest D.written D.printed D.target D.ready D.counts D.openings
        (texts project.now (map_from (reservoir_line project.now) 0 (grid_of net.now).reservoirs))
        result pen.old pen.new desk.old desk.new }
{
    let count = net.nodes() - net.junctions() - net.tanks();
    for r in 0..count {
        put_reservoir(project, net, r, pen, desk)?;
    }
    Ok(())
}
