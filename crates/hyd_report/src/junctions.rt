//! The lines of junctions.

ghost use Rattle.std.specs.Prelude.{◌≡◌, ◌<◌, ◌≤◌, ◌≤ℤ◌, pos, length, slice_get, IsTrue};
ghost use Rattle.std.specs.Prelude.{IfSome, None};
ghost use Rattle.hyd_io.specs.Output.{OnCert};
ghost use Rattle.hyd_net.specs.Sound.{IsSound};
ghost use Rattle.hyd_spec.specs.Lists.{map_from};
ghost use Rattle.hyd_spec_certificates.specs.Certificate.{IsInBox};
ghost use Rattle.hyd_spec_certificates.specs.Interval.{Interval};
ghost use Rattle.hyd_spec_certificates.specs.SpansAsIntervals.{flows_of};
ghost use Rattle.hyd_spec_reports.specs.ReportLine.{JunctionLine, line_text};
ghost use Rattle.hyd_period_network.specs.NetAsPeriodNetwork.{grid_of};
ghost use Rattle.hyd_bounds.specs.VectorsInOrder.{IsVector, AreInOrder};
ghost use Rattle.hyd_io.specs.TextPutIn.{Puts};
ghost use Rattle.hyd_report.specs.PrintedIntervals.{ArePrinted, IsSmall};
ghost use Rattle.hyd_report.specs.NodeAndLinkLines.{texts, junction_at, junction_between, junction_line};

use crate::ids::node_id;
use crate::line_pieces::put_pieces;
use crate::printed_intervals::{Ends, print_flows, print_heads, print_pressures};
use hyd_bounds::out_box;
use hyd_io::{Desk, OutFault, Pen};
use hyd_net::Project;
use hyd_num::Span;
use hyd_period_network::Net;

/// Puts the line of a junction by its heads, its elevation and its outflow.
fn put_parts<D: Desk>(
    project: &Project,
    junction: u32,
    head: &Ends,
    pressure: &Ends,
    outflow: &Ends,
    pen: &mut Pen,
    desk: &mut D,
) -> Result<(), OutFault>
    requires sound { IsSound project.now }
    requires ready { OnCert pen.old.to (IsTrue (D.ready desk.old)) }
    ensures { (h p o : Interval) → ArePrinted h head.now → ArePrinted p pressure.now → ArePrinted o outflow.now
        → Puts D.files D.rest D.written D.printed D.target D.ready D.counts D.openings
        (line_text project.now (JunctionLine junction h p o)) result pen.old pen.new desk.old desk.new }
{
    put_pieces(
        &[
            b"JUNCTION ".as_slice(),
            node_id(project, junction as usize),
            b" head ",
            head.low.bytes(),
            b" ",
            head.high.bytes(),
            b" pressure ",
            pressure.low.bytes(),
            b" ",
            pressure.high.bytes(),
            b" outflow ",
            outflow.low.bytes(),
            b" ",
            outflow.high.bytes(),
            b"\n",
        ],
        pen,
        desk,
    )
}

/// Puts the line of a junction by its number, two of its heads and its elevation, in head ticks, and its outflow, in
/// flow ticks. Its faults and its needs are those of `Pen::put`. It takes no memory.
pub fn put_junction_line<D: Desk>(
    project: &Project,
    junction: u32,
    lower: i64,
    upper: i64,
    elevation: i64,
    outflow: &Span,
    pen: &mut Pen,
    desk: &mut D,
) -> Result<(), OutFault>
    requires sound { IsSound project.now }
    requires small { IsSmall outflow.now }
    requires ready { OnCert pen.old.to (IsTrue (D.ready desk.old)) }
    ensures { Puts D.files D.rest D.written D.printed D.target D.ready D.counts D.openings
        (line_text project.now (junction_at project.now junction elevation (record { lo = lower; hi = upper })
        (flows_of outflow.now))) result pen.old pen.new desk.old desk.new }
{
    let head = print_heads(project, lower, upper);
    let pressure = print_pressures(project, lower, upper, elevation);
    let outflow = print_flows(project, outflow);
    put_parts(project, junction, &head, &pressure, &outflow, pen, desk)
}

/// Puts the line of a junction between two of its heads, in head ticks.
fn put_junction<D: Desk>(
    project: &Project,
    net: &Net,
    junction: u32,
    lower: &i64,
    upper: &i64,
    pen: &mut Pen,
    desk: &mut D,
) -> Result<(), OutFault>
    requires sound { IsSound project.now }
    requires in_range { junction < length net.now.junctions }
    requires lower { IsInBox lower.now }
    requires upper { IsInBox upper.now }
    requires ordered { lower.now ≤ℤ upper.now }
    requires ready { OnCert pen.old.to (IsTrue (D.ready desk.old)) }
    ensures { IfSome (slice_get (grid_of net.now).junctions junction) (λ here.
        Puts D.files D.rest D.written D.printed D.target D.ready D.counts D.openings
        (line_text project.now (junction_between project.now junction here lower.now upper.now)) result pen.old
        pen.new desk.old desk.new) }
{
    let flow = out_box(net, junction, *lower, *upper);
    put_junction_line(
        project,
        junction,
        *lower,
        *upper,
        net.elevation(junction),
        &flow,
        pen,
        desk,
    )
}

/// Puts the lines of all junctions, by vectors of heads below and above.
pub(crate) fn put_junctions<D: Desk>(
    project: &Project,
    net: &Net,
    lower: &[i64],
    upper: &[i64],
    pen: &mut Pen,
    desk: &mut D,
) -> Result<(), OutFault>
    requires sound { IsSound project.now }
    requires lower { IsVector net.now lower.now }
    requires upper { IsVector net.now upper.now }
    requires ordered { AreInOrder (pos 0) lower.now upper.now }
    requires ready { OnCert pen.old.to (IsTrue (D.ready desk.old)) }
    requires unbroken { pen.old.fault ≡ None }
    ensures { Puts D.files D.rest D.written D.printed D.target D.ready D.counts D.openings
        (texts project.now (map_from (junction_line project.now lower.now upper.now) 0 (grid_of net.now).junctions))
        result pen.old pen.new desk.old desk.new }
{
    for j in 0..net.junctions() {
        put_junction(
            project,
            net,
            j,
            &lower[j as usize],
            &upper[j as usize],
            pen,
            desk,
        )?;
    }
    Ok(())
}
