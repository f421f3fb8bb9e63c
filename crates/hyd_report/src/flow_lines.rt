//! The lines of the flows of named links, and the last line where a part of a certificate with them was refused.

ghost use Rattle.std.specs.Prelude.{◌≡◌, ◌≤◌, ◌^◌, unsigned_abs, IsTrue};
ghost use Rattle.hyd_io.specs.Output.{OnCert};
ghost use Rattle.hyd_io.specs.TextPutIn.{Puts};
ghost use Rattle.hyd_net.specs.Sound.{IsSound};
ghost use Rattle.hyd_num.specs.PrintedDecimals.{flow_quantity};
ghost use Rattle.hyd_spec_certificates.specs.Interval.{Interval};
ghost use Rattle.hyd_spec_certificates.specs.SpansAsIntervals.{flows_of};
ghost use Rattle.hyd_spec_certificates.specs.PrintedIntervals.{Prints};
ghost use Rattle.hyd_spec.specs.ProgramTypes.{Project};
ghost use Rattle.hyd_spec_reports_with_flows.specs.FlowLines.{flow_line_text, refused_flow_line};
ghost use Rattle.hyd_spec_flows.specs.declared.FlowFails.TheVariants.{Name, Vector};
ghost use Rattle.hyd_report.specs.PrintedIntervals.{ArePrinted};

use crate::ids::{link_id, node_id};
use crate::line_pieces::put_pieces;
use crate::numbers_times_and_settings::{clock, number};
use crate::printed_intervals::{Ends, print_flows};
use crate::states::side_word;
use hyd_io::{Desk, OutFault, Pen};
use hyd_net::Project;
use hyd_num::Span;
use hyd_spec_certificates::Side;
use hyd_spec_flows::FlowFails;

/// Puts the line of a link's flow by its printed ends.
fn put_parts<D: Desk>(
    project: &Project,
    time: u32,
    link: u32,
    flow: &Ends,
    pen: &mut Pen,
    desk: &mut D,
) -> Result<(), OutFault>
    requires sound { IsSound project.now }
    requires ready { OnCert pen.old.to (IsTrue (D.ready desk.old)) }
    ensures { (ends : Interval) → ArePrinted ends flow.now
        → Puts D.files D.rest D.written D.printed D.target D.ready D.counts D.openings
        (flow_line_text project.now (record { time = time; link = link; ends = ends }))
        result pen.old pen.new desk.old desk.new }
{
    let time = clock(u64::from(time));
    put_pieces(
        &[
            b"FLOW ".as_slice(),
            time.bytes(),
            b" ",
            link_id(project, link),
            b" ",
            flow.low.bytes(),
            b" ",
            flow.high.bytes(),
            b"\n",
        ],
        pen,
        desk,
    )
}

/// Puts the FLOW line of a link, by its number, in a period that begins at a time (seconds): its flow in flow ticks,
/// rounded outward. Its faults and its needs are those of `Pen::put`.
pub fn put_flow_line<D: Desk>(
    project: &Project,
    time: u32,
    link: u32,
    flow: &Span,
    pen: &mut Pen,
    desk: &mut D,
) -> Result<(), OutFault>
    requires sound { IsSound project.now }
    requires low { unsigned_abs flow.now.lo ≤ 10 ^ 27 }
    requires high { unsigned_abs flow.now.hi ≤ 10 ^ 27 }
    requires ready { OnCert pen.old.to (IsTrue (D.ready desk.old)) }
    ensures { (ends : Interval) → Prints (flow_quantity project.now.options.unit) (flows_of flow.now) ends
        → Puts D.files D.rest D.written D.printed D.target D.ready D.counts D.openings
        (flow_line_text project.now (record { time = time; link = link; ends = ends }))
        result pen.old pen.new desk.old desk.new }
{
    let flow = print_flows(project, flow);
    put_parts(project, time, link, &flow, pen, desk)
}

/// Puts the last line where the part behind a valid record, whose number is given, was refused. Its faults and its
/// needs are those of `Pen::put`.
pub fn put_refused_flow<D: Desk>(
    project: &Project,
    period: u32,
    cause: &FlowFails,
    pen: &mut Pen,
    desk: &mut D,
) -> Result<(), OutFault>
    requires sound { IsSound project.now }
    requires ready { OnCert pen.old.to (IsTrue (D.ready desk.old)) }
    ensures { Puts D.files D.rest D.written D.printed D.target D.ready D.counts D.openings
        (refused_flow_line project.now period cause.now) result pen.old pen.new desk.old desk.new }
{
    match *cause {
        FlowFails::Name { link } => put_refused_name(period, link, pen, desk),
        FlowFails::Vector {
            link,
            side,
            junction,
        } => put_refused_vector(project, period, link, side, junction, pen, desk),
    }
}

/// Puts that line where a name is refused.
fn put_refused_name<D: Desk>(
    period: u32,
    link: u32,
    pen: &mut Pen,
    desk: &mut D,
) -> Result<(), OutFault>
    requires ready { OnCert pen.old.to (IsTrue (D.ready desk.old)) }
    ensures { (project : Project) → Puts D.files D.rest D.written D.printed D.target D.ready D.counts D.openings
        (refused_flow_line project period (Name link)) result pen.old pen.new desk.old desk.new }
{
    let period = number(u64::from(period));
    let link = number(u64::from(link));
    put_pieces(
        &[
            b"BADCERT period ".as_slice(),
            period.bytes(),
            b" FLOW ",
            link.bytes(),
            b" NAME",
            b"\n",
        ],
        pen,
        desk,
    )
}

/// Puts that line where a vector is refused.
fn put_refused_vector<D: Desk>(
    project: &Project,
    period: u32,
    link: u32,
    side: Side,
    junction: u32,
    pen: &mut Pen,
    desk: &mut D,
) -> Result<(), OutFault>
    requires sound { IsSound project.now }
    requires ready { OnCert pen.old.to (IsTrue (D.ready desk.old)) }
    ensures { Puts D.files D.rest D.written D.printed D.target D.ready D.counts D.openings
        (refused_flow_line project.now period (Vector link side junction))
        result pen.old pen.new desk.old desk.new }
{
    let period = number(u64::from(period));
    let link = number(u64::from(link));
    let side = side_word(side);
    put_pieces(
        &[
            b"BADCERT period ".as_slice(),
            period.bytes(),
            b" FLOW ",
            link.bytes(),
            b" ",
            side.bytes(),
            b" JUNCTION ",
            node_id(project, junction as usize),
            b"\n",
        ],
        pen,
        desk,
    )
}
