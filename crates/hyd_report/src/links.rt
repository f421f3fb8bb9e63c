//! The lines of links.

ghost use Rattle.std.specs.Prelude.{◌≡◌, ◌<◌, pos, length, slice_get, IsTrue, IfSome, None};
ghost use Rattle.hyd_io.specs.Output.{OnCert};
ghost use Rattle.hyd_net.specs.Sound.{IsSound};
ghost use Rattle.hyd_spec.specs.Lists.{map_from};
ghost use Rattle.hyd_spec_certificates.specs.PeriodNetwork.{all_heads};
ghost use Rattle.hyd_spec_certificates.specs.Interval.{Interval};
ghost use Rattle.hyd_spec_certificates.specs.SpansAsIntervals.{flows_of};
ghost use Rattle.hyd_spec_certificates.specs.declared.Problem.TheVariants.{Main};
ghost use Rattle.hyd_spec_certificates.specs.declared.Side.TheVariants.{Upper, Lower};
ghost use Rattle.hyd_spec_reports.specs.ReportLine.{LinkLine, line_text};
ghost use Rattle.hyd_period_network.specs.NetAsPeriodNetwork.{grid_of, states_of};
ghost use Rattle.hyd_period_network.specs.NetsSetToPeriods.{IsNetOf};
ghost use Rattle.hyd_period_network.specs.LawsInSettings.{AreStates};
ghost use Rattle.hyd_bounds.specs.VectorsInOrder.{IsVector, AreInOrder};
ghost use Rattle.hyd_io.specs.TextPutIn.{Puts};
ghost use Rattle.hyd_report.specs.PrintedIntervals.{ArePrinted, IsSmall};
ghost use Rattle.hyd_report.specs.NodeAndLinkLines.{texts, link_at, link_line};

use crate::ids::link_id;
use crate::line_pieces::put_pieces;
use crate::printed_intervals::{Ends, print_flows};
use crate::states::status_word;
use hyd_bounds::{flow_box, status_of};
use hyd_io::{Desk, OutFault, Pen};
use hyd_net::Project;
use hyd_num::Span;
use hyd_period_network::Net;
use hyd_spec_certificates::StatusWord;

/// Puts the line of a link by its printed flow and its status.
fn put_parts<D: Desk>(
    project: &Project,
    link: u32,
    flow: &Ends,
    status: StatusWord,
    pen: &mut Pen,
    desk: &mut D,
) -> Result<(), OutFault>
    requires sound { IsSound project.now }
    requires ready { OnCert pen.old.to (IsTrue (D.ready desk.old)) }
    ensures { (f : Interval) → ArePrinted f flow.now
        → Puts D.files D.rest D.written D.printed D.target D.ready D.counts D.openings
        (line_text project.now (LinkLine link f status)) result pen.old pen.new desk.old desk.new }
{
    let status = status_word(status);
    put_pieces(
        &[
            b"LINK ".as_slice(),
            link_id(project, link),
            b" flow ",
            flow.low.bytes(),
            b" ",
            flow.high.bytes(),
            b" status ",
            status.bytes(),
            b"\n",
        ],
        pen,
        desk,
    )
}

/// Puts the line of a link by its number, its flow, in flow ticks, and its status. Its faults and its needs are those
/// of `Pen::put`. It takes no memory.
pub fn put_link_line<D: Desk>(
    project: &Project,
    link: u32,
    flow: &Span,
    status: StatusWord,
    pen: &mut Pen,
    desk: &mut D,
) -> Result<(), OutFault>
    requires sound { IsSound project.now }
    requires small { IsSmall flow.now }
    requires ready { OnCert pen.old.to (IsTrue (D.ready desk.old)) }
    ensures { Puts D.files D.rest D.written D.printed D.target D.ready D.counts D.openings
        (line_text project.now (link_at project.now link (flows_of flow.now) status))
        result pen.old pen.new desk.old desk.new }
{
    let flow = print_flows(project, flow);
    put_parts(project, link, &flow, status, pen, desk)
}

/// Puts the line of a link, by vectors of heads below and above.
fn put_link<D: Desk>(
    project: &Project,
    net: &Net,
    link: u32,
    lower: &[i64],
    upper: &[i64],
    pen: &mut Pen,
    desk: &mut D,
) -> Result<(), OutFault>
    requires sound { IsSound project.now }
    requires of { IsNetOf project.now net.now }
    requires states { AreStates project.now (states_of net.now) }
    requires in_range { link < length project.now.links.list }
    requires lower { IsVector net.now lower.now }
    requires upper { IsVector net.now upper.now }
    requires ordered { AreInOrder (pos 0) (all_heads (grid_of net.now) Main Lower lower.now)
        (all_heads (grid_of net.now) Main Upper upper.now) }
    requires ready { OnCert pen.old.to (IsTrue (D.ready desk.old)) }
    ensures { IfSome (slice_get project.now.links.list link) (λ here.
        Puts D.files D.rest D.written D.printed D.target D.ready D.counts D.openings
        (line_text project.now (link_line project.now (grid_of net.now) (all_heads
        (grid_of net.now) Main Lower lower.now)
        (all_heads (grid_of net.now) Main Upper upper.now) (states_of net.now) link here))
        result pen.old pen.new desk.old desk.new) }
{
    let _links = net.links();
    let flow = flow_box(net, link, lower, upper);
    let status = status_of(net, link, lower, upper);
    put_link_line(project, link, &flow, status, pen, desk)
}

/// Puts the lines of all links, by vectors of heads below and above.
pub(crate) fn put_links<D: Desk>(
    project: &Project,
    net: &Net,
    lower: &[i64],
    upper: &[i64],
    pen: &mut Pen,
    desk: &mut D,
) -> Result<(), OutFault>
    requires sound { IsSound project.now }
    requires of { IsNetOf project.now net.now }
    requires states { AreStates project.now (states_of net.now) }
    requires lower { IsVector net.now lower.now }
    requires upper { IsVector net.now upper.now }
    requires ordered { AreInOrder (pos 0) (all_heads (grid_of net.now) Main Lower lower.now)
        (all_heads (grid_of net.now) Main Upper upper.now) }
    requires ready { OnCert pen.old.to (IsTrue (D.ready desk.old)) }
    requires unbroken { pen.old.fault ≡ None }
    ensures { Puts D.files D.rest D.written D.printed D.target D.ready D.counts D.openings
        (texts project.now (map_from (link_line project.now (grid_of net.now) (all_heads
        (grid_of net.now) Main Lower lower.now)
        (all_heads (grid_of net.now) Main Upper upper.now) (states_of net.now)) 0 project.now.links.list))
        result pen.old pen.new desk.old desk.new }
{
    for l in 0..net.links() {
        put_link(project, net, l, lower, upper, pen, desk)?;
    }
    Ok(())
}
