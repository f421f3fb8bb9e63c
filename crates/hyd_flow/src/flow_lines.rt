//! The FLOW lines of a period.

ghost use Rattle.std.specs.Prelude.{◌≡◌, [], map, All, List, IsTrue, None};
ghost use Rattle.std.specs.List.{AllZip};
ghost use Rattle.hyd_cert.specs.FlowPartView.{links_in, part_of};
ghost use Rattle.hyd_cert.specs.RecordView.{row_of};
ghost use Rattle.hyd_io.specs.Output.{OnCert};
ghost use Rattle.hyd_io.specs.TextPutIn.{Puts};
ghost use Rattle.hyd_net.specs.Sound.{IsSound};
ghost use Rattle.hyd_period_network.specs.NetAsPeriodNetwork.{grid_of};
ghost use Rattle.hyd_spec.specs.Lists.{joined};
ghost use Rattle.hyd_spec_certificates.specs.RecordAndStanding.{Standing};
ghost use Rattle.hyd_spec_certificates.specs.declared.Side.{Side};
ghost use Rattle.hyd_spec_reports_with_flows.specs.FlowLines.{FlowLine, IsFlowLine, AreFlowLines, flow_line_text};
ghost use Rattle.hyd_spec_flows.specs.FlowParts.{JoinsJunctions, HasItsVector, IsFlowPart};
ghost use Rattle.hyd_flow.specs.GivenRecords.{IsGiven};

use crate::flows::flow_of;
use hyd_cert::{FlowPart, NamedVectors, Record};
use hyd_io::{Desk, OutFault, Pen};
use hyd_net::Project;
use hyd_period_network::Net;
use hyd_report::{is_report_time, put_flow_line};

/// Puts the FLOW lines of these links.
fn put_each<D: Desk>(
    project: &Project,
    net: &Net,
    row: &Record,
    links: &[NamedVectors],
    pen: &mut Pen,
    desk: &mut D,
) -> Result<(), OutFault>
    requires sound { IsSound project.now }
    requires given { IsGiven net.now row.now }
    requires joins { All (λ named. JoinsJunctions (grid_of net.now) named.link) (links_in links.now) }
    requires vectors { All (λ named. (side : Side) → HasItsVector (grid_of net.now) (row_of row.now) named side)
        (links_in links.now) }
    requires ready { OnCert pen.old.to (IsTrue (D.ready desk.old)) }
    requires unbroken { pen.old.fault ≡ None }
    ensures { (lines : List FlowLine)
        × (AllZip (IsFlowLine project.now (grid_of net.now) row.now.time) (links_in links.now) lines
        × Puts D.files D.rest D.written D.printed D.target D.ready D.counts D.openings
        (joined (map (flow_line_text project.now) lines)) result pen.old pen.new desk.old desk.new) }
{
    for i in 0..links.len() {
        let named = &links[i];
        let flow = flow_of(net, row, named);
        put_flow_line(project, row.time, named.link, &flow, pen, desk)?;
    }
    Ok(())
}

/// Puts nothing: a pen that has a fault answers it.
fn put_nothing<D: Desk>(pen: &mut Pen, desk: &mut D) -> Result<(), OutFault>
    requires { OnCert pen.old.to (IsTrue (D.ready desk.old)) }
    ensures { Puts D.files D.rest D.written D.printed D.target D.ready D.counts D.openings
        [] result pen.old pen.new desk.old desk.new }
{
    pen.put(desk, b"")
}

/// Puts the FLOW lines of a period that begins at a report time: one for each link that the part names, which has its
/// vectors. In any other period it puts nothing. Its faults and its needs are those of `Pen::put`.
pub fn put_flow_lines<D: Desk>(
    project: &Project,
    net: &Net,
    row: &Record,
    part: &FlowPart,
    pen: &mut Pen,
    desk: &mut D,
) -> Result<(), OutFault>
    requires sound { IsSound project.now }
    requires given { IsGiven net.now row.now }
    requires part { IsFlowPart (grid_of net.now) (row_of row.now) (part_of part.now) }
    requires ready { OnCert pen.old.to (IsTrue (D.ready desk.old)) }
    ensures { (standing : Standing) → standing.time ≡ row.now.time → (lines : List FlowLine)
        × (AreFlowLines project.now (grid_of net.now) standing (part_of part.now) lines
        × Puts D.files D.rest D.written D.printed D.target D.ready D.counts D.openings
        (joined (map (flow_line_text project.now) lines)) result pen.old pen.new desk.old desk.new) }
{
    put_nothing(pen, desk)?;
    if !is_report_time(project, row.time) {
        return Ok(());
    }
    put_each(project, net, row, part.as_slice(), pen, desk)
}
