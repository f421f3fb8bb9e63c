//! The lines of junctions.

ghost use Rattle.std.specs.Prelude.{◌≡◌, ◌<◌, ◌≤ℤ◌, pos, length, slice_get, slice_index_or, IsTrue, IfSome, None};
ghost use Rattle.hyd_io.specs.Output.{OnCert};
ghost use Rattle.hyd_io.specs.TextPutIn.{Puts};
ghost use Rattle.hyd_net.specs.Sound.{IsSound};
ghost use Rattle.hyd_spec.specs.Lists.{map_from};
ghost use Rattle.hyd_spec_certificates.specs.Certificate.{IsInBox};
ghost use Rattle.hyd_spec_reports.specs.ReportLine.{line_text};
ghost use Rattle.hyd_period_network.specs.NetAsPeriodNetwork.{grid_of};
ghost use Rattle.hyd_bounds.specs.VectorsInOrder.{IsVector, AreInOrder};
ghost use Rattle.hyd_spread_bounds.specs.BothSides.{pair_of, IsOrderedPair};
ghost use Rattle.hyd_report.specs.NodeAndLinkLines.{texts};
ghost use Rattle.hyd_spread_report.specs.LinesOverBothSides.{junction_over, junction_line_over};

use hyd_io::{Desk, OutFault, Pen};
use hyd_net::Project;
use hyd_period_network::Net;
use hyd_report::put_junction_line;
use hyd_spread_bounds::out_box;

/// Puts the line of a junction between two of its heads, in head ticks.
fn put_junction<D: Desk>(
    project: &Project,
    upper: &Net,
    lower: &Net,
    junction: u32,
    low: &i64,
    high: &i64,
    pen: &mut Pen,
    desk: &mut D,
) -> Result<(), OutFault>
    requires sound { IsSound project.now }
    requires pair { IsOrderedPair (pair_of upper.now lower.now) }
    requires in_range { junction < length upper.now.junctions }
    requires low { IsInBox low.now }
    requires high { IsInBox high.now }
    requires ordered { low.now ≤ℤ high.now }
    requires ready { OnCert pen.old.to (IsTrue (D.ready desk.old)) }
    ensures { IfSome (slice_get (grid_of upper.now).junctions junction) (λ here.
        Puts D.files D.rest D.written D.printed D.target D.ready D.counts D.openings
        (line_text project.now (junction_over project.now junction here
        (slice_index_or (grid_of lower.now).junctions junction here) low.now high.now))
        result pen.old pen.new desk.old desk.new) }
{
    let _junctions = upper.junctions();
    let outflow = out_box(upper, lower, junction, *low, *high);
    put_junction_line(
        project,
        junction,
        *low,
        *high,
        upper.elevation(junction),
        &outflow,
        pen,
        desk,
    )
}

/// Puts the lines of all junctions, by vectors of heads below and above.
pub(crate) fn put_junctions<D: Desk>(
    project: &Project,
    upper: &Net,
    lower: &Net,
    low: &[i64],
    high: &[i64],
    pen: &mut Pen,
    desk: &mut D,
) -> Result<(), OutFault>
    requires sound { IsSound project.now }
    requires pair { IsOrderedPair (pair_of upper.now lower.now) }
    requires low { IsVector lower.now low.now }
    requires high { IsVector upper.now high.now }
    requires ordered { AreInOrder (pos 0) low.now high.now }
    requires ready { OnCert pen.old.to (IsTrue (D.ready desk.old)) }
    requires unbroken { pen.old.fault ≡ None }
    ensures { Puts D.files D.rest D.written D.printed D.target D.ready D.counts D.openings
        (texts project.now (map_from (junction_line_over project.now (pair_of upper.now lower.now) low.now high.now) 0
        (grid_of upper.now).junctions))
        result pen.old pen.new desk.old desk.new }
{
    let _below = lower.junctions();
    for j in 0..upper.junctions() {
        put_junction(
            project,
            upper,
            lower,
            j,
            &low[j as usize],
            &high[j as usize],
            pen,
            desk,
        )?;
    }
    Ok(())
}
