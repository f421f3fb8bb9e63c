//! The lines of links.

ghost use Rattle.std.specs.Prelude.{◌≡◌, ◌<◌, pos, length, slice_get, IsTrue, IfSome, None};
ghost use Rattle.hyd_io.specs.Output.{OnCert};
ghost use Rattle.hyd_io.specs.TextPutIn.{Puts};
ghost use Rattle.hyd_net.specs.Sound.{IsSound};
ghost use Rattle.hyd_spec.specs.Lists.{map_from};
ghost use Rattle.hyd_spec_certificates.specs.declared.Problem.TheVariants.{Main};
ghost use Rattle.hyd_spec_spread_runs.specs.OutermostPairs.{spanned};
ghost use Rattle.hyd_spec_reports.specs.ReportLine.{line_text};
ghost use Rattle.hyd_period_network.specs.GivenData.{IsNetButEmitters};
ghost use Rattle.hyd_period_network.specs.LawsInSettings.{AreStates};
ghost use Rattle.hyd_period_network.specs.NetAsPeriodNetwork.{states_of};
ghost use Rattle.hyd_bounds.specs.VectorsInOrder.{IsVector, AreInOrder};
ghost use Rattle.hyd_spread_bounds.specs.BothSides.{pair_of, IsOrderedPair, all_below, all_above};
ghost use Rattle.hyd_report.specs.NodeAndLinkLines.{texts, link_line};

use hyd_io::{Desk, OutFault, Pen};
use hyd_net::Project;
use hyd_period_network::Net;
use hyd_report::put_link_line;
use hyd_spread_bounds::{flow_box, status_of};

/// Puts the line of a link, by vectors of heads below and above.
fn put_link<D: Desk>(
    project: &Project,
    upper: &Net,
    lower: &Net,
    link: u32,
    low: &[i64],
    high: &[i64],
    pen: &mut Pen,
    desk: &mut D,
) -> Result<(), OutFault>
    requires sound { IsSound project.now }
    requires of { IsNetButEmitters project.now upper.now }
    requires pair { IsOrderedPair (pair_of upper.now lower.now) }
    requires states { AreStates project.now (states_of upper.now) }
    requires in_range { link < length project.now.links.list }
    requires low { IsVector lower.now low.now }
    requires high { IsVector upper.now high.now }
    requires ordered { AreInOrder (pos 0) (all_below (pair_of upper.now lower.now) Main low.now)
        (all_above (pair_of upper.now lower.now) Main high.now) }
    requires ready { OnCert pen.old.to (IsTrue (D.ready desk.old)) }
    ensures { IfSome (slice_get project.now.links.list link) (λ here.
        Puts D.files D.rest D.written D.printed D.target D.ready D.counts D.openings
        (line_text project.now (link_line project.now (spanned (pair_of upper.now lower.now))
        (all_below (pair_of upper.now lower.now) Main low.now) (all_above (pair_of upper.now lower.now) Main high.now)
        (states_of upper.now) link here))
        result pen.old pen.new desk.old desk.new) }
{
    let _links = upper.links();
    let flow = flow_box(upper, lower, link, low, high);
    let status = status_of(upper, lower, link, low, high);
    put_link_line(project, link, &flow, status, pen, desk)
}

/// Puts the lines of all links, by vectors of heads below and above.
pub(crate) fn put_links<D: Desk>(
    project: &Project,
    upper: &Net,
    lower: &Net,
    low: &[i64],
    high: &[i64],
    pen: &mut Pen,
    desk: &mut D,
) -> Result<(), OutFault>
    requires sound { IsSound project.now }
    requires of { IsNetButEmitters project.now upper.now }
    requires pair { IsOrderedPair (pair_of upper.now lower.now) }
    requires states { AreStates project.now (states_of upper.now) }
    requires low { IsVector lower.now low.now }
    requires high { IsVector upper.now high.now }
    requires ordered { AreInOrder (pos 0) (all_below (pair_of upper.now lower.now) Main low.now)
        (all_above (pair_of upper.now lower.now) Main high.now) }
    requires ready { OnCert pen.old.to (IsTrue (D.ready desk.old)) }
    requires unbroken { pen.old.fault ≡ None }
    ensures { Puts D.files D.rest D.written D.printed D.target D.ready D.counts D.openings
        (texts project.now (map_from (link_line project.now (spanned (pair_of upper.now lower.now))
        (all_below (pair_of upper.now lower.now) Main low.now) (all_above (pair_of upper.now lower.now) Main high.now)
        (states_of upper.now)) 0 project.now.links.list))
        result pen.old pen.new desk.old desk.new }
{
    for l in 0..upper.links() {
        put_link(project, upper, lower, l, low, high, pen, desk)?;
    }
    Ok(())
}
