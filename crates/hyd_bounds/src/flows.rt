//! Flows of links.
#![tactic(auto)]

ghost use Rattle.std.specs.Prelude.{◌≡◌, ◌<◌, ◌≤◌, ◌^◌, ◌≤ℤ◌, ◌+ℤ◌, ◌-ℤ◌, pos, slice_get, length, unsigned_abs};
ghost use Rattle.std.specs.Option.{IfSome};
ghost use Rattle.hyd_spec.specs.Scale.{missed_flow_ticks};
ghost use Rattle.hyd_spec_certificates.specs.declared.Problem.TheVariants.{Main};
ghost use Rattle.hyd_spec_certificates.specs.declared.Side.TheVariants.{Upper, Lower};
ghost use Rattle.hyd_spec_certificates.specs.PeriodNetwork.{all_heads};
ghost use Rattle.hyd_spec_certificates.specs.FlowIntervals.{flow_box};
ghost use Rattle.hyd_period_network.specs.NetAsPeriodNetwork.{grid_of};
ghost use Rattle.hyd_law.specs.LinkLaws.{link_low, link_high, IsSoundLink, LinkAccepts};
ghost use Rattle.hyd_bounds.specs.VectorsInOrder.{IsSpan, IsVector, AreInOrder};
ghost use Rattle.hyd_bounds.specs.FlowsAndStatusesOfAssignments.{HoldsFlow};

use crate::heads::node_head;
use hyd_law::{Law, LinkLaw};
use hyd_num::Span;
use hyd_period_network::Net;
use hyd_spec::MISSED_FLOW_TICKS;
use hyd_spec_certificates::{Problem, Side};
use hyd_vector_check::difference;

/// By how much every flow may miss its law, in flow ticks.
pub(crate) const TOLERANCE: i128 = MISSED_FLOW_TICKS as i128;

/// The flow of a link between two head differences, in head ticks, widened by the tolerance, in flow ticks.
pub fn flow_between(law: &LinkLaw, least: i64, greatest: i64) -> Span
    requires sound { IsSoundLink law.now }
    requires least { LinkAccepts law.now least }
    requires greatest { LinkAccepts law.now greatest }
    requires ordered { least ≤ℤ greatest }
    ensures lo { result.lo ≡ (link_low law.now least -ℤ pos missed_flow_ticks) }
    ensures hi { result.hi ≡ (link_high law.now greatest +ℤ pos missed_flow_ticks) }
    ensures small_lo { unsigned_abs result.lo ≤ 2 ^ 82 }
    ensures small_hi { unsigned_abs result.hi ≤ 2 ^ 82 }
{
    Span {
        lo: law.low(least) - TOLERANCE,
        hi: law.high(greatest) + TOLERANCE,
    }
}

/// What flows in a link from its first node to its second, in flow ticks: from the low flow at its least head
/// difference to the high flow at its greatest, widened by the tolerance. `low` and `high` are heads of the junctions
/// below and above those of every assignment, as a LOWER and an UPPER certificate of `Problem::Main`: of such the span
/// holds the link's flow in every assignment, at every scale.
pub fn flow_box(net: &Net, link: u32, low: &[i64], high: &[i64]) -> Span
    requires in_range { link < length net.now.ends }
    requires low { IsVector net.now low.now }
    requires high { IsVector net.now high.now }
    requires ordered { AreInOrder (pos 0) (all_heads (grid_of net.now) Main Lower low.now)
        (all_heads (grid_of net.now) Main Upper high.now) }
    ensures flow { IfSome (slice_get (grid_of net.now).links link) (λ l.
        IsSpan result (flow_box l (all_heads (grid_of net.now) Main Lower low.now)
        (all_heads (grid_of net.now) Main Upper high.now))) }
    ensures holds { HoldsFlow (grid_of net.now) low.now high.now link result }
    ensures small_lo { unsigned_abs result.lo ≤ 10 ^ 27 }
    ensures small_hi { unsigned_abs result.hi ≤ 10 ^ 27 }
{
    let _links = net.links();
    let ends = net.ends(link);
    let least = difference(
        node_head(net, Problem::Main, Side::Lower, low, ends.from),
        node_head(net, Problem::Main, Side::Upper, high, ends.to),
    );
    let greatest = difference(
        node_head(net, Problem::Main, Side::Upper, high, ends.from),
        node_head(net, Problem::Main, Side::Lower, low, ends.to),
    );
    flow_between(net.law(link), least, greatest)
}
