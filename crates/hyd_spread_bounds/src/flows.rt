//! Flows of links.
#![tactic(auto)]

ghost use Rattle.std.specs.Prelude.{◌≡◌, ◌<◌, ◌≤◌, ◌*◌, ◌^◌, pos, slice_get, length, unsigned_abs};
ghost use Rattle.std.specs.Option.{IfSome};
ghost use Rattle.hyd_spec_certificates.specs.declared.Problem.TheVariants.{Main};
ghost use Rattle.hyd_spec_certificates.specs.Certificate.{box_limit};
ghost use Rattle.hyd_spec_certificates.specs.FlowIntervals.{difference, flow_box};
ghost use Rattle.hyd_spec_certificates.specs.SpansAsIntervals.{levels_of};
ghost use Rattle.hyd_spec_spread_runs.specs.OutermostPairs.{spanned};
ghost use Rattle.hyd_bounds.specs.VectorsInOrder.{IsSpan, IsVector, AreInOrder};
ghost use Rattle.hyd_spread_bounds.specs.BothSides.{pair_of, IsOrderedPair, all_below, all_above};

use crate::heads::head_span;
use hyd_bounds::flow_between;
use hyd_num::Span;
use hyd_period_network::Net;
use hyd_spec_certificates::LevelSpan;
use hyd_vector_check::difference;

/// The least and the greatest head difference along a link, in head ticks.
pub(crate) fn difference_span(
    upper: &Net,
    lower: &Net,
    link: u32,
    low: &[i64],
    high: &[i64],
) -> LevelSpan
    requires pair { IsOrderedPair (pair_of upper.now lower.now) }
    requires in_range { link < length upper.now.ends }
    requires low { IsVector lower.now low.now }
    requires high { IsVector upper.now high.now }
    ensures value { IfSome (slice_get (spanned (pair_of upper.now lower.now)).links link) (λ l.
        levels_of result ≡ difference l (all_below (pair_of upper.now lower.now) Main low.now)
        (all_above (pair_of upper.now lower.now) Main high.now)) }
    ensures small_lo { unsigned_abs result.lo ≤ 2 * box_limit }
    ensures small_hi { unsigned_abs result.hi ≤ 2 * box_limit }
{
    let ends = upper.ends(link);
    let from = head_span(upper, lower, ends.from, low, high);
    let to = head_span(upper, lower, ends.to, low, high);
    LevelSpan {
        lo: difference(from.lo, to.hi),
        hi: difference(from.hi, to.lo),
    }
}

/// What flows in a link from its first node to its second, in flow ticks: from the low flow at its least head
/// difference to the high flow at its greatest, widened by the tolerance. `low` and `high` are heads of the junctions
/// below and above those of every assignment, as a LOWER certificate on the LOWER net and an UPPER one on the UPPER
/// net, of `Problem::Main`, which are in order by `heads_in_order`.
pub fn flow_box(upper: &Net, lower: &Net, link: u32, low: &[i64], high: &[i64]) -> Span
    requires pair { IsOrderedPair (pair_of upper.now lower.now) }
    requires in_range { link < length upper.now.ends }
    requires low { IsVector lower.now low.now }
    requires high { IsVector upper.now high.now }
    requires ordered { AreInOrder (pos 0) (all_below (pair_of upper.now lower.now) Main low.now)
        (all_above (pair_of upper.now lower.now) Main high.now) }
    ensures flow { IfSome (slice_get (spanned (pair_of upper.now lower.now)).links link) (λ l.
        IsSpan result (flow_box l (all_below (pair_of upper.now lower.now) Main low.now)
        (all_above (pair_of upper.now lower.now) Main high.now))) }
    ensures small_lo { unsigned_abs result.lo ≤ 10 ^ 27 }
    ensures small_hi { unsigned_abs result.hi ≤ 10 ^ 27 }
{
    let _links = upper.links();
    let span = difference_span(upper, lower, link, low, high);
    flow_between(upper.law(link), span.lo, span.hi)
}
