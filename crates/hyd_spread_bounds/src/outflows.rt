//! Outflows of junctions.
#![tactic(auto)]

ghost use Rattle.std.specs.Prelude.{◌≡◌, ◌<◌, ◌≤◌, ◌^◌, ◌≤ℤ◌, Some, slice_get, length, unsigned_abs};
ghost use Rattle.hyd_spec_certificates.specs.Certificate.{IsInBox};
ghost use Rattle.hyd_spec_certificates.specs.PeriodNetwork.{GridJunction};
ghost use Rattle.hyd_spec_spread_runs.specs.OutermostPairs.{outflow_over};
ghost use Rattle.hyd_period_network.specs.NetAsPeriodNetwork.{grid_of};
ghost use Rattle.hyd_bounds.specs.VectorsInOrder.{IsSpan};
ghost use Rattle.hyd_spread_bounds.specs.BothSides.{pair_of, IsOrderedPair};

use hyd_num::Span;
use hyd_period_network::Net;

/// What leaves a junction beside its links between two of its heads (head ticks), in flow ticks: at least what leaves
/// it in the UPPER net, which has the least demands, at most what leaves it in the LOWER one; its demand flow widened
/// by the tolerance, and its emitter flow, widened by it where there is an emitter.
pub fn out_box(upper: &Net, lower: &Net, junction: u32, low: i64, high: i64) -> Span
    requires pair { IsOrderedPair (pair_of upper.now lower.now) }
    requires in_range { junction < length upper.now.junctions }
    requires low { IsInBox low }
    requires high { IsInBox high }
    requires ordered { low ≤ℤ high }
    ensures outflow { (above below : GridJunction)
        → slice_get (grid_of upper.now).junctions junction ≡ Some above
        → slice_get (grid_of lower.now).junctions junction ≡ Some below
        → IsSpan result (outflow_over above below low high) }
    ensures small_lo { unsigned_abs result.lo ≤ 10 ^ 27 }
    ensures small_hi { unsigned_abs result.hi ≤ 10 ^ 27 }
{
    let _upper = upper.junctions();
    let _lower = lower.junctions();
    let least = hyd_bounds::out_box(upper, junction, low, high);
    let greatest = hyd_bounds::out_box(lower, junction, low, high);
    Span {
        lo: least.lo,
        hi: greatest.hi,
    }
}
