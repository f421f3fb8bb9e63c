//! Inflows of tanks.
#![tactic(auto)]

ghost use Rattle.std.specs.Prelude.{◌<◌, ◌≤◌, ◌^◌, ◌++◌, length, unsigned_abs};
ghost use Rattle.hyd_spec_certificates.specs.declared.Problem.TheVariants.{Pinned};
ghost use Rattle.hyd_spec_certificates.specs.FlowIntervals.{inflow_box};
ghost use Rattle.hyd_spec_spread_runs.specs.OutermostPairs.{spanned};
ghost use Rattle.hyd_bounds.specs.VectorsInOrder.{IsSpan, IsVector, AreInOrder, tank_width, tank_node_of};
ghost use Rattle.hyd_spread_bounds.specs.BothSides.{pair_of, IsOrderedPair, all_below, all_above};

use hyd_bounds::tank_flows;
use hyd_num::Span;
use hyd_period_network::Net;
use hyd_spec::MISSED_FLOW_TICKS;
use hyd_spec_certificates::Side;

// By how much every flow may miss its law, in flow ticks.
const TOLERANCE: i128 = MISSED_FLOW_TICKS as i128;

/// What flows into a tank, in flow ticks: from the LOWER vector on the LOWER net the flows toward it at least, from the
/// UPPER one on the UPPER net at most, widened by the tolerance for each of its link ends. `low` and `high` are heads
/// of the junctions with that tank pinned, as certificates of `Problem::Pinned`, each on the net of its side, which are
/// in order by `heads_in_order`.
pub fn tank_inflow(upper: &Net, lower: &Net, tank: u32, low: &[i64], high: &[i64]) -> Span
    requires pair { IsOrderedPair (pair_of upper.now lower.now) }
    requires in_range { tank < length upper.now.tanks }
    requires low { IsVector lower.now low.now }
    requires high { IsVector upper.now high.now }
    requires ordered { AreInOrder (tank_width (spanned (pair_of upper.now lower.now)) tank)
        (all_below (pair_of upper.now lower.now) (Pinned tank) low.now)
        (all_above (pair_of upper.now lower.now) (Pinned tank) high.now) }
    ensures inflow { IsSpan result (inflow_box (spanned (pair_of upper.now lower.now)) tank
        (tank_node_of upper.now tank) (low.now ++ lower.now.reservoirs) (high.now ++ upper.now.reservoirs)) }
    ensures small_lo { unsigned_abs result.lo ≤ 10 ^ 27 }
    ensures small_hi { unsigned_abs result.hi ≤ 10 ^ 27 }
{
    let _upper = upper.junctions();
    let _lower = lower.junctions();
    let node = upper.nodes() - upper.tanks() + tank;
    let missed = TOLERANCE * upper.row(node).len() as i128;
    let least = -tank_flows(lower, tank, Side::Lower, low, node);
    let greatest = -tank_flows(upper, tank, Side::Upper, high, node);
    Span {
        lo: least - missed,
        hi: greatest + missed,
    }
}
