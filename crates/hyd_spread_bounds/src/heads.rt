//! Heads of nodes.
#![tactic(auto)]

ghost use Rattle.std.specs.Prelude.{◌≡◌, ◌<◌, ◌≤◌, unsigned_abs};
ghost use Rattle.hyd_spec.specs.Assignment.{head_at};
ghost use Rattle.hyd_spec_certificates.specs.declared.Problem.TheVariants.{Main};
ghost use Rattle.hyd_spec_certificates.specs.Certificate.{box_limit};
ghost use Rattle.hyd_period_network.specs.NetAsPeriodNetwork.{node_count};
ghost use Rattle.hyd_bounds.specs.VectorsInOrder.{IsVector};
ghost use Rattle.hyd_spread_bounds.specs.BothSides.{pair_of, IsOrderedPair, all_below, all_above};

use hyd_bounds::node_head;
use hyd_period_network::Net;
use hyd_spec_certificates::{LevelSpan, Problem, Side};

/// The least and the greatest head of a node, in head ticks: those of the vectors for a junction, of the nets of both
/// sides for a reservoir or a tank. `low` and `high` are heads of the junctions below and above those of every
/// assignment, as a LOWER certificate on the LOWER net and an UPPER one on the UPPER net, of `Problem::Main`.
pub fn head_span(upper: &Net, lower: &Net, node: u32, low: &[i64], high: &[i64]) -> LevelSpan
    requires pair { IsOrderedPair (pair_of upper.now lower.now) }
    requires in_range { node < node_count upper.now }
    requires low { IsVector lower.now low.now }
    requires high { IsVector upper.now high.now }
    ensures lo { result.lo ≡ head_at (all_below (pair_of upper.now lower.now) Main low.now) node }
    ensures hi { result.hi ≡ head_at (all_above (pair_of upper.now lower.now) Main high.now) node }
    ensures small_lo { unsigned_abs result.lo ≤ box_limit }
    ensures small_hi { unsigned_abs result.hi ≤ box_limit }
{
    let _upper = upper.junctions();
    let _lower = lower.junctions();
    LevelSpan {
        lo: node_head(lower, Problem::Main, Side::Lower, low, node),
        hi: node_head(upper, Problem::Main, Side::Upper, high, node),
    }
}
