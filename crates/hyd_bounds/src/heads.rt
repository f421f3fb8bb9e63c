//! Heads of nodes.
#![tactic(auto)]

ghost use Rattle.std.specs.Prelude.{◌≡◌, ◌<◌, ◌≤◌, unsigned_abs};
ghost use Rattle.hyd_spec.specs.Assignment.{head_at};
ghost use Rattle.hyd_spec_certificates.specs.PeriodNetwork.{all_heads};
ghost use Rattle.hyd_spec_certificates.specs.Certificate.{box_limit};
ghost use Rattle.hyd_period_network.specs.NetAsPeriodNetwork.{grid_of, node_count};
ghost use Rattle.hyd_period_network.specs.SoundNets.{HasProblem};
ghost use Rattle.hyd_bounds.specs.VectorsInOrder.{IsVector};

use hyd_period_network::Net;
use hyd_spec_certificates::{Problem, Side};

/// The head of a node in a problem and on a side, a vector's for the junctions, in head ticks.
pub fn node_head(net: &Net, problem: Problem, side: Side, u: &[i64], node: u32) -> i64
    requires vector { IsVector net.now u.now }
    requires pinned { HasProblem net.now problem }
    requires in_range { node < node_count net.now }
    ensures value { result ≡ head_at (all_heads (grid_of net.now) problem side u.now) node }
    ensures small { unsigned_abs result ≤ box_limit }
{
    if (node as usize) < u.len() {
        return u[node as usize];
    }
    net.fixed(problem, side, node)
}
