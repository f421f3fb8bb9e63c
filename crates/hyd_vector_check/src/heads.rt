//! Heads of nodes.
#![tactic(auto)]

ghost use Rattle.std.specs.Prelude.{◌≡◌, ◌<◌, ◌≤◌, ◌*◌, ◌-ℤ◌, ◌↔◌, length, unsigned_abs, All, IsTrue, slice_set};
ghost use Rattle.hyd_spec.specs.Assignment.{head_at};
ghost use Rattle.hyd_spec_certificates.specs.PeriodNetwork.{all_heads};
ghost use Rattle.hyd_spec_certificates.specs.Certificate.{box_limit, IsInBox};
ghost use Rattle.hyd_period_network.specs.NetAsPeriodNetwork.{grid_of, node_count};
ghost use Rattle.hyd_period_network.specs.SoundNets.{HasProblem};

use hyd_period_network::Net;
use hyd_spec_certificates::{BOX_LIMIT, Problem, Side};

/// Whether a head lies in the box.
pub fn is_in_box(head: i64) -> bool
    ensures { IsTrue result ↔ IsInBox head }
{
    -BOX_LIMIT <= head && head <= BOX_LIMIT
}

/// A head of a vector.
pub fn head_of(u: &[i64], i: u32) -> i64
    requires { i < length u.now }
    ensures { result ≡ head_at u.now i }
{
    u[i as usize]
}

/// The head of a node, with `head` in place of node i's.
pub(crate) fn head_with(
    net: &Net,
    problem: Problem,
    side: Side,
    u: &[i64],
    i: u32,
    head: i64,
    node: u32,
) -> i64
    requires one_each { length u.now ≡ length net.now.junctions }
    requires in_box { All IsInBox u.now }
    requires head_in_box { IsInBox head }
    requires here { head ≡ head_at (all_heads (grid_of net.now) problem side (slice_set u.now i head)) i }
    requires pinned { HasProblem net.now problem }
    requires node { node < node_count net.now }
    ensures value { result ≡ head_at (all_heads (grid_of net.now) problem side (slice_set u.now i head)) node }
    ensures small { unsigned_abs result ≤ box_limit }
{
    if node == i {
        return head;
    }
    if (node as usize) < u.len() {
        return head_of(u, node);
    }
    net.fixed(problem, side, node)
}

/// The difference of two heads of the box, in head ticks.
pub fn difference(a: i64, b: i64) -> i64
    requires a { unsigned_abs a ≤ box_limit }
    requires b { unsigned_abs b ≤ box_limit }
    ensures value { result ≡ a -ℤ b }
    ensures small { unsigned_abs result ≤ 2 * box_limit }
{
    a - b
}
