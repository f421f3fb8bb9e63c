//! Flows of links out of a node.
#![tactic(auto)]

ghost use Rattle.std.specs.Prelude.{◌≡◌, ◌<◌, ◌≤◌, ◌*◌, ◌^◌, length, unsigned_abs, All, slice_set};
ghost use Rattle.hyd_spec.specs.Assignment.{head_at};
ghost use Rattle.hyd_spec.specs.Law.{Law};
ghost use Rattle.hyd_spec_certificates.specs.PeriodNetwork.{all_heads};
ghost use Rattle.hyd_spec_certificates.specs.Certificate.{IsInBox};
ghost use Rattle.hyd_period_network.specs.PassedOn.{IsSoundLink, LinkAccepts};
ghost use Rattle.hyd_period_network.specs.LawsInSettings.{Stands};
ghost use Rattle.hyd_period_network.specs.NetAsPeriodNetwork.{grid_of, node_count};
ghost use Rattle.hyd_period_network.specs.SoundNets.{HasProblem};
ghost use Rattle.hyd_period_network.specs.LinkEnds.{IsTie, tie_share};
ghost use Rattle.hyd_period_network.specs.SoundNets.{is_upper};
ghost use Rattle.hyd_vector_check.specs.NetOutflowBySide.{flow_by, is_lower, flows_out};

use crate::heads::{difference, head_with};
use hyd_period_network::{Law, LinkLaw, Net, Tie};
use hyd_spec_certificates::{Problem, Side};

pub(crate) fn is_lower(side: Side) -> bool
    ensures { result ≡ is_lower side }
{
    match side {
        Side::Upper => false,
        Side::Lower => true,
    }
}

fn is_upper(side: Side) -> bool
    ensures { result ≡ is_upper side }
{
    match side {
        Side::Upper => true,
        Side::Lower => false,
    }
}

// The high flow of a link at a head difference, or the low one.
fn flow(law: &LinkLaw, high: bool, d: i64) -> i128
    requires sound { IsSoundLink law.now }
    requires accepted { LinkAccepts law.now d }
    ensures value { (exact : Law) → Stands law.now exact → result ≡ flow_by high exact d }
    ensures small { unsigned_abs result ≤ 241 * 10 ^ 20 }
{
    if high {
        return law.high(d);
    }
    law.low(d)
}

// What a link end takes out of node i at a head, less what it brings.
fn share(net: &Net, problem: Problem, side: Side, u: &[i64], i: u32, head: i64, tie: Tie) -> i128
    requires one_each { length u.now ≡ length net.now.junctions }
    requires in_box { All IsInBox u.now }
    requires head_in_box { IsInBox head }
    requires here { head ≡ head_at (all_heads (grid_of net.now) problem side (slice_set u.now i head)) i }
    requires pinned { HasProblem net.now problem }
    requires tie { IsTie (node_count net.now) (length net.now.ends) tie }
    requires links { length (grid_of net.now).links ≡ length net.now.ends }
    ensures value { let heads = all_heads (grid_of net.now) problem side (slice_set u.now i head) in
        result ≡ tie_share (flow_by (is_lower side)) (flow_by (is_upper side)) (grid_of net.now).links heads head tie }
    ensures small { unsigned_abs result ≤ 241 * 10 ^ 20 }
{
    let there = head_with(net, problem, side, u, i, head, tie.other);
    let law = net.law(tie.link);
    if tie.out {
        return flow(law, is_lower(side), difference(head, there));
    }
    -flow(law, is_upper(side), difference(there, head))
}

/// The flows of links out of node i at a head (head ticks), less those into it, in flow ticks: for UPPER at most, for
/// LOWER at least. The other junctions have the heads u; `head` is in place of a junction's own, and is a reservoir's
/// or tank's.
pub fn flows_out(net: &Net, problem: Problem, side: Side, u: &[i64], i: u32, head: i64) -> i128
    requires one_each { length u.now ≡ length net.now.junctions }
    requires in_box { All IsInBox u.now }
    requires head_in_box { IsInBox head }
    requires node { i < node_count net.now }
    requires here { head ≡ head_at (all_heads (grid_of net.now) problem side (slice_set u.now i head)) i }
    requires pinned { HasProblem net.now problem }
    ensures value { result ≡ flows_out side (all_heads (grid_of net.now) problem side (slice_set u.now i head)) i
        (grid_of net.now).links }
    ensures small { unsigned_abs result ≤ 964 * 10 ^ 24 }
{
    let _links = net.links();
    let mut sum: i128 = 0;
    for tie in net.row(i) {
        sum += share(net, problem, side, u, i, head, *tie);
    }
    sum
}
