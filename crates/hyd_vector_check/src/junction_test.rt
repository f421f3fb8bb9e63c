//! Whether a junction passes.
#![tactic(auto)]

ghost use Rattle.std.specs.Prelude.{◌≡◌, ◌<◌, ◌≤◌, ◌^◌, ◌↔◌, ◌≤ℤ◌, pos, length, unsigned_abs, All, IsTrue, Some};
ghost use Rattle.std.specs.Prelude.{slice_get, slice_set};
ghost use Rattle.hyd_spec_certificates.specs.PeriodNetwork.{GridJunction};
ghost use Rattle.hyd_spec_certificates.specs.Certificate.{IsInBox};
ghost use Rattle.hyd_spec_certificates.specs.NetOutflow.{net_low, net_high};
ghost use Rattle.hyd_period_network.specs.NetAsPeriodNetwork.{grid_of};
ghost use Rattle.hyd_period_network.specs.SoundNets.{HasProblem};
ghost use Rattle.hyd_vector_check.specs.NetOutflowBySide.{net_outflow, surplus, PassesWith, PassesAt};

use crate::flows::flows_out;
use crate::heads::head_of;
use crate::outflows::outflow;
use hyd_period_network::Net;
use hyd_spec_certificates::{Problem, Side};

// The net outflow of junction i, with `head` in place of its own.
fn net_outflow(net: &Net, problem: Problem, side: Side, u: &[i64], i: u32, head: i64) -> i128
    requires one_each { length u.now ≡ length net.now.junctions }
    requires in_box { All IsInBox u.now }
    requires head_in_box { IsInBox head }
    requires inside { i < length u.now }
    requires pinned { HasProblem net.now problem }
    ensures value { (junction : GridJunction) → slice_get (grid_of net.now).junctions i ≡ Some junction
        → result ≡ net_outflow side (grid_of net.now) problem (slice_set u.now i head) i junction }
    ensures small { unsigned_abs result ≤ 2 ^ 114 }
{
    let _nodes = net.nodes();
    flows_out(net, problem, side, u, i, head) + outflow(net, side, i, head)
}

/// At most the net outflow of junction i under heads u, in flow ticks: the low flows out of it, less the high flows
/// into it, plus the low outflows (Rheinboldt 1970). Reservoirs and tanks have their heads of the UPPER side.
pub fn net_low(net: &Net, problem: Problem, u: &[i64], i: u32) -> i128
    requires one_each { length u.now ≡ length net.now.junctions }
    requires in_box { All IsInBox u.now }
    requires inside { i < length u.now }
    requires pinned { HasProblem net.now problem }
    ensures value { (junction : GridJunction) → slice_get (grid_of net.now).junctions i ≡ Some junction
        → result ≡ net_low (grid_of net.now) problem u.now i junction }
    ensures small { unsigned_abs result ≤ 2 ^ 114 }
{
    net_outflow(net, problem, Side::Upper, u, i, head_of(u, i))
}

/// At least the net outflow of junction i under heads u, in flow ticks: the high flows out of it, less the low flows
/// into it, plus the high outflows (Rheinboldt 1970). Reservoirs and tanks have their heads of the LOWER side.
pub fn net_high(net: &Net, problem: Problem, u: &[i64], i: u32) -> i128
    requires one_each { length u.now ≡ length net.now.junctions }
    requires in_box { All IsInBox u.now }
    requires inside { i < length u.now }
    requires pinned { HasProblem net.now problem }
    ensures value { (junction : GridJunction) → slice_get (grid_of net.now).junctions i ≡ Some junction
        → result ≡ net_high (grid_of net.now) problem u.now i junction }
    ensures small { unsigned_abs result ≤ 2 ^ 114 }
{
    net_outflow(net, problem, Side::Lower, u, i, head_of(u, i))
}

/// By how much junction i passes with `head` in place of its own, in flow ticks: its net outflow, for LOWER its net
/// inflow, less its margin and 1. So it is at least 0 exactly where the junction passes.
pub fn surplus(net: &Net, problem: Problem, side: Side, u: &[i64], i: u32, head: i64) -> i128
    requires one_each { length u.now ≡ length net.now.junctions }
    requires in_box { All IsInBox u.now }
    requires head_in_box { IsInBox head }
    requires inside { i < length u.now }
    requires pinned { HasProblem net.now problem }
    ensures value { (junction : GridJunction) → slice_get (grid_of net.now).junctions i ≡ Some junction
        → result ≡ surplus side (grid_of net.now) problem (slice_set u.now i head) i junction }
    ensures passes { pos 0 ≤ℤ result ↔ PassesWith (grid_of net.now) problem side u.now i head }
    ensures small { unsigned_abs result ≤ 2 ^ 115 }
{
    let _junctions = net.junctions();
    let outflow = net_outflow(net, problem, side, u, i, head);
    let needed = i128::from(net.margin(i)) + 1;
    match side {
        Side::Upper => outflow - needed,
        Side::Lower => -outflow - needed,
    }
}

fn is_some(surplus: i128) -> bool
    ensures { IsTrue result ↔ pos 0 ≤ℤ surplus }
{
    surplus >= 0
}

/// Whether junction i passes with `head` in place of its own: for UPPER its margin and 1 flow out of it on balance, for
/// LOWER as much flows into it.
pub fn passes_with(net: &Net, problem: Problem, side: Side, u: &[i64], i: u32, head: i64) -> bool
    requires one_each { length u.now ≡ length net.now.junctions }
    requires in_box { All IsInBox u.now }
    requires head_in_box { IsInBox head }
    requires inside { i < length u.now }
    requires pinned { HasProblem net.now problem }
    ensures { IsTrue result ↔ PassesWith (grid_of net.now) problem side u.now i head }
{
    is_some(surplus(net, problem, side, u, i, head))
}

/// Whether junction i passes.
pub fn passes(net: &Net, problem: Problem, side: Side, u: &[i64], i: u32) -> bool
    requires one_each { length u.now ≡ length net.now.junctions }
    requires in_box { All IsInBox u.now }
    requires inside { i < length u.now }
    requires pinned { HasProblem net.now problem }
    ensures { IsTrue result ↔ PassesAt (grid_of net.now) problem side u.now i }
{
    passes_with(net, problem, side, u, i, head_of(u, i))
}
