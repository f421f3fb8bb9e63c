//! Bounds: heads from which a round leads no farther on than a step.
#![tactic(auto)]

ghost use Rattle.std.specs.Prelude.{◌≡◌, ◌<◌, ◌↔◌, ◌≤ℤ◌, ℕ, pos, length, All, IsTrue, IfSome};
ghost use Rattle.hyd_spec.specs.Assignment.{head_at};
ghost use Rattle.hyd_spec_certificates.specs.declared.Problem.TheVariants.{Main};
ghost use Rattle.hyd_spec_certificates.specs.Certificate.{IsInBox, IsBeyond};
ghost use Rattle.hyd_period_network.specs.NetAsPeriodNetwork.{grid_of};
ghost use Rattle.hyd_vector_check.specs.NetOutflowBySide.{PassesWith};
ghost use Rattle.hyd_sweep.specs.Sweeps.{further};
ghost use Rattle.hyd_spent_rounds.specs.SpentRounds.{BoundsAt, IsBound};

use hyd_period_network::Net;
use hyd_spec_certificates::{HeldJunction, Problem, Side};
use hyd_vector_check::{head_of, is_in_box, surplus};

/// No step is greater, in head ticks: from one end of the box to the other.
const GREATEST_STEP: u64 = 2_000_000_000_000_000_000;

// Whether every head lies in the box.
fn are_in_box(net: &Net, u: &[i64]) -> bool
    requires one_each { length u.now ≡ length net.now.junctions }
    ensures { IsTrue result ↔ All IsInBox u.now }
{
    for i in 0..net.junctions() {
        if !is_in_box(head_of(u, i)) {
            return false;
        }
    }
    true
}

// Whether a head is as far out as another, or farther.
fn is_beyond(side: Side, from: i64, to: i64) -> bool
    ensures { IsTrue result ↔ IsBeyond side from to }
{
    match side {
        Side::Upper => from <= to,
        Side::Lower => to <= from,
    }
}

// Whether two heads are the same.
fn is_same(a: i64, b: i64) -> bool
    ensures { IsTrue result ↔ a ≡ b }
{
    a == b
}

fn is_enough(surplus: i128) -> bool
    ensures { IsTrue result ↔ pos 0 ≤ℤ surplus }
{
    surplus >= 0
}

// The head a step farther out.
fn stepped(side: Side, head: i64, step: i64) -> i64
    requires in_box { IsInBox head }
    requires some { pos 0 ≤ℤ step }
    requires most { step ≤ℤ pos 2000000000000000000 }
    ensures { (n : ℕ) → pos n ≡ step → result ≡ further side head n }
{
    match side {
        Side::Upper => head + step,
        Side::Lower => head - step,
    }
}

// The head a step farther out, where it lies in the box.
fn farther(side: Side, head: i64, step: u64) -> Option<i64>
    requires { IsInBox head }
    ensures value { IfSome result (λ there. there ≡ further side head step) }
    ensures in_box { IfSome result IsInBox }
{
    if step > GREATEST_STEP {
        return None;
    }
    let there = stepped(side, head, step as i64);
    if is_in_box(there) {
        return Some(there);
    }
    None
}

// Whether a junction passes a step farther out.
fn passes_farther(net: &Net, side: Side, u: &[i64], step: u64, i: u32) -> bool
    requires one_each { length u.now ≡ length net.now.junctions }
    requires in_box { All IsInBox u.now }
    requires inside { i < length u.now }
    ensures { IsTrue result → PassesWith (grid_of net.now) Main side u.now i (further side (head_at u.now i) step) }
{
    match farther(side, head_of(u, i), step) {
        Some(there) => is_enough(surplus(net, Problem::Main, side, u, i, there)),
        None => false,
    }
}

// Whether what is asked of a bound holds at a junction.
fn bounds_at(
    net: &Net,
    side: Side,
    held: &HeldJunction,
    start: &[i64],
    bound: &[i64],
    step: u64,
    i: u32,
) -> bool
    requires one_each { length bound.now ≡ length net.now.junctions }
    requires start_each { length start.now ≡ length bound.now }
    requires in_box { All IsInBox bound.now }
    requires inside { i < length bound.now }
    ensures { IsTrue result → BoundsAt held.now (grid_of net.now) side start.now bound.now step i }
{
    let here = head_of(bound, i);
    if !is_beyond(side, head_of(start, i), here) {
        return false;
    }
    if i == held.junction {
        return is_same(here, held.head);
    }
    passes_farther(net, side, bound, step, i)
}

/// Whether heads are a bound of what rounds from a start gain: no round from them leads farther on than a step.
pub(crate) fn is_bound(
    net: &Net,
    side: Side,
    held: &HeldJunction,
    start: &[i64],
    bound: &[i64],
    step: u64,
) -> bool
    requires one_each { length bound.now ≡ length net.now.junctions }
    requires start_each { length start.now ≡ length bound.now }
    ensures { IsTrue result → IsBound held.now (grid_of net.now) side start.now bound.now step }
{
    if !are_in_box(net, bound) {
        return false;
    }
    for i in 0..net.junctions() {
        if !bounds_at(net, side, held, start, bound, step, i) {
            return false;
        }
    }
    true
}
