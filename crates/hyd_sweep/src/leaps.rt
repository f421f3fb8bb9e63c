//! Leaps: vectors that some other source proposes, accepted by one pass.
#![tactic(auto)]

ghost use Rattle.std.specs.Prelude.{◌≡◌, ◌≢◌, ◌<◌, ◌↔◌, length, All, IsTrue, if◌then◌else◌};
ghost use Rattle.hyd_spec_certificates.specs.Certificate.{IsInBox, IsBeyond};
ghost use Rattle.hyd_spec_certificates.specs.StartsRaisesAndLeaps.{IsStart, IsLeap, LiesBeyond};
ghost use Rattle.hyd_period_network.specs.NetAsPeriodNetwork.{grid_of};
ghost use Rattle.hyd_period_network.specs.SoundNets.{HasProblem};
ghost use Rattle.hyd_sweep.specs.Sweeps.{HoldsInBox};
ghost use Rattle.hyd_sweep.specs.Leaps.{nearer, IsTurn, MayMove, IsLeapInTurn};

use crate::heads_along_side::{is_beyond, is_same, nearer};
use crate::single_raises::held_head;
use hyd_period_network::Net;
use hyd_spec_certificates::{HeldJunction, Problem, Side};
use hyd_vector_check::{head_of, is_in_box, passes};

// Whether every head lies in the box.
fn are_in_box(net: &Net, u: &[i64]) -> bool
    requires one_each { length u.now ≡ length net.now.junctions }
    ensures { IsTrue result ↔ All IsInBox u.now }
{
    for i in 0..net.junctions() {
        if !is_in_box(head_of(u, i)) {
            return false;
        }
    }
    true
}

// Whether every head of a vector lies as far out as another's, or farther.
fn lies_beyond(net: &Net, side: Side, u: &[i64], to: &[i64]) -> bool
    requires one_each { length u.now ≡ length net.now.junctions }
    requires other_each { length to.now ≡ length u.now }
    ensures { IsTrue result ↔ LiesBeyond side u.now to.now }
{
    for i in 0..net.junctions() {
        if !is_beyond(side, head_of(u, i), head_of(to, i)) {
            return false;
        }
    }
    true
}

// A head of a leap before its turn.
fn before_turn(side: Side, from: i64, to: i64) -> i64
    requires from_in_box { IsInBox from }
    requires to_in_box { IsInBox to }
    requires beyond { IsBeyond side from to }
    ensures still { to ≡ from → result ≡ to }
    ensures short { to ≢ from → result ≡ nearer side to }
    ensures in_box { IsInBox result }
{
    if to == from {
        return to;
    }
    nearer(side, to)
}

// Puts the heads of a leap as they are before the first turn.
fn put_first_turn(net: &Net, side: Side, u: &[i64], to: &[i64], heads: &mut [i64])
    requires one_each { length u.now ≡ length net.now.junctions }
    requires to_each { length to.now ≡ length u.now }
    requires heads_each { length heads.old ≡ length u.now }
    requires in_box { All IsInBox u.now }
    requires to_in_box { All IsInBox to.now }
    requires beyond { LiesBeyond side u.now to.now }
    ensures turn { IsTurn side u.now to.now heads.new 0 }
    ensures in_box { All IsInBox heads.new }
{
    for i in 0..net.junctions() {
        heads[i as usize] = before_turn(side, head_of(u, i), head_of(to, i));
    }
}

// Whether a junction may move as it does in a leap: it fails when it is its turn.
fn may_move(
    net: &Net,
    problem: Problem,
    side: Side,
    held: Option<HeldJunction>,
    u: &[i64],
    to: &[i64],
    heads: &[i64],
    i: u32,
) -> bool
    requires one_each { length u.now ≡ length net.now.junctions }
    requires to_each { length to.now ≡ length u.now }
    requires turn { IsTurn side u.now to.now heads.now i }
    requires in_box { All IsInBox heads.now }
    requires pinned { HasProblem net.now problem }
    requires held_in_box { HoldsInBox held }
    requires inside { i < length u.now }
    ensures { IsTrue result ↔ MayMove held (grid_of net.now) problem side u.now to.now i }
{
    let _junctions = net.junctions();
    if is_same(head_of(to, i), head_of(u, i)) {
        return true;
    }
    match held_head(held, i) {
        Some(_) => false,
        None => !passes(net, problem, side, heads, i),
    }
}

// Whether each junction may move as it does in a leap, one turn after another.
fn take_turns(
    net: &Net,
    problem: Problem,
    side: Side,
    held: Option<HeldJunction>,
    u: &[i64],
    to: &[i64],
    heads: &mut [i64],
) -> bool
    requires one_each { length u.now ≡ length net.now.junctions }
    requires to_each { length to.now ≡ length u.now }
    requires turn { IsTurn side u.now to.now heads.old 0 }
    requires in_box { All IsInBox heads.old }
    requires to_in_box { All IsInBox to.now }
    requires beyond { LiesBeyond side u.now to.now }
    requires pinned { HasProblem net.now problem }
    requires held_in_box { HoldsInBox held }
    ensures leaps { IsTrue result ↔ IsLeapInTurn held (grid_of net.now) problem side u.now to.now }
    ensures each { length heads.new ≡ length heads.old }
{
    for i in 0..net.junctions() {
        if !may_move(net, problem, side, held, u, to, heads, i) {
            return false;
        }
        heads[i as usize] = head_of(to, i);
    }
    true
}

/// Leaps to a proposed vector exactly where that is a leap: it lies in the box and not before u, and each junction that
/// it moves isn't held, and fails where the junctions before it stand as proposed and the moved ones from it on one
/// tick short of that. So it is where each junction that it moves fails at the proposed heads. From a start this leads
/// to a start. A vector is lent for it, of which nothing is kept.
pub fn leap(
    net: &Net,
    problem: Problem,
    side: Side,
    held: Option<HeldJunction>,
    u: &mut [i64],
    to: &[i64],
    heads: &mut [i64],
) -> bool
    requires one_each { length u.old ≡ length net.now.junctions }
    requires to_each { length to.now ≡ length u.old }
    requires heads_each { length heads.old ≡ length u.old }
    requires in_box { All IsInBox u.old }
    requires pinned { HasProblem net.now problem }
    requires held_in_box { HoldsInBox held }
    ensures leaps { IsTrue result ↔ IsLeapInTurn held (grid_of net.now) problem side u.old to.now }
    ensures every { IsLeap held (grid_of net.now) problem side u.old to.now → IsTrue result }
    ensures new { u.new ≡ (if result then to.now else u.old) }
    ensures start { IsTrue result → IsStart held (grid_of net.now) problem side u.old
        → IsStart held (grid_of net.now) problem side u.new }
    ensures each { length heads.new ≡ length heads.old }
{
    let _junctions = net.junctions();
    if !are_in_box(net, to) {
        return false;
    }
    if !lies_beyond(net, side, u, to) {
        return false;
    }
    put_first_turn(net, side, u, to, heads);
    if !take_turns(net, problem, side, held, u, to, heads) {
        return false;
    }
    u.copy_from_slice(to);
    true
}
