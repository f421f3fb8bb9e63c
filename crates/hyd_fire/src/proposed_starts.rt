//! Heads that are proposed as a start, with or without a junction held: turns of junctions show that every certificate
//! lies beyond them (the burning test, Dhar 1990). A held junction, and one at the near end of the box, needs no turn.
#![tactic(auto)]

ghost use Rattle.std.specs.Prelude.{◌≡◌, ◌<◌, ◌↔◌, ◌⊎◌, ℕ, ℤ, length, All, None, false, IfSome, IsTrue, MatchOption};
ghost use Rattle.hyd_spec.specs.Assignment.{head_at};
ghost use Rattle.hyd_spec_certificates.specs.declared.Problem.TheVariants.{Main};
ghost use Rattle.hyd_spec_certificates.specs.Certificate.{IsInBox};
ghost use Rattle.hyd_spec_certificates.specs.StartsRaisesAndLeaps.{IsStart};
ghost use Rattle.hyd_theorems_on_definitions.specs.Sides.{near_end};
ghost use Rattle.hyd_period_network.specs.NetAsPeriodNetwork.{grid_of};
ghost use Rattle.hyd_sweep.specs.Leaps.{nearer};
ghost use Rattle.hyd_sweep.specs.Sweeps.{IsFree, IsHeldAt, HoldsInBox};
ghost use Rattle.hyd_fire.specs.TurnsWithHeldJunction.{FirstHead, IsBeforeTurns, AreInTurn, StandsHeld};

use hyd_period_network::Net;
use hyd_spec_certificates::{BOX_LIMIT, HeldJunction, Problem, Side};
use hyd_sweep::nearer;
use hyd_vector_check::{head_of, is_in_box, passes};

// The near end of the box.
fn near_end(side: Side) -> i64
    ensures { result ≡ near_end side }
{
    match side {
        Side::Upper => -BOX_LIMIT,
        Side::Lower => BOX_LIMIT,
    }
}

// The head at which a junction is held, if it is.
fn held_head(held: Option<HeldJunction>, i: u32) -> Option<i64>
    requires { HoldsInBox held }
    ensures { MatchOption result (IsFree held i) (λ h. IsHeldAt held i h × IsInBox h) }
{
    match held {
        Some(there) => {
            if there.junction == i {
                Some(there.head)
            } else {
                None
            }
        }
        None => None,
    }
}

// Whether a junction is held.
fn is_held(held: Option<HeldJunction>, i: u32) -> bool
    requires { HoldsInBox held }
    ensures { result ≡ false → IsFree held i }
{
    match held_head(held, i) {
        Some(_) => true,
        None => false,
    }
}

// The head one tick nearer, or the same at the near end of the box.
fn nearer_head(side: Side, head: i64) -> i64
    requires { IsInBox head }
    ensures near { (result ≡ nearer side head) ⊎ ((result ≡ head) × (head ≡ near_end side)) }
    ensures in_box { IsInBox result }
{
    if head == near_end(side) {
        return head;
    }
    nearer(side, head)
}

// The proposed head where a junction is held there.
fn own_head(at: i64, head: i64) -> Option<i64>
    ensures { IfSome result (λ h. (h ≡ head) × (head ≡ at)) }
{
    if at == head {
        return Some(head);
    }
    None
}

// The head of a junction before the first turn, of a proposed one: where it is held, that one.
fn first_head(side: Side, held: Option<HeldJunction>, head: i64, i: u32) -> Option<i64>
    requires held_in_box { HoldsInBox held }
    requires in_box { IsInBox head }
    ensures first { IfSome result (FirstHead held side i head) }
    ensures in_box { IfSome result IsInBox }
{
    match held_head(held, i) {
        Some(at) => own_head(at, head),
        None => Some(nearer_head(side, head)),
    }
}

// Puts the heads before the first turn, and tells whether the proposed ones lie in the box, a held junction at its
// head.
fn put_first_heads(
    net: &Net,
    side: Side,
    held: Option<HeldJunction>,
    to: &[i64],
    heads: &mut [i64],
) -> bool
    requires one_each { length to.now ≡ length net.now.junctions }
    requires heads_each { length heads.old ≡ length to.now }
    requires held_in_box { HoldsInBox held }
    ensures first { IsTrue result → IsBeforeTurns held side to.now heads.new }
    ensures each { length heads.new ≡ length heads.old }
{
    for i in 0..net.junctions() {
        let proposed = head_of(to, i);
        if !is_in_box(proposed) {
            return false;
        }
        let Some(head) = first_head(side, held, proposed, i) else {
            return false;
        };
        heads[i as usize] = head;
    }
    true
}

// Puts a junction to its proposed head, where it fails.
fn take_turn(
    net: &Net,
    side: Side,
    held: Option<HeldJunction>,
    to: &[i64],
    heads: &mut [i64],
    i: u32,
)
    requires one_each { length to.now ≡ length net.now.junctions }
    requires turns { AreInTurn held (grid_of net.now) side to.now heads.old }
    requires held_in_box { HoldsInBox held }
    ensures { AreInTurn held (grid_of net.now) side to.now heads.new }
{
    let junctions = net.junctions();
    if i >= junctions {
        return;
    }
    if is_held(held, i) {
        return;
    }
    if passes(net, Problem::Main, side, heads, i) {
        return;
    }
    heads[i as usize] = head_of(to, i);
}

// Takes the turns of junctions in an order.
fn take_turns(
    net: &Net,
    side: Side,
    held: Option<HeldJunction>,
    to: &[i64],
    order: &[u32],
    heads: &mut [i64],
)
    requires one_each { length to.now ≡ length net.now.junctions }
    requires turns { AreInTurn held (grid_of net.now) side to.now heads.old }
    requires held_in_box { HoldsInBox held }
    ensures { AreInTurn held (grid_of net.now) side to.now heads.new }
{
    for i in order {
        take_turn(net, side, held, to, heads, *i);
    }
}

// Whether a head stands as proposed.
fn is_same(to: &[i64], heads: &[i64], i: u32) -> bool
    requires inside { i < length to.now }
    requires heads_each { length heads.now ≡ length to.now }
    ensures { IsTrue result ↔ head_at heads.now i ≡ head_at to.now i }
{
    head_of(heads, i) == head_of(to, i)
}

// Whether all heads stand as proposed.
fn are_same(net: &Net, to: &[i64], heads: &[i64]) -> bool
    requires one_each { length to.now ≡ length net.now.junctions }
    requires heads_each { length heads.now ≡ length to.now }
    ensures { IsTrue result → (k : ℕ) → k < length to.now → head_at heads.now k ≡ head_at to.now k }
{
    for i in 0..net.junctions() {
        if !is_same(to, heads, i) {
            return false;
        }
    }
    true
}

/// Whether the turns of an order lead to the proposed heads, which are a start then, and stand in `heads`.
pub(crate) fn are_reached(
    net: &Net,
    side: Side,
    held: Option<HeldJunction>,
    to: &[i64],
    order: &[u32],
    heads: &mut [i64],
) -> bool
    requires one_each { length to.now ≡ length net.now.junctions }
    requires heads_each { length heads.old ≡ length to.now }
    requires held_in_box { HoldsInBox held }
    ensures start { IsTrue result → IsStart held (grid_of net.now) Main side heads.new }
    ensures stands { IsTrue result → StandsHeld held heads.new }
    ensures each { length heads.new ≡ length heads.old }
{
    let _junctions = net.junctions();
    if !put_first_heads(net, side, held, to, heads) {
        return false;
    }
    take_turns(net, side, held, to, order, heads);
    are_same(net, to, heads)
}
