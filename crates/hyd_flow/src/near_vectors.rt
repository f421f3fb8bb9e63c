//! Vectors with a junction held that are near where the rounds are spent.

ghost use Rattle.std.specs.Prelude.{◌≡◌, ◌<◌, ◌↔◌, ℕ, length, All, IsTrue};
ghost use Rattle.hyd_period_network.specs.NetAsPeriodNetwork.{grid_of};
ghost use Rattle.hyd_spec.specs.Assignment.{head_at};
ghost use Rattle.hyd_spec_certificates.specs.Certificate.{IsInBox, IsBeyond};
ghost use Rattle.hyd_flow.specs.NearVectors.{LiesInside, IsNear};

use crate::checks::first_failing;
use crate::flow_search::FlowSearch;
use hyd_period_network::Net;
use hyd_spec_certificates::{HeldJunction, Side};
use hyd_vector_check::{head_of, is_in_box};

// Whether every head lies in the box.
fn are_in_box(net: &Net, u: &[i64]) -> bool
    requires one_each { length u.now ≡ length net.now.junctions }
    ensures { IsTrue result ↔ All IsInBox u.now }
{
    for i in 0..net.junctions() {
        if !is_in_box(head_of(u, i)) {
            return false;
        }
    }
    true
}

// Whether a head is as far out as another, or farther.
fn is_beyond(side: Side, from: i64, to: i64) -> bool
    ensures { IsTrue result ↔ IsBeyond side from to }
{
    match side {
        Side::Upper => from <= to,
        Side::Lower => to <= from,
    }
}

// Whether a junction isn't held and another vector has it as far out, or farther, or it is held.
fn lies_inside_at(side: Side, held: &HeldJunction, u: &[i64], own: &[i64], i: u32) -> bool
    requires own_each { length own.now ≡ length u.now }
    requires inside { i < length u.now }
    ensures { IsTrue result → LiesInside held.now side u.now own.now i }
{
    if i == held.junction {
        return true;
    }
    is_beyond(side, head_of(u, i), head_of(own, i))
}

// Whether another vector has every junction but the held one as far out, or farther.
fn lies_inside(net: &Net, side: Side, held: &HeldJunction, u: &[i64], own: &[i64]) -> bool
    requires one_each { length u.now ≡ length net.now.junctions }
    requires own_each { length own.now ≡ length u.now }
    ensures { IsTrue result → (i : ℕ) → i < length u.now → LiesInside held.now side u.now own.now i }
{
    for i in 0..net.junctions() {
        if !lies_inside_at(side, held, u, own, i) {
            return false;
        }
    }
    true
}

// Whether a vector is one with the junction held, and no farther out than the record's own.
fn is_near(net: &Net, side: Side, held: &HeldJunction, own: &[i64], u: &[i64]) -> bool
    requires one_each { length u.now ≡ length net.now.junctions }
    requires own_each { length own.now ≡ length u.now }
    requires held_in_box { IsInBox held.now.head }
    ensures { IsTrue result → IsNear held.now (grid_of net.now) side own.now u.now }
{
    let _junctions = net.junctions();
    if !are_in_box(net, u) {
        return false;
    }
    if !lies_inside(net, side, held, u, own) {
        return false;
    }
    match first_failing(net, side, held, u) {
        Some(_) => false,
        None => true,
    }
}

// Takes the proposed vector, and tells whether it serves.
fn takes_near(
    net: &Net,
    side: Side,
    held: &HeldJunction,
    own: &[i64],
    search: &FlowSearch,
    heads: &mut [i64],
) -> bool
    requires one_each { length heads.old ≡ length net.now.junctions }
    requires own_each { length own.now ≡ length heads.old }
    requires room { search.now ≡ length heads.old }
    requires held_in_box { IsInBox held.now.head }
    ensures near { IsTrue result → IsNear held.now (grid_of net.now) side own.now heads.new }
    ensures each { length heads.new ≡ length heads.old }
{
    search.copy_near(heads);
    is_near(net, side, held, own, heads)
}

/// Takes a vector with the junction held, no farther out than the record's own, where one that is proposed serves, and
/// tells whether it does.
pub(crate) fn finds_near(
    net: &Net,
    side: Side,
    held: &HeldJunction,
    own: &[i64],
    search: &mut FlowSearch,
    heads: &mut [i64],
) -> bool
    requires one_each { length heads.old ≡ length net.now.junctions }
    requires own_each { length own.now ≡ length heads.old }
    requires room { search.old ≡ length heads.old }
    requires held_in_box { IsInBox held.now.head }
    ensures near { IsTrue result → IsNear held.now (grid_of net.now) side own.now heads.new }
    ensures each { length heads.new ≡ length heads.old }
    ensures room { search.new ≡ search.old }
{
    if takes_near(net, side, held, own, search, heads) {
        return true;
    }
    search.mend_near(net, side, *held);
    takes_near(net, side, held, own, search, heads)
}
