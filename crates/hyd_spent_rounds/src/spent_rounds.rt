//! Whether rounds are spent, by a bound of what they gain and a start that lies past it.
#![tactic(auto)]

ghost use Rattle.std.specs.Prelude.{◌≡◌, ◌↔◌, ◌*◌, ◌^◌, ◌≤◌, ◌+ℤ◌, ◌<ℤ◌, pos, length, IsTrue, Some, unsigned_abs};
ghost use Rattle.hyd_spec_certificates.specs.declared.Problem.TheVariants.{Main};
ghost use Rattle.hyd_spec_certificates.specs.Certificate.{IsInBox};
ghost use Rattle.hyd_spec_certificates.specs.StartsRaisesAndLeaps.{IsStart};
ghost use Rattle.hyd_theorems_on_definitions.specs.Sides.{along};
ghost use Rattle.hyd_period_network.specs.NetAsPeriodNetwork.{grid_of};
ghost use Rattle.hyd_spent_rounds.specs.SpentRounds.{AreSpent, LiesPast};

use crate::bounds::is_bound;
use hyd_period_network::Net;
use hyd_spec_certificates::{HeldJunction, Problem, Side};
use hyd_sweep::leap;
use hyd_vector_check::head_of;

// A head as it counts on a side: the farther out, the greater.
fn along(side: Side, head: i64) -> i128
    ensures value { result ≡ along side head }
    ensures small { unsigned_abs result ≤ 2 ^ 63 }
{
    match side {
        Side::Upper => i128::from(head),
        Side::Lower => -i128::from(head),
    }
}

// How far so many steps lead.
fn way(rounds: u32, step: u64) -> i128
    ensures value { result ≡ pos (rounds * step) }
    ensures small { unsigned_abs result ≤ 2 ^ 96 }
{
    (u128::from(rounds) * u128::from(step)) as i128
}

// Where so many steps from a head lead.
fn farthest(side: Side, from: i64, rounds: u32, step: u64) -> i128
    ensures { result ≡ along side from +ℤ pos (rounds * step) }
{
    along(side, from) + way(rounds, step)
}

fn is_less(a: i128, b: i128) -> bool
    ensures { IsTrue result ↔ a <ℤ b }
{
    a < b
}

// Whether a head lies farther out than so many steps from another lead.
fn lies_past(side: Side, from: i64, rounds: u32, step: u64, to: i64) -> bool
    ensures { IsTrue result ↔ (along side from +ℤ pos (rounds * step)) <ℤ along side to }
{
    is_less(farthest(side, from, rounds, step), along(side, to))
}

// Whether heads lie somewhere farther out than so many steps from a bound lead.
fn lie_past(net: &Net, side: Side, rounds: u32, step: u64, bound: &[i64], u: &[i64]) -> bool
    requires one_each { length u.now ≡ length net.now.junctions }
    requires bound_each { length bound.now ≡ length u.now }
    ensures { IsTrue result → LiesPast side rounds step bound.now u.now }
{
    for i in 0..net.junctions() {
        if lies_past(side, head_of(bound, i), rounds, step, head_of(u, i)) {
            return true;
        }
    }
    false
}

/// Tells without making them that so many plain rounds from a start lead to no certificate with the junction held,
/// where a bound, a step and a further start show it: a round from the bound, which lies beyond the start, leads no head
/// farther on than the step, so neither does any round from heads that many steps farther out; and a leap from the start
/// leads to heads that lie past where the rounds lead so at most, though every certificate lies beyond them. What is
/// proposed is tried here; where it doesn't show it, this tells nothing. Two vectors are lent, of which nothing is kept.
pub fn are_spent(
    net: &Net,
    side: Side,
    held: HeldJunction,
    start: &[i64],
    rounds: u32,
    bound: &[i64],
    step: u64,
    to: &[i64],
    heads: &mut [i64],
    turns: &mut [i64],
) -> bool
    requires start { IsStart (Some held) (grid_of net.now) Main side start.now }
    requires held_in_box { IsInBox held.head }
    requires bound_each { length bound.now ≡ length start.now }
    requires to_each { length to.now ≡ length start.now }
    requires heads_each { length heads.old ≡ length start.now }
    requires turns_each { length turns.old ≡ length start.now }
    ensures spent { IsTrue result → AreSpent held (grid_of net.now) side rounds start.now }
    ensures heads_each { length heads.new ≡ length heads.old }
    ensures turns_each { length turns.new ≡ length turns.old }
{
    let _junctions = net.junctions();
    if !is_bound(net, side, &held, start, bound, step) {
        return false;
    }
    heads.copy_from_slice(start);
    if !leap(net, Problem::Main, side, Some(held), heads, to, turns) {
        return false;
    }
    lie_past(net, side, rounds, step, bound, heads)
}
