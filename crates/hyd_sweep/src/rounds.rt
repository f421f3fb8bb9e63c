//! Rounds in file order.
#![tactic(auto)]

ghost use Rattle.std.specs.Prelude.{◌≡◌, ◌<◌, ◌↔◌, length, All, IsTrue};
ghost use Rattle.hyd_spec.specs.Lists.{Each};
ghost use Rattle.hyd_spec_certificates.specs.Certificate.{IsInBox, Suits};
ghost use Rattle.hyd_spec_certificates.specs.StartsRaisesAndLeaps.{IsStart};
ghost use Rattle.hyd_period_network.specs.NetAsPeriodNetwork.{grid_of};
ghost use Rattle.hyd_period_network.specs.SoundNets.{HasProblem};
ghost use Rattle.hyd_sweep.specs.Sweeps.{SuitsAt, RoundGives, SweepGives, RoundsGo, EndsWhereApart, HoldsInBox};

use crate::answers_of_sweeps::{Raised, Swept};
use crate::heads_along_side::is_same;
use crate::single_raises::{held_head, raise};
use hyd_period_network::Net;
use hyd_spec_certificates::{HeldJunction, Problem, Side};
use hyd_vector_check::{head_of, passes};

/// Raises every junction in file order, each from what the ones before it left: the junction without a value, if there
/// is one.
pub(crate) fn round(
    net: &Net,
    problem: Problem,
    side: Side,
    held: Option<HeldJunction>,
    u: &mut [i64],
) -> Option<u32>
    requires one_each { length u.old ≡ length net.now.junctions }
    requires pinned { HasProblem net.now problem }
    requires in_box { All IsInBox u.old }
    requires held_in_box { HoldsInBox held }
    ensures { RoundGives held (grid_of net.now) problem side u.old u.new result }
{
    for i in 0..net.junctions() {
        if let Raised::NoValue = raise(net, problem, side, held, u, i) {
            return Some(i);
        }
    }
    None
}

// Whether what is asked of a junction holds.
fn suits(
    net: &Net,
    problem: Problem,
    side: Side,
    held: Option<HeldJunction>,
    u: &[i64],
    i: u32,
) -> bool
    requires one_each { length u.now ≡ length net.now.junctions }
    requires pinned { HasProblem net.now problem }
    requires inside { i < length u.now }
    requires in_box { All IsInBox u.now }
    requires held_in_box { HoldsInBox held }
    ensures { IsTrue result ↔ SuitsAt held (grid_of net.now) problem side u.now i }
{
    let _junctions = net.junctions();
    match held_head(held, i) {
        Some(head) => is_same(head_of(u, i), head),
        None => passes(net, problem, side, u, i),
    }
}

/// Whether what is asked of every junction holds.
pub(crate) fn suits_everywhere(
    net: &Net,
    problem: Problem,
    side: Side,
    held: Option<HeldJunction>,
    u: &[i64],
) -> bool
    requires one_each { length u.now ≡ length net.now.junctions }
    requires pinned { HasProblem net.now problem }
    requires in_box { All IsInBox u.now }
    requires held_in_box { HoldsInBox held }
    ensures { IsTrue result ↔ Each (grid_of net.now).junctions (Suits held (grid_of net.now) problem side u.now) }
{
    for i in 0..net.junctions() {
        if !suits(net, problem, side, held, u, i) {
            return false;
        }
    }
    true
}

/// At most so many rounds in file order toward the tight vector, from heads that every certificate lies beyond. Where
/// no link joins two junctions one round suffices.
pub fn tighten(
    net: &Net,
    problem: Problem,
    side: Side,
    held: Option<HeldJunction>,
    u: &mut [i64],
    rounds: u32,
) -> Swept
    requires start { IsStart held (grid_of net.now) problem side u.old }
    requires pinned { HasProblem net.now problem }
    requires held_in_box { HoldsInBox held }
    ensures sweep { SweepGives held (grid_of net.now) problem side rounds u.old u.new result }
    ensures goes { RoundsGo held (grid_of net.now) problem side rounds u.old u.new result }
    ensures apart { EndsWhereApart (grid_of net.now) rounds result }
{
    let _junctions = net.junctions();
    for spent in 0..rounds {
        if suits_everywhere(net, problem, side, held, u) {
            return Swept::Least;
        }
        if let Some(junction) = round(net, problem, side, held, u) {
            return Swept::NoCertificate { junction };
        }
    }
    if suits_everywhere(net, problem, side, held, u) {
        Swept::Least
    } else {
        Swept::RoundsSpent
    }
}
