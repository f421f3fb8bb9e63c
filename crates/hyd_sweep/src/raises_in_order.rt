//! Raises in an order.
#![tactic(auto)]

ghost use Rattle.std.specs.Prelude.{◌≡◌, ◌<◌, length, All, None};
ghost use Rattle.hyd_spec_certificates.specs.declared.Side.TheVariants.{Upper, Lower};
ghost use Rattle.hyd_spec_certificates.specs.Certificate.{IsInBox};
ghost use Rattle.hyd_period_network.specs.NetAsPeriodNetwork.{grid_of};
ghost use Rattle.hyd_period_network.specs.SoundNets.{HasProblem};
ghost use Rattle.hyd_sweep.specs.Sweeps.{FollowGives, FollowLeads, HoldsInBox};

use crate::answers_of_sweeps::Raised;
use crate::single_raises::raise;
use hyd_period_network::Net;
use hyd_spec_certificates::{HeldJunction, Problem, Side};

// Raises the junctions of an order.
fn raise_each(
    net: &Net,
    problem: Problem,
    side: Side,
    held: Option<HeldJunction>,
    u: &mut [i64],
    order: &[u32],
) -> Raised
    requires one_each { length u.old ≡ length net.now.junctions }
    requires pinned { HasProblem net.now problem }
    requires inside { All (λ i. i < length u.old) order.now }
    requires in_box { All IsInBox u.old }
    requires held_in_box { HoldsInBox held }
    ensures { FollowGives held (grid_of net.now) problem side order.now u.old u.new result }
{
    let _junctions = net.junctions();
    let mut moved = false;
    for i in order {
        match raise(net, problem, side, held, u, *i) {
            Raised::Passed => {}
            Raised::Moved => moved = true,
            Raised::NoValue => return Raised::NoValue,
        }
    }
    if moved { Raised::Moved } else { Raised::Passed }
}

/// Raises the junctions of an order one after another, each from the heads that the ones before it left, up to the
/// first that has no value. From a start this leads to a start, which is the tight vector where every junction suits;
/// and where one had no value there is no certificate. An order of n parts that each name every junction leads as far
/// as n rounds, or farther.
pub fn follow(
    net: &Net,
    problem: Problem,
    side: Side,
    held: Option<HeldJunction>,
    u: &mut [i64],
    order: &[u32],
) -> Raised
    requires one_each { length u.old ≡ length net.now.junctions }
    requires pinned { HasProblem net.now problem }
    requires inside { All (λ i. i < length u.old) order.now }
    requires in_box { All IsInBox u.old }
    requires held_in_box { HoldsInBox held }
    ensures raises { FollowGives held (grid_of net.now) problem side order.now u.old u.new result }
    ensures leads { FollowLeads held (grid_of net.now) problem side order.now u.old u.new result }
{
    let _junctions = net.junctions();
    raise_each(net, problem, side, held, u, order)
}

/// Raises the junctions of an order on the UPPER side.
pub fn follow_super(net: &Net, problem: Problem, u: &mut [i64], order: &[u32]) -> Raised
    requires one_each { length u.old ≡ length net.now.junctions }
    requires pinned { HasProblem net.now problem }
    requires inside { All (λ i. i < length u.old) order.now }
    requires in_box { All IsInBox u.old }
    ensures raises { FollowGives None (grid_of net.now) problem Upper order.now u.old u.new result }
    ensures leads { FollowLeads None (grid_of net.now) problem Upper order.now u.old u.new result }
{
    follow(net, problem, Side::Upper, None, u, order)
}

/// Raises the junctions of an order on the LOWER side.
pub fn follow_sub(net: &Net, problem: Problem, u: &mut [i64], order: &[u32]) -> Raised
    requires one_each { length u.old ≡ length net.now.junctions }
    requires pinned { HasProblem net.now problem }
    requires inside { All (λ i. i < length u.old) order.now }
    requires in_box { All IsInBox u.old }
    ensures raises { FollowGives None (grid_of net.now) problem Lower order.now u.old u.new result }
    ensures leads { FollowLeads None (grid_of net.now) problem Lower order.now u.old u.new result }
{
    follow(net, problem, Side::Lower, None, u, order)
}
