//! Searches for the tight vector of a side, with or without a junction held.
#![tactic(auto)]

ghost use Rattle.std.specs.Prelude.{◌≡◌, length, All};
ghost use Rattle.hyd_spec_certificates.specs.declared.Problem.TheVariants.{Main};
ghost use Rattle.hyd_spec_certificates.specs.Certificate.{IsInBox};
ghost use Rattle.hyd_spec_certificates.specs.StartsRaisesAndLeaps.{IsStart};
ghost use Rattle.hyd_period_network.specs.NetAsPeriodNetwork.{grid_of};
ghost use Rattle.hyd_sweep.specs.Sweeps.{HoldsInBox};
ghost use Rattle.hyd_fire.specs.TurnsWithHeldJunction.{HoldsBelow, StandsHeld};
ghost use Rattle.hyd_fire.specs.SearchesOnSides.{IsSought};

use crate::proposed_starts::are_reached;
use hyd_period_network::Net;
use hyd_spec_certificates::{HeldJunction, Problem, Side};
use hyd_sweep::{Sweeper, Swept, begin};

// Puts all heads to the end of the box, but a held junction to its head.
fn begin_at_end(net: &Net, side: Side, held: Option<HeldJunction>, heads: &mut [i64])
    requires one_each { length heads.old ≡ length net.now.junctions }
    requires held_in_box { HoldsInBox held }
    requires held_below { HoldsBelow held (length heads.old) }
    ensures start { IsStart held (grid_of net.now) Main side heads.new }
    ensures stands { StandsHeld held heads.new }
    ensures each { length heads.new ≡ length heads.old }
{
    let _junctions = net.junctions();
    begin(side, heads);
    match held {
        Some(there) => heads[there.junction as usize] = there.head,
        None => {}
    }
}

// Puts a start: the proposed heads, if turns show that they are one, or else the end of the box.
fn put_start(
    net: &Net,
    side: Side,
    held: Option<HeldJunction>,
    proposed: bool,
    to: &[i64],
    order: &[u32],
    heads: &mut [i64],
)
    requires one_each { length heads.old ≡ length net.now.junctions }
    requires to_each { length to.now ≡ length heads.old }
    requires held_in_box { HoldsInBox held }
    requires held_below { HoldsBelow held (length heads.old) }
    ensures start { IsStart held (grid_of net.now) Main side heads.new }
    ensures stands { StandsHeld held heads.new }
    ensures each { length heads.new ≡ length heads.old }
{
    if proposed {
        if are_reached(net, side, held, to, order, heads) {
            return;
        }
    }
    begin_at_end(net, side, held, heads);
}

/// Searches for the tight vector of a side by at most so many rounds, from proposed heads if turns show that they are a
/// start, and from the end of the box if not. It stands in `heads` where it is found.
pub(crate) fn search(
    net: &Net,
    side: Side,
    held: Option<HeldJunction>,
    rounds: u32,
    proposed: bool,
    to: &[i64],
    order: &[u32],
    sweeper: &mut Sweeper,
    heads: &mut [i64],
) -> Swept
    requires one_each { length heads.old ≡ length net.now.junctions }
    requires to_each { length to.now ≡ length heads.old }
    requires room { sweeper.old ≡ length heads.old }
    requires held_in_box { HoldsInBox held }
    requires held_below { HoldsBelow held (length heads.old) }
    ensures sought { IsSought held (grid_of net.now) side rounds heads.new result }
    ensures each { length heads.new ≡ length heads.old }
    ensures room { sweeper.new ≡ sweeper.old }
{
    let _junctions = net.junctions();
    put_start(net, side, held, proposed, to, order, heads);
    sweeper.tighten(net, Problem::Main, side, held, heads, rounds)
}
