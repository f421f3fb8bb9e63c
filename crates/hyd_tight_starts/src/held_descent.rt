//! The way to the tight vector with or without a junction held. The balance with one held has a factor of its own, which a
//! way without one doesn't need.
#![tactic(auto)]

ghost use Rattle.std.specs.Prelude.{◌≡◌, length};

use crate::descent::{Descent, MOST_STEPS_OF_FEW};
use crate::flows::nearer;
use crate::held_balance::HeldBalance;
use crate::places::{number_at, put_at};
use hyd_period_network::Net;
use hyd_spec_certificates::{HeldJunction, Side};
use std::alloc::{AllocError as OutOfMemory, Global};

/// Room for the way, opened once.
#[derive(Drop)]
pub struct HeldDescent {
    descent: Descent,
    balance: HeldBalance,
}

// The number of a held junction, or one that there isn't.
fn number_of(held: Option<HeldJunction>) -> u32 {
    match held {
        Some(there) => there.junction,
        None => u32::MAX,
    }
}

// How far a certificate has to be moved farther out as a whole, for a held junction to stand there or nearer.
fn way_out(side: Side, head: i64, held: i64) -> i64 {
    match side {
        Side::Upper => held.saturating_sub(head).max(0),
        Side::Lower => head.saturating_sub(held).max(0),
    }
}

// Makes a certificate one with a junction held: moved farther out as a whole where the held head lies beyond, with that
// junction at its head then.
fn put_held(net: &Net, side: Side, held: HeldJunction, heads: &mut [i64])
    ensures { length heads.new ≡ length heads.old }
{
    let way = way_out(side, number_at(heads, held.junction), held.head);
    for junction in 0..net.junctions() {
        let head = number_at(heads, junction);
        put_at(heads, junction, nearer(side, head, way.saturating_neg()));
    }
    put_at(heads, held.junction, held.head);
}

impl HeldDescent {
    /// Takes all the memory that the way takes in nets of this size.
    pub fn open(alloc: Global, net: &Net) -> Result<HeldDescent, OutOfMemory> {
        Ok(HeldDescent {
            descent: Descent::open(alloc, net)?,
            balance: HeldBalance::open(alloc, net)?,
        })
    }

    // Puts a junction to its held head, and goes near to the balance of the others then.
    fn hold(&mut self, net: &Net, side: Side, held: HeldJunction) {
        put_held(net, side, held, &mut self.descent.steps.heads);
        let balance = &mut self.balance;
        balance.find(net, side, held.junction, &mut self.descent.steps.heads);
    }

    /// Goes from a certificate, a head for each junction, with or without a junction held, to heads that may be the
    /// tight vector, and tells whether it came so far. Then `heads` has them, and `order` the junctions in an order in
    /// which turns may show it, a held one aside. A certificate of no junction held serves for a held one too.
    pub fn descend(
        &mut self,
        net: &Net,
        side: Side,
        held: Option<HeldJunction>,
        heads: &mut [i64],
        order: &mut [u32],
    ) -> bool
        ensures each { length heads.new ≡ length heads.old }
        ensures places { length order.new ≡ length order.old }
    {
        if !self.descent.begin(net, side, heads) {
            return false;
        }
        if let Some(there) = held {
            self.descent.left = MOST_STEPS_OF_FEW;
            self.hold(net, side, there);
        }
        self.descent
            .come_down(net, side, number_of(held), heads, order)
    }
}
