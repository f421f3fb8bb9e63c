//! Vectors near the tight one with a junction held: the certificate's heads come nearer by their share in the way of the
//! held one, but for a little that whole ticks and margins cost.
#![tactic(auto)]

ghost use Rattle.std.specs.Prelude.{◌≡◌, length};

use crate::flows::{nearer, over, over_with};
use crate::places::{copy, number_at, put_at};
use crate::responses::{Response, no_farther, way};
use hyd_period_network::Net;
use hyd_spec_certificates::{HeldJunction, Side};
use std::num::{nearest_i64_to_f64, saturating_f64_to_i64};

/// The part of the weights that is left over.
const LEFT_OVER: f64 = 0.25;

/// How often the heads move on where some fall short.
const CORRECTIONS: u32 = 5;

/// How often all junctions are gone over to raise the few that fall short.
const PASSES: u32 = 4;

/// How often the way of a raise is doubled, and then halved.
const DOUBLINGS: u32 = 60;

// The first of 1, 2, 4 .. ticks farther out at which a junction passes.
fn reach(net: &Net, side: Side, heads: &[i64], junction: u32, head: i64) -> i64 {
    let mut ticks = 1i64;
    for _ in 0..DOUBLINGS {
        let there = nearer(side, head, ticks.saturating_neg());
        if over_with(net, side, None, heads, junction, there) >= 0 {
            return ticks;
        }
        ticks = ticks.saturating_mul(2);
    }
    ticks
}

/// About the least number of ticks beyond a head at which a junction passes, where it doesn't at that head.
pub(crate) fn ticks_to_pass(net: &Net, side: Side, heads: &[i64], junction: u32, head: i64) -> i64 {
    let mut most = reach(net, side, heads, junction, head);
    let mut part = most / 2;
    for _ in 0..DOUBLINGS {
        part /= 2;
        if part == 0 {
            break;
        }
        let fewer = most.saturating_sub(part);
        let there = nearer(side, head, fewer.saturating_neg());
        if over_with(net, side, None, heads, junction, there) >= 0 {
            most = fewer;
        }
    }
    most
}

// Raises the junctions that fall short when it is their turn, but a held one, and tells whether none did.
fn raise_short(net: &Net, side: Side, held: u32, heads: &mut [i64]) -> bool
    ensures { length heads.new ≡ length heads.old }
{
    let mut none = true;
    for junction in 0..net.junctions() {
        if junction != held && over(net, side, heads, junction) < 0 {
            none = false;
            let head = number_at(heads, junction);
            let ticks = ticks_to_pass(net, side, heads, junction, head);
            put_at(heads, junction, nearer(side, head, ticks.saturating_neg()));
        }
    }
    none
}

// Raises them again and again, and tells whether none falls short then.
fn mend(net: &Net, side: Side, held: u32, heads: &mut [i64]) -> bool
    ensures { length heads.new ≡ length heads.old }
{
    for _ in 0..PASSES {
        if raise_short(net, side, held, heads) {
            return true;
        }
    }
    false
}

impl Response {
    // Draws the certificate's heads nearer with the held one.
    fn draw(&mut self, net: &Net, side: Side, held: HeldJunction) {
        copy(&self.own, &mut self.trial);
        let gap = way(side, number_at(&self.own, held.junction), held.head);
        for junction in 0..net.junctions() {
            let drawn = nearest_i64_to_f64(gap) * self.share(junction, held.junction);
            let left = LEFT_OVER * self.pushed(junction, held.junction);
            let ticks = saturating_f64_to_i64(drawn - left).max(0);
            let head = nearer(side, number_at(&self.own, junction), ticks);
            put_at(&mut self.trial, junction, head);
        }
        put_at(&mut self.trial, held.junction, held.head);
    }

    // Puts what the junctions that fall short lack, and half of their weight, as loads.
    fn put_lacking(&mut self, net: &Net, side: Side, held: u32) {
        for junction in 0..net.junctions() {
            let over = over(net, side, &self.trial, junction);
            let load = if junction != held && over < 0 {
                (self.weight(net, junction) / 2).saturating_sub(over)
            } else {
                0
            };
            self.put_load(junction, load);
        }
    }

    // Moves the tried heads farther out as the loads ask, no farther than the certificate's.
    fn move_out(&mut self, net: &Net, side: Side, held: u32) {
        for junction in 0..net.junctions() {
            if junction != held {
                let ticks = self.answer(junction, held);
                self.move_nearer(side, junction, ticks.saturating_neg());
                let head = number_at(&self.trial, junction);
                let most = number_at(&self.own, junction);
                put_at(&mut self.trial, junction, no_farther(side, head, most));
            }
        }
    }

    /// Proposes a vector with a junction held, nearer than the certificate of the period.
    pub fn propose_near(&mut self, net: &Net, side: Side, held: HeldJunction, near: &mut [i64])
        ensures { length near.new ≡ length near.old }
    {
        self.hold(held.junction);
        self.draw(net, side, held);
        copy(&self.trial, near);
    }

    /// Proposes one in place of a vector that falls short somewhere, as well as may be.
    pub fn mend_near(&mut self, net: &Net, side: Side, held: HeldJunction, near: &mut [i64])
        ensures { length near.new ≡ length near.old }
    {
        self.draw(net, side, held);
        for _ in 0..CORRECTIONS {
            copy(&self.trial, &mut self.mended);
            if mend(net, side, held.junction, &mut self.mended) {
                copy(&self.mended, near);
                return;
            }
            self.put_lacking(net, side, held.junction);
            self.answer_loads();
            self.move_out(net, side, held.junction);
        }
    }
}
