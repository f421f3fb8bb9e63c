//! Starts on the way from where rounds begin to a vector near the tight one: heads at which every junction that moved
//! falls short.
#![tactic(auto)]

ghost use Rattle.std.specs.Prelude.{◌≡◌, length};

use crate::flows::{nearer, over};
use crate::places::{copy, number_at, put_at};
use crate::responses::{Response, no_nearer, way};
use hyd_period_network::Net;
use hyd_spec_certificates::{HeldJunction, Side};

/// How often the way to the vector is halved.
const HALVINGS: u32 = 6;

/// How often heads come nearer where some pass.
const CORRECTIONS: u32 = 4;

impl Response {
    // Puts the heads a part of the way from where rounds begin to a vector.
    fn go_part(&mut self, net: &Net, side: Side, held: HeldJunction, parts: i64, near: &[i64]) {
        copy(&self.start, &mut self.trial);
        for junction in 0..net.junctions() {
            let from = number_at(&self.start, junction);
            let way = way(side, number_at(near, junction), from);
            let ticks = way.max(0) / parts.max(1);
            put_at(
                &mut self.trial,
                junction,
                nearer(side, from, ticks.saturating_neg()),
            );
        }
        put_at(&mut self.trial, held.junction, held.head);
    }

    // Puts what the junctions that moved pass by, and half of their weight, as loads, and tells whether none passes.
    fn put_passing(&mut self, net: &Net, side: Side, held: u32) -> bool {
        let mut none = true;
        for junction in 0..net.junctions() {
            let moved = number_at(&self.trial, junction) != number_at(&self.start, junction);
            let over = over(net, side, &self.trial, junction);
            let passes = moved && junction != held && over >= 0;
            let load = if passes {
                none = false;
                (self.weight(net, junction) / 2).saturating_add(over)
            } else {
                0
            };
            self.put_load(junction, load);
        }
        none
    }

    // Moves the tried heads nearer as the loads ask, no nearer than the start.
    fn move_in(&mut self, net: &Net, side: Side, held: u32) {
        for junction in 0..net.junctions() {
            if junction != held {
                let ticks = self.answer(junction, held);
                self.move_nearer(side, junction, ticks);
                let head = number_at(&self.trial, junction);
                let from = number_at(&self.start, junction);
                put_at(&mut self.trial, junction, no_nearer(side, head, from));
            }
        }
    }

    // Comes nearer until no junction that moved passes, and tells whether it came so far.
    fn fall_short(&mut self, net: &Net, side: Side, held: u32) -> bool {
        for _ in 0..CORRECTIONS {
            if self.put_passing(net, side, held) {
                return true;
            }
            self.answer_loads();
            self.move_in(net, side, held);
        }
        self.put_passing(net, side, held)
    }

    /// Proposes a start half of the way from where rounds begin to a vector.
    pub fn propose_start(
        &mut self,
        net: &Net,
        side: Side,
        held: HeldJunction,
        near: &[i64],
        to: &mut [i64],
    )
        ensures { length to.new ≡ length to.old }
    {
        self.go_part(net, side, held, 2, near);
        copy(&self.trial, to);
    }

    /// Proposes a start on that way where the half of it passes somewhere, as well as may be.
    pub fn mend_start(
        &mut self,
        net: &Net,
        side: Side,
        held: HeldJunction,
        near: &[i64],
        to: &mut [i64],
    )
        ensures { length to.new ≡ length to.old }
    {
        let mut parts = 2i64;
        for _ in 0..HALVINGS {
            self.go_part(net, side, held, parts, near);
            if self.fall_short(net, side, held.junction) {
                copy(&self.trial, to);
                return;
            }
            parts = parts.saturating_mul(2);
        }
    }
}
