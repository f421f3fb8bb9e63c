//! Bounds of what rounds gain: heads from which no round leads farther on than a step. They stand where rounds begin, but
//! for junctions that would gain more, which stand as much farther out.
#![tactic(auto)]

ghost use Rattle.std.specs.Prelude.{◌≡◌, length};

use crate::flows::{nearer, over_with};
use crate::near_vectors::ticks_to_pass;
use crate::places::{copy, number_at, put_at};
use crate::responses::{Response, way};
use hyd_period_network::Net;
use hyd_spec_certificates::{HeldJunction, Side};

/// How often a step is tried, each at most half of the one before.
const STEPS: u32 = 6;

/// How often all junctions are gone over to lift the few that gain more than a step.
const PASSES: u32 = 2;

// The greatest way from where rounds begin to heads.
fn greatest_way(net: &Net, side: Side, start: &[i64], to: &[i64]) -> i64 {
    let mut most = 0i64;
    for junction in 0..net.junctions() {
        let way = way(side, number_at(to, junction), number_at(start, junction));
        most = most.max(way);
    }
    most
}

// The step with which so many rounds go half of a way.
fn half_step(way: i64, rounds: u32) -> i64 {
    way.max(0) / 2 / i64::from(rounds.max(1))
}

// Moves those junctions farther out that would gain more than a step in a round, and tells whether none would.
fn lift_short(net: &Net, side: Side, held: u32, step: i64, heads: &mut [i64]) -> bool
    ensures { length heads.new ≡ length heads.old }
{
    let mut none = true;
    for junction in 0..net.junctions() {
        let head = number_at(heads, junction);
        let there = nearer(side, head, step.saturating_neg());
        if junction != held && over_with(net, side, None, heads, junction, there) < 0 {
            none = false;
            let ticks = ticks_to_pass(net, side, heads, junction, there);
            put_at(heads, junction, nearer(side, head, ticks.saturating_neg()));
        }
    }
    none
}

impl Response {
    // Puts what junctions lack where they would gain more than half a step, and a quarter of that, as loads.
    fn put_excess(&mut self, net: &Net, held: u32, step: i64) {
        for junction in 0..net.junctions() {
            let lacking = self
                .short_at(junction)
                .saturating_sub(self.moved_flow(junction, step / 2))
                .max(0);
            let load = if junction == held {
                0
            } else {
                lacking.saturating_add(lacking / 4)
            };
            self.put_load(junction, load);
        }
    }

    // Puts heads as far beyond where rounds begin as the loads ask.
    fn go_beyond(&mut self, net: &Net, side: Side, held: HeldJunction) {
        for junction in 0..net.junctions() {
            let ticks = self.answer(junction, held.junction);
            let from = number_at(&self.start, junction);
            put_at(
                &mut self.trial,
                junction,
                nearer(side, from, ticks.saturating_neg()),
            );
        }
        put_at(&mut self.trial, held.junction, held.head);
    }

    // Puts a bound for a step, and tells how far a start lies past it.
    fn put_bound(
        &mut self,
        net: &Net,
        side: Side,
        held: HeldJunction,
        step: i64,
        to: &[i64],
    ) -> i64 {
        self.put_excess(net, held.junction, step);
        self.answer_loads();
        self.go_beyond(net, side, held);
        greatest_way(net, side, &self.trial, to)
    }

    /// Proposes a bound for so many rounds toward a start that lies past it, and the step that they gain from it.
    pub fn propose_bound(
        &mut self,
        net: &Net,
        side: Side,
        held: HeldJunction,
        rounds: u32,
        to: &[i64],
        bound: &mut [i64],
    ) -> u64
        ensures { length bound.new ≡ length bound.old }
    {
        copy(&self.start, &mut self.trial);
        let mut step = half_step(greatest_way(net, side, &self.start, to), rounds);
        for _ in 0..STEPS {
            let left = self.put_bound(net, side, held, step, to);
            if left / i64::from(rounds.max(1)) > step {
                break;
            }
            step = half_step(left, rounds);
        }
        copy(&self.trial, bound);
        step.unsigned_abs()
    }

    /// Mends a bound that was proposed last and from which some junctions gain more than the step, as well as may be.
    pub fn mend_bound(
        &mut self,
        net: &Net,
        side: Side,
        held: HeldJunction,
        step: u64,
        bound: &mut [i64],
    )
        ensures { length bound.new ≡ length bound.old }
    {
        let ticks = step.min(1 << 60) as i64;
        for _ in 0..PASSES {
            if lift_short(net, side, held.junction, ticks, &mut self.trial) {
                break;
            }
        }
        copy(&self.trial, bound);
    }
}
