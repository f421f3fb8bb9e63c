//! Leaps along the way that certificates went by steps: as far again, and then twice as far as the last leap led. Where
//! few raises lead to a certificate from there, it is the next one; it lies no farther out than the one before.
#![tactic(auto)]

ghost use Rattle.std.specs.Prelude.{◌≡◌, length};

use crate::branches::Branches;
use crate::flows::nearer;
use crate::places::{copy, number_at, put_at};
use crate::raises::Trial;
use crate::responses::way;
use hyd_period_network::Net;
use hyd_spec_certificates::Side;
use std::alloc::{AllocError as OutOfMemory, Global};

/// A leap is good where raises leave a part of its way.
const PART: i64 = 4;

/// The way of leaps, opened once. Nothing is written there before the first one.
#[derive(Drop)]
pub(crate) struct Leaps {
    /// Where the way began: the heads of all nodes, junctions first.
    from: Vec<i64>,
    /// How many ticks each junction is to come nearer.
    way: Vec<i64>,
    /// Where the leap led.
    pub(crate) trial: Trial,
}

// The sum of ways.
fn total(net: &Net, ways: &[i64]) -> i64 {
    let mut sum = 0i64;
    for junction in 0..net.junctions() {
        sum = sum.saturating_add(number_at(ways, junction));
    }
    sum
}

// Puts how far junctions came.
fn put_way(net: &Net, side: Side, from: &[i64], to: &[i64], ways: &mut [i64])
    ensures { length ways.new ≡ length ways.old }
{
    for junction in 0..net.junctions() {
        let ticks = way(side, number_at(from, junction), number_at(to, junction));
        put_at(ways, junction, ticks);
    }
}

impl Leaps {
    /// Takes all the memory that leaps take in nets of this size.
    pub(crate) fn open(alloc: Global, net: &Net) -> Result<Leaps, OutOfMemory> {
        Ok(Leaps {
            from: Vec::with_capacity(alloc, net.nodes() as usize)?,
            way: Vec::with_capacity(alloc, net.junctions() as usize)?,
            trial: Trial::open(alloc, net)?,
        })
    }

    /// Makes all lists as long as a net needs them, in the room that was taken.
    pub(crate) fn lengthen(&mut self, net: &Net) -> Result<(), OutOfMemory> {
        self.from.resize(net.nodes() as usize, 0i64)?;
        self.way.resize(net.junctions() as usize, 0i64)?;
        self.trial.lengthen(net)
    }

    /// Begins a way at heads of all nodes.
    pub(crate) fn begin(&mut self, heads: &[i64]) {
        copy(heads, &mut self.from);
    }

    /// Aims as far on as the way led that ends at these heads.
    pub(crate) fn aim(&mut self, net: &Net, side: Side, heads: &[i64]) {
        put_way(net, side, &self.from, heads, &mut self.way);
    }

    // Puts the heads that are aimed at.
    fn go_way(&mut self, net: &Net, side: Side, heads: &[i64]) {
        copy(heads, &mut self.trial.heads);
        for junction in 0..net.junctions() {
            let ticks = number_at(&self.way, junction);
            if ticks != 0 {
                let head = nearer(side, number_at(heads, junction), ticks);
                self.trial.put(junction, head);
            }
        }
    }

    // Aims twice as far as a leap led, and tells whether it led far enough.
    fn aim_farther(&mut self, net: &Net, side: Side, heads: &[i64]) -> bool {
        let asked = total(net, &self.way);
        put_way(net, side, heads, &self.trial.heads, &mut self.way);
        let led = total(net, &self.way);
        for ticks in self.way.iter_mut() {
            *ticks = ticks.saturating_mul(2);
        }
        led > asked / PART
    }

    /// Leaps from a certificate, and tells whether that led to another one, which stands in the trial then.
    pub(crate) fn leap(
        &mut self,
        net: &Net,
        side: Side,
        branches: &Branches,
        heads: &[i64],
    ) -> bool {
        self.go_way(net, side, heads);
        self.trial.mend(net, side, branches, heads) && self.aim_farther(net, side, heads)
    }
}
