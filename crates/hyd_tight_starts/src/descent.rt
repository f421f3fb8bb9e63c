//! The way from a certificate to the tight vector: at falling steps, all junctions step nearer; those that fall short go
//! back, and so do those that fall short then (the burning test, Dhar 1990), until the rest passes; it goes on as far as
//! it passes together. After a few steps leaps go on along their way. Where every junction goes back at the step of one
//! tick, the tight vector is reached.
#![tactic(auto)]

ghost use Rattle.std.specs.Prelude.{◌≡◌, length};
ghost use Rattle.hyd_spec_certificates.specs.declared.Problem.TheVariants.{Main};
ghost use Rattle.hyd_period_network.specs.SoundNets.{HasProblem};

use crate::branches::Branches;
use crate::flows::over;
use crate::leaps::Leaps;
use crate::places::{copy, number_at, put_at};
use crate::steps::Steps;
use hyd_period_network::Net;
use hyd_spec_certificates::{Problem, Side};
use hyd_vector_check::is_in_box;
use std::alloc::{AllocError as OutOfMemory, Global};

/// The first step is 2 to the power of this many ticks: some 100 m.
const FIRST_POWER: u32 = 50;

/// So many junctions may step in all on each of many ways, as one for each pipe.
const MOST_STEPS: u64 = 4_000_000;

/// So many on one of few ways: one for each side.
pub(crate) const MOST_STEPS_OF_FEW: u64 = 32_000_000;

/// After so many steps a leap is tried. Where it leads nowhere, twice as many are made before the next one, up to the
/// most.
const STEPS_TO_LEAP: u32 = 8;

const MOST_STEPS_TO_LEAP: u32 = 16;

/// At most so many leaps are made one after the other.
const LEAPS: u32 = 60;

/// The work of a leap, as so many steps.
const WORK_OF_LEAP: u64 = 16;

/// Room for the way with no junction held, opened once. Nothing is written there before the first one, so that a search
/// that never goes it has no pages for it.
#[derive(Drop)]
pub struct Descent {
    pub(crate) steps: Steps,
    leaps: Leaps,
    branches: Branches,
    /// How many junctions may still step.
    pub(crate) left: u64,
}

// Whether every junction but a held one passes.
fn pass_all(net: &Net, side: Side, held: u32, heads: &[i64]) -> bool {
    for junction in 0..net.junctions() {
        if !is_in_box(number_at(heads, junction)) {
            return false;
        }
        if junction != held && over(net, side, heads, junction) < 0 {
            return false;
        }
    }
    true
}

/// Puts the heads of reservoirs and tanks.
pub(crate) fn put_fixed(net: &Net, side: Side, heads: &mut [i64])
    ensures { length heads.new ≡ length heads.old }
{
    let _nodes = net.nodes();
    for node in net.junctions()..net.nodes() {
        let head = net.fixed(Problem::Main, side, node);
        put_at(heads, node, head);
    }
}

impl Descent {
    /// Takes all the memory that the way takes in nets of this size.
    pub fn open(alloc: Global, net: &Net) -> Result<Descent, OutOfMemory> {
        Ok(Descent {
            steps: Steps::open(alloc, net)?,
            leaps: Leaps::open(alloc, net)?,
            branches: Branches::open(alloc, net)?,
            left: 0,
        })
    }

    // Leaps on, as long as leaps are easy, and tells whether any led to another certificate.
    fn leap_on(&mut self, net: &Net, side: Side) -> bool {
        self.leaps.aim(net, side, &self.steps.heads);
        let mut led = false;
        for _ in 0..LEAPS {
            self.spend(WORK_OF_LEAP);
            if !self
                .leaps
                .leap(net, side, &self.branches, &self.steps.heads)
            {
                return led;
            }
            self.steps.take(&self.leaps.trial);
            led = true;
            if !self.leaps.trial.was_easy(&self.branches) {
                return true;
            }
        }
        led
    }

    // Counts all junctions that step as many times.
    fn spend(&mut self, times: u64) {
        let spent = u64::from(self.branches.many()).saturating_mul(times);
        self.left = self.left.saturating_sub(spent);
    }

    // Goes at a step until none moves, and tells whether that came before so many junctions had stepped as were left.
    fn go_at(&mut self, net: &Net, side: Side, step: i64) -> bool {
        let mut times = STEPS_TO_LEAP;
        for _ in 0..self.left {
            self.leaps.begin(&self.steps.heads);
            if self.steps.go_times(net, side, &self.branches, step, times) {
                return true;
            }
            self.spend(u64::from(times));
            times = if self.leap_on(net, side) {
                STEPS_TO_LEAP
            } else {
                times.saturating_mul(2).min(MOST_STEPS_TO_LEAP)
            };
            if self.left == 0 {
                return false;
            }
        }
        false
    }

    // Goes at one step after another, each half of the one before.
    fn go(&mut self, net: &Net, side: Side) -> bool {
        let mut step = 1i64 << FIRST_POWER;
        for _ in 0..FIRST_POWER {
            if !self.go_at(net, side, step) {
                return false;
            }
            step /= 2;
        }
        self.go_at(net, side, 1)
    }

    // Whether all lists are as long as a net needs them, which they come to be in the room that was taken.
    fn is_ready(&mut self, net: &Net) -> bool {
        self.steps.lengthen(net).is_ok()
            && self.leaps.lengthen(net).is_ok()
            && self.branches.lengthen(net).is_ok()
    }

    /// Begins at a certificate, a head for each junction, on one of many ways, and tells whether there is room for it.
    pub(crate) fn begin(&mut self, net: &Net, side: Side, heads: &[i64]) -> bool {
        if !self.is_ready(net) {
            return false;
        }
        copy(heads, &mut self.steps.heads);
        put_fixed(net, side, &mut self.steps.heads);
        self.left = MOST_STEPS;
        true
    }

    /// Goes on from heads of all nodes that are in place.
    pub(crate) fn come_down(
        &mut self,
        net: &Net,
        side: Side,
        held: u32,
        heads: &mut [i64],
        order: &mut [u32],
    ) -> bool
        ensures each { length heads.new ≡ length heads.old }
        ensures places { length order.new ≡ length order.old }
    {
        if !pass_all(net, side, held, &self.steps.heads) {
            return false;
        }
        self.branches.draw(net, side, held, &mut self.steps.heads);
        self.steps.begin(net, side, &self.branches);
        if !self.go(net, side) {
            return false;
        }
        self.branches.put_heads(net, &mut self.steps.heads);
        self.steps.put_branches(net, &self.branches);
        copy(&self.steps.heads, heads);
        self.steps.copy_order(order);
        true
    }

    /// Goes from a certificate to heads that may be the tight vector, and tells whether it came so far. Then `heads` has
    /// them, and `order` the junctions in an order in which turns may show it. The certificate stands among heads of
    /// all nodes, junctions first: those of reservoirs and tanks stay as they are there, so that it serves a problem
    /// with a tank's head pinned too.
    pub fn descend_among(
        &mut self,
        net: &Net,
        side: Side,
        nodes: &[i64],
        heads: &mut [i64],
        order: &mut [u32],
    ) -> bool
        ensures each { length heads.new ≡ length heads.old }
        ensures places { length order.new ≡ length order.old }
    {
        if !self.is_ready(net) {
            return false;
        }
        copy(nodes, &mut self.steps.heads);
        copy(heads, &mut self.steps.heads);
        self.left = MOST_STEPS_OF_FEW;
        self.come_down(net, side, u32::MAX, heads, order)
    }
}
