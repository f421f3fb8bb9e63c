//! The way of heads to where the junctions' flows balance.
#![tactic(auto)]

ghost use Rattle.std.specs.Prelude.{◌≡◌, length};

use crate::flows::add_flows;
use crate::number_lists::{copy, sum_of_magnitudes};
use crate::outflows::put_outflows;
use crate::settling::settle;
use crate::tangent::{PIECES, Tangent};
use crate::ways::Ways;
use hyd_laws_at_scale::Scale;
use hyd_period_network::Net;
use std::alloc::{AllocError as OutOfMemory, Global};
use std::num::{nearest_i64_to_f64, saturating_f64_to_i64};

/// The most steps.
const STEPS: u32 = 80;

/// How many steps may pass without the misses being lessened.
const PATIENCE: u32 = 6;

/// How often a step that goes too far is halved.
const HALVINGS: u32 = 58;

/// The greatest head either way, in parts of a head tick.
const HIGHEST: i128 = 1_024_000_000_000_000_000_000;

/// Heads on their way to where the junctions' flows balance.
#[derive(Drop)]
pub(crate) struct Approach {
    tangent: Tangent,
    /// The heads of all nodes, junctions first.
    heads: Vec<i128>,
    /// The heads that were tried last.
    trial: Vec<i128>,
    /// The heads with the least misses so far.
    best: Vec<i128>,
    /// By how much each junction misses its balance at the heads tried last.
    misses: Vec<i64>,
}

/// Puts by how much each junction misses its balance: what flows in less what flows out.
fn put_misses(net: &Net, ways: &[Ways], scale: Scale, heads: &[i128], misses: &mut [i64])
    ensures { length misses.new ≡ length misses.old }
{
    put_outflows(net, scale, heads, misses);
    add_flows(net, ways, scale, heads, misses);
}

// A part of a step in whole parts of a head tick, the nearest number of them.
fn rounded(step: i64, part: f64) -> i128 {
    let pieces = nearest_i64_to_f64(step) * part;
    let way = pieces / nearest_i64_to_f64(PIECES);
    let half = if way < 0.0 { -0.5 } else { 0.5 };
    i128::from(saturating_f64_to_i64(way + half))
}

// Puts heads a part of a step away.
fn move_by(heads: &[i128], step: &[i64], part: f64, moved: &mut [i128])
    ensures { length moved.new ≡ length moved.old }
{
    for ((entry, head), number) in moved.iter_mut().zip(heads).zip(step) {
        let further = head.saturating_add(rounded(*number, part));
        *entry = further.clamp(-HIGHEST, HIGHEST);
    }
}

// The sum of the products of misses and step: its sign says on which side of the balance along the step they are.
fn product(misses: &[i64], step: &[i64]) -> f64 {
    let mut sum = 0.0;
    for (miss, number) in misses.iter().zip(step) {
        sum += nearest_i64_to_f64(*miss) * nearest_i64_to_f64(*number);
    }
    sum
}

impl Approach {
    /// Room for a net's nodes.
    pub(crate) fn open(alloc: Global, net: &Net) -> Result<Approach, OutOfMemory> {
        let nodes = net.nodes() as usize;
        let junctions = net.junctions() as usize;
        Ok(Approach {
            tangent: Tangent::open(alloc, net)?,
            heads: vec![in alloc; 0i128; nodes]?,
            trial: vec![in alloc; 0i128; nodes]?,
            best: vec![in alloc; 0i128; nodes]?,
            misses: vec![in alloc; 0i64; junctions]?,
        })
    }

    /// Where the heads begin: of all nodes, junctions first.
    pub(crate) fn heads_to_begin_at(&mut self) -> &mut [i128] {
        &mut self.heads
    }

    /// The heads with the least misses.
    pub(crate) fn best(&self) -> &[i128] {
        &self.best
    }

    // Tries a part of the step.
    fn try_part(&mut self, net: &Net, ways: &[Ways], scale: Scale, part: f64) {
        move_by(&self.heads, self.tangent.step(), part, &mut self.trial);
        put_misses(net, ways, scale, &self.trial, &mut self.misses);
    }

    // Moves the heads along the step, halved until it doesn't go past the balance along it.
    fn advance(&mut self, net: &Net, ways: &[Ways], scale: Scale) {
        let mut part = 1.0;
        for _ in 0..HALVINGS {
            self.try_part(net, ways, scale, part);
            if product(&self.misses, self.tangent.step()) >= 0.0 {
                break;
            }
            part *= 0.5;
        }
        copy(&self.trial, &mut self.heads);
    }

    // Goes from where the heads begin by Newton steps to the least misses that it finds.
    fn descend(&mut self, net: &Net, ways: &[Ways], scale: Scale) {
        copy(&self.heads, &mut self.trial);
        copy(&self.heads, &mut self.best);
        put_misses(net, ways, scale, &self.heads, &mut self.misses);
        let mut least = sum_of_magnitudes(&self.misses);
        let mut idle = 0u32;
        for _ in 0..STEPS {
            self.tangent
                .put(net, ways, scale, &self.heads, &self.misses);
            self.advance(net, ways, scale);
            let sum = sum_of_magnitudes(&self.misses);
            if sum < least {
                least = sum;
                idle = 0;
                copy(&self.heads, &mut self.best);
            } else {
                idle = idle.saturating_add(1);
            }
            if least == 0.0 || idle >= PATIENCE {
                return;
            }
        }
    }
    /// Goes from where the heads begin to the least misses that it finds.
    pub(crate) fn go(&mut self, net: &Net, ways: &[Ways], scale: Scale) {
        self.descend(net, ways, scale);
        put_misses(net, ways, scale, &self.best, &mut self.misses);
        settle(net, ways, scale, &mut self.best, &mut self.misses);
    }
}
