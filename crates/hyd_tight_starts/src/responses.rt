//! How heads near a certificate respond when a junction is held nearer, by the slopes of all flows there. One factor of
//! these slopes serves every junction that is held in a period, on one side.
#![tactic(auto)]

ghost use Rattle.std.specs.Prelude.{◌≡◌, length};

use crate::descent::put_fixed;
use crate::flows::{nearer, over};
use crate::held_balance::ends_of_links;
use crate::held_slopes::{put_diagonal, put_slopes};
use crate::places::{copy, number_at, put_at};
use hyd_period_network::Net;
use hyd_sparse::{Factor, UNIT};
use hyd_spec_certificates::Side;
use std::alloc::{AllocError as OutOfMemory, Global};
use std::num::{nearest_i64_to_f64, saturating_f64_to_i64};

/// The parts of a head tick in which responses to loads are counted.
pub(crate) const PARTS: i64 = 16;

/// One part in head ticks.
const HEAD_TICK_PART: f64 = 0.0625;

/// The load in flow ticks at a junction that is to be held, by which the others' share in its way is found.
const HELD_LOAD: i64 = 1 << 40;

/// What a weight has beside the margin and the slopes, in flow ticks.
const SPARE: i64 = 4;

/// Room for the responses in nets of one size, opened once.
#[derive(Drop)]
pub struct Response {
    factor: Factor,
    /// One for each junction, in units of slopes.
    diagonal: Vec<i64>,
    /// One for each link, in units of slopes.
    off: Vec<i64>,
    /// The heads of all nodes where the certificate stands, junctions first.
    pub(crate) own: Vec<i64>,
    /// The heads of all nodes where rounds begin.
    pub(crate) start: Vec<i64>,
    /// By how much each junction falls short there.
    short: Vec<i64>,
    /// The heads' response to the weights of the junctions, in `PARTS`.
    push: Vec<i64>,
    /// Their response to a load at the junction that is held.
    pull: Vec<i64>,
    /// Loads of the junctions, and then the response to them, in `PARTS`.
    load: Vec<i64>,
    /// The heads of all nodes that are tried.
    pub(crate) trial: Vec<i64>,
    /// These, mended where few junctions fall short.
    pub(crate) mended: Vec<i64>,
    ghost diagonals: { length diagonal.items ≡ factor.nodes },
    ghost offs: { length off.items ≡ factor.links },
    ghost pushes: { length push.items ≡ factor.nodes },
    ghost pulls: { length pull.items ≡ factor.nodes },
    ghost loads: { length load.items ≡ factor.nodes },
}

// What whole head ticks and the margin can cost at a junction, in flow ticks.
fn weight(net: &Net, junction: u32, diagonal: i64) -> i64 {
    if junction >= net.junctions() {
        return SPARE;
    }
    net.margin(junction)
        .saturating_add(SPARE)
        .saturating_add(diagonal / (2 * UNIT))
}

// Puts the weight of each junction, in `PARTS`.
fn put_weights(net: &Net, diagonal: &[i64], weights: &mut [i64])
    ensures { length weights.new ≡ length weights.old }
{
    for junction in 0..net.junctions() {
        let weight = weight(net, junction, number_at(diagonal, junction));
        put_at(weights, junction, weight.saturating_mul(PARTS));
    }
}

// Puts by how much each junction falls short at given heads.
fn put_short(net: &Net, side: Side, heads: &[i64], short: &mut [i64])
    ensures { length short.new ≡ length short.old }
{
    for junction in 0..net.junctions() {
        let lacking = over(net, side, heads, junction).saturating_neg();
        put_at(short, junction, lacking.max(0));
    }
}

// Puts nothing everywhere.
fn clear(numbers: &mut [i64])
    ensures { length numbers.new ≡ length numbers.old }
{
    for entry in numbers.iter_mut() {
        *entry = 0;
    }
}

/// How many ticks nearer a head lies than another.
pub(crate) fn way(side: Side, from: i64, to: i64) -> i64 {
    match side {
        Side::Upper => from.saturating_sub(to),
        Side::Lower => to.saturating_sub(from),
    }
}

/// The head, or another where it lies farther out than that.
pub(crate) fn no_farther(side: Side, head: i64, than: i64) -> i64 {
    match side {
        Side::Upper => head.min(than),
        Side::Lower => head.max(than),
    }
}

/// The head, or another where it lies nearer than that.
pub(crate) fn no_nearer(side: Side, head: i64, than: i64) -> i64 {
    match side {
        Side::Upper => head.max(than),
        Side::Lower => head.min(than),
    }
}

// A part as a share of a whole.
fn share_of(part: i64, whole: i64) -> f64 {
    if whole <= 0 {
        return 0.0;
    }
    nearest_i64_to_f64(part) / nearest_i64_to_f64(whole)
}

impl Response {
    /// Takes all the memory that responses take in nets of this size.
    pub fn open(alloc: Global, net: &Net) -> Result<Response, OutOfMemory> {
        let rows = ends_of_links(alloc, net)?;
        let junctions = net.junctions();
        let factor = Factor::open(alloc, junctions, &rows)?;
        let nodes = net.nodes() as usize;
        Ok(Response {
            factor,
            diagonal: vec![in alloc; 0i64; junctions as usize]?,
            off: vec![in alloc; 0i64; rows.len()]?,
            own: vec![in alloc; 0i64; nodes]?,
            start: vec![in alloc; 0i64; nodes]?,
            short: vec![in alloc; 0i64; junctions as usize]?,
            push: vec![in alloc; 0i64; junctions as usize]?,
            pull: vec![in alloc; 0i64; junctions as usize]?,
            load: vec![in alloc; 0i64; junctions as usize]?,
            trial: vec![in alloc; 0i64; nodes]?,
            mended: vec![in alloc; 0i64; nodes]?,
        })
    }

    /// Begins a period on a side: at a certificate, and at the heads where rounds begin.
    pub fn begin(&mut self, net: &Net, side: Side, own: &[i64], start: &[i64]) {
        copy(own, &mut self.own);
        put_fixed(net, side, &mut self.own);
        copy(start, &mut self.start);
        put_fixed(net, side, &mut self.start);
        put_slopes(net, &self.own, &mut self.off);
        put_diagonal(net, &self.own, u32::MAX, &self.off, &mut self.diagonal);
        self.factor.factor(&self.diagonal, &self.off);
        put_weights(net, &self.diagonal, &mut self.push);
        self.factor.solve(&mut self.push);
        put_short(net, side, &self.start, &mut self.short);
    }

    /// Finds how the others respond to a junction that is to be held.
    pub(crate) fn hold(&mut self, junction: u32) {
        clear(&mut self.pull);
        put_at(&mut self.pull, junction, HELD_LOAD);
        self.factor.solve(&mut self.pull);
    }

    /// The share that a junction has in the way of the held one.
    pub(crate) fn share(&self, junction: u32, held: u32) -> f64 {
        share_of(number_at(&self.pull, junction), number_at(&self.pull, held))
    }

    /// What whole head ticks and the margin can cost at a junction, in flow ticks.
    pub(crate) fn weight(&self, net: &Net, junction: u32) -> i64 {
        weight(net, junction, number_at(&self.diagonal, junction))
    }

    /// How far the weights push a junction farther out while another is held, in head ticks.
    pub(crate) fn pushed(&self, junction: u32, held: u32) -> f64 {
        let back = self.share(junction, held) * nearest_i64_to_f64(number_at(&self.push, held));
        (nearest_i64_to_f64(number_at(&self.push, junction)) - back) * HEAD_TICK_PART
    }

    /// What a junction's flows change when it moves so many head ticks by itself, in flow ticks.
    pub(crate) fn moved_flow(&self, junction: u32, ticks: i64) -> i64 {
        let slope = nearest_i64_to_f64(number_at(&self.diagonal, junction))
            / nearest_i64_to_f64(UNIT);
        saturating_f64_to_i64(slope * nearest_i64_to_f64(ticks))
    }

    /// By how much a junction falls short where rounds begin.
    pub(crate) fn short_at(&self, junction: u32) -> i64 {
        number_at(&self.short, junction)
    }

    /// Puts a load to a junction, in flow ticks.
    pub(crate) fn put_load(&mut self, junction: u32, flow: i64) {
        put_at(&mut self.load, junction, flow.saturating_mul(PARTS));
    }

    /// Puts the response to the loads in their place.
    pub(crate) fn answer_loads(&mut self) {
        self.factor.solve(&mut self.load);
    }

    /// How far the loads move a junction farther out while another is held, in whole head ticks, and no less than
    /// nothing.
    pub(crate) fn answer(&self, junction: u32, held: u32) -> i64 {
        let back = self.share(junction, held) * nearest_i64_to_f64(number_at(&self.load, held));
        let parts = nearest_i64_to_f64(number_at(&self.load, junction)) - back;
        saturating_f64_to_i64(parts * HEAD_TICK_PART)
            .saturating_add(1)
            .max(0)
    }

    /// Moves a tried head so many ticks nearer.
    pub(crate) fn move_nearer(&mut self, side: Side, junction: u32, ticks: i64) {
        let head = nearer(side, number_at(&self.trial, junction), ticks);
        put_at(&mut self.trial, junction, head);
    }
}
