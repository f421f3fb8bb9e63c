//! Raises at the few junctions where heads fall short of a certificate.
#![tactic(auto)]

ghost use Rattle.std.specs.Prelude.{◌≡◌, length};

use crate::flow_curves::{Curve, curve_at, flow, high_of, low_of};
use crate::flows::{bound_outflow, difference, flat_at};
use crate::junction_queue::JunctionQueue;
use crate::number_lists::{add_real_at, number_at, real_at};
use crate::raises::{NoValue, outward, passes, raise};
use hyd_period_network::Net;
use hyd_spec_certificates::Side;
use std::alloc::{AllocError as OutOfMemory, Global};
use std::num::nearest_i64_to_f64;

/// One in so many junctions may fall short, and `FEW` more. Where more do, raises lead far away.
const SHARE: u32 = 5;

const FEW: u32 = 4;

/// From a proposal so many raises are made at most for each junction that falls short, and `SPARE_RAISES` more: where
/// it takes more, it mostly takes very many.
const RAISES: u32 = 4;

const SPARE_RAISES: u32 = 20;

/// The junctions that may fall short, opened once.
#[derive(Drop)]
pub(crate) struct Mender {
    queue: JunctionQueue,
    /// By how much each junction passes at least.
    overs: Vec<f64>,
    /// How many junctions fall short.
    short: u32,
    /// How many raises may still be made.
    left: u32,
}

// How many junctions may fall short.
fn most_short(net: &Net) -> u32 {
    (net.junctions() / SHARE).saturating_add(FEW)
}

// By how much a junction passes, near enough: what flows out on balance is its load less its miss.
fn near_over(net: &Net, side: Side, junction: u32, load: f64, miss: f64) -> f64 {
    if junction >= net.junctions() {
        return 0.0;
    }
    let outflow = match side {
        Side::Upper => load - miss,
        Side::Lower => miss - load,
    };
    outflow - nearest_i64_to_f64(net.margin(junction)) - 1.0
}

// What leaves a junction at a head beside its links, as it counts on a side: at least so much.
fn outward_outflow(net: &Net, side: Side, flat: &[Option<f64>], junction: u32, head: i64) -> f64 {
    match (flat_at(flat, junction), side) {
        (Some(flow), Side::Upper) => flow,
        (Some(flow), Side::Lower) => -flow,
        (None, _) => nearest_i64_to_f64(outward(side, bound_outflow(net, side, junction, head))),
    }
}

// Puts what each junction passes by beside its links: less than nothing, since a margin and 1 have to pass.
fn put_own(net: &Net, side: Side, flat: &[Option<f64>], heads: &[i64], overs: &mut [f64])
    ensures { length overs.new ≡ length overs.old }
{
    for junction in 0..net.junctions() {
        if let Some(entry) = overs.get_mut(junction as usize) {
            let outflow = outward_outflow(net, side, flat, junction, number_at(heads, junction));
            let needed = net.margin(junction).saturating_add(1);
            *entry = outflow - nearest_i64_to_f64(needed);
        }
    }
}

// Adds what flows through the links: what leaves an end at most and comes to the other at least for UPPER, the other
// way round for LOWER.
fn add_bounds(net: &Net, side: Side, curves: &[Curve], heads: &[i64], overs: &mut [f64])
    ensures { length overs.new ≡ length overs.old }
{
    for link in 0..net.links() {
        let ends = net.ends(link);
        let curve = curve_at(curves, link);
        let flow = flow(net, link, &curve, difference(heads, ends));
        let (low, high) = (low_of(&curve, flow), high_of(&curve, flow));
        let (out, into) = match side {
            Side::Upper => (low, -high),
            Side::Lower => (-high, low),
        };
        add_real_at(overs, ends.from, out);
        add_real_at(overs, ends.to, into);
    }
}

impl Mender {
    /// Room for a net's junctions.
    pub(crate) fn open(alloc: Global, net: &Net) -> Result<Mender, OutOfMemory> {
        Ok(Mender {
            queue: JunctionQueue::open(alloc, net)?,
            overs: vec![in alloc; 0.0; net.junctions() as usize]?,
            short: 0,
            left: 0,
        })
    }

    /// How many junctions were counted that fall short.
    pub(crate) fn short(&self) -> u32 {
        self.short
    }

    // Notes the junctions that may fall short by bounds of what they pass by.
    fn note_by_bounds(&mut self, net: &Net) {
        self.queue.clear();
        for junction in 0..net.junctions() {
            if real_at(&self.overs, junction) < 0.0 {
                self.queue.put(junction);
            }
        }
    }

    // Counts the junctions that fall short where loads are missed by so much, near enough.
    fn count_near(&mut self, net: &Net, side: Side, loads: &[f64], misses: &[f64]) {
        self.short = 0;
        for junction in 0..net.junctions() {
            let over = near_over(
                net,
                side,
                junction,
                real_at(loads, junction),
                real_at(misses, junction),
            );
            if over < 0.0 {
                self.short = self.short.saturating_add(1);
            }
        }
    }

    /// Counts the junctions that fall short at heads where loads are missed by so much, near enough, and tells whether
    /// they are few and fewer than so many.
    pub(crate) fn are_fewer(
        &mut self,
        net: &Net,
        side: Side,
        loads: &[f64],
        misses: &[f64],
        than: u32,
    ) -> bool {
        self.count_near(net, side, loads, misses);
        self.short < than && self.short <= most_short(net)
    }

    /// Notes the junctions that may fall short at given heads of all nodes, by the curves of links.
    pub(crate) fn note_near(
        &mut self,
        net: &Net,
        side: Side,
        curves: &[Curve],
        flat: &[Option<f64>],
        heads: &[i64],
    ) {
        put_own(net, side, flat, heads, &mut self.overs);
        add_bounds(net, side, curves, heads, &mut self.overs);
        self.note_by_bounds(net);
        self.left = self
            .short
            .saturating_mul(RAISES)
            .saturating_add(SPARE_RAISES);
    }

    // Notes the junctions beside another.
    fn note_beside(&mut self, net: &Net, junction: u32) {
        if junction >= net.junctions() {
            return;
        }
        let _nodes = net.nodes();
        for tie in net.row(junction) {
            self.queue.put(tie.other);
        }
    }

    // Raises a junction if it falls short, and tells whether it did.
    fn lift(
        &mut self,
        net: &Net,
        side: Side,
        heads: &mut [i64],
        junction: u32,
    ) -> Result<bool, NoValue>
        ensures { length heads.new ≡ length heads.old }
    {
        if passes(net, side, heads, junction, number_at(heads, junction)) {
            return Ok(false);
        }
        raise(net, side, heads, junction)?;
        self.note_beside(net, junction);
        Ok(true)
    }

    /// Raises the noted junctions that fall short, and those that do then, and tells whether none does any more. Fails
    /// at the first junction that has no value. The heads are those of all nodes.
    pub(crate) fn mend(&mut self, net: &Net, side: Side, heads: &mut [i64]) -> Result<bool, NoValue>
        ensures { length heads.new ≡ length heads.old }
    {
        for _ in 0..u64::MAX {
            let Some(junction) = self.queue.take() else {
                return Ok(true);
            };
            if self.lift(net, side, heads, junction)? {
                if self.left == 0 {
                    return Ok(false);
                }
                self.left -= 1;
            }
        }
        Ok(false)
    }
}
