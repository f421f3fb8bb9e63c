//! Branches: junctions that hang on the rest by one link each, and those that hang on them. How far such a junction lies
//! from the node that it hangs on is its own matter where its demand doesn't depend on heads: it takes its tight place
//! beside that node at once, from the ends of the branch inward, and keeps it wherever that node goes.
#![tactic(auto)]

ghost use Rattle.std.specs.Prelude.{◌≡◌, length};

use crate::flows::{is_flat, nearer, over_with, own_part, part, turned};
use crate::places::{add_at, is_marked, mark, number_at, put_at};
use hyd_period_network::{Net, Tie};
use hyd_spec_certificates::Side;
use hyd_vector_check::is_in_box;
use std::alloc::{AllocError as OutOfMemory, Global};

/// How often the way of a junction is doubled, and then halved.
const DOUBLINGS: u32 = 60;

/// What stands for no node.
const NO_NODE: u32 = u32::MAX;

/// Room for the branches of nets of one size, opened once. Nothing is written there before the first ones.
#[derive(Drop)]
pub(crate) struct Branches {
    /// How many ends of links each junction has that lead to nodes that don't hang.
    ends: Vec<u32>,
    /// The junctions that hang, from the ends of their branches inward, and others that were tried.
    order: Vec<u32>,
    /// How many these are.
    count: u32,
    /// The node on which each junction hangs, if it does.
    on: Vec<u32>,
    /// How many ticks its head lies above that node's.
    rise: Vec<i64>,
    /// What those that hang on each node add to what it passes by, and its own outflow, where that is the same at
    /// every head.
    load: Vec<i64>,
    /// From which junctions the same flows out, whatever their heads.
    flat: Vec<bool>,
    /// The junctions that step: all but a held one and those that hang.
    stepping: Vec<u32>,
    /// How many these are.
    many: u32,
    /// Which they are.
    steps: Vec<bool>,
    /// Which of them pass by more or less when all step: those from which not the same flows out at every head, and
    /// those that a link ties to a node that doesn't step.
    anchored: Vec<bool>,
}

// The number of a node at a place, where there is one.
fn node_at(nodes: &[u32], place: u32) -> u32 {
    nodes.get(place as usize).copied().unwrap_or(NO_NODE)
}

// Puts the number of a node to a place.
fn put_node(nodes: &mut [u32], place: u32, node: u32)
    ensures { length nodes.new ≡ length nodes.old }
{
    if let Some(entry) = nodes.get_mut(place as usize) {
        *entry = node;
    }
}

// Whether a junction passes so many ticks nearer, all others staying: it passes by `rest` but for what a link end adds.
fn passes(
    net: &Net,
    side: Side,
    heads: &[i64],
    junction: u32,
    tie: Tie,
    rest: i64,
    ticks: i64,
) -> bool {
    let there = nearer(side, number_at(heads, junction), ticks);
    let added = part(net, side, tie, there, number_at(heads, tie.other));
    is_in_box(there) && rest.saturating_add(added) >= 0
}

// The most ticks by which a junction passes nearer.
fn reach(net: &Net, side: Side, heads: &[i64], junction: u32, tie: Tie, rest: i64) -> i64 {
    let mut most = 0i64;
    let mut way = 1i64;
    for _ in 0..DOUBLINGS {
        if !passes(net, side, heads, junction, tie, rest, way) {
            break;
        }
        most = way;
        way = way.saturating_mul(2);
    }
    let mut more = most / 2;
    for _ in 0..DOUBLINGS {
        if more == 0 {
            break;
        }
        let farther = most.saturating_add(more);
        if passes(net, side, heads, junction, tie, rest, farther) {
            most = farther;
        }
        more /= 2;
    }
    most
}

impl Branches {
    /// Takes all the memory that they take.
    pub(crate) fn open(alloc: Global, net: &Net) -> Result<Branches, OutOfMemory> {
        let junctions = net.junctions() as usize;
        Ok(Branches {
            ends: Vec::with_capacity(alloc, junctions)?,
            order: Vec::with_capacity(alloc, junctions)?,
            count: 0,
            on: Vec::with_capacity(alloc, junctions)?,
            rise: Vec::with_capacity(alloc, junctions)?,
            load: Vec::with_capacity(alloc, junctions)?,
            flat: Vec::with_capacity(alloc, junctions)?,
            stepping: Vec::with_capacity(alloc, junctions)?,
            many: 0,
            steps: Vec::with_capacity(alloc, junctions)?,
            anchored: Vec::with_capacity(alloc, junctions)?,
        })
    }

    /// Makes all lists as long as a net needs them, in the room that was taken.
    pub(crate) fn lengthen(&mut self, net: &Net) -> Result<(), OutOfMemory> {
        let junctions = net.junctions() as usize;
        self.ends.resize(junctions, 0u32)?;
        self.order.resize(junctions, 0u32)?;
        self.on.resize(junctions, NO_NODE)?;
        self.rise.resize(junctions, 0i64)?;
        self.load.resize(junctions, 0i64)?;
        self.flat.resize(junctions, true)?;
        self.stepping.resize(junctions, 0u32)?;
        self.steps.resize(junctions, false)?;
        self.anchored.resize(junctions, false)
    }

    /// Whether a node hangs on another.
    pub(crate) fn hangs(&self, node: u32) -> bool {
        node_at(&self.on, node) != NO_NODE
    }

    /// Whether the same flows out of a junction, whatever its head.
    pub(crate) fn is_flat(&self, junction: u32) -> bool {
        is_marked(&self.flat, junction)
    }

    /// What those that hang on a junction add to what it passes by, and its own outflow, where that is the same at
    /// every head.
    pub(crate) fn load(&self, junction: u32) -> i64 {
        number_at(&self.load, junction)
    }

    /// How many junctions step.
    pub(crate) fn many(&self) -> u32 {
        self.many
    }

    /// The junction at a place of those that step.
    pub(crate) fn stepping(&self, place: u32) -> u32 {
        node_at(&self.stepping, place)
    }

    /// Whether a node steps.
    pub(crate) fn steps(&self, node: u32) -> bool {
        is_marked(&self.steps, node)
    }

    /// Whether one that steps passes by more or less when all step.
    pub(crate) fn is_anchored(&self, junction: u32) -> bool {
        is_marked(&self.anchored, junction)
    }

    /// The junction at a place of those that hang, from the rest outward, and of others that were tried.
    pub(crate) fn outward(&self, place: u32) -> Option<u32> {
        if place >= self.count {
            return None;
        }
        let junction = node_at(&self.order, self.count - 1 - place);
        if self.hangs(junction) {
            return Some(junction);
        }
        None
    }

    // Puts a junction among those to try, where one end of a link alone ties it to the rest.
    fn put_if_loose(&mut self, held: u32, junction: u32) {
        let is_loose = node_at(&self.ends, junction) == 1
            && junction != held
            && self.is_flat(junction);
        if is_loose {
            put_node(&mut self.order, self.count, junction);
            self.count = self.count.saturating_add(1);
        }
    }

    // Begins with no junction that hangs.
    fn begin(&mut self, net: &Net, side: Side, held: u32, heads: &[i64]) {
        self.count = 0;
        for junction in 0..net.junctions() {
            let is_flat = is_flat(net, junction);
            mark(&mut self.flat, junction, is_flat);
            let own = if is_flat {
                own_part(net, side, junction, number_at(heads, junction))
            } else {
                0
            };
            put_at(&mut self.load, junction, own);
            put_node(&mut self.on, junction, NO_NODE);
            put_node(&mut self.ends, junction, net.row(junction).len() as u32);
            self.put_if_loose(held, junction);
        }
    }

    // The end of a link that ties a junction to a node that doesn't hang.
    fn tie_of(&self, net: &Net, junction: u32) -> Option<Tie> {
        if junction >= net.junctions() {
            return None;
        }
        for tie in net.row(junction) {
            if !self.hangs(tie.other) {
                return Some(*tie);
            }
        }
        None
    }

    // Hangs a junction on a node, which may be loose then.
    fn tie_to(&mut self, held: u32, junction: u32, node: u32) {
        put_node(&mut self.on, junction, node);
        let ends = node_at(&self.ends, node).saturating_sub(1);
        put_node(&mut self.ends, node, ends);
        self.put_if_loose(held, node);
    }

    // Moves a junction to its tight place beside the node on which it hangs, where it has one.
    fn hang(&mut self, net: &Net, side: Side, held: u32, junction: u32, heads: &mut [i64])
        ensures { length heads.new ≡ length heads.old }
    {
        let Some(tie) = self.tie_of(net, junction) else {
            return;
        };
        let head = number_at(heads, junction);
        let beside = number_at(heads, tie.other);
        let rest = over_with(net, side, Some(self), heads, junction, head).saturating_sub(part(
            net, side, tie, head, beside,
        ));
        let ticks = reach(net, side, heads, junction, tie, rest);
        if !is_in_box(nearer(side, head, ticks.saturating_add(1))) {
            return;
        }
        let there = nearer(side, head, ticks);
        put_at(heads, junction, there);
        put_at(&mut self.rise, junction, there.saturating_sub(beside));
        self.tie_to(held, junction, tie.other);
        let added = part(net, side, turned(tie, junction), beside, there);
        add_at(&mut self.load, tie.other, added);
    }

    /// Moves all junctions that hang to their places beside the nodes on which they hang.
    pub(crate) fn put_heads(&self, net: &Net, heads: &mut [i64])
        ensures { length heads.new ≡ length heads.old }
    {
        for place in 0..net.junctions() {
            if let Some(junction) = self.outward(place) {
                let beside = number_at(heads, node_at(&self.on, junction));
                put_at(
                    heads,
                    junction,
                    beside.saturating_add(number_at(&self.rise, junction)),
                );
            }
        }
    }

    // Lists the junctions that step.
    fn put_stepping(&mut self, net: &Net, held: u32) {
        self.many = 0;
        for junction in 0..net.junctions() {
            let steps = junction != held && !self.hangs(junction);
            mark(&mut self.steps, junction, steps);
            if steps {
                put_node(&mut self.stepping, self.many, junction);
                self.many = self.many.saturating_add(1);
            }
        }
    }

    // Whether a link ties a junction to a node that neither steps nor hangs.
    fn is_tied(&self, net: &Net, junction: u32) -> bool {
        if junction >= net.junctions() {
            return false;
        }
        for tie in net.row(junction) {
            if !self.steps(tie.other) && !self.hangs(tie.other) {
                return true;
            }
        }
        false
    }

    // Marks those that are anchored.
    fn put_anchored(&mut self, net: &Net) {
        for junction in 0..net.junctions() {
            let anchored = !self.is_flat(junction) || self.is_tied(net, junction);
            mark(&mut self.anchored, junction, anchored);
        }
    }

    /// Draws all branches of a certificate, heads of all nodes, to their tight places beside the rest, which stays.
    pub(crate) fn draw(&mut self, net: &Net, side: Side, held: u32, heads: &mut [i64])
        ensures { length heads.new ≡ length heads.old }
    {
        self.begin(net, side, held, heads);
        for place in 0..net.junctions() {
            if place >= self.count {
                break;
            }
            let junction = node_at(&self.order, place);
            self.hang(net, side, held, junction, heads);
        }
        self.put_heads(net, heads);
        self.put_stepping(net, held);
        self.put_anchored(net);
    }
}
