//! Paths along which flow can be moved from a junction to where there is room for it.
#![tactic(auto)]

ghost use Rattle.std.specs.Prelude.{◌≡◌, ◌<◌, length};

use hyd_period_network::{Net, Tie};
use std::alloc::{AllocError as OutOfMemory, Global};

/// How a path comes to a node: from another, along a link whose flow rises by what is moved, or falls.
#[derive(Clone, Copy, Drop)]
pub(crate) struct Step {
    pub(crate) from: u32,
    pub(crate) link: u32,
    pub(crate) rises: bool,
}

/// The step where there is none.
const NO_STEP: Step = Step {
    from: 0,
    link: 0,
    rises: true,
};

/// The nodes that paths from a junction come to, nearest first.
#[derive(Drop)]
pub(crate) struct Paths {
    /// The nodes in the order in which they were come to.
    queue: Vec<u32>,
    /// How many there are.
    count: u32,
    /// Whether a node was come to.
    seen: Vec<bool>,
    /// How it was come to.
    steps: Vec<Step>,
}

impl Paths {
    /// Room for a net's nodes.
    pub(crate) fn open(alloc: Global, net: &Net) -> Result<Paths, OutOfMemory> {
        let nodes = net.nodes() as usize;
        Ok(Paths {
            queue: vec![in alloc; 0u32; nodes]?,
            count: 0,
            seen: vec![in alloc; false; nodes]?,
            steps: vec![in alloc; NO_STEP; nodes]?,
        })
    }

    /// Begins at a junction.
    pub(crate) fn begin(&mut self, junction: u32) {
        for entry in self.seen.iter_mut() {
            *entry = false;
        }
        self.count = 0;
        self.note(junction, NO_STEP);
    }

    // Comes to a node, where it wasn't come to before.
    fn note(&mut self, node: u32, step: Step) {
        let Some(seen) = self.seen.get_mut(node as usize) else {
            return;
        };
        if *seen {
            return;
        }
        *seen = true;
        if let Some(entry) = self.steps.get_mut(node as usize) {
            *entry = step;
        }
        if let Some(entry) = self.queue.get_mut(self.count as usize) {
            *entry = node;
        }
        self.count = self.count.saturating_add(1);
    }

    /// Comes to the other node of a link end.
    pub(crate) fn come_along(&mut self, node: u32, tie: Tie, rises: bool) {
        let step = Step {
            from: node,
            link: tie.link,
            rises,
        };
        self.note(tie.other, step);
    }

    /// The node of this number in the order.
    pub(crate) fn node(&self, number: u32) -> Option<u32> {
        if number >= self.count {
            return None;
        }
        self.queue.get(number as usize).copied()
    }

    /// How a node was come to.
    pub(crate) fn step_to(&self, node: u32) -> Step {
        self.steps.get(node as usize).copied().unwrap_or(NO_STEP)
    }
}
