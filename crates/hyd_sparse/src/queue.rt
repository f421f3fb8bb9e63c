//! Nodes that wait by their degrees.

use std::alloc::{AllocError as OutOfMemory, Global};

/// Nodes that wait to be taken, those of the least degree first. A node may wait more than once: an
/// entry is as old as its degree.
#[derive(Drop)]
pub(crate) struct Queue {
    alloc: Global,
    /// For each degree, the nodes that were put with it.
    stacks: Vec<Vec<u32>>,
    /// No node waits with a lesser degree.
    least: usize,
}

impl Queue {
    pub fn new(alloc: Global) -> Queue {
        Queue {
            alloc,
            stacks: Vec::new(alloc),
            least: 0,
        }
    }

    /// Makes stacks up to that of a degree.
    fn reach(&mut self, degree: usize) -> Result<(), OutOfMemory> {
        for _ in self.stacks.len()..degree.saturating_add(1) {
            self.stacks.push(Vec::new(self.alloc))?;
        }
        Ok(())
    }

    pub fn push(&mut self, node: u32, degree: usize) -> Result<(), OutOfMemory> {
        self.reach(degree)?;
        if let Some(stack) = self.stacks.get_mut(degree) {
            stack.push(node)?;
        }
        self.least = self.least.min(degree);
        Ok(())
    }

    /// The node that was put last with the least degree, and that degree.
    pub fn pop(&mut self) -> Option<(u32, usize)> {
        for degree in self.least..self.stacks.len() {
            if let Some(stack) = self.stacks.get_mut(degree) {
                if let Some(node) = stack.pop() {
                    self.least = degree;
                    return Some((node, degree));
                }
            }
        }
        None
    }
}
