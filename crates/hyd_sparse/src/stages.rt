//! Stages of elimination: a few nodes cut the graph in two, and each part again, and nodes that cut come after those of
//! their parts (George 1973, Nested dissection of a regular finite element mesh).
ghost use Rattle.std.specs.Prelude.{◌≡◌, length};

use std::alloc::{AllocError as OutOfMemory, Global};
use std::num::nearest_usize_to_f64;

/// Parts of so many nodes aren't cut.
const SMALL: usize = 64;

/// So many cuts lie in one another at most.
pub(crate) const DEEPEST: u32 = 40;

/// Nodes that weren't cut apart so far, and in how many cuts they lay.
#[derive(Drop)]
struct Part {
    nodes: Vec<u32>,
    depth: u32,
}

/// Where a breadth-first search found a node: in which search, and how far from its first node.
#[derive(Clone, Copy, Drop)]
struct Found {
    search: u32,
    level: u32,
}

/// The parts that wait to be cut.
#[derive(Drop)]
struct Dissection {
    alloc: Global,
    waiting: Vec<Part>,
    /// For each node the number of its part.
    parts: Vec<u32>,
    part: u32,
    found: Vec<Found>,
    search: u32,
    /// For each node in which cut it is, the first one being 1; 0 where it is in none.
    cuts: Vec<u32>,
}

fn entry_of(entries: &[u32], node: u32) -> u32 {
    entries.get(node as usize).copied().unwrap_or(0)
}

fn put_entry(entries: &mut [u32], node: u32, entry: u32)
    ensures { length entries.new ≡ length entries.old }
{
    if let Some(place) = entries.get_mut(node as usize) {
        *place = entry;
    }
}

fn neighbours_of(lists: &[Vec<u32>], node: u32) -> &[u32] {
    match lists.get(node as usize) {
        Some(list) => list.as_slice(),
        None => &[],
    }
}

/// What a cut of so many nodes costs that has so many before it: more where what it leaves is less even, and too much
/// where either side has less than a quarter.
fn cost_of_cut(before: usize, width: usize, size: usize) -> f64 {
    let behind = size.saturating_sub(before).saturating_sub(width);
    let smaller = before.min(behind);
    if smaller <= size / 4 {
        return f64::MAX;
    }
    let greater = size.saturating_sub(smaller);
    nearest_usize_to_f64(width) / (nearest_usize_to_f64(smaller) * nearest_usize_to_f64(greater))
}

impl Dissection {
    /// How far from the first node the last search found a node, if it did.
    fn level_of(&self, node: u32) -> Option<u32> {
        let found = self.found.get(node as usize)?;
        if found.search == self.search {
            Some(found.level)
        } else {
            None
        }
    }

    /// Notes a node of the newest part that the search hasn't found before, and tells whether it is one.
    fn note(&mut self, node: u32, level: u32) -> bool {
        if entry_of(&self.parts, node) != self.part || self.level_of(node).is_some() {
            return false;
        }
        if let Some(found) = self.found.get_mut(node as usize) {
            *found = Found {
                search: self.search,
                level,
            };
        }
        true
    }

    fn note_neighbours(
        &mut self,
        lists: &[Vec<u32>],
        node: u32,
        order: &mut Vec<u32>,
    ) -> Result<(), OutOfMemory> {
        let level = self.level_of(node).unwrap_or(0).saturating_add(1);
        for other in neighbours_of(lists, node) {
            if self.note(*other, level) {
                order.push(*other)?;
            }
        }
        Ok(())
    }

    /// Appends the nodes of the newest part that a node reaches, the nearest ones first, if the search hasn't found it.
    fn visit(
        &mut self,
        lists: &[Vec<u32>],
        first: u32,
        level: u32,
        order: &mut Vec<u32>,
    ) -> Result<(), OutOfMemory> {
        if !self.note(first, level) {
            return Ok(());
        }
        let start = order.len();
        order.push(first)?;
        for place in start..usize::MAX {
            let Some(node) = order.get(place).copied() else {
                break;
            };
            self.note_neighbours(lists, node, order)?;
        }
        Ok(())
    }

    /// The nodes of the newest part in order of their levels: those that the first one reaches, then those that another
    /// one reaches, and so on.
    fn search_from(
        &mut self,
        lists: &[Vec<u32>],
        first: u32,
        nodes: &[u32],
    ) -> Result<Vec<u32>, OutOfMemory> {
        self.search = self.search.saturating_add(1);
        let mut order = Vec::with_capacity(self.alloc, nodes.len())?;
        self.visit(lists, first, 0, &mut order)?;
        for node in nodes {
            let level = self.last_level(&order).saturating_add(1);
            self.visit(lists, *node, level, &mut order)?;
        }
        Ok(order)
    }

    /// The level of the last node.
    fn last_level(&self, order: &[u32]) -> u32 {
        let last = order.last().copied().unwrap_or(0);
        self.level_of(last).unwrap_or(0)
    }

    /// The level that costs least to cut, else that of the middle node.
    fn level_to_cut(&self, order: &[u32]) -> u32 {
        let size = order.len();
        let middle = order.get(size / 2).copied().unwrap_or(0);
        let mut best = self.level_of(middle).unwrap_or(0);
        let mut least = f64::MAX;
        let (mut start, mut level) = (0usize, 0u32);
        for (place, node) in order.iter().enumerate() {
            let here = self.level_of(*node).unwrap_or(level);
            if here != level {
                let cost = cost_of_cut(start, place.saturating_sub(start), size);
                if cost < least {
                    best = level;
                    least = cost;
                }
                start = place;
                level = here;
            }
        }
        best
    }

    /// Whether a node has a neighbour beyond a level of the last search.
    fn leads_beyond(&self, lists: &[Vec<u32>], node: u32, level: u32) -> bool {
        for other in neighbours_of(lists, node) {
            if self.level_of(*other).map_or(false, |there| there > level) {
                return true;
            }
        }
        false
    }

    /// Puts the nodes of a level that lead beyond it into a cut, and leaves the others in two parts.
    fn cut_at(
        &mut self,
        lists: &[Vec<u32>],
        order: &[u32],
        level: u32,
        depth: u32,
    ) -> Result<(), OutOfMemory> {
        let mut near = Vec::new(self.alloc);
        let mut beyond = Vec::new(self.alloc);
        for node in order {
            let here = self.level_of(*node).unwrap_or(0);
            if here > level {
                beyond.push(*node)?;
            } else if here == level && self.leads_beyond(lists, *node, level) {
                put_entry(&mut self.cuts, *node, depth);
            } else {
                near.push(*node)?;
            }
        }
        self.waiting.push(Part { nodes: near, depth })?;
        self.waiting.push(Part {
            nodes: beyond,
            depth,
        })?;
        Ok(())
    }

    /// Cuts a part in two, if it isn't small or deep.
    fn cut(&mut self, lists: &[Vec<u32>], part: Part) -> Result<(), OutOfMemory> {
        if part.nodes.len() <= SMALL || part.depth >= DEEPEST {
            return Ok(());
        }
        self.part = self.part.saturating_add(1);
        for node in &part.nodes {
            put_entry(&mut self.parts, *node, self.part);
        }
        let first = part.nodes.first().copied().unwrap_or(0);
        let order = self.search_from(lists, first, &part.nodes)?;
        let last = order.last().copied().unwrap_or(first);
        let order = self.search_from(lists, last, &part.nodes)?;
        let level = self.level_to_cut(&order);
        if level == 0 || level == self.last_level(&order) {
            return Ok(());
        }
        self.cut_at(lists, &order, level, part.depth.saturating_add(1))
    }
}

/// For each node the stage in which it is eliminated, from 0 on, by the lists of neighbours.
pub(crate) fn stages_of(
    alloc: Global,
    nodes: u32,
    lists: &[Vec<u32>],
) -> Result<Vec<u32>, OutOfMemory> {
    let size = nodes as usize;
    let mut all = Vec::with_capacity(alloc, size)?;
    for node in 0..nodes {
        all.push(node)?;
    }
    let mut dissection = Dissection {
        alloc,
        waiting: Vec::new(alloc),
        parts: vec![in alloc; 0u32; size]?,
        part: 0,
        found: vec![in alloc; Found {
            search: 0,
            level: 0
        }; size]?,
        search: 0,
        cuts: vec![in alloc; 0u32; size]?,
    };
    dissection.waiting.push(Part {
        nodes: all,
        depth: 0,
    })?;
    for _ in 0..u64::MAX {
        let Some(part) = dissection.waiting.pop() else {
            break;
        };
        dissection.cut(lists, part)?;
    }
    Ok(in_stages(dissection.cuts))
}

/// The stages of nodes in cuts: the deepest cut is the first one.
fn in_stages(mut cuts: Vec<u32>) -> Vec<u32> {
    let mut deepest = 0;
    for cut in &cuts {
        deepest = deepest.max(*cut);
    }
    for cut in cuts.iter_mut() {
        if *cut > 0 {
            *cut = deepest.saturating_sub(*cut).saturating_add(1);
        }
    }
    cuts
}
