//! Swaps that bring the nodes' numbers into the order of elimination, and back.
ghost use Rattle.std.specs.Prelude.{◌≡◌, ◌<◌, length, IfOk};
ghost use Rattle.std.specs.List.{All};

use crate::elimination_order::Eliminated;
use std::alloc::{AllocError as OutOfMemory, Global};

/// The numbers below a count, in order.
fn numbers_below(alloc: Global, count: u32) -> Result<Vec<u32>, OutOfMemory> {
    let mut numbers = Vec::with_capacity(alloc, count as usize)?;
    for number in 0..count {
        numbers.push(number)?;
    }
    Ok(numbers)
}

/// Where the nodes' numbers stand while they are being swapped.
#[derive(Drop)]
struct SwappedNumbers {
    /// For each node, the place where its number stands.
    places: Vec<u32>,
    /// For each place, the node whose number stands there.
    nodes: Vec<u32>,
}

impl SwappedNumbers {
    /// The place of a node's number, which is swapped with the number at another place.
    fn swap_to(&mut self, place: u32, node: u32) -> u32 {
        let from = self.places.get(node as usize).copied().unwrap_or(place);
        let moved = self.nodes.get(place as usize).copied().unwrap_or(node);
        if let Some(entry) = self.places.get_mut(moved as usize) {
            *entry = from;
        }
        if let Some(entry) = self.nodes.get_mut(from as usize) {
            *entry = moved;
        }
        from
    }
}

/// For each place in the order, the place to swap it with.
pub(crate) fn make_swaps(
    alloc: Global,
    size: u32,
    order: &[Eliminated],
) -> Result<Vec<u32>, OutOfMemory>
    ensures { IfOk result (λ swaps. All (λ place. place < size) swaps.items) }
{
    let mut swapped = SwappedNumbers {
        places: numbers_below(alloc, size)?,
        nodes: numbers_below(alloc, size)?,
    };
    let mut swaps = Vec::with_capacity(alloc, size as usize)?;
    for place in 0..size {
        let from = match order.get(place as usize) {
            Some(eliminated) => swapped.swap_to(place, eliminated.node),
            None => place,
        };
        swaps.push(if from < size { from } else { place })?;
    }
    Ok(swaps)
}

/// Brings the nodes' numbers into the order of elimination.
pub(crate) fn reorder<T>(b: &mut [T], swaps: &[u32])
    requires { All (λ place. place < length b.old) swaps.now }
    ensures { length b.new ≡ length b.old }
{
    for (place, other) in swaps.iter().enumerate() {
        if place < b.len() {
            b.swap(place, *other as usize);
        }
    }
}

/// Brings them back.
pub(crate) fn restore<T>(b: &mut [T], swaps: &[u32])
    requires { All (λ place. place < length b.old) swaps.now }
    ensures { length b.new ≡ length b.old }
{
    for place in (0..swaps.len()).rev() {
        if place < b.len() {
            b.swap(place, swaps[place] as usize);
        }
    }
}
