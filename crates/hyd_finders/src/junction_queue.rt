//! Junctions that wait for their turn, each once.
#![tactic(auto)]

use hyd_period_network::Net;
use std::alloc::{AllocError as OutOfMemory, Global};

/// Junctions that wait, the first one that was put first. Room for all is taken when it is opened.
#[derive(Drop)]
pub(crate) struct JunctionQueue {
    /// A ring of places.
    places: Vec<u32>,
    /// Whether each junction waits.
    waits: Vec<bool>,
    first: usize,
    count: usize,
}

impl JunctionQueue {
    /// Room for a net's junctions, none of which waits.
    pub(crate) fn open(alloc: Global, net: &Net) -> Result<JunctionQueue, OutOfMemory> {
        let junctions = net.junctions() as usize;
        Ok(JunctionQueue {
            places: vec![in alloc; 0u32; junctions]?,
            waits: vec![in alloc; false; junctions]?,
            first: 0,
            count: 0,
        })
    }

    // Whether it notes that a junction waits which didn't.
    fn begins_to_wait(&mut self, junction: u32) -> bool {
        let Some(waits) = self.waits.get_mut(junction as usize) else {
            return false;
        };
        let begins = !*waits;
        *waits = true;
        begins
    }

    // The place in the ring that lies so many past another.
    fn place(&self, from: usize, past: usize) -> usize {
        let place = from.saturating_add(past);
        let size = self.places.len();
        if place < size { place } else { place - size }
    }

    /// Puts a junction, if there is one of this number and it doesn't wait yet.
    pub(crate) fn put(&mut self, junction: u32) {
        if !self.begins_to_wait(junction) {
            return;
        }
        let place = self.place(self.first, self.count);
        if let Some(entry) = self.places.get_mut(place) {
            *entry = junction;
        }
        self.count = self.count.saturating_add(1);
    }

    /// Takes the junction that waits longest.
    pub(crate) fn take(&mut self) -> Option<u32> {
        if self.count == 0 {
            return None;
        }
        let junction = self.places.get(self.first).copied()?;
        if let Some(waits) = self.waits.get_mut(junction as usize) {
            *waits = false;
        }
        self.first = self.place(self.first, 1);
        self.count -= 1;
        Some(junction)
    }

    /// Takes all.
    pub(crate) fn clear(&mut self) {
        for waits in self.waits.iter_mut() {
            *waits = false;
        }
        self.first = 0;
        self.count = 0;
    }
}
