//! Heads near the balance of earlier periods: where demands follow a pattern, those of a day before are near today's.
#![tactic(auto)]

ghost use Rattle.std.specs.Prelude.{◌≡◌, length};

use crate::number_lists::copy;
use std::alloc::{AllocError as OutOfMemory, Global};

/// So many are kept: a day of hours.
const KEPT: u32 = 24;

/// Totals of demands that differ by no greater part are taken for one.
const ALIKE: f64 = 1e-6;

/// The heads of the junctions in one period, and the total of its demands in flow ticks; none so far where there is no
/// total. Only the room of the heads is taken then.
#[derive(Drop)]
struct Middle {
    total: Option<f64>,
    heads: Vec<i64>,
}

/// The middles of the last periods with different totals, opened once.
#[derive(Drop)]
pub(crate) struct EarlierMiddles {
    middles: Vec<Middle>,
    /// The place of the oldest one.
    oldest: usize,
}

impl Middle {
    // Keeps heads for a total, in the room that was taken.
    fn keep(&mut self, total: f64, heads: &[i64]) {
        self.heads.clear();
        self.total = match self.heads.extend_from_slice(heads) {
            Ok(()) => Some(total),
            Err(_) => None,
        };
    }
}

// How far a total is from another, as a part of it.
fn distance(middle: &Middle, total: f64) -> f64 {
    match middle.total {
        Some(other) => (other - total).abs() / (total.abs() + 1.0),
        None => f64::MAX,
    }
}

impl EarlierMiddles {
    /// Room for a net's junctions.
    pub(crate) fn open(alloc: Global, junctions: u32) -> Result<EarlierMiddles, OutOfMemory> {
        let mut middles = Vec::new(alloc);
        for _ in 0..KEPT {
            middles.push(Middle {
                total: None,
                heads: Vec::with_capacity(alloc, junctions as usize)?,
            })?;
        }
        Ok(EarlierMiddles { middles, oldest: 0 })
    }

    // The place of the one whose total is nearest.
    fn nearest(&self, total: f64) -> usize {
        let mut best = 0;
        let mut least = f64::MAX;
        for (place, middle) in self.middles.iter().enumerate() {
            let distance = distance(middle, total);
            if distance < least {
                best = place;
                least = distance;
            }
        }
        best
    }

    /// Puts the heads of the period whose total of demands is nearest, and tells whether there is one.
    pub(crate) fn put_nearest(&self, total: f64, heads: &mut [i64]) -> bool
        ensures { length heads.new ≡ length heads.old }
    {
        match self.middles.get(self.nearest(total)) {
            Some(middle) if middle.total.is_some() => {
                copy(&middle.heads, heads);
                true
            }
            _ => false,
        }
    }

    // The place for a total: that of one that is alike, or else the oldest one's.
    fn place_for(&mut self, total: f64) -> usize {
        let nearest = self.nearest(total);
        if let Some(middle) = self.middles.get(nearest) {
            if distance(middle, total) <= ALIKE {
                return nearest;
            }
        }
        let place = self.oldest;
        self.oldest = (place.saturating_add(1)) % KEPT as usize;
        place
    }

    /// Keeps heads for a total of demands.
    pub(crate) fn keep(&mut self, total: f64, heads: &[i64]) {
        let place = self.place_for(total);
        if let Some(middle) = self.middles.get_mut(place) {
            middle.keep(total, heads);
        }
    }
}
