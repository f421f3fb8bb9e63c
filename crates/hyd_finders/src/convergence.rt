//! When heads are near enough to their balance.
#![tactic(auto)]

/// A ratio of misses to weights at which there is nothing left to do.
const SMALL: f64 = 1.0;

/// A ratio below which standing still is taken for what whole ticks allow. Above it the ratio rises in the first steps,
/// and stands still for a dozen of them in hard networks.
const NEAR: f64 = 64.0;

/// How many steps may pass without the ratio being halved.
const PATIENCE: u32 = 1;

/// How near the heads came so far.
#[derive(Clone, Copy, Drop)]
pub(crate) struct Progress {
    best: f64,
    mark: f64,
    idle: u32,
}

impl Progress {
    /// None so far, where the first ratio is this one.
    pub(crate) fn from(ratio: f64) -> Progress {
        Progress {
            best: ratio,
            mark: ratio,
            idle: 0,
        }
    }

    /// Whether a ratio is the least so far.
    pub(crate) fn is_best(&mut self, ratio: f64) -> bool {
        if ratio > self.best {
            return false;
        }
        self.best = ratio;
        true
    }

    /// Counts from the least ratio so far.
    pub(crate) fn go_on(&mut self) {
        self.mark = self.best;
    }

    /// Whether further steps would gain nothing.
    pub(crate) fn is_over(&mut self, ratio: f64) -> bool {
        if ratio * 2.0 <= self.mark {
            self.mark = ratio;
            self.idle = 0;
        } else {
            self.idle = self.idle.saturating_add(1);
        }
        ratio < SMALL || (ratio < NEAR && self.idle >= PATIENCE)
    }
}
