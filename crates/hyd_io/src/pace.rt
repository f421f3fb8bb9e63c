//! How often a long work shows itself.

ghost use Rattle.std.specs.Prelude.{◌≡◌, ◌-◌, ◌<◌, ◌≤◌, true, false};

/// A pace: something is due when so much time has gone by since it was due last.
#[derive(Clone, Copy)]
pub struct Pace {
    milliseconds: u64,
    last: u64,
}

impl Pace {
    /// A pace of so many milliseconds, from a moment on.
    pub fn new(milliseconds: u64, now: u64) -> Pace
        ensures { result ≡ record { milliseconds = milliseconds; last = now } }
    {
        Pace {
            milliseconds,
            last: now,
        }
    }

    /// Whether it is due at a moment; the next time is counted from then. A pace of 0 is always due, and a moment before
    /// the last one counts as that.
    pub fn is_due(&mut self, now: u64) -> bool
        ensures pace { self.new.milliseconds ≡ self.old.milliseconds }
        ensures due { result ≡ true → self.old.milliseconds ≤ now - self.old.last }
        ensures not_yet { result ≡ false → now - self.old.last < self.old.milliseconds }
        ensures from_now { result ≡ true → self.new.last ≡ now }
        ensures from_before { result ≡ false → self.new.last ≡ self.old.last }
    {
        if now.saturating_sub(self.last) < self.milliseconds {
            return false;
        }
        self.last = now;
        true
    }
}
