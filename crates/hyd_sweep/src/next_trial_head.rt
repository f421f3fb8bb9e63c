//! Where the next trial of a head is made. Nothing rests on the choice but the number of trials.
#![tactic(auto)]

ghost use Rattle.std.specs.Prelude.{◌<◌, ◌≤◌};

// So many trials suffice, since a way through the box takes 61 halvings.
const TRIALS: u32 = 64;

// The second trial is so many ticks out: most raises near the tight vector are short.
const SHORT: u64 = 16;

/// What trials told: how much was lacking at the last head that didn't pass, and how much was over at the last one that
/// did, in flow ticks; 0 where there was none.
#[derive(Clone, Copy, Drop)]
pub(crate) struct Aim {
    trials: u32,
    lacking: u128,
    over: u128,
    passed: bool,
}

// A part of a way in the proportion of two amounts, at most all of it.
fn portion(way: u64, part: u128, rest: u128) -> u64
    ensures { result ≤ way }
{
    let unit = part.max(rest) / (1 << 62) + 1;
    let part = part / unit;
    let whole = part + rest / unit;
    (u128::from(way) * part / whole.max(1)).min(u128::from(way)) as u64
}

impl Aim {
    /// Before the first trial.
    pub(crate) fn new() -> Aim {
        Aim {
            trials: 0,
            lacking: 0,
            over: 0,
            passed: false,
        }
    }

    // Whether halving would still do after one more trial that tells nothing.
    fn may_guess(&self, low: u64, high: u64) -> bool
        requires { low < high }
    {
        let halvings = 64 - (high - low).leading_zeros();
        self.lacking > 0 && self.over > 0 && halvings < TRIALS.saturating_sub(self.trials)
    }

    // The ticks of the next trial: none, then a few, then where a straight line between what was told passes, else
    // half of the way.
    fn guess(&self, low: u64, high: u64) -> u64
        requires { low < high }
    {
        if self.trials == 0 {
            return low;
        }
        if self.trials == 1 {
            return SHORT;
        }
        if self.may_guess(low, high) {
            return low + portion(high - low, self.lacking, self.over);
        }
        low + (high - low) / 2
    }

    /// The ticks of the next trial, from `low` on and below `high`.
    pub(crate) fn next(&self, low: u64, high: u64) -> u64
        requires { low < high }
        ensures from { low ≤ result }
        ensures below { result < high }
    {
        let guess = self.guess(low, high);
        if guess < low {
            return low;
        }
        if guess < high {
            return guess;
        }
        high - 1
    }

    /// After a trial with this surplus. Where two trials in a row fell on one side, the amount of the other side counts
    /// half, so that it is come nearer (Illinois method, Dowell and Jarratt 1971).
    pub(crate) fn after(&self, surplus: i128) -> Aim {
        let amount = surplus.unsigned_abs();
        let trials = self.trials.saturating_add(1);
        if surplus >= 0 {
            let lacking = if self.passed {
                self.lacking / 2
            } else {
                self.lacking
            };
            return Aim {
                trials,
                lacking,
                over: amount,
                passed: true,
            };
        }
        let over = if self.passed {
            self.over
        } else {
            self.over / 2
        };
        Aim {
            trials,
            lacking: amount,
            over,
            passed: false,
        }
    }
}
