//! The vectors of a network without tanks, and whether the first step of a run finds them.

ghost use Rattle.std.specs.Prelude.{◌≡◌, None, length};

use crate::runs_at_start::{Trial, passes};
use hyd_cert::Record;
use hyd_finders::Finder;
use hyd_period_network::Net;
use hyd_sim::{Settings, Sim, Step};
use hyd_spec_certificates::{Problem, Side};
use std::alloc::Global;

/// Heads for UPPER and for LOWER, by junction. As a finder they are offered for certificates and for starts.
#[derive(Clone, Copy, Drop)]
pub(crate) struct Vectors {
    pub(crate) upper: &'static [i64],
    pub(crate) lower: &'static [i64],
}

impl Vectors {
    /// The heads for a side.
    fn of(&self, side: Side) -> &'static [i64] {
        match side {
            Side::Upper => self.upper,
            Side::Lower => self.lower,
        }
    }
}

/// Puts heads as far as there are some, and leaves what is behind them as it is.
fn put(heads: &[i64], out: &mut [i64])
    ensures { length out.new ≡ length out.old }
{
    for place in 0..out.len() {
        if let Some(head) = heads.get(place) {
            out[place] = *head;
        }
    }
}

impl Finder for Vectors {
    ghost told = { λ v. None };

    fn propose(&mut self, _net: &Net, _problem: Problem, side: Side, out: &mut [i64]) {
        put(self.of(side), out);
    }

    /// Offers them as starts too, and leaves the order as it is.
    fn start(
        &mut self,
        _net: &Net,
        _problem: Problem,
        side: Side,
        out: &mut [i64],
        _order: &mut [u32],
    ) -> bool {
        put(self.of(side), out);
        true
    }
}

/// Whether a record holds these vectors.
fn holds(row: &Record, vectors: Vectors) -> bool {
    row.vector(Problem::Main, Side::Upper) == vectors.upper
        && row.vector(Problem::Main, Side::Lower) == vectors.lower
}

/// A first step under a finder, which is to find these vectors.
#[derive(Clone, Copy, Drop)]
struct FirstStep<F> {
    finder: F,
    wanted: Vectors,
}

impl<F: Finder> Trial for FirstStep<F> {
    fn passes(&mut self, sim: &mut Sim) -> bool {
        match sim.step(&mut self.finder) {
            Step::Period => holds(sim.row(), self.wanted),
            _ => false,
        }
    }
}

/// Whether the first step of a run of a text's network finds these vectors, with 200 rounds and a width of 0.01 m.
pub(crate) fn finds<F: Finder + Drop>(
    alloc: Global,
    text: &str,
    tight: bool,
    finder: F,
    wanted: Vectors,
) -> bool {
    let settings = Settings {
        rounds: 200,
        width: 100_000_000_000,
        tight,
    };
    let mut step = FirstStep { finder, wanted };
    passes(alloc, text, settings, &mut step)
}
