//! What a person is told of a search for a witness: how far it is.

use hyd_io::{Desk, Pace};
use hyd_sim::Sim;
use std::fmt::{self, Display, Formatter};

/// How often it is shown how far a search is, in milliseconds.
const SHOWN: u64 = 200;

/// When it was shown last how far a search is.
#[derive(Clone, Copy)]
pub(crate) struct Signs {
    shown: Pace,
}

/// How far a search is: `31 periods`.
#[derive(Clone, Copy)]
struct Progress {
    periods: u32,
}

impl Display for Progress {
    fn fmt<W: fmt::Write>(&self, f: &mut Formatter<W>) -> fmt::Result {
        let periods = self.periods;
        write!(f, "{periods} periods")
    }
}

impl Signs {
    /// The signs of a search that begins now.
    pub(crate) fn new<D: Desk>(desk: &D) -> Signs {
        Signs {
            shown: Pace::new(SHOWN, desk.milliseconds()),
        }
    }

    /// Shows how far a search is, where that is due.
    pub(crate) fn show<D: Desk>(&mut self, sim: &Sim, desk: &D) {
        if self.shown.is_due(desk.milliseconds()) {
            desk.show(&Progress {
                periods: sim.number(),
            });
        }
    }
}
