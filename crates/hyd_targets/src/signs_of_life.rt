//! What shows a person how far closures are.

use hyd_io::{Desk, Pace};
use std::fmt::{self, Display, Formatter};

/// How often it is shown, in milliseconds.
const SHOWN: u64 = 200;

/// How many pipes there are, and when it was shown last how many were shut.
#[derive(Clone, Copy)]
pub struct Signs {
    shown: Pace,
    pipes: u32,
}

/// How far closures are: `17 of 460 pipes`.
#[derive(Clone, Copy)]
struct Progress {
    shut: u32,
    pipes: u32,
}

impl Display for Progress {
    fn fmt<W: fmt::Write>(&self, f: &mut Formatter<W>) -> fmt::Result {
        write!(f, "{} of {} pipes", self.shut, self.pipes)
    }
}

impl Signs {
    /// The signs of closures of so many pipes, which begin now.
    pub fn new<D: Desk>(pipes: u32, desk: &D) -> Signs {
        Signs {
            shown: Pace::new(SHOWN, desk.milliseconds()),
            pipes,
        }
    }

    /// Shows a person how many pipes were shut, where that is due. Nothing is put out.
    pub fn show<D: Desk>(&mut self, shut: u32, desk: &D) {
        if self.shown.is_due(desk.milliseconds()) {
            desk.show(&Progress {
                shut,
                pipes: self.pipes,
            });
        }
    }
}
