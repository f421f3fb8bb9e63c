//! What a person is told of a run beside its report: how far it is, and of pressures below 0.

ghost use Rattle.std.specs.Prelude.{◌≡◌, [], None, IsTrue};
ghost use Rattle.hyd_io.specs.Output.{OnCert};
ghost use Rattle.hyd_io.specs.TextPutIn.{Puts};

use crate::first_lines_and_emptied_pens::empty;
use crate::low_pressures::{Low, LowPressures};
use hyd_io::{Desk, OutFault, Pace, Pen};
use hyd_sim::Sim;
use std::fmt::{self, Display, Formatter};

/// How often it is shown how far a run is, in milliseconds.
const SHOWN: u64 = 200;

/// How often what the report's pen holds is put out, in milliseconds.
const PUT_OUT: u64 = 1000;

/// How far a run is, when it was shown last, when the report's pen was emptied last, and which pressures were below 0.
#[derive(Clone, Copy)]
pub struct Signs {
    shown: Pace,
    put_out: Pace,
    low: Low,
}

/// How far a run is: `12:00 of 168:00, 31 periods`.
#[derive(Clone, Copy)]
struct Progress {
    /// Both in seconds.
    time: u32,
    duration: u32,
    periods: u32,
}

// Hours and minutes.
#[derive(Clone, Copy)]
struct HoursAndMinutes(u32);

impl Display for HoursAndMinutes {
    fn fmt<W: fmt::Write>(&self, f: &mut Formatter<W>) -> fmt::Result {
        let minutes = self.0 / 60;
        write!(f, "{}:{:02}", minutes / 60, minutes % 60)
    }
}

impl Display for Progress {
    fn fmt<W: fmt::Write>(&self, f: &mut Formatter<W>) -> fmt::Result {
        let time = HoursAndMinutes(self.time);
        let duration = HoursAndMinutes(self.duration);
        write!(f, "{time} of {duration}, {} periods", self.periods)
    }
}

impl Signs {
    /// The signs of a run that begins now.
    pub fn new<D: Desk>(desk: &D) -> Signs {
        let now = desk.milliseconds();
        Signs {
            shown: Pace::new(SHOWN, now),
            put_out: Pace::new(PUT_OUT, now),
            low: Low::none(),
        }
    }

    /// Counts the pressures of the period that was done which may be below 0, and shows how far a run is, where that is
    /// due.
    pub fn show<D: Desk>(&mut self, sim: &Sim, desk: &D) {
        self.low.count_in(sim.project(), sim.row());
        if self.shown.is_due(desk.milliseconds()) {
            desk.show(&Progress {
                time: sim.time(),
                duration: sim.project().times.duration,
                periods: sim.number(),
            });
        }
    }

    /// Says of a run that is done that pressures may be below 0, where some may.
    pub fn say_low<D: Desk>(&self, sim: &Sim, desk: &D) {
        let low = self.low;
        if low.is_some() {
            desk.say(&LowPressures {
                project: sim.project(),
                low,
            });
        }
    }

    /// Puts out all that the report's pen holds, where that is due.
    pub fn empty_when_due<D: Desk>(&mut self, pen: &mut Pen, desk: &mut D) -> Result<(), OutFault>
        requires ready { OnCert pen.old.to (IsTrue (D.ready desk.old)) }
        requires unbroken { pen.old.fault ≡ None }
        ensures { Puts D.files D.rest D.written D.printed D.target D.ready D.counts D.openings
            [] result pen.old pen.new desk.old desk.new }
    {
        if self.put_out.is_due(desk.milliseconds()) {
            return empty(pen, desk);
        }
        Ok(())
    }
}
