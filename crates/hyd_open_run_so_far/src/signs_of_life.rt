//! What a person is told of a run with a slack beside its report: how far it is, and of pressures below 0.

ghost use Rattle.std.specs.Prelude.{◌≡◌, [], None, IsTrue};
ghost use Rattle.hyd_io.specs.Output.{OnCert};
ghost use Rattle.hyd_io.specs.TextPutIn.{Puts};
ghost use Rattle.hyd_net.specs.Sound.{IsSound};

use hyd_cert::Record;
use hyd_io::{Desk, OutFault, Pace, Pen};
use hyd_net::{Junction, Project};
use hyd_run::{Low, LowPressures, Signs};
use hyd_spec_certificates::{Problem, Side};
use std::fmt::{self, Display, Formatter};

/// How often it is shown how far a run is, in milliseconds.
const SHOWN: u64 = 200;

/// How far a run is, when it was shown last, when the report's pen was emptied last, and which pressures were below 0.
#[derive(Clone, Copy)]
pub struct OpenSigns {
    shown: Pace,
    pens: Signs,
    low: Low,
}

/// How far a run is: `12:00 of 168:00, 31 periods`.
#[derive(Clone, Copy)]
struct Progress {
    /// Both in seconds.
    time: u32,
    duration: u32,
    periods: u32,
}

// Hours and minutes.
#[derive(Clone, Copy)]
struct HoursAndMinutes(u32);

impl Display for HoursAndMinutes {
    fn fmt<W: fmt::Write>(&self, f: &mut Formatter<W>) -> fmt::Result {
        let minutes = self.0 / 60;
        write!(f, "{}:{:02}", minutes / 60, minutes % 60)
    }
}

impl Display for Progress {
    fn fmt<W: fmt::Write>(&self, f: &mut Formatter<W>) -> fmt::Result {
        let time = HoursAndMinutes(self.time);
        let duration = HoursAndMinutes(self.duration);
        write!(f, "{time} of {duration}, {} periods", self.periods)
    }
}

// Whether the pressure at a junction may be below 0, where its head is at least this.
fn is_low(junction: &Junction, head: Option<&i64>) -> bool {
    match head {
        Some(head) => *head < junction.elevation,
        None => false,
    }
}

// Counts the pressures of a period that may be below 0 among those of a run.
fn count_low(low: &mut Low, project: &Project, row: &Record) {
    let heads = row.vector(Problem::Main, Side::Lower);
    for (number, junction) in (0..u32::MAX).zip(project.junctions.as_slice()) {
        if is_low(junction, heads.get(number as usize)) {
            if low.count == 0 {
                low.junction = number;
                low.time = row.time;
            }
            low.count = low.count.saturating_add(1);
        }
    }
}

impl OpenSigns {
    /// The signs of a run that begins now.
    pub fn new<D: Desk>(desk: &D) -> OpenSigns {
        OpenSigns {
            shown: Pace::new(SHOWN, desk.milliseconds()),
            pens: Signs::new(desk),
            low: Low {
                count: 0,
                junction: 0,
                time: 0,
            },
        }
    }

    /// Counts the pressures of the period that was done which may be below 0, and shows how far a run is that has done
    /// so many periods and begins the next one at this time, in seconds, where that is due.
    pub fn show<D: Desk>(
        &mut self,
        project: &Project,
        row: &Record,
        time: u32,
        periods: u32,
        desk: &D,
    ) {
        count_low(&mut self.low, project, row);
        if self.shown.is_due(desk.milliseconds()) {
            desk.show(&Progress {
                time,
                duration: project.times.duration,
                periods,
            });
        }
    }

    /// Says of a run that is done that pressures may be below 0, where some may.
    pub fn say_low<D: Desk>(&self, project: &Project, desk: &D)
        requires { IsSound project.now }
    {
        let low = self.low;
        if low.count > 0 {
            desk.say(&LowPressures { project, low });
        }
    }

    /// Puts out all that the report's pen holds, where that is due.
    pub fn empty_when_due<D: Desk>(&mut self, pen: &mut Pen, desk: &mut D) -> Result<(), OutFault>
        requires ready { OnCert pen.old.to (IsTrue (D.ready desk.old)) }
        requires unbroken { pen.old.fault ≡ None }
        ensures { Puts D.files D.rest D.written D.printed D.target D.ready D.counts D.openings
            [] result pen.old pen.new desk.old desk.new }
    {
        self.pens.empty_when_due(pen, desk)
    }
}
