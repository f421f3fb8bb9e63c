//! Pressures of a run that may be below 0.

ghost use Rattle.std.specs.Prelude.{◌≡◌, length};
ghost use Rattle.hyd_net.specs.ControlsAndRules.{node_count};

use hyd_cert::Record;
use hyd_net::{Junction, Project};
use hyd_spec_certificates::{Problem, Side};
use std::fmt::{self, Display, Formatter};

/// How many pressures of a run may be below 0, one for each junction and period, and the first of them.
#[derive(Clone, Copy)]
pub struct Low {
    /// How many they are.
    pub count: u64,
    /// The junction of the first one.
    pub junction: u32,
    /// When the first one's period begins, in seconds.
    pub time: u32,
}

/// What is said of them.
#[derive(Clone, Copy)]
pub struct LowPressures<'a> {
    /// The network.
    pub project: &'a Project,
    /// The pressures.
    pub low: Low,
    pub ghost nodes: { length project.now.node_ids ≡ node_count project.now },
}

// A time in seconds as h:mm:ss.
#[derive(Clone, Copy)]
struct Clock(u32);

// The bytes of an ID, which are printing ASCII.
#[derive(Clone, Copy)]
struct Id<'a>(&'a [u8]);

// Whether the pressure at a junction may be below 0, where its head is at least this.
fn is_low(junction: &Junction, head: Option<&i64>) -> bool {
    match head {
        Some(head) => *head < junction.elevation,
        None => false,
    }
}

impl Low {
    /// None.
    pub(crate) fn none() -> Low {
        Low {
            count: 0,
            junction: 0,
            time: 0,
        }
    }

    /// Whether there are some.
    pub(crate) fn is_some(self) -> bool {
        self.count > 0
    }

    // Counts the pressure at a junction in a period that begins at a time.
    fn add(&mut self, junction: u32, time: u32) {
        if self.count == 0 {
            self.junction = junction;
            self.time = time;
        }
        self.count = self.count.saturating_add(1);
    }

    /// Counts those of a period.
    pub(crate) fn count_in(&mut self, project: &Project, row: &Record) {
        let heads = row.vector(Problem::Main, Side::Lower);
        for (number, junction) in (0..u32::MAX).zip(project.junctions.as_slice()) {
            if is_low(junction, heads.get(number as usize)) {
                self.add(number, row.time);
            }
        }
    }
}

// The ID of a junction; empty where there is no such junction.
fn junction_id(project: &Project, junction: u32) -> &[u8]
    requires { length project.now.node_ids ≡ node_count project.now }
{
    if (junction as usize) < project.junctions.len() {
        return project.node_ids.id(junction);
    }
    b""
}

impl Display for Clock {
    fn fmt<W: fmt::Write>(&self, f: &mut Formatter<W>) -> fmt::Result {
        let minutes = self.0 / 60;
        write!(f, "{}:{:02}:{:02}", minutes / 60, minutes % 60, self.0 % 60)
    }
}

impl Display for Id<'_> {
    fn fmt<W: fmt::Write>(&self, f: &mut Formatter<W>) -> fmt::Result {
        for byte in self.0 {
            f.write_char(char::from(*byte))?;
        }
        Ok(())
    }
}

impl Display for LowPressures<'_> {
    fn fmt<W: fmt::Write>(&self, f: &mut Formatter<W>) -> fmt::Result {
        let id = Id(junction_id(self.project, self.low.junction));
        let Low { count, time, .. } = self.low;
        let time = Clock(time);
        write!(
            f,
            "pressures may be below 0: the first at junction {id} at {time}, of {count} in all, each of one junction in one period. Fixed demands are drawn there all the same: look at elevations, demands and pipes"
        )
    }
}
