//! What is said of a run that stopped.

ghost use Rattle.hyd_net.specs.Sound.{IsSound};

use hyd_io::Desk;
use hyd_net::Project;
use hyd_open_run::OpenSim;
use hyd_run::RunEnd;
use hyd_sentences::{DuePeriod, Stopped};
use hyd_spec_certificates::StopCause;

// Says what a stop of a run means, and what to try.
fn say_stop<D: Desk>(project: &Project, time: u32, cause: StopCause, due: DuePeriod<'_>, desk: &D)
    requires { IsSound project.now }
{
    desk.say(&Stopped {
        project,
        time,
        cause,
        due,
    });
}

// What is known of the period in which a run stopped.
fn due_period(sim: &OpenSim) -> DuePeriod<'_> {
    let facts = sim.facts();
    DuePeriod {
        levels: facts.levels.as_slice(),
        inflows: facts.inflows.as_slice(),
        links: facts.links.as_slice(),
    }
}

/// Says of a run that stopped what that means, and what to try. The time is the first second of its period.
pub(crate) fn say_end<D: Desk>(sim: &OpenSim, end: RunEnd, desk: &D) {
    if let RunEnd::Stopped(cause) = end {
        say_stop(sim.project(), sim.time(), cause, due_period(sim), desk);
    }
}
